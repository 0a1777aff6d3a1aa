ghost use Rattle.std.specs.Prelude.{◌≡◌, ◌==◌, ◌∷◌, ◌++◌, [], false, IfOk, OnErr, OnOk, count_by, length};
ghost use Rattle.std.specs.List.{list_any};
ghost use Rattle.domain_laws.specs.Made.{values_of};
ghost use Rattle.abstract_state.specs.Widening.{is_pair, is_rival, with_pair, with_pairs};

use crate::seen::Holder;
use bit_words::NoMemory;
use domain_laws::Domain;
use indexmap::{IndexMap, IndexSet};
use std::alloc::Global;
use std::marker::Model;

// Pairs of a holder and a value, each once, in the order in which they came, which are found and counted by hashes.
#[derive(Drop)]
pub(crate) struct PairIndex<D: Domain> {
    pairs: IndexSet<(Holder, D)>,
    // How many values of a rank there are at a holder.
    counts: IndexMap<(Holder, u8), usize>,
}

impl<D: Domain> Model for PairIndex<D> {
    ghost use Rattle.std.specs.Prelude.{List};
    ghost use Rattle.domain_laws.specs.Made.{values_of};
    ghost use Rattle.abstract_state.specs.declared.seen.Holder.{Holder};
    ghost use Rattle.abstract_state.specs.Counts.{AreCounted};

    ghost Value = { List (Holder × D) };

    ghost view = { λ s. s.pairs.keys };

    ghost invariant = { λ s. AreCounted (values_of D.Domain D.eq) s.pairs.keys s.counts };
}

impl<D: Domain> PairIndex<D> {
    fn new(alloc: Global) -> PairIndex<D>
        ensures { result ≡ [] }
    {
        PairIndex {
            pairs: IndexSet::new(alloc),
            counts: IndexMap::new(alloc),
        }
    }

    pub(crate) fn is_empty(&self) -> bool
        ensures { result ≡ (length self.now == 0) }
    {
        self.pairs.len() == 0
    }

    // An index of these, each once.
    pub(crate) fn of(alloc: Global, pairs: &[(Holder, D)]) -> Result<PairIndex<D>, NoMemory>
        ensures { IfOk result (λ index. index ≡ with_pairs (values_of D.Domain.own D.eq) pairs.now []) }
    {
        let mut index = PairIndex::new(alloc);
        for pair in pairs {
            index.insert(pair.0, pair.1)?;
        }
        Ok(index)
    }

    // A refusal changes nothing.
    pub(crate) fn insert(&mut self, holder: Holder, value: D) -> Result<(), NoMemory>
        ensures ok { OnOk result (self.new ≡ with_pair (values_of D.Domain.own D.eq) self.old (holder, value)) }
        ensures err { OnErr result (self.new ≡ self.old) }
    {
        if self.has(holder, value) {
            return Ok(());
        }
        let count = self.rivals(holder, value.rank());
        self.push(holder, value, count)
    }

    // A pair that was not there, where so many values of its rank are at its holder. There is room for it before it is counted.
    fn push(&mut self, holder: Holder, value: D, count: usize) -> Result<(), NoMemory>
        requires other { list_any (is_pair (values_of D.Domain.own D.eq) holder value) self.old ≡ false }
        requires count { count ≡ count_by (is_rival (values_of D.Domain.own D.eq) holder (D.Domain.own.rank value)) self.old }
        ensures ok { OnOk result (self.new ≡ self.old ++ (holder, value) ∷ []) }
        ensures err { OnErr result (self.new ≡ self.old) }
    {
        let _length = self.pairs.len();
        self.pairs.reserve(1)?;
        self.counts.insert((holder, value.rank()), count + 1)?;
        self.pairs.insert((holder, value))?;
        Ok(())
    }

    pub(crate) fn has(&self, holder: Holder, value: D) -> bool
        ensures { result ≡ list_any (is_pair (values_of D.Domain.own D.eq) holder value) self.now }
    {
        self.pairs.contains(&(holder, value))
    }

    // How many values of a rank there are at a holder.
    pub(crate) fn rivals(&self, holder: Holder, rank: u8) -> usize
        ensures { result ≡ count_by (is_rival (values_of D.Domain.own D.eq) holder rank) self.now }
    {
        match self.counts.get(&(holder, rank)) {
            Some(count) => *count,
            None => 0,
        }
    }
}
