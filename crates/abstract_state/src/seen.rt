ghost use Rattle.std.specs.Prelude.{◌≡◌, ◌==◌, ℕ, take, [], OnOk, OnErr, IfOk, ◌++◌, map, count_by, length};
ghost use Rattle.std.specs.List.{list_any};
ghost use Rattle.domain_laws.specs.Made.{values_of};
ghost use Rattle.abstract_state.specs.Widening.{IsPartlySeen, held, held_registers, holder_of, is_pair, is_rival, same_holder, seen_with, stays, widened_value, with_pair, with_pairs};

use crate::pair_index::PairIndex;
use crate::state::State;
use bit_words::{NoMemory, Width};
use domain_laws::Domain;
use partitioned_memory::{Fact, Spot};
use std::alloc::Global;
use std::marker::Model;

/// What holds a value in a state.
#[derive(Clone, Copy, Debug, PartialEq, Eq, Hash)]
pub enum Holder {
    /// The register of a number.
    Register(u8),
    /// The bytes from a spot on, as many as a width has.
    Bytes(Spot, Width),
}

impl Holder {
    #[tactic(auto, unfolding(partitioned_memory::specs::Areas::same_area))]
    pub(crate) fn is(self, other: Holder) -> bool
        ensures { result ≡ same_holder self other }
    {
        match (self, other) {
            (Holder::Register(a), Holder::Register(b)) => a == b,
            (Holder::Bytes(s, v), Holder::Bytes(t, w)) => {
                s.area == t.area && (s.low == t.low && v.bytes() == w.bytes())
            }
            _ => false,
        }
    }
}

/// The bytes that hold a fact's value.
pub(crate) fn holder_of<D: Domain>(f: &Fact<D>) -> Holder
    ensures { result ≡ holder_of f.now }
{
    Holder::Bytes(
        Spot {
            area: f.area,
            low: f.low,
        },
        f.w,
    )
}

// What the registers hold, in their order.
fn held_registers<D: Domain>(alloc: Global, s: &State<D>) -> Result<Vec<(Holder, D)>, NoMemory>
    ensures { IfOk result (λ pairs. pairs.items ≡ held_registers s.now) }
{
    let mut pairs = Vec::new(alloc);
    for r in 0..8u8 {
        pairs.push((Holder::Register(r), s.register(r)))?;
    }
    Ok(pairs)
}

// What facts hold, in their order.
fn push_facts<D: Domain>(pairs: &mut Vec<(Holder, D)>, facts: &[Fact<D>]) -> Result<(), NoMemory>
    ensures { OnOk result (pairs.new.items ≡ pairs.old.items ++ map (λ f. (holder_of f, f.value)) facts.now) }
{
    for f in facts {
        pairs.push((holder_of(f), f.value))?;
    }
    Ok(())
}

// What a state holds: registers in their order, and then facts in theirs.
fn held<D: Domain>(alloc: Global, s: &State<D>) -> Result<Vec<(Holder, D)>, NoMemory>
    ensures { IfOk result (λ pairs. pairs.items ≡ held s.now) }
{
    let mut pairs = held_registers(alloc, s)?;
    let facts = s.parts.copy_facts()?;
    push_facts(&mut pairs, &facts)?;
    Ok(pairs)
}

// Whether a value was seen there, among a few pairs.
fn has_among<D: Domain>(few: &[(Holder, D)], holder: Holder, value: D) -> bool
    ensures { result ≡ list_any (is_pair (values_of D.Domain.own D.eq) holder value) few.now }
{
    few.iter().any(|pair| holder.is(pair.0) && pair.1 == value)
}

// How many values of a rank were seen there, among a few pairs.
fn rivals_among<D: Domain>(few: &[(Holder, D)], holder: Holder, rank: u8) -> usize
    ensures { result ≡ count_by (is_rival (values_of D.Domain.own D.eq) holder rank) few.now }
{
    few.iter()
        .filter(|pair| holder.is(pair.0) && pair.1.rank() == rank)
        .count()
}

fn insert_among<D: Domain>(
    few: &mut Vec<(Holder, D)>,
    holder: Holder,
    value: D,
) -> Result<(), NoMemory>
    ensures ok { OnOk result (few.new.items ≡ with_pair (values_of D.Domain.own D.eq) few.old.items (holder, value)) }
    ensures err { OnErr result (few.new.items ≡ few.old.items) }
{
    if !has_among(few, holder, value) {
        few.push((holder, value))?;
    }
    Ok(())
}

// From so many pairs on they are indexed. A location has mostly one row or two, and to make an index costs more than to walk a few pairs.
const INDEXED: usize = 128;

/// The values that states at one location hold, each with what holds it, once, in the order in which they were first seen.
#[derive(Drop)]
pub struct Seen<D: Domain> {
    // The pairs, unless there is an index of them.
    few: Vec<(Holder, D)>,
    index: Option<PairIndex<D>>,
}

impl<D: Domain> Model for Seen<D> {
    ghost use Rattle.std.specs.Prelude.{List, ◌≡◌, [], unwrap_or};
    ghost use Rattle.domain_laws.specs.Made.{values_of};
    ghost use Rattle.abstract_state.specs.declared.seen.Holder.{Holder};
    ghost use Rattle.abstract_state.specs.Widening.{with_pairs};

    ghost Value = { List (Holder × D) };

    ghost view = { λ s. unwrap_or s.index s.few.items };

    // Each of the few stands once.
    ghost invariant = { λ s. with_pairs (values_of D.Domain D.eq) s.few.items [] ≡ s.few.items };
}

impl<D: Domain> Seen<D> {
    /// Nothing seen yet; takes no memory.
    pub fn new(alloc: Global) -> Seen<D>
        ensures { result ≡ [] }
    {
        Seen {
            few: Vec::new(alloc),
            index: None,
        }
    }

    /// Whether nothing was seen.
    pub(crate) fn is_empty(&self) -> bool
        ensures { result ≡ (length self.now == 0) }
    {
        match &self.index {
            Some(index) => index.is_empty(),
            None => self.few.is_empty(),
        }
    }

    /// Takes in what a state holds. After a refusal it has taken in a first part.
    #[tactic(auto, unfolding(crate::specs::Widening::seen_with))]
    pub fn add(&mut self, s: &State<D>) -> Result<(), NoMemory>
        ensures ok { OnOk result (self.new ≡ seen_with (values_of D.Domain.own D.eq) s.now self.old) }
        ensures err { OnErr result (IsPartlySeen (values_of D.Domain.own D.eq) s.now self.old self.new) }
    {
        let pairs = held(*self.few.allocator(), s)?;
        self.insert_all(&pairs)
    }

    // The pairs go into an index once there are many.
    fn index_many(&mut self) -> Result<(), NoMemory>
        ensures { self.new ≡ self.old }
    {
        if self.index.is_none() && INDEXED <= self.few.len() {
            let alloc = *self.few.allocator();
            let index = PairIndex::of(alloc, &self.few)?;
            self.index = Some(index);
            self.few = Vec::new(alloc);
        }
        Ok(())
    }

    fn insert_all(&mut self, pairs: &[(Holder, D)]) -> Result<(), NoMemory>
        ensures ok { OnOk result (self.new ≡ with_pairs (values_of D.Domain.own D.eq) pairs.now self.old) }
        ensures err { OnErr result ((n : ℕ) × (self.new ≡ with_pairs (values_of D.Domain.own D.eq) (take n pairs.now) self.old)) }
    {
        for pair in pairs {
            self.insert(pair.0, pair.1)?;
        }
        Ok(())
    }

    fn insert(&mut self, holder: Holder, value: D) -> Result<(), NoMemory>
        ensures ok { OnOk result (self.new ≡ with_pair (values_of D.Domain.own D.eq) self.old (holder, value)) }
        ensures err { OnErr result (self.new ≡ self.old) }
    {
        self.index_many()?;
        match &mut self.index {
            Some(index) => index.insert(holder, value),
            None => insert_among(&mut self.few, holder, value),
        }
    }

    fn has(&self, holder: Holder, value: D) -> bool
        ensures { result ≡ list_any (is_pair (values_of D.Domain.own D.eq) holder value) self.now }
    {
        match &self.index {
            Some(index) => index.has(holder, value),
            None => has_among(&self.few, holder, value),
        }
    }

    // How many values of a rank were seen there.
    fn rivals(&self, holder: Holder, rank: u8) -> usize
        ensures { result ≡ count_by (is_rival (values_of D.Domain.own D.eq) holder rank) self.now }
    {
        match &self.index {
            Some(index) => index.rivals(holder, rank),
            None => rivals_among(&self.few, holder, rank),
        }
    }

    // Whether a value need not be raised.
    fn keeps(&self, k: u32, holder: Holder, value: D) -> bool
        ensures { result ≡ stays (values_of D.Domain.own D.eq) k self.now holder value }
    {
        if value.rank() == 0 {
            return true;
        }
        self.has(holder, value) || self.rivals(holder, value.rank()) < k as usize
    }

    /// The value, raised until it was seen there, has rank 0, or has a rank of which fewer than `k` values were seen there.
    pub(crate) fn widened(&self, k: u32, holder: Holder, value: D) -> D
        ensures { result ≡ widened_value (values_of D.Domain.own D.eq) k self.now holder value }
    {
        let mut widened = value;
        for _turn in 0..u32::from(value.rank()) + 1 {
            if self.keeps(k, holder, widened) {
                return widened;
            }
            widened = widened.raise();
        }
        D::any()
    }
}
