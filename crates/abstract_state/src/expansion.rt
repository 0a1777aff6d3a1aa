ghost use Rattle.std.specs.Prelude.{◌≡◌, [], IfOk, OnOk};
ghost use Rattle.std.specs.List.{list_any};
ghost use Rattle.flow_log.specs.Ordered.{ordered_set};
ghost use Rattle.abstract_state.specs.Expanding.{cause_cmp, ended, is_written, joined, stopped, with_writes, with_written};

use crate::state::State;
use bit_words::NoMemory;
use domain_laws::Domain;
use flow_log::{Cause, sorted_set};
use std::alloc::Global;
use std::marker::Model;

/// What one row leads to: next pairs of an address and a state, in their order; the causes that leave its location open, each once in their order;
/// and the ranges of the image that it may write, each once by its low address and its size.
#[derive(Drop)]
pub struct Expansion<D: Domain> {
    next: Vec<(u32, State<D>)>,
    causes: Vec<Cause>,
    writes: Vec<(u32, u32)>,
}

impl<D: Domain> Model for Expansion<D> {
    ghost use Rattle.abstract_state.specs.Expanding.{Expanded};

    ghost Value = { Expanded D };

    ghost view = { λ x. record { next = x.next.items; causes = x.causes.items; writes = x.writes.items } };
}

fn is_written(writes: &[(u32, u32)], low: u32, size: u32) -> bool
    ensures { result ≡ list_any (is_written (low, size)) writes.now }
{
    writes.iter().any(|w| w.0 == low && w.1 == size)
}

// A range more, unless it was written.
pub(crate) fn record_write(
    writes: &mut Vec<(u32, u32)>,
    low: u32,
    size: u32,
) -> Result<(), NoMemory>
    ensures { OnOk result (writes.new.items ≡ with_written writes.old.items (low, size)) }
{
    if !is_written(writes, low, size) {
        writes.push((low, size))?;
    }
    Ok(())
}

// Further ranges, each once.
fn record_writes(writes: &mut Vec<(u32, u32)>, more: &[(u32, u32)]) -> Result<(), NoMemory>
    ensures { OnOk result (writes.new.items ≡ with_writes more.now writes.old.items) }
{
    for w in more {
        record_write(writes, w.0, w.1)?;
    }
    Ok(())
}

// The causes in their order, each once.
fn sorted_causes(causes: Vec<Cause>) -> Vec<Cause>
    ensures { result.items ≡ ordered_set cause_cmp causes.items }
{
    sorted_set(causes)
}

impl<D: Domain> Expansion<D> {
    /// The expansion of these parts; takes no memory.
    pub fn new(
        next: Vec<(u32, State<D>)>,
        causes: Vec<Cause>,
        writes: Vec<(u32, u32)>,
    ) -> Expansion<D>
        ensures { result ≡ record { next = next.items; causes = causes.items; writes = writes.items } }
    {
        Expansion {
            next,
            causes,
            writes,
        }
    }

    /// No next pair, no cause, and nothing written; takes no memory.
    pub fn nothing(alloc: Global) -> Expansion<D>
        ensures { result ≡ ended [] }
    {
        Expansion::new(Vec::new(alloc), Vec::new(alloc), Vec::new(alloc))
    }

    /// A cause, no next pair, and nothing written.
    pub fn caused(alloc: Global, cause: Cause) -> Result<Expansion<D>, NoMemory>
        ensures { IfOk result (λ x. x ≡ stopped cause []) }
    {
        let mut causes = Vec::new(alloc);
        causes.push(cause)?;
        Ok(Expansion::new(Vec::new(alloc), causes, Vec::new(alloc)))
    }

    /// The next pairs, in order.
    pub fn next(&self) -> &[(u32, State<D>)]
        ensures { result.now ≡ self.now.next }
    {
        self.next.as_slice()
    }

    /// The causes.
    pub fn causes(&self) -> &[Cause]
        ensures { result.now ≡ self.now.causes }
    {
        self.causes.as_slice()
    }

    /// The written ranges.
    pub fn writes(&self) -> &[(u32, u32)]
        ensures { result.now ≡ self.now.writes }
    {
        self.writes.as_slice()
    }

    /// The next pairs, in order, by value; takes no memory.
    pub fn into_next(self) -> Vec<(u32, State<D>)>
        ensures { result.items ≡ self.next }
    {
        let Expansion { next, .. } = self;
        next
    }

    /// Two paths of one instruction together: the next pairs of this one and then of the other, the causes of both in their order,
    /// and the ranges that this one has written and then the further ones of the other.
    pub fn join(self, other: Expansion<D>) -> Result<Expansion<D>, NoMemory>
        ensures { IfOk result (λ x. x ≡ joined self other) }
    {
        let Expansion {
            mut next,
            mut causes,
            mut writes,
        } = self;
        let Expansion {
            next: mut more,
            causes: mut further,
            writes: written,
        } = other;
        next.append(&mut more)?;
        causes.append(&mut further)?;
        record_writes(&mut writes, &written)?;
        Ok(Expansion::new(next, sorted_causes(causes), writes))
    }
}
