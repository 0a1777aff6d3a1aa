ghost use Rattle.std.specs.Prelude.{◌≡◌, ◌≤◌, true, false, length, nat_le, IfOk};
ghost use Rattle.std.specs.List.Sorted.{IsNonDecreasingBy, IsPartitionPoint, IsPermutation};
ghost use Rattle.memory_map.specs.Spans.{is_in_ranges};
ghost use Rattle.memory_map.specs.Indexing.{IsIndexed};

use crate::{Span, sort_by_low};
use std::alloc::{AllocError, Global};
use std::marker::Model;

/// Spans in the order of their first addresses, among which one with an address is soon found. Contracts see their list.
#[derive(Drop)]
pub struct SpanIndex {
    sorted: Vec<Span>,
    // For each of them the address after the last one of all up to it.
    ends: Vec<u64>,
}

impl Model for SpanIndex {
    ghost use Rattle.std.specs.Prelude.{List};
    ghost use Rattle.memory_map.specs.Indexing.{IsIndexed};
    ghost use Rattle.memory_map.specs.declared.span.Span.{Span};

    ghost Value = { List Span };

    ghost view = { λ i. i.sorted.items };

    ghost invariant = { λ i. IsIndexed i.sorted.items i.ends.items };
}

// For each span the address after the last one of all up to it.
fn ends_of(alloc: Global, sorted: &[Span]) -> Result<Vec<u64>, AllocError>
    requires { IsNonDecreasingBy (λ s. s.low) sorted.now }
    ensures { IfOk result (λ ends. IsIndexed sorted.now ends.items) }
{
    let mut ends = Vec::with_capacity(alloc, sorted.len())?;
    let mut end = 0u64;
    for s in sorted {
        end = end.max(s.end());
        ends.push(end)?;
    }
    Ok(ends)
}

// How many spans begin at or below an address.
fn count_by(sorted: &[Span], a: u64) -> usize
    requires { IsNonDecreasingBy (λ s. s.low) sorted.now }
    ensures within { result ≤ length sorted.now }
    ensures parted { IsPartitionPoint (λ s. nat_le s.low a ≡ true) (λ s. nat_le s.low a ≡ false) sorted.now result }
{
    sorted.partition_point(|s| u64::from(s.low) <= a)
}

impl SpanIndex {
    /// The spans of a slice.
    pub fn new(alloc: Global, spans: &[Span]) -> Result<SpanIndex, AllocError>
        ensures { IfOk result (λ index. IsPermutation spans.now index) }
    {
        let mut sorted = Vec::from_slice(alloc, spans)?;
        sort_by_low(&mut sorted)?;
        let ends = ends_of(alloc, &sorted)?;
        Ok(SpanIndex { sorted, ends })
    }

    /// Whether an address is in one of them.
    pub fn has(&self, a: u64) -> bool
        ensures { result ≡ is_in_ranges a self.now }
    {
        let count = count_by(&self.sorted, a);
        count > 0 && a < self.ends[count - 1]
    }
}
