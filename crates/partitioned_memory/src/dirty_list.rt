ghost use Rattle.std.specs.Prelude.{◌≡◌, ◌++◌, IfOk, map};
ghost use Rattle.std.specs.List.{list_any, list_all};
ghost use Rattle.partitioned_memory.specs.Areas.{IsBounded, has_byte};
ghost use Rattle.partitioned_memory.specs.Lists.{Ascends, Every};
ghost use Rattle.partitioned_memory.specs.Leaves.{pairs_in};
ghost use Rattle.partitioned_memory.specs.Held.{dirty_after, dirty_at, dirty_before, dirty_with, hull_of, interval_of_dirty, is_dirty, lies_in, lies_in_one};

use crate::area::{Area, Interval};
use crate::fact::{Dirty, Spot};
use crate::leaf::Leaf;
use crate::spots::Spots;
use crate::stretches::Touching;
use bit_words::NoMemory;
use std::alloc::Global;
use std::sync::Arc;

fn is_dirty_among(leaf: &Leaf<i64>, area: Area, o: i64) -> bool
    ensures { result ≡ list_any (λ p. has_byte (interval_of_dirty (dirty_at p)) area o) leaf.now.pairs.items }
{
    leaf.pairs
        .iter()
        .any(|pair| Dirty::at(pair).interval().has(area, o))
}

fn is_dirty_in(leaves: &[Arc<Leaf<i64>>], area: Area, o: i64) -> bool
    ensures { result ≡ list_any (λ leaf. list_any (λ p. has_byte (interval_of_dirty (dirty_at p)) area o) (pairs_in leaf)) leaves.now }
{
    leaves.iter().any(|leaf| is_dirty_among(leaf, area, o))
}

// Whether a byte is one of some dirty range's.
pub(crate) fn is_dirty(ranges: &Spots<i64>, area: Area, o: i64) -> bool
    ensures { result ≡ is_dirty area o (map dirty_at ranges.now) }
{
    is_dirty_in(ranges.leaves(), area, o)
}

// An interval and ranges as one.
fn hull_of(new: Interval, met: &[(Spot, i64)]) -> Interval
    requires new { IsBounded new }
    requires met { Every (λ r. IsBounded (interval_of_dirty r)) (map dirty_at met.now) }
    ensures value { result ≡ hull_of new (map dirty_at met.now) }
    ensures bounded { IsBounded result }
{
    let mut whole = new;
    for pair in met {
        whole = whole.hull(Dirty::at(pair).interval());
    }
    whole
}

// The dirty ranges with one more.
fn dirty_with(ranges: &Spots<i64>, new: Interval) -> Result<Spots<i64>, NoMemory>
    requires new { IsBounded new }
    requires ranges { Every (λ r. IsBounded (interval_of_dirty r)) (map dirty_at ranges.now) }
    requires ascend { Ascends dirty_before (map dirty_at ranges.now) }
    ensures { IfOk result (λ all. map dirty_at all ≡ dirty_with new (map dirty_at ranges.now)) }
{
    let met = ranges.within(&Touching(new))?;
    let whole = hull_of(new, &met);
    ranges.around(&Touching(new), Some(whole.dirty().pair()))
}

// The same in the image and in zeroed blocks.
pub(crate) fn dirty_after(ranges: &Spots<i64>, new: Interval) -> Result<Spots<i64>, NoMemory>
    requires new { IsBounded new }
    requires ranges { Every (λ r. IsBounded (interval_of_dirty r)) (map dirty_at ranges.now) }
    requires ascend { Ascends dirty_before (map dirty_at ranges.now) }
    ensures { IfOk result (λ all. map dirty_at all ≡ dirty_after new (map dirty_at ranges.now)) }
{
    if new.area.is_marked() {
        dirty_with(ranges, new)
    } else {
        ranges.copy()
    }
}

fn lies_among(leaf: &Leaf<i64>, r: Dirty) -> bool
    ensures { result ≡ list_any (λ p. lies_in_one r (dirty_at p)) leaf.now.pairs.items }
{
    leaf.pairs.iter().any(|pair| r.lies_in(Dirty::at(pair)))
}

fn lies_in_leaves(leaves: &[Arc<Leaf<i64>>], r: Dirty) -> bool
    ensures { result ≡ list_any (λ leaf. list_any (λ p. lies_in_one r (dirty_at p)) (pairs_in leaf)) leaves.now }
{
    leaves.iter().any(|leaf| lies_among(leaf, r))
}

fn lies_in(ranges: &Spots<i64>, r: Dirty) -> bool
    ensures { result ≡ lies_in (map dirty_at ranges.now) r }
{
    lies_in_leaves(ranges.leaves(), r)
}

fn hold_leaf(ranges: &Spots<i64>, leaf: &Leaf<i64>) -> bool
    ensures { result ≡ list_all (λ p. lies_in (map dirty_at ranges.now) (dirty_at p)) leaf.now.pairs.items }
{
    leaf.pairs
        .iter()
        .all(|pair| lies_in(ranges, Dirty::at(pair)))
}

fn hold_leaves(ranges: &Spots<i64>, leaves: &[Arc<Leaf<i64>>]) -> bool
    ensures { result ≡ list_all (λ leaf. list_all (λ p. lies_in (map dirty_at ranges.now) (dirty_at p)) (pairs_in leaf)) leaves.now }
{
    leaves.iter().all(|leaf| hold_leaf(ranges, leaf))
}

// Whether each of the other dirty ranges lies in one of these.
pub(crate) fn hold_dirty(ranges: &Spots<i64>, others: &Spots<i64>) -> bool
    ensures { result ≡ list_all (lies_in (map dirty_at ranges.now)) (map dirty_at others.now) }
{
    hold_leaves(ranges, others.leaves())
}

fn push_ranges(all: &mut Vec<Dirty>, pairs: &[(Spot, i64)]) -> Result<(), NoMemory>
    ensures { IfOk result (λ _. all.new.items ≡ all.old.items ++ map dirty_at pairs.now) }
{
    for pair in pairs {
        all.push(Dirty::at(pair))?;
    }
    Ok(())
}

// The dirty ranges again, in one list.
pub(crate) fn ranges_of(alloc: Global, ranges: &Spots<i64>) -> Result<Vec<Dirty>, NoMemory>
    ensures { IfOk result (λ all. all.items ≡ map dirty_at ranges.now) }
{
    let mut all = Vec::new(alloc);
    for leaf in ranges.leaves() {
        push_ranges(&mut all, &leaf.pairs)?;
    }
    Ok(all)
}
