ghost use Rattle.std.specs.Prelude.{◌≡◌, ◌≤◌, ◌<◌, ◌+◌, ◌-◌, ◌^◌, IfNone, IfSome, OnOk, false, true, map, All};
ghost use Rattle.memory_map.specs.Map.{is_allowed, range_of, IsMap};
ghost use Rattle.memory_map.specs.Range.{USER_LOW, may_write};
ghost use Rattle.memory_map.specs.Spans.{AreAll, IsBelow, join_span};

use crate::{Perm, Segment, Span};
use std::alloc::AllocError;

// The low address of the segment that has an address, where it may be written.
pub fn writable_from(list: &[Segment], a: u64) -> Option<u64>
    requires { IsMap (map range_of list.now) }
    ensures low { IfSome result (λ low. USER_LOW ≤ low) }
    ensures some { IfSome result (λ low. low ≤ a) }
    ensures each { IfSome result (λ low. AreAll (may_write (map range_of list.now)) true low (a + 1)) }
    ensures none { IfNone result (is_allowed (map range_of list.now) Perm.WRITE a ≡ false) }
{
    for s in list {
        if s.has(a) && s.permits(Perm::WRITE) {
            return Some(u64::from(s.low));
        }
    }
    None
}

// The highest address up to one that may not be written, and from another one on, at which a segment ends that may be
// written, or the lower of the two.
pub fn unwritable_from(list: &[Segment], from: u64, a: u64) -> u64
    requires below { from ≤ a }
    requires none { is_allowed (map range_of list.now) Perm.WRITE a ≡ false }
    ensures from { from ≤ result }
    ensures below { result ≤ a }
    ensures each { AreAll (may_write (map range_of list.now)) false result (a + 1) }
{
    let mut low = from;
    for s in list {
        if s.permits(Perm::WRITE) && s.end() <= a && low < s.end() {
            low = s.end();
        }
    }
    low
}

// Puts addresses from one up to another before runs of later ones, as a run of their own or as the front of the first.
pub fn put_before(runs: &mut Vec<Span>, low: u64, end: u64) -> Result<(), AllocError>
    requires low { USER_LOW ≤ low }
    requires some { low < end }
    requires end { end ≤ 2 ^ 32 }
    requires runs { All (IsBelow (2 ^ 32)) runs.old.items }
    ensures { OnOk result (runs.new.items ≡ join_span low (end - low) runs.old.items) }
{
    match runs.first() {
        Some(next) if u64::from(next.low) == end => {
            let size = (end - low) as u32 + next.size;
            runs[0] = Span {
                low: low as u32,
                size,
            };
        }
        _ => runs.insert(
            0,
            Span {
                low: low as u32,
                size: (end - low) as u32,
            },
        )?,
    }
    Ok(())
}
