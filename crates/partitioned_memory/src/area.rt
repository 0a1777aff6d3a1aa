ghost use Rattle.std.specs.Prelude.{◌≡◌, ◌↔◌, ◌^◌, IsTrue, neg_ℤ, pos, ◌≤ℤ◌};
ghost use Rattle.partitioned_memory.specs.Held.{dirty_of};
ghost use Rattle.partitioned_memory.specs.Areas.{IsBounded, IsInside, bounds_of, has_byte, hull, interval_at, interval_between, interval_to, is_before, is_left, is_marked, is_zeroed};

use crate::fact::Dirty;
use address_regions::Region;
use std::cmp::Ordering;

/// A part of memory in which facts lie. The image comes first, and then the regions in their order.
#[derive(Clone, Copy, Debug, PartialEq, Eq, PartialOrd, Ord, Hash)]
pub enum Area {
    /// The image, whose offsets are addresses.
    Image,
    /// A region, whose offsets are from a base.
    In(Region),
}

impl Area {
    /// The offsets of its bytes: the least, and the one past the greatest.
    pub fn bounds(self) -> (i64, i64)
        ensures value { result ≡ bounds_of self }
        ensures least { neg_ℤ (pos (2 ^ 32)) ≤ℤ result.0 }
        ensures greatest { result.1 ≤ℤ pos (2 ^ 32) }
    {
        match self {
            Area::Image => (0, 0x1_0000_0000),
            Area::In(Region::Block { size, .. }) => (0, i64::from(size)),
            Area::In(region) => region.extent(),
        }
    }

    /// Whether all bytes from an offset on and below another are bytes of the area; `low` is at most `end`.
    pub fn contains(self, low: i64, end: i64) -> bool
        ensures { IsTrue result ↔ IsInside (interval_between self low end) }
    {
        let (least, limit) = self.bounds();
        are_in_order(least, low, end, limit)
    }

    /// Whether a write of unknown bytes is remembered: in the image, and in blocks that begin zeroed.
    pub(crate) fn is_marked(self) -> bool
        ensures { result ≡ is_marked self }
    {
        match self {
            Area::Image => true,
            Area::In(region) => is_zeroed(region),
        }
    }
}

fn are_in_order(a: i64, b: i64, c: i64, d: i64) -> bool
    ensures { IsTrue result ↔ ((a ≤ℤ b) × (b ≤ℤ c) × (c ≤ℤ d)) }
{
    a <= b && (b <= c && c <= d)
}

pub(crate) fn is_zeroed(region: Region) -> bool
    ensures { result ≡ is_zeroed region }
{
    match region {
        Region::Block { zeroed, .. } => zeroed,
        Region::Stack | Region::Fs | Region::Gs => false,
    }
}

/// The bytes of an area from an offset on, and below another.
#[derive(Clone, Copy)]
pub(crate) struct Interval {
    pub(crate) area: Area,
    pub(crate) low: i128,
    pub(crate) end: i128,
}

impl Interval {
    pub(crate) fn at(area: Area, low: i64, size: i64) -> Interval
        ensures { result ≡ interval_at area low size }
    {
        let low = i128::from(low);
        Interval {
            area,
            low,
            end: low + i128::from(size),
        }
    }

    /// From one offset to another, both included.
    pub(crate) fn to(area: Area, low: i64, high: i64) -> Interval
        ensures { result ≡ interval_to area low high }
    {
        Interval {
            area,
            low: i128::from(low),
            end: i128::from(high) + 1,
        }
    }

    /// Its bytes as a dirty range.
    pub(crate) fn dirty(self) -> Dirty
        requires { IsBounded self }
        ensures { result ≡ dirty_of self }
    {
        Dirty {
            area: self.area,
            low: self.low as i64,
            size: (self.end - self.low) as i64,
        }
    }

    /// Whether an offset of an area is one of its bytes.
    #[tactic(auto, unfolding(crate::specs::Areas::same_area))]
    pub(crate) fn has(self, area: Area, o: i64) -> bool
        ensures { result ≡ has_byte self area o }
    {
        let o = i128::from(o);
        self.area == area && (self.low <= o && o < self.end)
    }

    /// Whether it lies before another and shares no byte with it.
    #[tactic(auto, unfolding(crate::specs::Areas::is_before, crate::specs::Areas::area_cmp))]
    pub(crate) fn is_before(self, other: Interval) -> bool
        ensures { result ≡ is_before self other }
    {
        match self.area.cmp(&other.area) {
            Ordering::Less => true,
            Ordering::Equal => self.end <= other.low,
            Ordering::Greater => false,
        }
    }

    /// Whether it lies before another and does not touch it.
    #[tactic(auto, unfolding(crate::specs::Areas::is_left, crate::specs::Areas::area_cmp))]
    pub(crate) fn is_left(self, other: Interval) -> bool
        ensures { result ≡ is_left self other }
    {
        match self.area.cmp(&other.area) {
            Ordering::Less => true,
            Ordering::Equal => self.end < other.low,
            Ordering::Greater => false,
        }
    }

    /// The least interval that has both, in this one's area.
    pub(crate) fn hull(self, other: Interval) -> Interval
        ensures { result ≡ hull self other }
    {
        Interval {
            area: self.area,
            low: self.low.min(other.low),
            end: self.end.max(other.end),
        }
    }
}
