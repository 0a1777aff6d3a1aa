ghost use Rattle.std.specs.Prelude.{◌≡◌, ◌&&◌};
ghost use Rattle.address_regions.specs.Same.{same_region};
ghost use Rattle.partitioned_memory.specs.Areas.{same_area};
ghost use Rattle.partitioned_memory.specs.Held.{dirty_at, fact_at, pair_of_dirty, pair_of_fact, spot_at, interval_of_fact, interval_of_dirty, count_before, counted_again, counts_below, is_stack_below, lies_in_one};

use crate::area::{Area, Interval};
use address_regions::Region;
use bit_words::Width;
use std::cmp::Ordering;

/// What is known of the bytes at one place: they are a number, lowest byte first, for which a value stands.
/// In a block region it holds at every block.
#[derive(Clone, Copy, Debug, PartialEq, Eq)]
pub struct Fact<D> {
    pub area: Area,
    /// The offset of the first byte.
    pub low: i64,
    pub w: Width,
    pub value: D,
}

/// What a fact says of the bytes from a spot on.
#[derive(Clone, Copy, Debug, PartialEq, Eq)]
pub struct Held<D> {
    pub w: Width,
    pub value: D,
}

/// Bytes that may have been written unknown: those from an offset on.
#[derive(Clone, Copy, Debug, PartialEq, Eq)]
pub struct Dirty {
    pub area: Area,
    pub low: i64,
    /// How many there are, at least one.
    pub size: i64,
}

/// A block region of which there is one block, or there may be many.
#[derive(Clone, Copy, Debug, PartialEq, Eq)]
pub struct Counted {
    pub region: Region,
    pub many: bool,
}

/// An offset in an area. Spots are ordered by area and then by offset.
#[derive(Clone, Copy, Debug, PartialEq, Eq, PartialOrd, Ord, Hash)]
pub struct Spot {
    pub area: Area,
    pub low: i64,
}

impl Spot {
    pub(crate) fn at(area: Area, low: i64) -> Spot
        ensures { result ≡ spot_at area low }
    {
        Spot { area, low }
    }
}

impl<D: Copy> Fact<D> {
    /// The fact of a spot.
    pub(crate) fn at(pair: &(Spot, Held<D>)) -> Fact<D>
        ensures { result ≡ fact_at pair.now }
    {
        Fact {
            area: pair.0.area,
            low: pair.0.low,
            w: pair.1.w,
            value: pair.1.value,
        }
    }

    /// Its spot, and what it says of the bytes from there on.
    pub(crate) fn pair(self) -> (Spot, Held<D>)
        ensures { result ≡ pair_of_fact self }
    {
        let spot = Spot {
            area: self.area,
            low: self.low,
        };
        let held = Held {
            w: self.w,
            value: self.value,
        };
        (spot, held)
    }
}

impl<D> Fact<D> {
    pub(crate) fn interval(&self) -> Interval
        ensures { result ≡ interval_of_fact self.now }
    {
        Interval::at(self.area, self.low, i64::from(self.w.bytes()))
    }

    /// Whether it is of the stack and has a byte below an offset.
    #[tactic(auto, unfolding(crate::specs::Areas::same_area))]
    pub(crate) fn is_stack_below(&self, high: i64) -> bool
        ensures { result ≡ is_stack_below high self.now }
    {
        self.area == Area::In(Region::Stack) && self.low < high
    }
}

impl Dirty {
    /// The dirty range of a spot.
    pub(crate) fn at(pair: &(Spot, i64)) -> Dirty
        ensures { result ≡ dirty_at pair.now }
    {
        Dirty {
            area: pair.0.area,
            low: pair.0.low,
            size: pair.1,
        }
    }

    /// Its spot, and its size.
    pub(crate) fn pair(self) -> (Spot, i64)
        ensures { result ≡ pair_of_dirty self }
    {
        let spot = Spot {
            area: self.area,
            low: self.low,
        };
        (spot, self.size)
    }

    pub(crate) fn interval(self) -> Interval
        ensures { result ≡ interval_of_dirty self }
    {
        Interval::at(self.area, self.low, self.size)
    }

    /// Whether its bytes are all among those of another.
    #[tactic(auto, unfolding(crate::specs::Areas::same_area))]
    pub(crate) fn lies_in(self, other: Dirty) -> bool
        ensures { result ≡ lies_in_one self other }
    {
        let (own, outer) = (self.interval(), other.interval());
        other.area == self.area && (outer.low <= own.low && own.end <= outer.end)
    }
}

impl Counted {
    #[tactic(auto, unfolding(address_regions::specs::Same::same_region))]
    pub(crate) fn is_of(self, region: Region) -> bool
        ensures { result ≡ same_region self.region region }
    {
        self.region == region
    }

    pub(crate) fn is_many_of(self, region: Region) -> bool
        ensures { result ≡ (same_region self.region region && self.many) }
    {
        self.is_of(region) && self.many
    }

    /// The count when there is one more block of a region.
    pub(crate) fn again(self, region: Region) -> Counted
        ensures { result ≡ counted_again region self }
    {
        if self.is_of(region) {
            Counted {
                region: self.region,
                many: true,
            }
        } else {
            self
        }
    }

    /// Whether another is of its region, and counts One where it does.
    pub(crate) fn is_above(self, other: Counted) -> bool
        ensures { result ≡ counts_below self other }
    {
        other.is_of(self.region) && (self.many || !other.many)
    }

    /// Whether its region comes before another's.
    #[tactic(auto, unfolding(crate::specs::Areas::area_cmp))]
    pub fn comes_before(self, other: Counted) -> bool
        ensures { result ≡ count_before self other }
    {
        match Area::In(self.region).cmp(&Area::In(other.region)) {
            Ordering::Less => true,
            Ordering::Equal | Ordering::Greater => false,
        }
    }
}
