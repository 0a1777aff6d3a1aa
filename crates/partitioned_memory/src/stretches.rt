ghost use Rattle.std.specs.Prelude.{◌≡◌, not};
ghost use Rattle.std.specs.Ordering.{is_lt};
ghost use Rattle.address_regions.specs.declared.region.Region.TheVariants.{Stack};
ghost use Rattle.partitioned_memory.specs.declared.area.Area.TheVariants.{In};
ghost use Rattle.partitioned_memory.specs.Areas.{area_cmp, is_before, is_left};
ghost use Rattle.partitioned_memory.specs.Held.{dirty_at, fact_at, interval_of_dirty, interval_of_fact, is_after_below};

use crate::area::{Area, Interval};
use crate::fact::{Dirty, Fact, Held, Spot};
use crate::stretch::Stretch;
use address_regions::Region;
use std::cmp::Ordering;

// Whether an area comes before another.
#[tactic(auto, unfolding(crate::specs::Areas::area_cmp))]
fn is_earlier(a: Area, b: Area) -> bool
    ensures { result ≡ is_lt (area_cmp a b) }
{
    match a.cmp(&b) {
        Ordering::Less => true,
        Ordering::Equal | Ordering::Greater => false,
    }
}

/// Facts that share a byte with an interval.
#[derive(Clone, Copy)]
pub(crate) struct Meeting(pub(crate) Interval);

impl<D: Copy> Stretch<Held<D>> for Meeting {
    ghost before = { λ m p. is_before (interval_of_fact (fact_at p)) m.0 };

    ghost after = { λ m p. is_before m.0 (interval_of_fact (fact_at p)) };

    fn starts_after(&self, pair: &(Spot, Held<D>)) -> bool {
        Fact::at(pair).interval().is_before(self.0)
    }

    fn ends_before(&self, pair: &(Spot, Held<D>)) -> bool {
        self.0.is_before(Fact::at(pair).interval())
    }
}

/// Dirty ranges that share a byte with an interval or touch it.
#[derive(Clone, Copy)]
pub(crate) struct Touching(pub(crate) Interval);

impl Stretch<i64> for Touching {
    ghost before = { λ t p. is_left (interval_of_dirty (dirty_at p)) t.0 };

    ghost after = { λ t p. is_left t.0 (interval_of_dirty (dirty_at p)) };

    fn starts_after(&self, pair: &(Spot, i64)) -> bool {
        Dirty::at(pair).interval().is_left(self.0)
    }

    fn ends_before(&self, pair: &(Spot, i64)) -> bool {
        self.0.is_left(Dirty::at(pair).interval())
    }
}

/// The facts of an area.
#[derive(Clone, Copy)]
pub(crate) struct Within(pub(crate) Area);

impl<D: Copy> Stretch<Held<D>> for Within {
    ghost before = { λ a p. is_lt (area_cmp p.0.area a.0) };

    ghost after = { λ a p. is_lt (area_cmp a.0 p.0.area) };

    fn starts_after(&self, pair: &(Spot, Held<D>)) -> bool {
        is_earlier(pair.0.area, self.0)
    }

    fn ends_before(&self, pair: &(Spot, Held<D>)) -> bool {
        is_earlier(self.0, pair.0.area)
    }
}

/// Facts of the stack with a byte below an offset.
#[derive(Clone, Copy)]
pub(crate) struct Below(i64);

impl Below {
    pub(crate) fn offset(high: i64) -> Below
        ensures { result.0 ≡ high }
    {
        Below(high)
    }
}

impl<D: Copy> Stretch<Held<D>> for Below {
    ghost before = { λ b p. is_lt (area_cmp p.0.area (In Stack)) };

    ghost after = { λ b p. is_after_below b.0 (fact_at p) };

    fn starts_after(&self, pair: &(Spot, Held<D>)) -> bool {
        is_earlier(pair.0.area, Area::In(Region::Stack))
    }

    fn ends_before(&self, pair: &(Spot, Held<D>)) -> bool {
        let is_earlier = is_earlier(pair.0.area, Area::In(Region::Stack));
        !is_earlier && !Fact::at(pair).is_stack_below(self.0)
    }
}
