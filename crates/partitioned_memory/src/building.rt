ghost use Rattle.std.specs.Prelude.{◌≡◌, IsTrue};
ghost use Rattle.std.specs.List.{list_all};
ghost use Rattle.domain_laws.specs.Made.{values_of};
ghost use Rattle.domain_laws.specs.Reached.{named};
ghost use Rattle.partitioned_memory.specs.Areas.{block_in};
ghost use Rattle.memory_map.specs.Ascending.{ascend};
ghost use Rattle.partitioned_memory.specs.Building.{are_sound_dirty, are_sound_facts, are_well, fits_width, has_count, is_block, is_counted_dirty, is_counted_fact, is_counted_value, is_sound_dirty, is_sound_fact, lies_inside, may_hold};
ghost use Rattle.partitioned_memory.specs.Held.{dirty_before, fact_before};
ghost use Rattle.partitioned_memory.specs.Well.{IsWell};

use crate::area::{Area, Interval};
use crate::count_list::is_counted;
use crate::counts::Counts;
use crate::fact::{Counted, Dirty, Fact};
use address_regions::Region;
use bit_words::Width;
use domain_laws::{Domain, Reach};

impl Interval {
    fn lies_inside(self) -> bool
        ensures { result ≡ lies_inside self }
    {
        let (least, limit) = self.area.bounds();
        i128::from(least) <= self.low
            && (self.low <= self.end
                && (self.end <= i128::from(limit) && self.end <= 0x1_0000_0000))
    }
}

fn block_in(area: Area) -> Option<Region>
    ensures { result ≡ block_in area }
{
    match area {
        Area::Image => None,
        Area::In(region) => {
            if region.has_one_base() {
                None
            } else {
                Some(region)
            }
        }
    }
}

// The block region that a value names.
fn named<D: Domain>(v: D) -> Option<Region>
    ensures { result ≡ named (D.Domain.own.reach v) }
{
    match v.reach() {
        Reach::Place { region, .. } => block_in(Area::In(region)),
        Reach::Number { .. } => None,
        Reach::Anywhere => None,
    }
}

fn has_count(blocks: &[Counted], region: Option<Region>) -> bool
    ensures { result ≡ has_count blocks.now region }
{
    match region {
        None => true,
        Some(region) => is_counted(blocks, region),
    }
}

fn fits_width<D: Domain>(w: Width, v: D) -> bool
    ensures { result ≡ fits_width (values_of D.Domain.own D.eq) w v }
{
    match v.number_of() {
        Some(n) => u64::from(n) < w.size(),
        None => true,
    }
}

// Whether the block region that a value names, where it names one, has a count.
fn is_counted_value<D: Domain>(blocks: &[Counted], v: D) -> bool
    ensures { result ≡ is_counted_value (values_of D.Domain.own D.eq) blocks.now v }
{
    has_count(blocks, named(v))
}

/// Whether a value may be kept at a width: a number fits it, and the block region that the value names, where it names one, has a count.
pub fn may_hold<D: Domain>(blocks: &[Counted], w: Width, v: D) -> bool
    ensures { result ≡ may_hold (values_of D.Domain.own D.eq) blocks.now w v }
{
    fits_width(w, v) && is_counted_value(blocks, v)
}

impl<D: Domain> Fact<D> {
    /// Whether it lies in its area, its value has a rank above 0, and a number fits its width.
    pub fn is_sound(&self) -> bool
        ensures { result ≡ is_sound_fact (values_of D.Domain.own D.eq) self.now }
    {
        self.interval().lies_inside() && (self.value.rank() != 0 && fits_width(self.w, self.value))
    }

    /// Whether it lies before another and shares no byte with it.
    pub fn is_before(&self, other: &Fact<D>) -> bool
        ensures { result ≡ fact_before self.now other.now }
    {
        self.interval().is_before(other.interval())
    }

    fn is_counted(&self, counts: &Counts) -> bool
        ensures { result ≡ is_counted_fact (values_of D.Domain.own D.eq) counts.now self.now }
    {
        counts.has(block_in(self.area)) && counts.has(named(self.value))
    }
}

impl Dirty {
    /// Whether it has a byte, and lies in the image or in a zeroed block.
    pub fn is_sound(self) -> bool
        ensures { result ≡ is_sound_dirty self }
    {
        let own = self.interval();
        own.low < own.end && (own.lies_inside() && self.area.is_marked())
    }

    /// Whether it lies before another and does not touch it.
    pub fn comes_before(self, other: Dirty) -> bool
        ensures { result ≡ dirty_before self other }
    {
        self.interval().is_left(other.interval())
    }

    fn is_counted(self, counts: &Counts) -> bool
        ensures { result ≡ is_counted_dirty counts.now self }
    {
        counts.has(block_in(self.area))
    }
}

impl Counted {
    /// Whether its region is a block.
    pub fn is_block(self) -> bool
        ensures { result ≡ is_block self }
    {
        !self.region.has_one_base()
    }
}

fn facts_ascend<D: Domain>(facts: &[Fact<D>]) -> bool
    ensures { result ≡ ascend fact_before facts.now }
{
    facts.is_sorted_by(|f, g| f.is_before(g))
}

fn dirty_ascends(dirty: &[Dirty]) -> bool
    ensures { result ≡ ascend dirty_before dirty.now }
{
    dirty.is_sorted_by(|r, s| r.comes_before(*s))
}

fn facts_are_sound<D: Domain>(facts: &[Fact<D>]) -> bool
    ensures { result ≡ list_all (is_sound_fact (values_of D.Domain.own D.eq)) facts.now }
{
    facts.iter().all(|f| f.is_sound())
}

fn facts_are_counted<D: Domain>(counts: &Counts, facts: &[Fact<D>]) -> bool
    ensures { result ≡ list_all (is_counted_fact (values_of D.Domain.own D.eq) counts.now) facts.now }
{
    facts.iter().all(|f| f.is_counted(counts))
}

fn are_sound_facts<D: Domain>(counts: &Counts, facts: &[Fact<D>]) -> bool
    ensures { result ≡ are_sound_facts (values_of D.Domain.own D.eq) counts.now facts.now }
{
    facts_ascend(facts) && (facts_are_sound(facts) && facts_are_counted(counts, facts))
}

fn dirty_are_sound(dirty: &[Dirty]) -> bool
    ensures { result ≡ list_all is_sound_dirty dirty.now }
{
    dirty.iter().all(|r| r.is_sound())
}

fn dirty_are_counted(counts: &Counts, dirty: &[Dirty]) -> bool
    ensures { result ≡ list_all (is_counted_dirty counts.now) dirty.now }
{
    dirty.iter().all(|r| r.is_counted(counts))
}

fn are_sound_dirty(counts: &Counts, dirty: &[Dirty]) -> bool
    ensures { result ≡ are_sound_dirty counts.now dirty.now }
{
    dirty_ascends(dirty) && (dirty_are_sound(dirty) && dirty_are_counted(counts, dirty))
}

fn are_of_blocks(blocks: &[Counted]) -> bool
    ensures { result ≡ list_all is_block blocks.now }
{
    blocks.iter().all(|c| c.is_block())
}

/// Whether parts may be built of these lists: each ascends, facts share no byte and dirty ranges neither share a byte nor touch,
/// each fact and each dirty range is sound, each count is of a block, and each block region that is named is counted.
#[tactic(auto, unfolding(crate::specs::Building::are_well))]
pub fn are_well<D: Domain>(facts: &[Fact<D>], dirty: &[Dirty], blocks: &[Counted]) -> bool
    ensures value { result ≡ are_well (values_of D.Domain.own D.eq) (record { facts = facts.now; dirty = dirty.now; blocks = blocks.now }) }
    ensures well { IsTrue result → IsWell (values_of D.Domain.own D.eq) (record { facts = facts.now; dirty = dirty.now; blocks = blocks.now }) }
{
    let Some(counts) = Counts::of(blocks) else {
        return false;
    };
    are_of_blocks(blocks) && (are_sound_facts(&counts, facts) && are_sound_dirty(&counts, dirty))
}
