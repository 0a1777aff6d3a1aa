ghost use Rattle.std.specs.Prelude.{◌≡◌, ◌≤◌, true, false, IfNone, IfSome, drop, length, slice_get, take};
ghost use Rattle.memory_map.specs.Ascending.{ascend};
ghost use Rattle.partitioned_memory.specs.Building.{has_count};
ghost use Rattle.partitioned_memory.specs.Held.{count_before, is_counted};
ghost use Rattle.partitioned_memory.specs.Lists.{Every, Falls};

use crate::fact::Counted;
use address_regions::Region;
use std::marker::Model;

/// Counts of blocks that ascend by region, so that one is found by halving.
#[derive(Drop)]
pub(crate) struct Counts<'a> {
    blocks: &'a [Counted],
}

impl<'a> Model for Counts<'a> {
    ghost use Rattle.std.specs.Prelude.{List};
    ghost use Rattle.partitioned_memory.specs.declared.fact.Counted.{Counted};
    ghost use Rattle.partitioned_memory.specs.Held.{count_before};
    ghost use Rattle.partitioned_memory.specs.Lists.{Ascends};

    ghost Value = { List Counted };

    ghost view = { λ c. c.blocks.now };

    ghost invariant = { λ c. Ascends count_before c.blocks.now };
}

fn counts_ascend(blocks: &[Counted]) -> bool
    ensures { result ≡ ascend count_before blocks.now }
{
    blocks.is_sorted_by(|c, e| c.comes_before(*e))
}

// How many counts come before another: they come first.
fn counts_before(blocks: &[Counted], other: Counted) -> usize
    requires { Falls (λ c. count_before c other) blocks.now }
    ensures within { result ≤ length blocks.now }
    ensures front { Every (λ c. count_before c other ≡ true) (take result blocks.now) }
    ensures back { Every (λ c. count_before c other ≡ false) (drop result blocks.now) }
{
    blocks.partition_point(|c| c.comes_before(other))
}

fn count_at(blocks: &[Counted], at: usize) -> Option<Counted>
    ensures { result ≡ slice_get blocks.now at }
{
    blocks.get(at).copied()
}

impl<'a> Counts<'a> {
    /// The counts. None exactly where they do not ascend.
    pub(crate) fn of(blocks: &'a [Counted]) -> Option<Counts<'a>>
        ensures same { IfSome result (λ counts. counts ≡ blocks.now) }
        ensures some { IfSome result (λ _. ascend count_before blocks.now ≡ true) }
        ensures none { IfNone result (ascend count_before blocks.now ≡ false) }
    {
        if counts_ascend(blocks) {
            Some(Counts { blocks })
        } else {
            None
        }
    }

    fn is_counted(&self, region: Region) -> bool
        ensures { result ≡ is_counted region self.now }
    {
        let first = Counted {
            region,
            many: false,
        };
        let at = counts_before(self.blocks, first);
        match count_at(self.blocks, at) {
            Some(c) => c.is_of(region),
            None => false,
        }
    }

    /// Whether a block region, where one is named, has a count.
    pub(crate) fn has(&self, region: Option<Region>) -> bool
        ensures { result ≡ has_count self.now region }
    {
        match region {
            Some(region) => self.is_counted(region),
            None => true,
        }
    }
}
