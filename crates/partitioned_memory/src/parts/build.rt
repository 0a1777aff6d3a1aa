ghost use Rattle.std.specs.Prelude.{◌≡◌, IfOk, map};
ghost use Rattle.domain_laws.specs.Made.{values_of};
ghost use Rattle.partitioned_memory.specs.Held.{pair_of_dirty, pair_of_fact};
ghost use Rattle.partitioned_memory.specs.Well.{IsWell};

use crate::dirty_list::ranges_of;
use crate::fact::{Counted, Dirty, Fact, Held, Spot};
use crate::parts::Parts;
use crate::spots::Spots;
use bit_words::NoMemory;
use domain_laws::Domain;
use std::alloc::Global;

fn fact_pairs<D: Domain>(alloc: Global, facts: &[Fact<D>]) -> Result<Vec<(Spot, Held<D>)>, NoMemory>
    ensures { IfOk result (λ pairs. pairs.items ≡ map pair_of_fact facts.now) }
{
    Ok(facts.iter().map(|f| f.pair()).collect(alloc)?)
}

fn dirty_pairs(alloc: Global, dirty: &[Dirty]) -> Result<Vec<(Spot, i64)>, NoMemory>
    ensures { IfOk result (λ pairs. pairs.items ≡ map pair_of_dirty dirty.now) }
{
    Ok(dirty.iter().map(|r| r.pair()).collect(alloc)?)
}

impl<D: Domain> Parts<D> {
    /// The parts with exactly these lists, each of which ascends. Refuses want of memory alone.
    pub fn build(
        alloc: Global,
        facts: &[Fact<D>],
        dirty: &[Dirty],
        blocks: &[Counted],
    ) -> Result<Parts<D>, NoMemory>
        requires { IsWell (values_of D.Domain.own D.eq) (record { facts = facts.now; dirty = dirty.now; blocks = blocks.now }) }
        ensures { IfOk result (λ parts. parts ≡ record { facts = facts.now; dirty = dirty.now; blocks = blocks.now }) }
    {
        let held = fact_pairs(alloc, facts)?;
        let sizes = dirty_pairs(alloc, dirty)?;
        Ok(Parts {
            facts: Spots::build(alloc, &held)?,
            dirty: Spots::build(alloc, &sizes)?,
            blocks: Vec::from_slice(alloc, blocks)?,
        })
    }

    /// The dirty ranges again, in order.
    pub fn copy_dirty(&self) -> Result<Vec<Dirty>, NoMemory>
        ensures { IfOk result (λ copy. copy.items ≡ self.now.dirty) }
    {
        ranges_of(self.alloc(), &self.dirty)
    }

    /// The counts of blocks again, in order.
    pub fn copy_blocks(&self) -> Result<Vec<Counted>, NoMemory>
        ensures { IfOk result (λ copy. copy.items ≡ self.now.blocks) }
    {
        Ok(Vec::from_slice(self.alloc(), &self.blocks)?)
    }
}
