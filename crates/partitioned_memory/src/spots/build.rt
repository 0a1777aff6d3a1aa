ghost use Rattle.std.specs.Prelude.{◌≡◌, IfOk};
ghost use Rattle.partitioned_memory.specs.Lists.{Ascends};
ghost use Rattle.partitioned_memory.specs.Pairs.{pair_before};

use crate::fact::Spot;
use crate::leaf::push_pairs;
use crate::spots::Spots;
use bit_words::NoMemory;
use std::alloc::Global;

impl<V: Copy> Spots<V> {
    /// These pairs, which ascend.
    pub(crate) fn build(alloc: Global, pairs: &[(Spot, V)]) -> Result<Spots<V>, NoMemory>
        requires { Ascends pair_before pairs.now }
        ensures { IfOk result (λ all. all ≡ pairs.now) }
    {
        let mut leaves = Vec::new(alloc);
        push_pairs(alloc, &mut leaves, pairs)?;
        Ok(Spots { leaves })
    }
}
