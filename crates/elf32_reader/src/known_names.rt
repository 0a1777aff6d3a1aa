ghost use Rattle.std.specs.Prelude.{ℕ, ◌≡◌, ◌==◌, None, Some, OnOk, if◌then◌else◌};
ghost use Rattle.std.specs.BTreeMap.{get};
ghost use Rattle.std.specs.Ordering.{nat_cmp};

use std::alloc::{AllocError, Global};
use std::collections::BTreeMap;

// The indexes of names that are read already, by the st_name of their symbols.
#[derive(Drop)]
pub struct KnownNames {
    pub indexes: BTreeMap<u32, u32>,
}

impl KnownNames {
    pub fn new(alloc: Global) -> KnownNames
        ensures { (offset : ℕ) → get nat_cmp result.indexes offset ≡ None }
    {
        KnownNames {
            indexes: BTreeMap::new(alloc),
        }
    }

    pub fn get(&self, offset: u32) -> Option<u32>
        ensures { result ≡ get nat_cmp self.now.indexes offset }
    {
        self.indexes.get(&offset).copied()
    }

    pub fn insert(&mut self, offset: u32, index: u32) -> Result<(), AllocError>
        ensures { OnOk result ((other : ℕ) → get nat_cmp self.new.indexes other ≡ (if offset == other then Some index else get nat_cmp self.old.indexes other)) }
    {
        self.indexes.insert(offset, index)?;
        Ok(())
    }
}
