ghost use Rattle.std.specs.Prelude.{ℕ, ◌≡◌, ◌==◌, ◌||◌, false, OnOk};
ghost use Rattle.std.specs.BTreeSet.{contains};
ghost use Rattle.std.specs.Ordering.{nat_cmp};

use std::alloc::{AllocError, Global};
use std::collections::BTreeSet;

// Addresses at which names were read.
#[derive(Drop)]
pub struct NamedPlaces {
    pub held: BTreeSet<u32>,
}

impl NamedPlaces {
    pub fn new(alloc: Global) -> NamedPlaces
        ensures { (a : ℕ) → contains nat_cmp result.held a ≡ false }
    {
        NamedPlaces {
            held: BTreeSet::new(alloc),
        }
    }

    pub fn has(&self, a: u32) -> bool
        ensures { result ≡ contains nat_cmp self.now.held a }
    {
        self.held.contains(&a)
    }

    pub fn insert(&mut self, a: u32) -> Result<(), AllocError>
        ensures { OnOk result ((other : ℕ) → contains nat_cmp self.new.held other ≡ (a == other || contains nat_cmp self.old.held other)) }
    {
        self.held.insert(a)?;
        Ok(())
    }
}
