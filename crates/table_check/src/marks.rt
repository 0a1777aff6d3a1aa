ghost use Rattle.std.specs.Prelude.{◌≡◌, IfOk, nat_eq};
ghost use Rattle.std.specs.HashSet.{contains};
ghost use Rattle.table_check.specs.Checking.{AreMarksOf};

use bit_words::NoMemory;
use std::alloc::Global;
use std::collections::HashSet;

/// Marked locations, to look up.
#[derive(Drop)]
pub struct Marks {
    held: HashSet<u32>,
}

impl Marks {
    /// These locations.
    pub fn of(alloc: Global, marked: &[u32]) -> Result<Marks, NoMemory>
        ensures { IfOk result (λ marks. AreMarksOf marks marked.now) }
    {
        let mut held = HashSet::new(alloc);
        for at in marked {
            held.insert(*at)?;
        }
        Ok(Marks { held })
    }

    /// Whether a location is one of them.
    pub fn contain(&self, at: u32) -> bool
        ensures { result ≡ contains nat_eq self.now.held at }
    {
        self.held.contains(&at)
    }
}
