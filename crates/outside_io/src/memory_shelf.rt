ghost use Rattle.std.specs.Prelude.{◌≡◌, ◌≢◌, ℕ, List, Some, IsTrue, ◌-◌, ◌<◌, ◌≤◌, ◌^◌, ◌↔◌, ◌||◌, is_none, if◌then◌else◌, IfOk, IfErr, IsErrOf, OnOk, OnErr};
ghost use Rattle.outside_io.specs.Outside.{held_in, IsWhole, is_listed, next_count};
ghost use Rattle.outside_io.specs.Refusals.{IsReadRefused};

use crate::files::{Files, copy_of, put_file};
use crate::shelf::{Shelf, ShelfFault};
use bit_words::NoMemory;
use std::alloc::Global;
use std::collections::BTreeMap;

/// A shelf in memory, which fails where it is told to.
#[derive(Drop)]
pub struct MemoryShelf {
    files: Files,
    fail_at: Vec<u64>,
    calls: u64,
    faults: u64,
}

impl MemoryShelf {
    /// A shelf that holds no name. The reads with the numbers `fail_at` fail; the first read has number 1.
    pub fn new(alloc: Global, fail_at: Vec<u64>) -> MemoryShelf
        ensures empty { (name : List ℕ) → held_in result.files name ≡ None }
        ensures fail_at { result.fail_at.items ≡ fail_at.items }
        ensures calls { result.calls ≡ 0 }
        ensures faults { result.faults ≡ 0 }
    {
        MemoryShelf {
            files: BTreeMap::new(alloc),
            fail_at,
            calls: 0,
            faults: 0,
        }
    }

    /// Gives a name its content. After want of memory the shelf holds what it held.
    pub fn put(&mut self, name: &str, content: Vec<u8>) -> Result<(), NoMemory>
        ensures named { OnOk result (held_in self.new.files name.now ≡ Some content.items) }
        ensures others { (other : List ℕ) → other ≢ name.now → held_in self.new.files other ≡ held_in self.old.files other }
        ensures unchanged { OnErr result (held_in self.new.files ≡ held_in self.old.files) }
        ensures fail_at { self.new.fail_at ≡ self.old.fail_at }
        ensures calls { self.new.calls ≡ self.old.calls }
        ensures faults { self.new.faults ≡ self.old.faults }
    {
        put_file(&mut self.files, name, content)
    }

    fn fail(&mut self) -> ShelfFault
        ensures failed { result ≡ ShelfFault.Failed }
        ensures counted { self.new ≡ record self.old { faults = next_count self.old.faults } }
        ensures rising { self.old.faults ≤ self.new.faults }
    {
        self.faults = self.faults.saturating_add(1);
        ShelfFault::Failed
    }
}

impl Shelf for MemoryShelf {
    ghost contents = { λ s. Some (held_in s.files) };

    ghost faults = { λ s name. s.faults };

    fn read_whole(&mut self, alloc: Global, name: &str, limit: u64) -> Result<Vec<u8>, ShelfFault>
        requires { limit < 2 ^ 64 - 1 }
        ensures whole { IfOk result (λ content. IsWhole (Some (held_in self.old.files)) name.now limit content.items) }
        ensures refused { IfErr result (λ fault. IsReadRefused (Some (held_in self.old.files)) self.old.faults self.new.faults name.now limit fault) }
        ensures exact { IsErrOf result ShelfFault.Failed ↔ IsTrue (is_listed self.old.fail_at.items (next_count self.old.calls) || is_none (held_in self.old.files name.now)) }
        ensures faults { self.new.faults ≡ (if is_listed self.old.fail_at.items (next_count self.old.calls) || is_none (held_in self.old.files name.now) then next_count self.old.faults else self.old.faults) }
        ensures contents { self.new.files ≡ self.old.files }
        ensures fail_at { self.new.fail_at ≡ self.old.fail_at }
        ensures calls { self.new.calls ≡ next_count self.old.calls }
        ensures rising { self.old.faults ≤ self.new.faults }
    {
        self.calls = self.calls.saturating_add(1);
        if self.fail_at.contains(&self.calls) {
            return Err(self.fail());
        }
        match self.files.get(name) {
            None => Err(self.fail()),
            Some(content) => copy_of(alloc, content, limit),
        }
    }
}
