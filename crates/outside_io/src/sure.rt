ghost use Rattle.std.specs.Prelude.{◌≡◌, ◌≢◌, ℕ, List, [], Some, None, unwrap_or, ◌-◌, ◌<◌, ◌≤◌, ◌^◌, length, take, IfOk, IfErr, IsOk, OnOk, OnErr};
ghost use Rattle.outside_io.specs.Outside.{held_in, surely_held, IsWhole};

use crate::files::{Files, copy_of, put_file};
use crate::shelf::{Shelf, ShelfFault};
use crate::sink::{Sink, SinkFailed};
use bit_words::NoMemory;
use std::alloc::Global;
use std::collections::BTreeMap;

/// A shelf in memory that never fails: under each name that was not put it holds the empty content.
#[derive(Drop)]
pub struct SureShelf {
    files: Files,
}

impl SureShelf {
    /// A shelf that holds the empty content under every name.
    pub fn new(alloc: Global) -> SureShelf
        ensures { (name : List ℕ) → held_in result.files name ≡ None }
    {
        SureShelf {
            files: BTreeMap::new(alloc),
        }
    }

    /// Gives a name its content. After want of memory the shelf holds what it held.
    pub fn put(&mut self, name: &str, content: Vec<u8>) -> Result<(), NoMemory>
        ensures named { OnOk result (held_in self.new.files name.now ≡ Some content.items) }
        ensures others { (other : List ℕ) → other ≢ name.now → held_in self.new.files other ≡ held_in self.old.files other }
        ensures unchanged { OnErr result (held_in self.new.files ≡ held_in self.old.files) }
    {
        put_file(&mut self.files, name, content)
    }
}

impl Shelf for SureShelf {
    ghost contents = { λ s. Some (surely_held s.files) };

    ghost faults = { λ s name. 0 };

    fn read_whole(&mut self, alloc: Global, name: &str, limit: u64) -> Result<Vec<u8>, ShelfFault> {
        match self.files.get(name) {
            None => Ok(Vec::new(alloc)),
            Some(content) => copy_of(alloc, content, limit),
        }
    }
}

/// A sink that takes every piece whole and keeps nothing.
#[derive(Clone, Copy, Drop)]
pub struct SureSink;

impl Sink for SureSink {
    ghost written = { λ s. None };

    ghost faults = { λ s. 0 };

    fn write(&mut self, piece: &[u8]) -> Result<usize, SinkFailed>
        ensures whole { result ≡ Ok (length piece.now) }
    {
        Ok(piece.len())
    }
}
