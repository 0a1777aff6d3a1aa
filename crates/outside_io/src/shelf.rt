ghost use Rattle.std.specs.Prelude.{◌≡◌, ℕ, List, Option, ◌-◌, ◌<◌, ◌≤◌, ◌^◌, IfOk, IfErr};
ghost use Rattle.outside_io.specs.Outside.{Contents, IsWhole};
ghost use Rattle.outside_io.specs.Refusals.{IsReadRefused};

use std::alloc::Global;
use thiserror::Error;

/// Why a read gave no content.
#[derive(Clone, Copy, Debug, Drop, Error, PartialEq, Eq)]
pub enum ShelfFault {
    /// The name is missing, or its content could not be read.
    #[error("cannot read")]
    Failed,
    /// The content is longer than the limit of the read; `seen` is that limit and 1.
    #[error("too long: {seen} bytes and more")]
    TooLong { seen: u64 },
    /// Want of memory.
    #[error("no memory")]
    Memory,
}

/// A place from which whole contents are read by their names.
pub trait Shelf {
    // What is held under each name, where the shelf tells that.
    ghost contents: { Self → Option Contents };

    // For each name the number of reads that failed, which stays at 2 ^ 64 - 1 once there.
    ghost faults: { Self → List ℕ → ℕ };

    /// The whole content under a name, of at most `limit` bytes. Refuses a name that is missing or not read as Failed, and a
    /// longer content as TooLong. What is held does not change.
    fn read_whole(&mut self, alloc: Global, name: &str, limit: u64) -> Result<Vec<u8>, ShelfFault>
        requires { limit < 2 ^ 64 - 1 }
        ensures whole { IfOk result (λ content. IsWhole (contents self.old) name.now limit content.items) }
        ensures refused { IfErr result (λ fault. IsReadRefused (contents self.old) (faults self.old name.now) (faults self.new name.now) name.now limit fault) }
        ensures contents { contents self.new ≡ contents self.old }
        ensures rising { (other : List ℕ) → faults self.old other ≤ faults self.new other };
}
