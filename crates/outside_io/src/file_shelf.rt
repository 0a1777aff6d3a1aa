ghost use Rattle.std.specs.Prelude.{◌≡◌, ◌≢◌, ℕ, List, ◌-◌, ◌<◌, ◌≤◌, ◌^◌, length, IfOk, IfErr, IsErrOf, OnOk, None};
ghost use Rattle.outside_io.specs.Outside.{next_count, IsWhole};
ghost use Rattle.outside_io.specs.Refusals.{IsReadRefused, Exceeds};

use crate::shelf::{Shelf, ShelfFault};
use std::alloc::Global;
use std::io::Read;
use std::rt::Files;
use std::{fs, io};

/// The shelf of the file system: a name is a path. It does not tell what it holds.
#[derive(Drop)]
pub struct FileShelf<R: Files + Drop> {
    rt: R,
    faults: u64,
}

impl<R: Files + Drop> FileShelf<R> {
    /// A shelf of the files that `rt` may open. No read failed yet.
    pub fn new(rt: R) -> FileShelf<R>
        ensures { result ≡ record { rt = rt; faults = 0 } }
    {
        FileShelf { rt, faults: 0 }
    }
}

impl<R: Files + Drop> Shelf for FileShelf<R> {
    ghost contents = { λ s. None };

    ghost faults = { λ s name. s.faults };

    fn read_whole(&mut self, alloc: Global, name: &str, limit: u64) -> Result<Vec<u8>, ShelfFault>
        requires { limit < 2 ^ 64 - 1 }
        ensures whole { IfOk result (λ content. IsWhole None name.now limit content.items) }
        ensures refused { IfErr result (λ fault. IsReadRefused None self.old.faults self.new.faults name.now limit fault) }
        ensures failed { IsErrOf result ShelfFault.Failed → self.new.faults ≡ next_count self.old.faults }
        ensures read { OnOk result (self.new.faults ≡ self.old.faults) }
        ensures rising { self.old.faults ≤ self.new.faults }
    {
        let content = match read_file(&self.rt, alloc, name, limit + 1) {
            Ok(content) => content,
            Err(e) => {
                if e.kind() == io::ErrorKind::OutOfMemory {
                    return Err(ShelfFault::Memory);
                }
                self.faults = self.faults.saturating_add(1);
                return Err(ShelfFault::Failed);
            }
        };
        if content.len() as u64 > limit {
            return Err(ShelfFault::TooLong { seen: limit + 1 });
        }
        Ok(content)
    }
}

// At most the first `most` bytes of the file.
fn read_file<R: Files>(rt: &R, alloc: Global, path: &str, most: u64) -> io::Result<Vec<u8>> {
    let mut content = Vec::new(alloc);
    fs::open(rt, path)?.take(most).read_to_end(&mut content)?;
    Ok(content)
}
