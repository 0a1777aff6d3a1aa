ghost use Rattle.std.specs.Prelude.{◌≡◌, ◌≢◌, ℕ, List, Some, ◌-◌, ◌<◌, ◌≤◌, ◌^◌, length, IfOk, IfErr, OnOk, OnErr};
ghost use Rattle.outside_io.specs.Outside.{held_in};
ghost use Rattle.outside_io.specs.Refusals.{Exceeds};

use crate::shelf::ShelfFault;
use bit_words::NoMemory;
use std::alloc::Global;
use std::collections::BTreeMap;

/// Contents in memory, by name.
pub type Files = BTreeMap<String, Vec<u8>>;

/// Gives a name its content.
pub fn put_file(files: &mut Files, name: &str, content: Vec<u8>) -> Result<(), NoMemory>
    ensures named { OnOk result (held_in files.new name.now ≡ Some content.items) }
    ensures others { (other : List ℕ) → other ≢ name.now → held_in files.new other ≡ held_in files.old other }
    ensures unchanged { OnErr result (held_in files.new ≡ held_in files.old) }
{
    let name = String::from_str(*content.allocator(), name)?;
    files.insert(name, content)?;
    Ok(())
}

/// A copy of the content where it is not longer than `limit`.
pub fn copy_of(alloc: Global, content: &[u8], limit: u64) -> Result<Vec<u8>, ShelfFault>
    requires { limit < 2 ^ 64 - 1 }
    ensures whole { IfOk result (λ copy. copy.items ≡ content.now) }
    ensures within { IfOk result (λ _. length content.now ≤ limit) }
    ensures refused { IfErr result (λ fault. Exceeds content.now limit fault) }
    ensures read { result ≢ Err ShelfFault.Failed }
{
    if content.len() as u64 > limit {
        return Err(ShelfFault::TooLong { seen: limit + 1 });
    }
    Vec::from_slice(alloc, content).map_err(|_| ShelfFault::Memory)
}
