ghost use Rattle.std.specs.Prelude.{◌≡◌, ◌⊎◌, MatchResult, Ok, Err};
ghost use Rattle.pe32_reader.specs.Image.{image_of, shown};

use crate::imports::imports_of;
use crate::slots::fill_slots;
use file_pieces::Names;
use memory_map::Segments;
use pe_headers::{PeFault, entry, image_base, import_directory, map_file};
use std::alloc::Global;

/// What a PE file says of the image that is loaded from it.
#[derive(Drop)]
pub struct PeFile {
    /// The address at which it is loaded.
    pub base: u32,
    /// The address of the first instruction.
    pub entry: u32,
    /// The headers and the sections, in the order of the section table, with the place of each import in its slots.
    pub segments: Segments,
    /// The imported names in first-seen order, at most 65,535.
    pub names: Names,
}

/// The image of a file, or its first fault.
pub fn read_pe(alloc: Global, bytes: &[u8]) -> Result<PeFile, PeFault>
    ensures { MatchResult result (λ file. image_of bytes.now ≡ Ok (shown file)) (λ fault. (fault ≡ PeFault.Memory) ⊎ (image_of bytes.now ≡ Err fault)) }
{
    let mut segments = map_file(alloc, bytes)?;
    let base = image_base(bytes);
    let imported = imports_of(alloc, &segments, base, import_directory(bytes))?;
    fill_slots(&mut segments, &imported.slots);
    let names = imported.names.into_names(alloc)?;
    Ok(PeFile {
        base,
        entry: entry(bytes),
        segments,
        names,
    })
}
