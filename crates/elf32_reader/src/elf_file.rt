ghost use Rattle.std.specs.Prelude.{◌≡◌, true, map, length};
ghost use Rattle.std.specs.List.{list_all};
ghost use Rattle.memory_map.specs.Map.{range_of};
ghost use Rattle.elf32_reader.specs.Relocations.{has_name_below, is_inside};

use crate::ElfReloc;
use file_pieces::Names;
use memory_map::{Items, Segments};

/// What a 32-bit ELF file for the Intel386 lays out (System V ABI, chapters 4 and 5).
#[derive(Drop)]
pub struct ElfFile {
    /// Whether it is a shared object.
    pub dynamic: bool,
    /// What was added to the file's addresses.
    pub bias: u32,
    /// The address of the first instruction.
    pub entry: u32,
    /// The segments before any relocation.
    pub segments: Segments,
    /// The relocations that do anything, in the order in which they are applied.
    pub relocs: Items<ElfReloc>,
    /// The names that these import, in the order in which they are first seen.
    pub names: Names,
    // What each relocation changes lies in one segment, and the name that it imports is one of the names.
    ghost inside: { list_all (is_inside (map range_of segments)) relocs ≡ true },
    ghost named: { list_all (has_name_below (length names)) relocs ≡ true },
}
