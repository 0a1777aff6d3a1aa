ghost use Rattle.std.specs.Prelude.{◌≡◌, ◌≤◌, ◌%◌, map, length, IfOk};
ghost use Rattle.memory_map.specs.Map.{range_of};
ghost use Rattle.pe32_reader.specs.Imports.{import_name, ordinal_name};

use file_pieces::name_from;
use itoa::Buffer;
use memory_map::{Name, Segments};
use pe_headers::address_from;
use std::alloc::{AllocError, Global};

// The longest name and the 0 that ends it.
pub const NAME_BYTES: u64 = 4097;

const BY_ORDINAL: u32 = 0x8000_0000;

fn ordinal_name(alloc: Global, library: &[u8], number: u16) -> Result<Option<Name>, AllocError>
    ensures { IfOk result (λ name. name ≡ ordinal_name library.now number) }
{
    let mut buffer = Buffer::new();
    let mut name = Vec::from_slice(alloc, library)?;
    name.push(b'#')?;
    name.extend_from_slice(buffer.format(number).as_bytes())?;
    Ok(Name::new(name))
}

// The name that a thunk word of a library imports, where it is one.
pub fn import_name(
    alloc: Global,
    segments: &Segments,
    base: u32,
    library: &[u8],
    word: u32,
) -> Result<Option<Name>, AllocError>
    ensures { IfOk result (λ name. name ≡ import_name (map range_of segments.now) base library.now word) }
{
    if word >= BY_ORDINAL {
        return ordinal_name(alloc, library, (word % 0x1_0000) as u16);
    }
    let at = address_from(base, word + 2);
    match name_from(segments, u64::from(at), NAME_BYTES) {
        Some(name) => Ok(Name::new(name.to_vec(alloc)?)),
        None => Ok(None),
    }
}
