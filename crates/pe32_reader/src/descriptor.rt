ghost use Rattle.std.specs.Prelude.{◌≡◌, ◌==◌, ◌+◌, ◌<◌, ◌^◌, length, map, Some};
ghost use Rattle.std.specs.Option.{option_map};
ghost use Rattle.std.specs.List.{list_all};
ghost use Rattle.memory_map.specs.FileBytes.{word_at};
ghost use Rattle.memory_map.specs.Map.{range_of};
ghost use Rattle.file_pieces.specs.Found.{bytes_at};
ghost use Rattle.pe32_reader.specs.Imports.{descriptor_of, name_list};

use file_pieces::bytes_at;
use memory_map::{Segments, word_at};

pub const DESCRIPTOR_SIZE: u64 = 20;

/// The fields of an import descriptor that are read: places counted from the image's base.
#[derive(Clone, Copy)]
pub struct Descriptor {
    pub original_first_thunk: u32,
    pub name: u32,
    pub first_thunk: u32,
}

impl Descriptor {
    // The place of the thunk words.
    pub fn name_list(self) -> u32
        ensures { result ≡ name_list self }
    {
        if self.original_first_thunk == 0 {
            self.first_thunk
        } else {
            self.original_first_thunk
        }
    }
}

fn are_zero(bytes: &[u8]) -> bool
    ensures { result ≡ list_all (λ b. b == 0) bytes.now }
{
    bytes.iter().all(|b| *b == 0)
}

fn descriptor_of(bytes: &[u8]) -> Option<Descriptor>
    requires { length bytes.now ≡ 20 }
    ensures { result ≡ descriptor_of bytes.now }
{
    if are_zero(bytes) {
        return None;
    }
    Some(Descriptor {
        original_first_thunk: word_at(bytes, 0),
        name: word_at(bytes, 12),
        first_thunk: word_at(bytes, 16),
    })
}

// The descriptor at an address, where it is in one segment, and the end of the table where that is all zero.
pub fn descriptor_at(segments: &Segments, at: u64) -> Option<Option<Descriptor>>
    requires { at < 2 ^ 63 }
    ensures { result ≡ option_map descriptor_of (bytes_at (map range_of segments.now) at 20) }
{
    match bytes_at(segments, at, DESCRIPTOR_SIZE) {
        Some(bytes) => Some(descriptor_of(bytes)),
        None => None,
    }
}

// The word at an address, where it is in one segment.
pub fn word_in(segments: &Segments, at: u64) -> Option<u32>
    requires { at < 2 ^ 63 }
    ensures { result ≡ option_map (λ bytes. word_at bytes 0) (bytes_at (map range_of segments.now) at 4) }
{
    match bytes_at(segments, at, 4) {
        Some(bytes) => Some(word_at(bytes, 0)),
        None => None,
    }
}
