ghost use Rattle.std.specs.Prelude.{◌≡◌, ◌+◌, ◌≤◌, length, map};
ghost use Rattle.memory_map.specs.Map.{range_of};
ghost use Rattle.memory_map.specs.Patch.{patched, put_word, with_word};

use crate::Segment;
use byteorder::{ByteOrder, LittleEndian};

// Puts a word at a place of bytes, its lowest byte first.
pub fn write_word(bytes: &mut [u8], at: usize, word: u32)
    requires { at + 4 ≤ length bytes.old }
    ensures { bytes.new ≡ with_word bytes.old at word }
{
    LittleEndian::write_u32(&mut bytes[at..], word);
}

// Puts a word at an address of each segment that has all four bytes.
pub fn put_in_each(list: &mut [Segment], a: u32, word: u32)
    ensures { map range_of list.new ≡ put_word a word (map range_of list.old) }
{
    for i in 0..list.len() {
        list[i].put_word(a, word);
    }
}
