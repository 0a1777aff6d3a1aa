ghost use Rattle.std.specs.Prelude.{◌≡◌, ◌+◌, ◌*◌, ◌≤◌, length};
ghost use Rattle.elf32_reader.specs.Fields.{entry_at};

use memory_map::word_at;

// An entry of a relocation table: r_offset and r_info.
#[derive(Clone, Copy)]
pub struct Entry {
    pub offset: u32,
    pub info: u32,
}

// The i-th entry of a table.
pub fn entry_at(table: &[u8], i: usize) -> Entry
    requires { 8 * i + 8 ≤ length table.now }
    ensures { result ≡ entry_at table.now i }
{
    Entry {
        offset: word_at(table, 8 * i),
        info: word_at(table, 8 * i + 4),
    }
}
