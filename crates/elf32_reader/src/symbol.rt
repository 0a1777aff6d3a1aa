ghost use Rattle.std.specs.Prelude.{◌≡◌, ◌≤◌, length};
ghost use Rattle.elf32_reader.specs.Fields.{SYMENT, symbol_of};

use memory_map::{half_at, word_at};

// A symbol: st_name, st_value, st_size, st_info, st_shndx.
#[derive(Clone, Copy)]
pub struct Symbol {
    pub name: u32,
    pub value: u32,
    pub size: u32,
    pub info: u8,
    pub section: u16,
}

// The symbol of its bytes.
pub fn symbol_of(bytes: &[u8]) -> Symbol
    requires { SYMENT ≤ length bytes.now }
    ensures { result ≡ symbol_of bytes.now }
{
    Symbol {
        name: word_at(bytes, 0),
        value: word_at(bytes, 4),
        size: word_at(bytes, 8),
        info: bytes[12],
        section: half_at(bytes, 14),
    }
}
