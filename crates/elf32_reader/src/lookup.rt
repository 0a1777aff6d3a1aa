ghost use Rattle.std.specs.Prelude.{◌≡◌, ◌<◌, ◌^◌, IfSome, IsTrue, map, option_copied, unwrap_or, [], ◌+◌, ◌*◌, ◌||◌};
ghost use Rattle.std.specs.Option.{option_map};
ghost use Rattle.memory_map.specs.Map.{range_of};
ghost use Rattle.memory_map.specs.Name.{is_name};
ghost use Rattle.file_pieces.specs.Found.{bytes_at, is_in_one};
ghost use Rattle.elf32_reader.specs.Dynamic.{are_tables_wrong, is_other, is_table_wrong, jmprel_bytes, rel_bytes, table_at};
ghost use Rattle.elf32_reader.specs.Symbols.{address_sum, import_name, symbol_at};
ghost use Rattle.elf32_reader.specs.Fields.{SYMENT, symbol_of};
ghost use Rattle.elf32_reader.specs.Walk.{symbol_for};

use crate::entry::Entry;
use crate::relocation::{index_of_symbol, kind_of, needs_symbol};
use crate::symbol::{Symbol, symbol_of};
use crate::tables::Tables;
use file_pieces::{bytes_at, is_in_one, name_from};
use memory_map::Segments;
use std::marker::Model;

// The most bytes of a relocation table.
const MOST_TABLE_BYTES: u32 = 4_194_304;

// Where relocations find symbols: the segments before any relocation, the bias, and the tables.
#[derive(Drop)]
pub struct Lookup<'a> {
    segments: &'a Segments,
    bias: u32,
    tables: Tables,
}

impl<'a> Model for Lookup<'a> {
    ghost use Rattle.elf32_reader.specs.Symbols.{Space};
    ghost use Rattle.elf32_reader.specs.Looked.{looked};

    ghost Value = { Space };

    ghost view = { looked };
}

// Whether a value is given and is another than this.
fn is_other(given: Option<u32>, n: u32) -> bool
    ensures { result ≡ is_other given n }
{
    match given {
        Some(value) => value != n,
        None => false,
    }
}

impl<'a> Lookup<'a> {
    pub fn new(segments: &'a Segments, bias: u32, tables: Tables) -> Lookup<'a>
        ensures { result ≡ record { ranges = map range_of segments.now; bias = bias; tables = tables } }
    {
        Lookup {
            segments,
            bias,
            tables,
        }
    }

    pub fn bias(&self) -> u32
        ensures { result ≡ self.now.bias }
    {
        self.bias
    }

    // The bytes of a table.
    #[tactic(auto, unfolding(crate::specs::Dynamic::table_at))]
    fn table_at(&self, address: Option<u32>, size: u32) -> Option<&[u8]>
        ensures { option_copied result ≡ table_at self.now.ranges self.now.bias address size }
    {
        match address {
            Some(a) => bytes_at(
                self.segments,
                u64::from(self.bias) + u64::from(a),
                u64::from(size),
            ),
            None => None,
        }
    }

    #[tactic(auto, unfolding(crate::specs::Dynamic::is_table_wrong))]
    fn is_table_wrong(&self, address: Option<u32>, size: u32) -> bool
        ensures { result ≡ is_table_wrong self.now.ranges self.now.bias address size }
    {
        size % 8 != 0
            || size > MOST_TABLE_BYTES
            || (size > 0 && self.table_at(address, size).is_none())
    }

    fn are_sizes_wrong(&self) -> bool
        ensures { result ≡ (is_other self.now.tables.symbol_size 16 || is_other self.now.tables.rel_entry_size 8 || is_other self.now.tables.jmprel_kind 17) }
    {
        is_other(self.tables.symbol_size, 16)
            || is_other(self.tables.rel_entry_size, 8)
            || is_other(self.tables.jmprel_kind, 17)
    }

    // Whether the dynamic section gives what no walk can go by.
    #[tactic(auto, unfolding(crate::specs::Dynamic::are_tables_wrong))]
    pub fn are_tables_wrong(&self) -> bool
        ensures { result ≡ are_tables_wrong self.now.ranges self.now.bias self.now.tables }
    {
        self.are_sizes_wrong()
            || self.is_table_wrong(self.tables.rel, self.tables.rel_size.unwrap_or(0))
            || self.is_table_wrong(self.tables.jmprel, self.tables.jmprel_size.unwrap_or(0))
    }

    // The bytes of the table of DT_REL.
    pub fn rel_table(&self) -> &[u8]
        ensures { result.now ≡ unwrap_or (table_at self.now.ranges self.now.bias self.now.tables.rel (rel_bytes self.now.tables)) [] }
    {
        match self.table_at(self.tables.rel, self.tables.rel_size.unwrap_or(0)) {
            Some(table) => table,
            None => &[],
        }
    }

    // The bytes of the table of DT_JMPREL.
    pub fn jmprel_table(&self) -> &[u8]
        ensures { result.now ≡ unwrap_or (table_at self.now.ranges self.now.bias self.now.tables.jmprel (jmprel_bytes self.now.tables)) [] }
    {
        match self.table_at(self.tables.jmprel, self.tables.jmprel_size.unwrap_or(0)) {
            Some(table) => table,
            None => &[],
        }
    }

    // Whether addresses are all in one segment.
    pub fn is_in_one(&self, at: u32, size: u32) -> bool
        ensures { result ≡ is_in_one self.now.ranges at size }
    {
        is_in_one(self.segments, u64::from(at), u64::from(size))
    }

    // The symbol in the table that begins at an address.
    fn symbol_in(&self, symtab: u32, index: u32) -> Option<Symbol>
        requires { index < 2 ^ 24 }
        ensures { result ≡ option_map symbol_of (bytes_at self.now.ranges (self.now.bias + address_sum symtab (SYMENT * index)) SYMENT) }
    {
        let a = symtab.wrapping_add(16 * index);
        match bytes_at(self.segments, u64::from(self.bias) + u64::from(a), 16) {
            Some(bytes) => Some(symbol_of(bytes)),
            None => None,
        }
    }

    #[tactic(auto, unfolding(crate::specs::Symbols::symbol_at))]
    fn symbol_at(&self, index: u32) -> Option<Symbol>
        requires { index < 2 ^ 24 }
        ensures { result ≡ symbol_at self.now index }
    {
        if self.tables.strtab.is_none() || self.tables.strtab_size.is_none() {
            return None;
        }
        match self.tables.symtab {
            Some(symtab) => self.symbol_in(symtab, index),
            None => None,
        }
    }

    // The symbol of an entry; of one that needs none, a symbol of zeros.
    pub fn symbol_for(&self, entry: &Entry) -> Option<Symbol>
        ensures { result ≡ symbol_for self.now entry.now }
    {
        if needs_symbol(kind_of(entry)) {
            return self.symbol_at(index_of_symbol(entry));
        }
        Some(Symbol {
            name: 0,
            value: 0,
            size: 0,
            info: 0,
            section: 0,
        })
    }

    // The name of a symbol that is imported.
    #[tactic(auto, unfolding(crate::specs::Symbols::import_name))]
    pub fn import_name(&self, symbol: &Symbol) -> Option<&[u8]>
        ensures exact { option_copied result ≡ import_name self.now symbol.now }
        ensures name { IfSome result (λ name. IsTrue (is_name name.now)) }
    {
        let a = self.tables.strtab.unwrap_or(0).wrapping_add(symbol.name);
        let size = self.tables.strtab_size.unwrap_or(0);
        name_from(
            self.segments,
            u64::from(self.bias) + u64::from(a),
            u64::from(size.saturating_sub(symbol.name)),
        )
    }
}
