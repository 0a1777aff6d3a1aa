ghost use Rattle.std.specs.Prelude.{◌≡◌, ◌<◌, ◌^◌};
ghost use Rattle.elf32_reader.specs.Symbols.{has_import_type, imported, is_undefined, own_value};
ghost use Rattle.elf32_reader.specs.Relocations.{addend, adds_old, index_of_symbol, is_import, kind_of, needs_symbol, own_symbol, place_of, reloc_of, size_of, uses_value};

use crate::entry::Entry;
use crate::symbol::Symbol;
use crate::{ElfReloc, RelocSymbol};

// R_386_NONE, R_386_32, R_386_PC32, R_386_COPY, R_386_GLOB_DAT, R_386_JMP_SLOT, R_386_RELATIVE.
pub const NONE: u32 = 0;

const WORD: u32 = 1;

const PC_WORD: u32 = 2;

const COPY: u32 = 5;

const GLOB_DAT: u32 = 6;

const JMP_SLOT: u32 = 7;

const RELATIVE: u32 = 8;

// STB_WEAK, STT_FUNC, SHN_UNDEF, SHN_LORESERVE
const WEAK: u8 = 2;

const FUNCTION: u8 = 2;

const UNDEFINED: u16 = 0;

const RESERVED: u16 = 0xFF00;

pub fn kind_of(entry: &Entry) -> u32
    ensures { result ≡ kind_of entry.now }
{
    entry.info % 256
}

pub fn index_of_symbol(entry: &Entry) -> u32
    ensures exact { result ≡ index_of_symbol entry.now }
    ensures small { result < 2 ^ 24 }
{
    entry.info / 256
}

fn uses_value(kind: u32) -> bool
    ensures { result ≡ uses_value kind }
{
    kind == WORD || kind == PC_WORD || kind == GLOB_DAT || kind == JMP_SLOT
}

pub fn needs_symbol(kind: u32) -> bool
    ensures { result ≡ needs_symbol kind }
{
    uses_value(kind) || kind == COPY
}

// The address of what a relocation changes.
pub fn place_of(bias: u32, entry: &Entry) -> u32
    ensures { result ≡ place_of bias entry.now }
{
    bias.wrapping_add(entry.offset)
}

// How many bytes it changes.
pub fn size_of(kind: u32, symbol: &Symbol) -> u32
    ensures { result ≡ size_of kind symbol.now }
{
    if kind == COPY { symbol.size } else { 4 }
}

fn is_undefined(symbol: &Symbol) -> bool
    ensures { result ≡ is_undefined symbol.now }
{
    symbol.section == UNDEFINED
}

fn has_import_type(symbol: &Symbol) -> bool
    ensures { result ≡ has_import_type symbol.now }
{
    symbol.info % 16 == 0 || symbol.info % 16 == FUNCTION
}

pub fn is_import(kind: u32, symbol: &Symbol) -> bool
    ensures { result ≡ is_import kind symbol.now }
{
    uses_value(kind) && is_undefined(symbol) && has_import_type(symbol)
}

fn own_value(bias: u32, symbol: &Symbol) -> RelocSymbol
    ensures { result ≡ own_value bias symbol.now }
{
    if is_undefined(symbol) || RESERVED <= symbol.section {
        RelocSymbol::Unset
    } else {
        RelocSymbol::Value(bias.wrapping_add(symbol.value))
    }
}

// What the symbol of a relocation stands for, where that is no import.
pub fn own_symbol(bias: u32, kind: u32, symbol: &Symbol) -> RelocSymbol
    ensures { result ≡ own_symbol bias kind symbol.now }
{
    if uses_value(kind) {
        return own_value(bias, symbol);
    }
    if kind == RELATIVE {
        return RelocSymbol::Value(0);
    }
    RelocSymbol::Unset
}

// What an import stands for, by the index of its name.
pub fn imported(symbol: &Symbol, index: u32) -> RelocSymbol
    ensures { result ≡ imported symbol.now index }
{
    if symbol.info / 16 == WEAK {
        RelocSymbol::Weak(index)
    } else {
        RelocSymbol::Import(index)
    }
}

fn addend(bias: u32, kind: u32, at: u32) -> u32
    ensures { result ≡ addend bias kind at }
{
    if kind == PC_WORD {
        return 0u32.wrapping_sub(at);
    }
    if kind == RELATIVE {
        return bias;
    }
    0
}

fn adds_old(kind: u32) -> bool
    ensures { result ≡ adds_old kind }
{
    kind == WORD || kind == PC_WORD || kind == RELATIVE
}

// The relocation of an entry, by what its symbol stands for.
pub fn reloc_of(bias: u32, entry: &Entry, symbol: &Symbol, meaning: RelocSymbol) -> ElfReloc
    ensures { result ≡ reloc_of bias entry.now symbol.now meaning }
{
    let kind = kind_of(entry);
    let at = place_of(bias, entry);
    ElfReloc {
        at,
        size: size_of(kind, symbol),
        adds: adds_old(kind),
        plus: addend(bias, kind, at),
        symbol: meaning,
    }
}
