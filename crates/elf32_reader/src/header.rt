ghost use Rattle.std.specs.Prelude.{◌≡◌, ◌≤◌, ◌*◌, IfNone, IsTrue, length, nat_lt, not, ◌==◌, ◌&&◌, ◌||◌};
ghost use Rattle.file_pieces.specs.Found.{passes_end};
ghost use Rattle.elf32_reader.specs.Fields.{EHSIZE, PHENTSIZE, has_elf_magic, ei_class, ei_data, e_type, e_machine, e_phoff, e_phentsize, e_phnum, e_entry};
ghost use Rattle.elf32_reader.specs.Headers.{HasHeaders, header_fault, is_dynamic, bias_of};
ghost use Rattle.elf32_reader.specs.Symbols.{address_sum};

use crate::ElfFault;
use file_pieces::passes_end;
use memory_map::{half_at, word_at};

const FILE_HEADER_SIZE: usize = 52;

// Where a shared object is loaded.
const BIAS: u32 = 0x0040_0000;

fn is_short(file: &[u8]) -> bool
    ensures exact { result ≡ nat_lt (length file.now) EHSIZE }
    ensures long { IsTrue (not result) → EHSIZE ≤ length file.now }
{
    file.len() < FILE_HEADER_SIZE
}

/// Whether a file begins with 7F, `ELF`.
pub fn has_elf_magic(file: &[u8]) -> bool
    ensures { result ≡ has_elf_magic file.now }
{
    file.starts_with(b"\x7FELF")
}

fn has_class(file: &[u8]) -> bool
    requires { EHSIZE ≤ length file.now }
    ensures { result ≡ (ei_class file.now == 1) }
{
    file[4] == 1
}

fn has_data_order(file: &[u8]) -> bool
    requires { EHSIZE ≤ length file.now }
    ensures { result ≡ (ei_data file.now == 1) }
{
    file[5] == 1
}

fn has_other_kind(file: &[u8]) -> bool
    requires { EHSIZE ≤ length file.now }
    ensures { result ≡ (not (e_type file.now == 2) && not (e_type file.now == 3)) }
{
    half_at(file, 16) != 2 && half_at(file, 16) != 3
}

fn has_machine(file: &[u8]) -> bool
    requires { EHSIZE ≤ length file.now }
    ensures { result ≡ (e_machine file.now == 3) }
{
    half_at(file, 18) == 3
}

fn has_other_headers(file: &[u8]) -> bool
    requires { EHSIZE ≤ length file.now }
    ensures { result ≡ (not (e_phentsize file.now == PHENTSIZE) || e_phnum file.now == 0 || nat_lt 64 (e_phnum file.now)) }
{
    half_at(file, 42) != 32 || half_at(file, 44) == 0 || half_at(file, 44) > 64
}

fn are_headers_outside(file: &[u8]) -> bool
    requires { EHSIZE ≤ length file.now }
    ensures { result ≡ passes_end (length file.now) (e_phoff file.now) (PHENTSIZE * e_phnum file.now) }
{
    let size = 32 * u64::from(half_at(file, 44));
    passes_end(file, u64::from(word_at(file, 28)), size)
}

// The first fault of the file header.
#[tactic(auto, unfolding(crate::specs::Headers::header_fault))]
pub fn find_header_fault(file: &[u8]) -> Option<ElfFault>
    ensures exact { result ≡ header_fault file.now }
    ensures headers { IfNone result (HasHeaders file.now) }
{
    if is_short(file) {
        return Some(ElfFault::Short);
    }
    if !has_elf_magic(file) {
        return Some(ElfFault::Magic);
    }
    if !has_class(file) {
        return Some(ElfFault::Class);
    }
    if !has_data_order(file) {
        return Some(ElfFault::DataOrder);
    }
    if has_other_kind(file) {
        return Some(ElfFault::Kind);
    }
    if !has_machine(file) {
        return Some(ElfFault::Machine);
    }
    if has_other_headers(file) {
        return Some(ElfFault::Headers);
    }
    if are_headers_outside(file) {
        return Some(ElfFault::HeadersOutside);
    }
    None
}

// Whether the file is a shared object.
pub fn is_dynamic(file: &[u8]) -> bool
    requires { EHSIZE ≤ length file.now }
    ensures { result ≡ is_dynamic file.now }
{
    half_at(file, 16) == 3
}

// What is added to the file's addresses.
pub fn bias_of(file: &[u8]) -> u32
    requires { EHSIZE ≤ length file.now }
    ensures { result ≡ bias_of file.now }
{
    if is_dynamic(file) { BIAS } else { 0 }
}

// The address of the first instruction.
pub fn entry_of(file: &[u8]) -> u32
    requires { EHSIZE ≤ length file.now }
    ensures { result ≡ address_sum (bias_of file.now) (e_entry file.now) }
{
    bias_of(file).wrapping_add(word_at(file, 24))
}
