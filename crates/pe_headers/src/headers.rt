ghost use Rattle.std.specs.Prelude.{◌≡◌, ◌+◌, ◌*◌, ◌≤◌, length, false, IfNone};
ghost use Rattle.pe_headers.specs.Headers.{e_lfanew, optional_header, size_of_optional_header, section_table, number_of_sections};
ghost use Rattle.pe_headers.specs.Faults.{header_fault, lacks_magic, lacks_signature, is_for_another_machine, lacks_optional_header, lacks_sections};
ghost use Rattle.pe_headers.specs.Faults.{HasHeaders};

use crate::PeFault;
use crate::fields::{
    LEAST_OPTIONAL_SIZE, SIGNATURE_AND_COFF_SIZE, optional_header, optional_header_size,
    section_count, section_table, signature_place,
};
use file_pieces::passes_end;
use memory_map::{half_at, word_at};

const DOS_HEADER_SIZE: usize = 64;

// "PE\0\0".
const SIGNATURE: u32 = 0x4550;

const INTEL_386: u16 = 0x14C;

const PE32: u16 = 0x10B;

const MOST_SECTIONS: u16 = 96;

const SECTION_HEADER_SIZE: u64 = 40;

/// Whether a file does not begin with `MZ`.
pub fn lacks_magic(bytes: &[u8]) -> bool
    ensures { result ≡ lacks_magic bytes.now }
{
    !bytes.starts_with(b"MZ")
}

fn lacks_signature(bytes: &[u8]) -> bool
    requires { 64 ≤ length bytes.now }
    ensures value { result ≡ lacks_signature bytes.now }
    ensures inside { result ≡ false → e_lfanew bytes.now + 24 ≤ length bytes.now }
{
    let at = signature_place(bytes);
    passes_end(bytes, at as u64, SIGNATURE_AND_COFF_SIZE as u64) || word_at(bytes, at) != SIGNATURE
}

fn is_for_another_machine(bytes: &[u8]) -> bool
    requires start { 64 ≤ length bytes.now }
    requires coff { e_lfanew bytes.now + 24 ≤ length bytes.now }
    ensures { result ≡ is_for_another_machine bytes.now }
{
    half_at(bytes, signature_place(bytes) + 4) != INTEL_386
}

fn lacks_optional_header(bytes: &[u8]) -> bool
    requires start { 64 ≤ length bytes.now }
    requires coff { e_lfanew bytes.now + 24 ≤ length bytes.now }
    ensures value { result ≡ lacks_optional_header bytes.now }
    ensures inside { result ≡ false → optional_header bytes.now + size_of_optional_header bytes.now ≤ length bytes.now }
    ensures fields { result ≡ false → 96 ≤ size_of_optional_header bytes.now }
{
    let at = optional_header(bytes);
    let size = optional_header_size(bytes) as usize;
    size < LEAST_OPTIONAL_SIZE
        || passes_end(bytes, at as u64, size as u64)
        || half_at(bytes, at) != PE32
}

fn lacks_sections(bytes: &[u8]) -> bool
    requires start { 64 ≤ length bytes.now }
    requires coff { e_lfanew bytes.now + 24 ≤ length bytes.now }
    ensures value { result ≡ lacks_sections bytes.now }
    ensures few { result ≡ false → number_of_sections bytes.now ≤ 96 }
    ensures inside { result ≡ false → section_table bytes.now + 40 * number_of_sections bytes.now ≤ length bytes.now }
{
    let count = section_count(bytes);
    count == 0
        || count > MOST_SECTIONS
        || passes_end(
            bytes,
            section_table(bytes) as u64,
            SECTION_HEADER_SIZE * u64::from(count),
        )
}

/// The first fault of the headers of a file.
#[tactic(auto, unfolding(crate::specs::Faults::header_fault))]
pub fn header_fault(bytes: &[u8]) -> Option<PeFault>
    ensures fault { result ≡ header_fault bytes.now }
    ensures headers { IfNone result (HasHeaders bytes.now) }
{
    if bytes.len() < DOS_HEADER_SIZE {
        return Some(PeFault::Short);
    }
    if lacks_magic(bytes) {
        return Some(PeFault::Magic);
    }
    if lacks_signature(bytes) {
        return Some(PeFault::Signature);
    }
    if is_for_another_machine(bytes) {
        return Some(PeFault::Machine);
    }
    if lacks_optional_header(bytes) {
        return Some(PeFault::Optional);
    }
    if lacks_sections(bytes) {
        return Some(PeFault::Sections);
    }
    None
}
