ghost use Rattle.std.specs.Prelude.{◌≡◌, ◌+◌, ◌≤◌, ◌<◌, ◌^◌, length};
ghost use Rattle.pe_headers.specs.Headers.{address_from, e_lfanew, size_of_optional_header, optional_header, image_base, size_of_headers, number_of_sections, section_table};
ghost use Rattle.pe_headers.specs.Faults.{HasHeaders};
ghost use Rattle.pe_headers.specs.Layout.{entry_of, import_directory};

use memory_map::{half_at, word_at};

pub const SIGNATURE_AND_COFF_SIZE: usize = 24;

pub const LEAST_OPTIONAL_SIZE: usize = 96;

// The optional header reaches to the directories' entry for the import table.
const OPTIONAL_SIZE_WITH_IMPORTS: u16 = 112;

// The place of the signature.
pub fn signature_place(bytes: &[u8]) -> usize
    requires { 64 ≤ length bytes.now }
    ensures place { result ≡ e_lfanew bytes.now }
    ensures small { result < 2 ^ 32 }
{
    word_at(bytes, 0x3C) as usize
}

// The place of the optional header.
pub fn optional_header(bytes: &[u8]) -> usize
    requires { 64 ≤ length bytes.now }
    ensures place { result ≡ optional_header bytes.now }
    ensures small { result < 2 ^ 33 }
{
    signature_place(bytes) + SIGNATURE_AND_COFF_SIZE
}

pub fn optional_header_size(bytes: &[u8]) -> u16
    requires start { 64 ≤ length bytes.now }
    requires coff { e_lfanew bytes.now + 24 ≤ length bytes.now }
    ensures { result ≡ size_of_optional_header bytes.now }
{
    half_at(bytes, signature_place(bytes) + 20)
}

pub fn section_count(bytes: &[u8]) -> u16
    requires start { 64 ≤ length bytes.now }
    requires coff { e_lfanew bytes.now + 24 ≤ length bytes.now }
    ensures { result ≡ number_of_sections bytes.now }
{
    half_at(bytes, signature_place(bytes) + 6)
}

// The place of the section table.
pub fn section_table(bytes: &[u8]) -> usize
    requires start { 64 ≤ length bytes.now }
    requires coff { e_lfanew bytes.now + 24 ≤ length bytes.now }
    ensures place { result ≡ section_table bytes.now }
    ensures small { result < 2 ^ 34 }
{
    optional_header(bytes) + optional_header_size(bytes) as usize
}

/// The address at which the image is loaded.
pub fn image_base(bytes: &[u8]) -> u32
    requires { HasHeaders bytes.now }
    ensures { result ≡ image_base bytes.now }
{
    word_at(bytes, optional_header(bytes) + 28)
}

pub fn headers_size(bytes: &[u8]) -> u32
    requires { HasHeaders bytes.now }
    ensures { result ≡ size_of_headers bytes.now }
{
    word_at(bytes, optional_header(bytes) + 60)
}

/// The address of a place that is counted from the image's base.
pub fn address_from(base: u32, rva: u32) -> u32
    ensures { result ≡ address_from base rva }
{
    base.wrapping_add(rva)
}

/// The address of the first instruction.
pub fn entry(bytes: &[u8]) -> u32
    requires { HasHeaders bytes.now }
    ensures { result ≡ entry_of bytes.now }
{
    address_from(
        image_base(bytes),
        word_at(bytes, optional_header(bytes) + 16),
    )
}

/// The place of the import directory, counted from the image's base, where there is one.
pub fn import_directory(bytes: &[u8]) -> Option<u32>
    requires { HasHeaders bytes.now }
    ensures { result ≡ import_directory bytes.now }
{
    let at = optional_header(bytes);
    if word_at(bytes, at + 92) < 2 || optional_header_size(bytes) < OPTIONAL_SIZE_WITH_IMPORTS {
        return None;
    }
    match word_at(bytes, at + 104) {
        0 => None,
        table => Some(table),
    }
}
