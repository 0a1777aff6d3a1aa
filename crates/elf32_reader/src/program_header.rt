ghost use Rattle.std.specs.Prelude.{◌≡◌, ◌+◌, ◌*◌, ◌≤◌, ◌<◌, length, IfOk, filter};
ghost use Rattle.elf32_reader.specs.Fields.{PHENTSIZE, program_header_at, e_phnum};
ghost use Rattle.elf32_reader.specs.Headers.{HasHeaders, header_at, headers, is_load};
ghost use Rattle.elf32_reader.specs.Dynamic.{is_dynamic_section};

use memory_map::{half_at, word_at};
use std::alloc::{AllocError, Global};

pub const PROGRAM_HEADER_SIZE: usize = 32;

// PT_LOAD, PT_DYNAMIC
const LOAD: u32 = 1;

const DYNAMIC: u32 = 2;

// A program header: p_type, p_offset, p_vaddr, p_filesz, p_memsz, p_flags.
#[derive(Clone, Copy)]
pub struct ProgramHeader {
    pub kind: u32,
    pub offset: u32,
    pub address: u32,
    pub file_size: u32,
    pub size: u32,
    pub flags: u32,
}

impl ProgramHeader {
    // Whether it is a segment to load.
    pub fn is_load(&self) -> bool
        ensures { result ≡ is_load self.now }
    {
        self.kind == LOAD
    }

    // Whether it is a dynamic section.
    pub fn is_dynamic_section(&self) -> bool
        ensures { result ≡ is_dynamic_section self.now }
    {
        self.kind == DYNAMIC
    }
}

fn program_header_at(file: &[u8], at: usize) -> ProgramHeader
    requires { at + PHENTSIZE ≤ length file.now }
    ensures { result ≡ program_header_at file.now at }
{
    ProgramHeader {
        kind: word_at(file, at),
        offset: word_at(file, at + 4),
        address: word_at(file, at + 8),
        file_size: word_at(file, at + 16),
        size: word_at(file, at + 20),
        flags: word_at(file, at + 24),
    }
}

fn header_at(file: &[u8], i: usize) -> ProgramHeader
    requires headers { HasHeaders file.now }
    requires there { i < e_phnum file.now }
    ensures { result ≡ header_at file.now i }
{
    program_header_at(file, word_at(file, 28) as usize + PROGRAM_HEADER_SIZE * i)
}

// All of a file's.
#[tactic(auto, using(crate::proofs::Lists::headers_more))]
pub fn headers(alloc: Global, file: &[u8]) -> Result<Vec<ProgramHeader>, AllocError>
    requires { HasHeaders file.now }
    ensures { IfOk result (λ list. list.items ≡ headers file.now) }
{
    let mut list = Vec::new(alloc);
    for i in 0..usize::from(half_at(file, 44)) {
        list.push(header_at(file, i))?;
    }
    Ok(list)
}

// Those to load.
pub fn loads(alloc: Global, list: &[ProgramHeader]) -> Result<Vec<ProgramHeader>, AllocError>
    ensures { IfOk result (λ v. v.items ≡ filter is_load list.now) }
{
    list.iter().copied().filter(|h| h.is_load()).collect(alloc)
}
