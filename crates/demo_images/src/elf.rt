ghost use Rattle.std.specs.Prelude.{◌≡◌, ◌++◌, OnOk};
ghost use Rattle.demo_images.specs.Elf.{file_header, program_header};

use crate::little_endian::{push_halves, push_words};
use bit_words::NoMemory;

/// Where the code lies.
pub const CODE: u32 = 0x0804_8000;

const FILE_HEADER_SIZE: u16 = 52;

const PROGRAM_HEADER_SIZE: u16 = 32;

/// A program header. Its addresses are the same, and so are its sizes in the file and in memory.
#[derive(Clone, Copy)]
pub struct ProgramHeader {
    pub kind: u32,
    pub offset: u32,
    pub address: u32,
    pub size: u32,
    pub flags: u32,
}

/// Appends the header of an executable with `count` program headers.
#[tactic(auto, unfolding(crate::specs::Elf::file_header))]
pub fn push_file_header(out: &mut Vec<u8>, count: u16) -> Result<(), NoMemory>
    ensures { OnOk result (out.new.items ≡ out.old.items ++ file_header count) }
{
    out.extend_from_slice(b"\x7FELF\x01\x01\x01\0\0\0\0\0\0\0\0\0")?;
    push_halves(out, &[2, 3])?;
    push_words(out, &[1, CODE, FILE_HEADER_SIZE as u32, 0, 0])?;
    push_halves(
        out,
        &[FILE_HEADER_SIZE, PROGRAM_HEADER_SIZE, count, 0, 0, 0],
    )
}

/// Appends a program header.
#[tactic(auto, unfolding(crate::specs::Elf::program_header))]
pub fn push_program_header(out: &mut Vec<u8>, header: ProgramHeader) -> Result<(), NoMemory>
    ensures { OnOk result (out.new.items ≡ out.old.items ++ program_header header) }
{
    push_words(
        out,
        &[
            header.kind,
            header.offset,
            header.address,
            header.address,
            header.size,
            header.size,
            header.flags,
            1,
        ],
    )
}
