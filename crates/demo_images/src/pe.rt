ghost use Rattle.std.specs.Prelude.{◌≡◌, ◌≤◌, ◌++◌, length, IfOk, OnOk};
ghost use Rattle.demo_images.specs.Pe.{dos_header, file_header, form_p, imports, optional_header, section_header};

use crate::little_endian::{push_halves, push_words};
use bit_words::NoMemory;
use std::alloc::Global;

const HEADERS_SIZE: u32 = 280;

const IMPORTS_SIZE: u32 = 84;

const MEMORY_EXECUTE: u32 = 0x2000_0000;

const MEMORY_READ: u32 = 0x4000_0000;

const MEMORY_WRITE: u32 = 0x8000_0000;

/// A section header. Its sizes in the file and in memory are the same.
#[derive(Clone, Copy)]
pub struct SectionHeader {
    pub name: [u8; 8],
    pub address: u32,
    pub size: u32,
    pub offset: u32,
    pub flags: u32,
}

/// A PE executable with the code at 00401000 and, at 00402000, its import directory: from `k.dll`, `ExitProcess` and the function with the ordinal 7, whose words lie from 00402034 on.
#[tactic(auto, unfolding(crate::specs::Pe::form_p))]
pub fn form_p(alloc: Global, code: &[u8]) -> Result<Vec<u8>, NoMemory>
    requires { length code.now ≤ 4096 }
    ensures { IfOk result (λ file. file.items ≡ form_p code.now) }
{
    let code_size = code.len() as u32;
    let mut out = Vec::new(alloc);
    push_headers(&mut out)?;
    let text = SectionHeader {
        name: *b".text\0\0\0",
        address: 0x1000,
        size: code_size,
        offset: HEADERS_SIZE,
        flags: MEMORY_EXECUTE + MEMORY_READ,
    };
    push_section_header(&mut out, text)?;
    let idata = SectionHeader {
        name: *b".idata\0\0",
        address: 0x2000,
        size: IMPORTS_SIZE,
        offset: HEADERS_SIZE + code_size,
        flags: MEMORY_READ + MEMORY_WRITE,
    };
    push_section_header(&mut out, idata)?;
    out.extend_from_slice(code)?;
    push_imports(&mut out)?;
    Ok(out)
}

#[tactic(auto, unfolding(crate::specs::Pe::dos_header, crate::specs::Pe::file_header, crate::specs::Pe::optional_header))]
fn push_headers(out: &mut Vec<u8>) -> Result<(), NoMemory>
    ensures { OnOk result (out.new.items ≡ out.old.items ++ dos_header ++ file_header ++ optional_header) }
{
    out.extend_from_slice(b"MZ")?;
    out.extend_from_slice(&[0; 58])?;
    push_words(out, &[64])?;
    out.extend_from_slice(b"PE\0\0")?;
    push_halves(out, &[0x14C, 2])?;
    push_words(out, &[0, 0, 0])?;
    push_halves(out, &[112, 0])?;
    push_words(out, &[0x10B, 0, 0, 0, 0x1000, 0, 0, 0x40_0000])?;
    push_words(out, &[0, 0, 0, 0, 0, 0, 0, HEADERS_SIZE])?;
    push_words(out, &[0, 0, 0, 0, 0, 0, 0, 2])?;
    push_words(out, &[0, 0, 0x2000, 40])
}

#[tactic(auto, unfolding(crate::specs::Pe::section_header))]
fn push_section_header(out: &mut Vec<u8>, header: SectionHeader) -> Result<(), NoMemory>
    ensures { OnOk result (out.new.items ≡ out.old.items ++ section_header header) }
{
    out.extend_from_slice(&header.name)?;
    push_words(
        out,
        &[
            header.size,
            header.address,
            header.size,
            header.offset,
            0,
            0,
            0,
            header.flags,
        ],
    )
}

#[tactic(auto, unfolding(crate::specs::Pe::imports))]
fn push_imports(out: &mut Vec<u8>) -> Result<(), NoMemory>
    ensures { OnOk result (out.new.items ≡ out.old.items ++ imports) }
{
    push_words(
        out,
        &[
            0x2028,
            0,
            0,
            0x2040,
            0x2034,
            0,
            0,
            0,
            0,
            0,
            0x2046,
            0x8000_0007,
            0,
            0x2046,
            0x8000_0007,
            0,
        ],
    )?;
    out.extend_from_slice(b"k.dll")?;
    out.extend_from_slice(&[0, 0, 0])?;
    out.extend_from_slice(b"ExitProcess")?;
    out.push(0)?;
    Ok(())
}
