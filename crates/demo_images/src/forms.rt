ghost use Rattle.std.specs.Prelude.{◌≡◌, ◌<◌, ◌≤◌, ◌^◌, length, IfOk};
ghost use Rattle.demo_images.specs.Forms.{form_d, form_d_of, form_e};

use crate::elf::{CODE, ProgramHeader, push_file_header, push_program_header};
use crate::import::Import;
use crate::import_tables::{TABLES, tables};
use bit_words::NoMemory;
use std::alloc::Global;

const PT_LOAD: u32 = 1;

const PT_DYNAMIC: u32 = 2;

/// An executable with the code alone, at 08048000, in one segment with these flags: 1 execute, 2 write, 4 read.
#[tactic(auto, unfolding(crate::specs::Forms::form_e))]
pub fn form_e(alloc: Global, code: &[u8], flags: u32) -> Result<Vec<u8>, NoMemory>
    requires { length code.now < 2 ^ 24 }
    ensures { IfOk result (λ file. file.items ≡ form_e code.now flags) }
{
    let mut out = Vec::new(alloc);
    push_file_header(&mut out, 1)?;
    let segment = ProgramHeader {
        kind: PT_LOAD,
        offset: 84,
        address: CODE,
        size: code.len() as u32,
        flags,
    };
    push_program_header(&mut out, segment)?;
    out.extend_from_slice(code)?;
    Ok(out)
}

/// An executable with the code at 08048000 and, at 09000000, the tables of the names that it imports: first one slot of 4 bytes for each.
#[tactic(auto, unfolding(crate::specs::Forms::form_d))]
pub fn form_d(alloc: Global, code: &[u8], imports: &[Import]) -> Result<Vec<u8>, NoMemory>
    requires code { length code.now < 2 ^ 24 }
    requires imports { length imports.now ≤ 1024 }
    ensures { IfOk result (λ file. file.items ≡ form_d code.now imports.now) }
{
    let tables = tables(alloc, imports)?;
    form_d_of(alloc, code, tables.as_slice())
}

fn form_d_of(alloc: Global, code: &[u8], tables: &[u8]) -> Result<Vec<u8>, NoMemory>
    requires code { length code.now < 2 ^ 24 }
    requires tables { length tables.now < 2 ^ 24 }
    requires dynamic { 64 ≤ length tables.now }
    ensures { IfOk result (λ file. file.items ≡ form_d_of code.now tables.now) }
{
    let code_size = code.len() as u32;
    let tables_size = tables.len() as u32;
    let mut out = Vec::new(alloc);
    push_file_header(&mut out, 3)?;
    let text = ProgramHeader {
        kind: PT_LOAD,
        offset: 148,
        address: CODE,
        size: code_size,
        flags: 5,
    };
    push_program_header(&mut out, text)?;
    let data = ProgramHeader {
        kind: PT_LOAD,
        offset: 148 + code_size,
        address: TABLES,
        size: tables_size,
        flags: 6,
    };
    push_program_header(&mut out, data)?;
    let dynamic = ProgramHeader {
        kind: PT_DYNAMIC,
        offset: 148 + code_size + tables_size - 64,
        address: TABLES + tables_size - 64,
        size: 64,
        flags: 6,
    };
    push_program_header(&mut out, dynamic)?;
    out.extend_from_slice(code)?;
    out.extend_from_slice(tables)?;
    Ok(out)
}
