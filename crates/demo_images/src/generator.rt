ghost use Rattle.std.specs.Prelude.{◌≡◌, ◌+◌, ◌*◌, ◌<◌, ◌≤◌, ◌↔◌, ◌++◌, length, IfOk, IsErrOf, OnOk};
ghost use Rattle.demo_images.specs.Demo.{block, blocks, demo_image, demo_stubs, last_call, MOST_BLOCKS};

use crate::elf::CODE;
use crate::forms::form_d;
use crate::import::Import;
use crate::import_tables::TABLES;
use crate::little_endian::push_words;
use bit_words::NoMemory;
use std::alloc::Global;

/// The most blocks of a demo image.
pub const MOST_BLOCKS: u32 = 2000;

/// Why there is no demo image.
#[derive(Clone, Copy, Debug, PartialEq, Eq)]
pub enum DemoFault {
    /// More blocks than a demo image may have.
    TooMany,
    Memory,
}

/// The demo image of `n` blocks, and its stub file. Refuses exactly more than 2,000 blocks, or for want of memory.
pub fn demo(alloc: Global, n: u32) -> Result<(Vec<u8>, Vec<u8>), DemoFault>
    ensures image { IfOk result (λ files. files.0.items ≡ demo_image n) }
    ensures stubs { IfOk result (λ files. files.1.items ≡ demo_stubs) }
    ensures refused { IsErrOf result DemoFault.TooMany ↔ (MOST_BLOCKS < n) }
{
    if n > MOST_BLOCKS {
        return Err(DemoFault::TooMany);
    }
    match demo_files(alloc, n) {
        Ok(files) => Ok(files),
        Err(NoMemory) => Err(DemoFault::Memory),
    }
}

#[tactic(auto, unfolding(crate::specs::Demo::demo_image))]
fn demo_files(alloc: Global, n: u32) -> Result<(Vec<u8>, Vec<u8>), NoMemory>
    requires { n ≤ MOST_BLOCKS }
    ensures image { IfOk result (λ files. files.0.items ≡ demo_image n) }
    ensures stubs { IfOk result (λ files. files.1.items ≡ demo_stubs) }
{
    let code = demo_code(alloc, n)?;
    let image = form_d(alloc, code.as_slice(), &[Import::new(b"exit", false)])?;
    let stubs = Vec::from_slice(alloc, b"[stub.exit]\nargs = 4\nreply = \"never\"\n")?;
    Ok((image, stubs))
}

#[tactic(auto, unfolding(crate::specs::Demo::last_call))]
fn demo_code(alloc: Global, n: u32) -> Result<Vec<u8>, NoMemory>
    requires { n ≤ MOST_BLOCKS }
    ensures bytes { IfOk result (λ code. code.items ≡ blocks n ++ last_call) }
    ensures len { IfOk result (λ code. length code.items ≡ 64 * n + 7) }
{
    let mut out = Vec::new(alloc);
    push_blocks(&mut out, n)?;
    out.extend_from_slice(&[0xFF, 0x15])?;
    push_words(&mut out, &[TABLES])?;
    out.push(0xF4)?;
    Ok(out)
}

#[tactic(auto, using(crate::proofs::Lists::blocks_more), unfolding(crate::specs::Demo::blocks))]
fn push_blocks(out: &mut Vec<u8>, n: u32) -> Result<(), NoMemory>
    requires { n ≤ MOST_BLOCKS }
    ensures bytes { OnOk result (out.new.items ≡ out.old.items ++ blocks n) }
    ensures len { OnOk result (length out.new.items ≡ length out.old.items + 64 * n) }
{
    for i in 0..n {
        push_block(out, CODE + 64 * i)?;
    }
    Ok(())
}

#[tactic(auto, unfolding(crate::specs::Demo::block))]
fn push_block(out: &mut Vec<u8>, at: u32) -> Result<(), NoMemory>
    requires { at < 150000000 }
    ensures bytes { OnOk result (out.new.items ≡ out.old.items ++ block at) }
    ensures len { OnOk result (length out.new.items ≡ length out.old.items + 64) }
{
    out.extend_from_slice(&[
        0x8B, 0x44, 0x24, 0x04, 0x83, 0xF8, 0x02, 0x77, 0x12, 0xFF, 0x24, 0x85,
    ])?;
    push_words(out, &[at + 40])?;
    out.extend_from_slice(&[
        0xE8, 0x08, 0x00, 0x00, 0x00, 0xEB, 0x04, 0x90, 0x90, 0xEB, 0x00, 0xEB, 0x23, 0xB9, 0x03,
        0x00, 0x00, 0x00, 0x49, 0x75, 0xFD, 0xC3, 0x90, 0x90,
    ])?;
    push_words(out, &[at + 16, at + 23, at + 24])?;
    out.extend_from_slice(&[0xF4; 12])?;
    Ok(())
}
