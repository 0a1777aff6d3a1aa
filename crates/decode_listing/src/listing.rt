ghost use Rattle.std.specs.Prelude.{◌≡◌, ◌≤◌, ℕ, List, ◌++◌, length, take, IfOk, OnOk};
ghost use Rattle.x86_syntax.specs.Decodes.{Decodes, HasSpelling};
ghost use Rattle.decode_listing.specs.Listing.{AreAppended, IsAppended, IsListing, end_line, fault_line, fault_text, instruction_line};

use bit_words::NoMemory;
use image_loader::Image;
use std::alloc::Global;
use text_fields::{push_bytes, push_decimal, push_hex_bytes, push_hex8};
use x86_decoder::{DecodeFault, decode};
use x86_syntax::{Instr, write_instr};

/// The listing of at most `count` instructions of an image from `address` on, up to the first place where none stands.
/// Only want of memory refuses.
pub fn print_listing(
    alloc: Global,
    image: &Image,
    address: u32,
    count: u32,
) -> Result<Vec<u8>, NoMemory>
    ensures { IfOk result (λ text. IsListing image.now address count text.items) }
{
    let mut out = Vec::new(alloc);
    push_bytes(&mut out, b"jakstab-decode 1\n")?;
    let listed = push_lines(&mut out, image, address, count)?;
    push_end(&mut out, listed)?;
    Ok(out)
}

// Appends the lines, and tells how many instructions they list.
fn push_lines(out: &mut Vec<u8>, image: &Image, address: u32, count: u32) -> Result<u32, NoMemory>
    ensures { IfOk result (λ n. AreAppended image.now count address out.old.items out.new.items n) }
{
    let mut at = address;
    for n in 0..count {
        match push_line(out, image, at)? {
            Some(next) => at = next,
            None => return Ok(n),
        }
    }
    Ok(count)
}

// Appends the line of an address, and tells the address after its instruction, where one stands there.
fn push_line(out: &mut Vec<u8>, image: &Image, at: u32) -> Result<Option<u32>, NoMemory>
    ensures { IfOk result (λ next. IsAppended image.now at out.old.items out.new.items next) }
{
    let code = image.fetch(at);
    match decode(code.as_slice()) {
        Ok((i, len)) => {
            push_instruction(out, at, &code.as_slice()[..usize::from(len)], &i, len)?;
            Ok(Some(at.wrapping_add(u32::from(len))))
        }
        Err(fault) => {
            push_fault(out, at, fault)?;
            Ok(None)
        }
    }
}

#[tactic(auto, unfolding(crate::specs::Listing::instruction_line), using(std::proofs::Common::append_assoc))]
fn push_instruction(
    out: &mut Vec<u8>,
    at: u32,
    bytes: &[u8],
    i: &Instr,
    len: u8,
) -> Result<(), NoMemory>
    requires spelled { HasSpelling i.now len }
    requires len { length bytes.now ≡ len }
    ensures { OnOk result (out.new.items ≡ out.old.items ++ instruction_line at bytes.now i.now) }
{
    push_hex8(out, at)?;
    push_bytes(out, b" ")?;
    push_hex_bytes(out, bytes)?;
    push_bytes(out, b" ")?;
    push_bytes(out, write_instr(at, i, len).as_bytes())?;
    push_bytes(out, b"\n")
}

#[tactic(auto, unfolding(crate::specs::Listing::fault_line), using(std::proofs::Common::append_assoc))]
fn push_fault(out: &mut Vec<u8>, at: u32, fault: DecodeFault) -> Result<(), NoMemory>
    ensures { OnOk result (out.new.items ≡ out.old.items ++ fault_line at fault) }
{
    push_hex8(out, at)?;
    push_cause(out, fault)?;
    push_bytes(out, b"\n")
}

#[tactic(auto, using(std::proofs::Common::append_assoc))]
fn push_cause(out: &mut Vec<u8>, fault: DecodeFault) -> Result<(), NoMemory>
    ensures { OnOk result (out.new.items ≡ out.old.items ++ fault_text fault) }
{
    match fault {
        DecodeFault::NotListed { at } => {
            push_bytes(out, b" notlisted ")?;
            push_decimal(out, u64::from(at))
        }
        DecodeFault::TooLong => push_bytes(out, b" toolong"),
        DecodeFault::Truncated => push_bytes(out, b" truncated"),
    }
}

#[tactic(auto, using(std::proofs::Common::append_assoc))]
fn push_end(out: &mut Vec<u8>, listed: u32) -> Result<(), NoMemory>
    ensures { OnOk result (out.new.items ≡ out.old.items ++ end_line listed) }
{
    push_bytes(out, b"end ")?;
    push_decimal(out, u64::from(listed))?;
    push_bytes(out, b"\n")
}
