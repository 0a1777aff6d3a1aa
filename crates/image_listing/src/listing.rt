ghost use Rattle.std.specs.Prelude.{◌≡◌, ◌++◌, IfOk, OnOk, flat_map, length, map, ◌<◌, ◌≤◌};
ghost use Rattle.std.specs.List.{enumerate_from};
ghost use Rattle.memory_map.specs.Name.{MOST_NAMES};
ghost use Rattle.image_listing.specs.Listing.{format_name, header_lines, import_line, list_text, rights_text, segment_line, unset_line, word_of};

use crate::mapped::{Mapped, ascending};
use crate::unset::unset_runs;
use bit_words::NoMemory;
use image_loader::Image;
use memory_map::{Format, ImportName, Span, USER_END};
use std::alloc::Global;
use stub_file::Stubs;
use text_fields::{push_bytes, push_hex8};

fn format_name(format: Format) -> &'static [u8]
    ensures { result.now ≡ format_name format }
{
    match format {
        Format::Elf => b"elf32",
        Format::Pe => b"pe32",
    }
}

#[tactic(auto, using(std::proofs::Common::append_assoc))]
fn push_header(out: &mut Vec<u8>, image: &Image) -> Result<(), NoMemory>
    ensures { OnOk result (out.new.items ≡ out.old.items ++ header_lines image.now) }
{
    push_bytes(out, b"jakstab-list 1\nformat ")?;
    push_bytes(out, format_name(image.format()))?;
    push_bytes(out, b"\nentry ")?;
    push_hex8(out, image.entry())?;
    push_bytes(out, b"\n")
}

fn rights_text(r: &Mapped) -> &'static [u8]
    ensures { result.now ≡ rights_text r.now }
{
    match (r.write, r.execute) {
        (false, false) => b"r--",
        (true, false) => b"rw-",
        (false, true) => b"r-x",
        (true, true) => b"rwx",
    }
}

#[tactic(auto, using(std::proofs::Common::append_assoc))]
fn push_segment(out: &mut Vec<u8>, r: &Mapped) -> Result<(), NoMemory>
    ensures { OnOk result (out.new.items ≡ out.old.items ++ segment_line r.now) }
{
    push_bytes(out, b"segment ")?;
    push_hex8(out, r.low)?;
    push_bytes(out, b" ")?;
    push_hex8(out, r.size)?;
    push_bytes(out, b" ")?;
    push_bytes(out, rights_text(r))?;
    push_bytes(out, b"\n")
}

#[tactic(auto, using(std::proofs::Common::append_assoc))]
fn push_unset(out: &mut Vec<u8>, s: &Span) -> Result<(), NoMemory>
    ensures { OnOk result (out.new.items ≡ out.old.items ++ unset_line s.now) }
{
    push_bytes(out, b"unset ")?;
    push_hex8(out, s.low)?;
    push_bytes(out, b" ")?;
    push_hex8(out, s.size)?;
    push_bytes(out, b"\n")
}

fn word_of(stubs: &Stubs, n: &ImportName) -> &'static [u8]
    ensures { result.now ≡ word_of stubs.now n.now }
{
    if n.zero {
        return b"zero";
    }
    match stubs.find(n.name.as_slice()) {
        Some(_) => b"stub",
        None => b"nostub",
    }
}

#[tactic(auto, using(std::proofs::Common::append_assoc))]
fn push_import(
    out: &mut Vec<u8>,
    stubs: &Stubs,
    number: u32,
    n: &ImportName,
) -> Result<(), NoMemory>
    requires { number ≤ MOST_NAMES }
    ensures { OnOk result (out.new.items ≡ out.old.items ++ import_line stubs.now (number, n.now)) }
{
    push_bytes(out, b"import ")?;
    push_hex8(out, USER_END + 16 * number)?;
    push_bytes(out, b" ")?;
    push_bytes(out, n.name.as_slice())?;
    push_bytes(out, b" ")?;
    push_bytes(out, word_of(stubs, n))?;
    push_bytes(out, b"\n")
}

fn push_segments(out: &mut Vec<u8>, list: &[Mapped]) -> Result<(), NoMemory>
    ensures { OnOk result (out.new.items ≡ out.old.items ++ flat_map segment_line list.now) }
{
    for r in list {
        push_segment(out, r)?;
    }
    Ok(())
}

fn push_unset_ranges(out: &mut Vec<u8>, list: &[Span]) -> Result<(), NoMemory>
    ensures { OnOk result (out.new.items ≡ out.old.items ++ flat_map unset_line list.now) }
{
    for s in list {
        push_unset(out, s)?;
    }
    Ok(())
}

fn push_imports(out: &mut Vec<u8>, stubs: &Stubs, list: &[ImportName]) -> Result<(), NoMemory>
    requires { length list.now ≤ MOST_NAMES }
    ensures { OnOk result (out.new.items ≡ out.old.items ++ flat_map (import_line stubs.now) (enumerate_from 1 list.now)) }
{
    for (i, n) in list.iter().enumerate() {
        push_import(out, stubs, i as u32 + 1, n)?;
    }
    Ok(())
}

/// The listing of an image: its format and entry, its segments and unset bytes in the order of their addresses, the latter
/// in ranges as long as they can be, and its names in the order of their places, each with whether a stub is given for it.
#[tactic(auto, unfolding(crate::specs::Listing::list_text), using(std::proofs::Common::append_assoc))]
pub fn print_list(alloc: Global, image: &Image, stubs: &Stubs) -> Result<Vec<u8>, NoMemory>
    ensures { IfOk result (λ text. text.items ≡ list_text stubs.now image.now) }
{
    let segments = ascending(alloc, image.segments())?;
    let unset = unset_runs(alloc, image.unset().as_slice())?;
    let mut out = Vec::new(alloc);
    push_header(&mut out, image)?;
    push_segments(&mut out, &segments)?;
    push_unset_ranges(&mut out, &unset)?;
    push_imports(&mut out, stubs, image.names())?;
    push_bytes(&mut out, b"end\n")?;
    Ok(out)
}
