ghost use Rattle.std.specs.Prelude.{◌≡◌, ◌⊎◌, ◌+◌, ◌<◌, ◌≤◌, ◌==◌, length, map, IfOk, MatchResult, All, Some, None, false};
ghost use Rattle.std.specs.List.{list_any};
ghost use Rattle.std.specs.Option.{option_map};
ghost use Rattle.memory_map.specs.Map.{range_of, map_fault};
ghost use Rattle.file_pieces.specs.Layout.{HasAddress, layout};
ghost use Rattle.elf32_reader.specs.Fields.{EHSIZE};
ghost use Rattle.elf32_reader.specs.Headers.{bias_of, headers, loads};
ghost use Rattle.elf32_reader.specs.Segments.{elf_fault_of, is_file_longer, is_outside, perm_of, piece_of, pieces, segments, segments_fault};

use crate::ElfFault;
use crate::header::bias_of;
use crate::program_header::{ProgramHeader, loads};
use file_pieces::{Piece, map_pieces, passes_end};
use memory_map::{MapFault, Perm, Segments};
use std::alloc::{AllocError, Global};

// PF_X, PF_W
const EXECUTE: u32 = 1;

const WRITE: u32 = 2;

fn perm_of(flags: u32) -> Perm
    ensures { result ≡ perm_of flags }
{
    Perm::new(flags & WRITE == WRITE, flags & EXECUTE == EXECUTE)
}

fn piece_of(bias: u32, header: &ProgramHeader) -> Piece
    ensures exact { result ≡ piece_of bias header.now }
    ensures address { HasAddress result }
{
    Piece {
        address: u64::from(bias) + u64::from(header.address),
        offset: header.offset,
        file_size: header.file_size,
        size: header.size,
        perm: perm_of(header.flags),
    }
}

pub fn is_outside(file: &[u8], header: &ProgramHeader) -> bool
    ensures { result ≡ is_outside file.now header.now }
{
    passes_end(file, u64::from(header.offset), u64::from(header.file_size))
}

fn is_any_outside(file: &[u8], loads: &[ProgramHeader]) -> bool
    ensures { result ≡ list_any (is_outside file.now) loads.now }
{
    loads.iter().any(|h| is_outside(file, h))
}

fn is_any_file_longer(loads: &[ProgramHeader]) -> bool
    ensures { result ≡ list_any is_file_longer loads.now }
{
    loads.iter().any(|h| h.file_size > h.size)
}

fn pieces_of(alloc: Global, bias: u32, loads: &[ProgramHeader]) -> Result<Vec<Piece>, AllocError>
    ensures exact { IfOk result (λ list. list.items ≡ map (piece_of bias) loads.now) }
    ensures addresses { IfOk result (λ list. All HasAddress list.items) }
{
    let mut list = Vec::with_capacity(alloc, loads.len())?;
    for header in loads {
        list.push(piece_of(bias, header))?;
    }
    Ok(list)
}

fn elf_fault_of(fault: MapFault) -> ElfFault
    ensures { result ≡ elf_fault_of fault }
{
    match fault {
        MapFault::OutOfRange => ElfFault::Address,
        MapFault::Overlap => ElfFault::Overlap,
        MapFault::TooLarge => ElfFault::TooLarge,
        MapFault::Memory => ElfFault::Memory,
    }
}

fn map_loads(
    alloc: Global,
    file: &[u8],
    bias: u32,
    loads: &[ProgramHeader],
) -> Result<Segments, ElfFault>
    requires inside { list_any (is_outside file.now) loads.now ≡ false }
    requires within { list_any is_file_longer loads.now ≡ false }
    ensures { MatchResult result (λ s. (map range_of s ≡ layout file.now (map (piece_of bias) loads.now)) × (map_fault (layout file.now (map (piece_of bias) loads.now)) ≡ None)) (λ e. (e ≡ ElfFault.Memory) ⊎ (option_map elf_fault_of (map_fault (layout file.now (map (piece_of bias) loads.now))) ≡ Some e)) }
{
    let pieces = pieces_of(alloc, bias, loads)?;
    match map_pieces(alloc, file, pieces) {
        Ok(segments) => Ok(segments),
        Err(fault) => Err(elf_fault_of(fault)),
    }
}

// The segments of a file, or the first fault that these have.
pub fn segments_of(alloc: Global, file: &[u8], list: &[ProgramHeader]) -> Result<Segments, ElfFault>
    requires front { EHSIZE ≤ length file.now }
    requires headers { list.now ≡ headers file.now }
    ensures { MatchResult result (λ s. (map range_of s ≡ segments file.now) × (segments_fault file.now ≡ None)) (λ e. (e ≡ ElfFault.Memory) ⊎ (segments_fault file.now ≡ Some e)) }
{
    let loads = loads(alloc, list)?;
    if is_any_outside(file, &loads) {
        return Err(ElfFault::SegmentOutside);
    }
    if is_any_file_longer(&loads) {
        return Err(ElfFault::FileLonger);
    }
    map_loads(alloc, file, bias_of(file), &loads)
}
