ghost use Rattle.std.specs.Prelude.{◌≡◌, ◌⊎◌, ◌+◌, ◌≤◌, All, IfOk, MatchResult, None, OnOk, Some, length, map, true};
ghost use Rattle.std.specs.List.{list_all, list_any};
ghost use Rattle.memory_map.specs.Map.{map_fault, range_of};
ghost use Rattle.file_pieces.specs.Found.{passes_end};
ghost use Rattle.pe_headers.specs.Faults.{HasHeaders};
ghost use Rattle.pe_headers.specs.Layout.{IsSized, fault_of_map, file_fault, headers_piece, layout_fault, maps_bytes, pieces, perm_of, ranges_of, section_piece, section_size};

use crate::PeFault;
use crate::fields::{headers_size, image_base, section_count, section_table};
use crate::headers::header_fault;
use file_pieces::{Piece, map_pieces, passes_end};
use memory_map::{MapFault, Perm, Segments, word_at};
use std::alloc::{AllocError, Global};

const SECTION_HEADER_SIZE: usize = 40;

const MEMORY_EXECUTE: u32 = 0x2000_0000;

const MEMORY_WRITE: u32 = 0x8000_0000;

fn perm_of(write: bool, execute: bool) -> Perm
    ensures { result ≡ perm_of write execute }
{
    Perm::new(write, execute)
}

fn headers_piece(bytes: &[u8]) -> Piece
    requires { HasHeaders bytes.now }
    ensures piece { result ≡ headers_piece bytes.now }
    ensures sized { IsSized result }
{
    let size = (headers_size(bytes) as usize).min(bytes.len()) as u32;
    Piece {
        address: u64::from(image_base(bytes)),
        offset: 0,
        file_size: size,
        size,
        perm: perm_of(false, false),
    }
}

fn section_size(bytes: &[u8], at: usize) -> u32
    requires { at + 40 ≤ length bytes.now }
    ensures { result ≡ section_size bytes.now at }
{
    match word_at(bytes, at + 8) {
        0 => word_at(bytes, at + 16),
        size => size,
    }
}

fn section_piece(bytes: &[u8], at: usize) -> Piece
    requires headers { HasHeaders bytes.now }
    requires header { at + 40 ≤ length bytes.now }
    ensures piece { result ≡ section_piece bytes.now at }
    ensures sized { IsSized result }
{
    let size = section_size(bytes, at);
    let flags = word_at(bytes, at + 36);
    Piece {
        address: u64::from(image_base(bytes)) + u64::from(word_at(bytes, at + 12)),
        offset: word_at(bytes, at + 20),
        file_size: word_at(bytes, at + 16).min(size),
        size,
        perm: perm_of(flags & MEMORY_WRITE != 0, flags & MEMORY_EXECUTE != 0),
    }
}

#[tactic(auto, unfolding(crate::specs::Layout::pieces))]
fn pieces(alloc: Global, bytes: &[u8]) -> Result<Vec<Piece>, AllocError>
    requires { HasHeaders bytes.now }
    ensures pieces { IfOk result (λ list. list.items ≡ pieces bytes.now) }
    ensures sized { IfOk result (λ list. All IsSized list.items) }
{
    let table = section_table(bytes);
    let mut list = Vec::new(alloc);
    list.push(headers_piece(bytes))?;
    for i in 0..usize::from(section_count(bytes)) {
        list.push(section_piece(bytes, table + SECTION_HEADER_SIZE * i))?;
    }
    Ok(list)
}

fn use_bytes_outside(bytes: &[u8], list: &[Piece]) -> bool
    ensures { result ≡ list_any (λ p. passes_end (length bytes.now) p.offset p.file_size) list.now }
{
    list.iter().any(|p| passes_end(bytes, u64::from(p.offset), u64::from(p.file_size)))
}

fn fault_of_map(fault: MapFault) -> PeFault
    ensures { result ≡ fault_of_map fault }
{
    match fault {
        MapFault::OutOfRange => PeFault::Address,
        MapFault::Overlap => PeFault::Overlap,
        MapFault::TooLarge => PeFault::TooLarge,
        MapFault::Memory => PeFault::Memory,
    }
}

fn lay_out(alloc: Global, bytes: &[u8]) -> Result<Segments, PeFault>
    requires { HasHeaders bytes.now }
    ensures exact { MatchResult result (λ s. (map range_of s ≡ ranges_of bytes.now) × (layout_fault bytes.now ≡ None)) (λ e. (e ≡ PeFault.Memory) ⊎ (layout_fault bytes.now ≡ Some e)) }
    ensures some { OnOk result (list_all maps_bytes (ranges_of bytes.now) ≡ true) }
    ensures map { IfOk result (λ s. map_fault (map range_of s) ≡ None) }
{
    let list = pieces(alloc, bytes)?;
    if use_bytes_outside(bytes, &list) {
        return Err(PeFault::RawOutside);
    }
    match map_pieces(alloc, bytes, list) {
        Ok(segments) => Ok(segments),
        Err(fault) => Err(fault_of_map(fault)),
    }
}

/// What the headers of a file map of it, or the first fault of the headers and of that.
#[tactic(auto, unfolding(crate::specs::Layout::file_fault))]
pub fn map_file(alloc: Global, bytes: &[u8]) -> Result<Segments, PeFault>
    ensures exact { MatchResult result (λ s. (map range_of s ≡ ranges_of bytes.now) × (file_fault bytes.now ≡ None)) (λ e. (e ≡ PeFault.Memory) ⊎ (file_fault bytes.now ≡ Some e)) }
    ensures headers { OnOk result (HasHeaders bytes.now) }
    ensures some { OnOk result (list_all maps_bytes (ranges_of bytes.now) ≡ true) }
    ensures map { IfOk result (λ s. map_fault (map range_of s) ≡ None) }
{
    match header_fault(bytes) {
        Some(fault) => Err(fault),
        None => lay_out(alloc, bytes),
    }
}
