ghost use Rattle.std.specs.Prelude.{◌≡◌, ◌⊎◌, ◌+◌, ◌<◌, ◌≤◌, ◌^◌, All, IfOk, MatchResult, None, Some, map, filter, nat_lt, true};
ghost use Rattle.std.specs.List.{list_all};
ghost use Rattle.memory_map.specs.Range.{end_of};
ghost use Rattle.memory_map.specs.Map.{range_of, map_fault, all_apart, are_apart, is_in_user_space, total_size, MAPPED_LIMIT};
ghost use Rattle.file_pieces.specs.Layout.{IsPiece, HasAddress, bytes_of, extent, is_mapped, layout, range_of_piece};

use memory_map::{Bytes, MAPPED_BYTES, MapFault, Perm, Segment, Segments, USER_END, USER_LOW};
use std::alloc::{AllocError, Global};

/// Bytes of a file that a loader maps from an address on: `file_size` of them from `offset` on, then zeros up to `size`.
#[derive(Clone, Copy)]
pub struct Piece {
    pub address: u64,
    pub offset: u32,
    pub file_size: u32,
    pub size: u32,
    pub perm: Perm,
}

impl Piece {
    // The address after the last one.
    fn end(&self) -> u64
        requires { HasAddress self.now }
        ensures { result ≡ end_of (extent self.now) }
    {
        self.address + u64::from(self.size)
    }

    fn is_in_user_space(&self) -> bool
        requires { HasAddress self.now }
        ensures { result ≡ is_in_user_space (extent self.now) }
    {
        u64::from(USER_LOW) <= self.address && self.end() <= u64::from(USER_END)
    }

    fn is_apart_from(&self, other: &Piece) -> bool
        requires this { HasAddress self.now }
        requires other { HasAddress other.now }
        ensures { result ≡ are_apart (extent self.now) (extent other.now) }
    {
        self.end() <= other.address || other.end() <= self.address
    }
}

fn are_in_user_space(pieces: &[Piece]) -> bool
    requires { All HasAddress pieces.now }
    ensures { result ≡ list_all (λ p. is_in_user_space (extent p)) pieces.now }
{
    pieces.iter().all(|p| p.is_in_user_space())
}

fn are_apart_from(first: &Piece, rest: &[Piece]) -> bool
    requires first { HasAddress first.now }
    requires rest { All HasAddress rest.now }
    ensures { result ≡ list_all (λ p. are_apart (extent first.now) (extent p)) rest.now }
{
    rest.iter().all(|p| first.is_apart_from(p))
}

fn are_all_apart(pieces: &[Piece]) -> bool
    requires { All HasAddress pieces.now }
    ensures { result ≡ all_apart (map extent pieces.now) }
{
    let mut left = pieces;
    while let Some((first, rest)) = left.split_first() {
        if !are_apart_from(first, rest) {
            return false;
        }
        left = rest;
    }
    true
}

fn are_too_large(pieces: &[Piece]) -> bool
    ensures { result ≡ nat_lt MAPPED_LIMIT (total_size (map extent pieces.now)) }
{
    let mut total = 0u64;
    let mut left = pieces;
    while let Some((first, rest)) = left.split_first() {
        total += u64::from(first.size);
        if total > MAPPED_BYTES {
            return true;
        }
        left = rest;
    }
    false
}

fn find_fault(pieces: &[Piece]) -> Option<MapFault>
    requires { All HasAddress pieces.now }
    ensures { result ≡ map_fault (map extent pieces.now) }
{
    if !are_in_user_space(pieces) {
        return Some(MapFault::OutOfRange);
    }
    if !are_all_apart(pieces) {
        return Some(MapFault::Overlap);
    }
    if are_too_large(pieces) {
        return Some(MapFault::TooLarge);
    }
    None
}

fn bytes_of(alloc: Global, file: &[u8], piece: &Piece) -> Result<Bytes, AllocError>
    requires { IsPiece file.now piece.now }
    ensures { IfOk result (λ b. b ≡ bytes_of file.now piece.now) }
{
    let mut held = Vec::with_capacity(alloc, piece.size as usize)?;
    if piece.file_size > 0 {
        let offset = piece.offset as usize;
        held.extend_from_slice(&file[offset..offset + piece.file_size as usize])?;
    }
    held.resize(piece.size as usize, 0)?;
    Ok(Bytes::from_vec(held))
}

fn segment_of(alloc: Global, file: &[u8], piece: &Piece) -> Result<Segment, AllocError>
    requires piece { IsPiece file.now piece.now }
    requires low { piece.now.address < 2 ^ 32 }
    ensures { IfOk result (λ s. range_of s ≡ range_of_piece file.now piece.now) }
{
    Ok(Segment {
        low: piece.address as u32,
        bytes: bytes_of(alloc, file, piece)?,
        perm: piece.perm,
    })
}

fn segments_of(alloc: Global, file: &[u8], pieces: &[Piece]) -> Result<Vec<Segment>, AllocError>
    requires pieces { All (IsPiece file.now) pieces.now }
    requires low { list_all (λ p. is_in_user_space (extent p)) pieces.now ≡ true }
    ensures { IfOk result (λ list. map range_of list.items ≡ map (range_of_piece file.now) pieces.now) }
{
    let mut list = Vec::with_capacity(alloc, pieces.len())?;
    for piece in pieces {
        list.push(segment_of(alloc, file, piece)?)?;
    }
    Ok(list)
}

/// Maps pieces of a file together; an empty one maps nothing. The faults are those of `Segments::new`, and are found before a byte is copied.
pub fn map_pieces(alloc: Global, file: &[u8], mut pieces: Vec<Piece>) -> Result<Segments, MapFault>
    requires { All (IsPiece file.now) pieces.items }
    ensures exact { MatchResult result (λ s. (map range_of s ≡ layout file.now pieces.items) × (map_fault (layout file.now pieces.items) ≡ None)) (λ e. (e ≡ MapFault.Memory) ⊎ (map_fault (layout file.now pieces.items) ≡ Some e)) }
{
    pieces.retain(|p| p.size != 0);
    if let Some(fault) = find_fault(&pieces) {
        return Err(fault);
    }
    match segments_of(alloc, file, &pieces) {
        Ok(list) => Segments::new(list),
        Err(_) => Err(MapFault::Memory),
    }
}
