ghost use Rattle.std.specs.Prelude.{IfSome, IfNone, IfOk, ◌≡◌, ◌⊎◌, ◌↔◌, ◌<◌, ◌≤◌, ◌+◌, ◌-◌, ◌^◌, All, false, map, List, Some, None, MatchResult, IsTrue, nat_lt, option_copied};
ghost use Rattle.std.specs.List.{list_all, list_any};
ghost use Rattle.memory_map.specs.Range.{byte_at, code_at, code_run, maps_all, may_write, may_write_any, may_write_each, HasBytes};
ghost use Rattle.memory_map.specs.Patch.{put_word};
ghost use Rattle.memory_map.specs.Spans.{runs_of};
ghost use Rattle.memory_map.specs.Map.{is_allowed, may_write_between, AreAllowed, range_of, mapped, map_fault, total_size, all_apart, are_apart, is_in_user_space, IsMap, Allows, MAPPED_LIMIT};

use crate::patch::put_in_each;
use crate::runs::{put_before, unwritable_from, writable_from};
use crate::{MapFault, Perm, Ranges, Segment};
use arrayvec::ArrayVec;
use std::alloc::{AllocError, Global};
use std::marker::Model;

/// The most bytes that an image may map.
pub const MAPPED_BYTES: u64 = 67_108_864;

/// What a loader maps, which contracts see as the list of the segments that are not empty, as they were given.
/// They lie where a program's memory may, share no byte, and have at most 67,108,864 bytes together.
#[derive(Drop)]
pub struct Segments {
    held: Vec<Segment>,
}

impl Model for Segments {
    ghost use Rattle.std.specs.Prelude.{List, map};
    ghost use Rattle.memory_map.specs.Patch.{put_word};
    ghost use Rattle.memory_map.specs.Spans.{runs_of};
    ghost use Rattle.memory_map.specs.Map.{is_allowed, may_write_between, AreAllowed, range_of, IsMap};
    ghost use Rattle.memory_map.specs.declared.segment.Segment.{Segment};

    ghost Value = { List Segment };

    ghost view = { λ s. s.held.items };

    ghost invariant = { λ s. IsMap (map range_of s.held.items) };
}

fn are_in_user_space(list: &[Segment]) -> bool
    ensures { result ≡ list_all (λ s. is_in_user_space (range_of s)) list.now }
{
    list.iter().all(|s| s.is_in_user_space())
}

fn are_apart_from(first: &Segment, rest: &[Segment]) -> bool
    ensures { result ≡ list_all (λ s. are_apart (range_of first.now) (range_of s)) rest.now }
{
    rest.iter().all(|s| first.is_apart_from(s))
}

fn are_all_apart(list: &[Segment]) -> bool
    ensures { result ≡ all_apart (map range_of list.now) }
{
    let mut left = list;
    while let Some((first, rest)) = left.split_first() {
        if !are_apart_from(first, rest) {
            return false;
        }
        left = rest;
    }
    true
}

fn are_too_large(list: &[Segment]) -> bool
    ensures size { result ≡ nat_lt MAPPED_LIMIT (total_size (map range_of list.now)) }
    ensures bytes { result ≡ false → All HasBytes (map range_of list.now) }
{
    let mut total = 0u64;
    let mut left = list;
    while let Some((first, rest)) = left.split_first() {
        total += first.bytes.len() as u64;
        if total > MAPPED_BYTES {
            return true;
        }
        left = rest;
    }
    false
}

fn byte_in(list: &[Segment], a: u64) -> Option<u8>
    ensures { result ≡ byte_at (map range_of list.now) a }
{
    let mut left = list;
    while let Some((first, rest)) = left.split_first() {
        if first.has(a) {
            return first.byte(a);
        }
        left = rest;
    }
    None
}

fn code_in(list: &[Segment], a: u64) -> Option<u8>
    ensures { result ≡ code_at (map range_of list.now) a }
{
    let mut left = list;
    while let Some((first, rest)) = left.split_first() {
        if first.permits(Perm::EXECUTE) && first.has(a) {
            return first.byte(a);
        }
        left = rest;
    }
    None
}

// Whether some byte among the addresses from one up to another may be written.
fn may_write_in(list: &[Segment], from: u64, end: u64) -> bool
    ensures { result ≡ list_any (λ s. may_write_between from end (range_of s)) list.now }
{
    list.iter().any(|s| s.may_write_between(from, end))
}

// The end of the segment that has an address, where it permits the access.
fn allowed_until(list: &[Segment], a: u64, perm: Perm) -> Option<u64>
    ensures on { IfSome result (λ end. a < end) }
    ensures found { IfSome result (AreAllowed (map range_of list.now) perm a) }
    ensures none { IfNone result (is_allowed (map range_of list.now) perm a ≡ false) }
{
    for s in list {
        if s.has(a) && s.permits(perm) {
            return Some(s.end());
        }
    }
    None
}

// Whether each address from one up to another may be touched; it goes from segment to segment.
fn are_allowed(list: &[Segment], from: u64, end: u64, perm: Perm) -> bool
    ensures { IsTrue result ↔ AreAllowed (map range_of list.now) perm from end }
{
    let mut at = from;
    while at < end {
        match allowed_until(list, at, perm) {
            Some(next) => at = next,
            None => return false,
        }
    }
    true
}

impl Segments {
    /// Maps segments together; an empty one maps nothing, and goes. Refuses, in this order, OutOfRange where another leaves
    /// the addresses from 4,096 up to below F0000000, Overlap where two share a byte, and TooLarge where they have more than
    /// 67,108,864 bytes; else only for want of memory.
    pub fn new(mut list: Vec<Segment>) -> Result<Segments, MapFault>
        ensures exact { MatchResult result (λ s. (s ≡ mapped list.items) × (map_fault (map range_of (mapped list.items)) ≡ None)) (λ e. (e ≡ MapFault.Memory) ⊎ (map_fault (map range_of (mapped list.items)) ≡ Some e)) }
        ensures map { IfOk result (λ s. IsMap (map range_of s)) }
    {
        list.retain(|s| !s.is_empty());
        if !are_in_user_space(&list) {
            return Err(MapFault::OutOfRange);
        }
        if !are_all_apart(&list) {
            return Err(MapFault::Overlap);
        }
        if are_too_large(&list) {
            return Err(MapFault::TooLarge);
        }
        Ok(Segments { held: list })
    }

    /// The segments, in order.
    pub fn as_slice(&self) -> &[Segment]
        ensures segments { result.now ≡ self.now }
        ensures map { IsMap (map range_of self.now) }
    {
        self.held.as_slice()
    }

    /// The segments, in order; they can be mapped together again. Takes no memory.
    pub fn into_vec(self) -> Vec<Segment>
        ensures segments { result.items ≡ self }
        ensures again { (mapped result.items ≡ result.items) × (map_fault (map range_of result.items) ≡ None) }
    {
        self.held
    }

    /// Puts a word at an address, its lowest byte first, where all four bytes are in one segment.
    pub fn put_word(&mut self, a: u32, word: u32)
        ensures { map range_of self.new ≡ put_word a word (map range_of self.old) }
    {
        put_in_each(&mut self.held, a, word);
    }

    /// The byte at an address, where one is mapped.
    pub fn byte_at(&self, a: u32) -> Option<u8>
        ensures { result ≡ byte_at (map range_of self.now) a }
    {
        byte_in(&self.held, u64::from(a))
    }

    /// The executable bytes from an address on.
    pub fn fetch(&self, a: u32) -> ArrayVec<u8, 15>
        ensures { result.items ≡ code_run (map range_of self.now) a }
    {
        let mut bytes = ArrayVec::new();
        for i in 0..15 {
            match code_in(&self.held, u64::from(a) + i) {
                Some(b) => bytes.push(b),
                None => return bytes,
            }
        }
        bytes
    }

    /// Whether each of `n` bytes from an address on may be touched by an access with these rights.
    /// Every mapped byte may be read; no byte lies at or above 2^32.
    pub fn allows(&self, a: u32, n: u32, perm: Perm) -> bool
        ensures { IsTrue result ↔ Allows (map range_of self.now) a n perm }
    {
        let end = u64::from(a) + u64::from(n);
        end <= 0x1_0000_0000 && are_allowed(&self.held, u64::from(a), end, perm)
    }

    /// Whether each of `n` bytes from an address on is mapped.
    pub fn maps_all(&self, a: u64, n: u64) -> bool
        requires { a + n < 2 ^ 64 }
        ensures { result ≡ maps_all (map range_of self.now) a n }
    {
        are_allowed(&self.held, a, a + n, Perm::READ)
    }

    /// Whether some of `n` bytes from an address on may be written.
    pub fn may_write_any(&self, a: u64, n: u64) -> bool
        requires { a + n < 2 ^ 64 }
        ensures { result ≡ may_write_any (map range_of self.now) a n }
    {
        may_write_in(&self.held, a, a + n)
    }

    /// The longest runs of bytes that may be written among the addresses from one up to another, ascending.
    pub fn writable_runs(&self, alloc: Global, from: u64, end: u64) -> Result<Ranges, AllocError>
        requires ordered { from ≤ end }
        requires end { end ≤ 2 ^ 32 }
        ensures { IfOk result (λ runs. runs ≡ runs_of (may_write (map range_of self.now)) from (end - from)) }
    {
        let mut runs = Vec::new(alloc);
        let mut at = end;
        while from < at {
            match writable_from(&self.held, at - 1) {
                Some(low) => {
                    let start = low.max(from);
                    put_before(&mut runs, start, at)?;
                    at = start;
                }
                None => at = unwritable_from(&self.held, from, at - 1),
            }
        }
        Ok(Ranges::from_vec(runs))
    }

    /// Whether each of `n` bytes from an address on may be written.
    pub fn may_write_each(&self, a: u64, n: u64) -> bool
        requires { a + n < 2 ^ 64 }
        ensures { result ≡ may_write_each (map range_of self.now) a n }
    {
        are_allowed(&self.held, a, a + n, Perm::WRITE)
    }
}
