ghost use Rattle.std.specs.Prelude.{◌≡◌, ◌<◌, ◌≤◌, ◌+◌, ◌^◌, length, All, option_copied, slice_get, ◌-◌, not};
ghost use Rattle.memory_map.specs.Range.{has, end_of};
ghost use Rattle.memory_map.specs.Patch.{patched};
ghost use Rattle.memory_map.specs.Map.{range_of, is_in_user_space, are_apart, may_write_between, permits, maps_some};

use crate::{Bytes, Perm};
use bitflags::Flags;

/// Nothing is mapped below this address.
pub const USER_LOW: u32 = 4096;

/// Nothing is mapped at this address, nor above it.
pub const USER_END: u32 = 0xF000_0000;

/// Bytes that a loader maps from an address on, and what may be done with them.
#[derive(Drop)]
pub struct Segment {
    pub low: u32,
    pub bytes: Bytes,
    pub perm: Perm,
}

impl Segment {
    /// The address after the last byte.
    pub fn end(&self) -> u64
        ensures { result ≡ end_of (range_of self.now) }
    {
        u64::from(self.low) + self.bytes.len() as u64
    }

    /// Whether it maps nothing.
    pub fn is_empty(&self) -> bool
        ensures { result ≡ not (maps_some self.now) }
    {
        self.bytes.len() == 0
    }

    /// Whether an address is one of its bytes'.
    pub fn has(&self, a: u64) -> bool
        ensures { result ≡ has a (range_of self.now) }
    {
        u64::from(self.low) <= a && a < self.end()
    }

    /// The byte at one of its addresses.
    pub fn byte(&self, a: u64) -> Option<u8>
        requires { self.now.low ≤ a }
        ensures { result ≡ slice_get self.now.bytes (a - self.now.low) }
    {
        self.bytes
            .as_slice()
            .get((a - u64::from(self.low)) as usize)
            .copied()
    }

    /// Whether it lies where a program's memory may.
    pub fn is_in_user_space(&self) -> bool
        ensures { result ≡ is_in_user_space (range_of self.now) }
    {
        USER_LOW <= self.low && self.end() <= u64::from(USER_END)
    }

    /// Whether it shares no address with another.
    pub fn is_apart_from(&self, other: &Segment) -> bool
        ensures { result ≡ are_apart (range_of self.now) (range_of other.now) }
    {
        self.end() <= u64::from(other.low) || other.end() <= u64::from(self.low)
    }

    /// Whether one of its bytes that may be written is among the addresses from one up to another.
    pub fn may_write_between(&self, from: u64, end: u64) -> bool
        ensures { result ≡ may_write_between from end (range_of self.now) }
    {
        self.perm.contains(Perm::WRITE) && from.max(u64::from(self.low)) < end.min(self.end())
    }

    /// Puts a word at an address, its lowest byte first, where all four bytes are its own.
    pub fn put_word(&mut self, a: u32, word: u32)
        ensures { range_of self.new ≡ patched a word (range_of self.old) }
    {
        if self.low <= a && u64::from(a) + 4 <= self.end() {
            self.bytes.put_word((a - self.low) as usize, word);
        }
    }

    /// Whether an access with these rights may touch its bytes.
    pub fn permits(&self, perm: Perm) -> bool
        ensures { result ≡ permits perm (range_of self.now) }
    {
        (!perm.contains(Perm::WRITE) || self.perm.contains(Perm::WRITE))
            && (!perm.contains(Perm::EXECUTE) || self.perm.contains(Perm::EXECUTE))
    }
}
