ghost use Rattle.std.specs.Prelude.{◌≡◌, ◌+◌, ◌-◌, ◌<◌, ◌≤◌, ◌^◌, Some, None, if◌then◌else◌, slice_get};
ghost use Rattle.memory_map.specs.Map.{is_in_user_space};
ghost use Rattle.memory_map.specs.Range.{end_of, has, holds};
ghost use Rattle.statement_lang.specs.Filling.{fill_byte};
ghost use Rattle.statement_lang.specs.Indexed.{is_clear};
ghost use Rattle.x86_semantics.specs.Memory.{put_byte};

use memory_map::{USER_END, USER_LOW};
use std::marker::Model;

/// A mapped range: its first address, its bytes, and whether they may be written and executed.
#[derive(Drop)]
pub struct Block {
    low: u32,
    bytes: Vec<u8>,
    write: bool,
    execute: bool,
}

impl Model for Block {
    ghost use Rattle.memory_map.specs.Range.{Range};

    ghost Value = { Range };

    ghost view = { λ b. record { low = b.low; bytes = b.bytes.items; write = b.write; execute = b.execute } };
}

impl Block {
    /// A range of these bytes; takes no memory.
    pub fn new(low: u32, bytes: Vec<u8>, write: bool, execute: bool) -> Block
        ensures { result ≡ record { low = low; bytes = bytes.items; write = write; execute = execute } }
    {
        Block {
            low,
            bytes,
            write,
            execute,
        }
    }

    /// Its first address.
    pub fn low(&self) -> u64
        ensures { result ≡ self.now.low }
    {
        u64::from(self.low)
    }

    /// The address after its last one.
    pub fn end(&self) -> u64
        ensures { result ≡ end_of self.now }
    {
        u64::from(self.low) + self.bytes.len() as u64
    }

    /// Whether an address is one of its bytes'.
    pub fn has(&self, a: u64) -> bool
        ensures { result ≡ has a self.now }
    {
        self.low() <= a && a < self.end()
    }

    /// Whether it has each of `n` addresses from one on.
    pub fn holds(&self, a: u64, n: u64) -> bool
        requires { a + n < 2 ^ 64 }
        ensures { result ≡ holds a n self.now }
    {
        self.low() <= a && a + n <= self.end()
    }

    /// Whether it has no address from one up to another.
    pub fn is_clear(&self, low: u64, end: u64) -> bool
        ensures { result ≡ is_clear low end self.now }
    {
        end <= self.low() || self.end() <= low
    }

    /// The byte at an address from its first on.
    pub fn byte(&self, a: u64) -> Option<u8>
        requires { self.now.low ≤ a }
        ensures { result ≡ slice_get self.now.bytes (a - self.now.low) }
    {
        self.bytes.get((a - self.low()) as usize).copied()
    }

    /// The byte at an address from its first on, where its bytes may be executed.
    pub fn code(&self, a: u64) -> Option<u8>
        requires { self.now.low ≤ a }
        ensures { result ≡ (if self.now.execute then slice_get self.now.bytes (a - self.now.low) else None) }
    {
        if self.execute { self.byte(a) } else { None }
    }

    /// The address after its last one, where its bytes may be written.
    pub fn writable_end(&self) -> Option<u64>
        ensures { result ≡ (if self.now.write then Some (end_of self.now) else None) }
    {
        if self.write { Some(self.end()) } else { None }
    }

    /// Whether it lies where a program's memory may.
    pub fn is_in_user_space(&self) -> bool
        ensures { result ≡ is_in_user_space self.now }
    {
        u64::from(USER_LOW) <= self.low() && self.end() <= u64::from(USER_END)
    }

    /// Puts a byte at an address, where the range has it and may be written.
    pub fn put(&mut self, a: u64, b: u8)
        ensures { self.new ≡ put_byte a b self.old }
    {
        if self.has(a) && self.write {
            self.bytes[(a - u64::from(self.low)) as usize] = b;
        }
    }

    /// Puts a byte at an address, where the range has it.
    pub fn fill(&mut self, a: u64, b: u8)
        ensures { self.new ≡ fill_byte a b self.old }
    {
        if self.has(a) {
            self.bytes[(a - u64::from(self.low)) as usize] = b;
        }
    }
}
