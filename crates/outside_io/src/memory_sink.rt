ghost use Rattle.std.specs.Prelude.{◌≡◌, List, [], Some, ◌<◌, ◌≤◌, ◌↔◌, length, take, ◌++◌, IsErr, IsTrue, IfOk, OnOk, OnErr};
ghost use Rattle.outside_io.specs.Outside.{Rose};
ghost use Rattle.outside_io.specs.Sinking.{Sinking, fails, taken, after_write};

use crate::sink::{Sink, SinkFailed};
use bit_words::NoMemory;
use std::alloc::Global;
use std::marker::Model;

/// A sink in memory of a fixed room, which fails where it is told to.
#[derive(Drop)]
pub struct MemorySink {
    held: Vec<u8>,
    room: usize,
    per_write: usize,
    fail_at: Vec<u64>,
    calls: u64,
    faults: u64,
}

impl Model for MemorySink {
    ghost use Rattle.std.specs.Prelude.{◌<◌, ◌≤◌, vec_len, vec_capacity};
    ghost use Rattle.outside_io.specs.Sinking.{Sinking};

    ghost Value = { Sinking };

    ghost view = { λ s. record { held = s.held.items; room = s.room; per_write = s.per_write; fail_at = s.fail_at.items; calls = s.calls; faults = s.faults } };

    ghost invariant = { λ s. (vec_len s.held ≤ s.room) × (s.room ≤ vec_capacity s.held) × (0 < s.per_write) };
}

impl MemorySink {
    /// A sink that holds at most `room` bytes and takes at most `per_write` of them in one call. The writes with the
    /// numbers `fail_at` fail; the first write has number 1. All memory is taken here, and only want of it refuses.
    pub fn new(
        alloc: Global,
        room: usize,
        per_write: usize,
        fail_at: Vec<u64>,
    ) -> Result<MemorySink, NoMemory>
        requires { 0 < per_write }
        ensures { IfOk result (λ sink. sink ≡ record { held = []; room = room; per_write = per_write; fail_at = fail_at.items; calls = 0; faults = 0 }) }
    {
        let held = Vec::with_capacity(alloc, room)?;
        Ok(MemorySink {
            held,
            room,
            per_write,
            fail_at,
            calls: 0,
            faults: 0,
        })
    }

    /// All bytes that were written.
    pub fn written(&self) -> &[u8]
        ensures { result.now ≡ self.now.held }
    {
        self.held.as_slice()
    }
}

impl Sink for MemorySink {
    ghost written = { λ s. Some s.held };

    ghost faults = { λ s. s.faults };

    fn write(&mut self, piece: &[u8]) -> Result<usize, SinkFailed>
        ensures within { IfOk result (λ n. n ≤ length piece.now) }
        ensures some { IfOk result (λ n. 0 < length piece.now → 0 < n) }
        ensures gained { IfOk result (λ n. self.new.held ≡ self.old.held ++ take n piece.now) }
        ensures failed { OnErr result (Rose self.old.faults self.new.faults) }
        ensures unchanged { OnErr result (self.new.held ≡ self.old.held) }
        ensures rising { self.old.faults ≤ self.new.faults }
        ensures exact { IsErr result ↔ IsTrue (fails self.old piece.now) }
        ensures taken { IfOk result (λ n. n ≡ taken self.old piece.now) }
        ensures after { self.new ≡ after_write self.old piece.now }
    {
        self.calls = self.calls.saturating_add(1);
        let room = self.room - self.held.len();
        if self.fail_at.contains(&self.calls) {
            self.faults = self.faults.saturating_add(1);
            return Err(SinkFailed);
        }
        if !piece.is_empty() && room == 0 {
            self.faults = self.faults.saturating_add(1);
            return Err(SinkFailed);
        }
        let n = piece.len().min(self.per_write).min(room);
        self.held.extend_from_slice(&piece[..n]).unwrap();
        Ok(n)
    }
}
