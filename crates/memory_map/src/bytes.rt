ghost use Rattle.std.specs.Prelude.{◌≡◌, ◌↔◌, ◌<◌, ◌≤◌, ◌+◌, ◌^◌, length, IsTrue, All};
ghost use Rattle.memory_map.specs.Patch.{with_word};

use crate::patch::write_word;
use std::marker::Model;

/// A run of bytes, which contracts see as their list.
#[derive(Drop)]
pub struct Bytes {
    held: Vec<u8>,
}

impl Model for Bytes {
    ghost use Rattle.std.specs.Prelude.{List, ℕ, ◌<◌, All};

    ghost Value = { List ℕ };

    ghost view = { λ b. b.held.items };

    ghost invariant = { λ b. All (λ n. n < 256) b.held.items };
}

impl Bytes {
    /// The bytes of a vector; takes no memory.
    pub fn from_vec(held: Vec<u8>) -> Bytes
        ensures { result ≡ held.items }
    {
        Bytes { held }
    }

    /// The vector again; takes no memory.
    pub fn into_vec(self) -> Vec<u8>
        ensures { result.items ≡ self }
    {
        self.held
    }

    /// The bytes, in order.
    pub fn as_slice(&self) -> &[u8]
        ensures bytes { result.now ≡ self.now }
        ensures range { All (λ b. b < 256) self.now }
    {
        self.held.as_slice()
    }

    /// Puts a word at a place, its lowest byte first.
    pub fn put_word(&mut self, at: usize, word: u32)
        requires { at + 4 ≤ length self.old }
        ensures { self.new ≡ with_word self.old at word }
    {
        write_word(&mut self.held, at, word);
    }

    /// How many bytes there are.
    pub fn len(&self) -> usize
        ensures length { result ≡ length self.now }
        ensures small { result < 2 ^ 63 }
        ensures range { All (λ b. b < 256) self.now }
    {
        self.as_slice().len()
    }

    /// Whether there is none.
    pub fn is_empty(&self) -> bool
        ensures { IsTrue result ↔ (length self.now ≡ 0) }
    {
        self.held.is_empty()
    }
}
