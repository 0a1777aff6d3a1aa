ghost use Rattle.std.specs.Prelude.{◌≡◌, ◌<◌, ◌≤◌, ◌%◌, ◌^◌, ◌+◌, ◌*◌, IfSome, Some, None, false};
ghost use Rattle.bit_words.specs.Width.{bytes_of};
ghost use Rattle.memory_map.specs.State.{memory};
ghost use Rattle.x86_semantics.specs.Memory.{may_write_all, next_byte, number_at, stored, with_low_byte, with_number, word_at};
ghost use Rattle.statement_lang.specs.Cells.{where_done};

use crate::Cells;
use bit_words::Width;

// The address after a byte's.
fn next_byte(a: u32) -> u32
    ensures { result ≡ next_byte a }
{
    a.wrapping_add(1)
}

impl Cells {
    /// The word of a width at an address, where it is mapped.
    #[tactic(auto, unfolding(x86_semantics::specs::Memory::word_at))]
    pub fn load(&self, w: Width, a: u32) -> Option<u32>
        ensures { result ≡ word_at w a self.now }
    {
        match w {
            Width::B8 => self.number_of_one(a),
            Width::B16 => self.number_of_two(a),
            Width::B32 => self.number_of_four(a),
        }
    }

    #[tactic(auto, unfolding(x86_semantics::specs::Memory::number_at))]
    fn number_of_one(&self, a: u32) -> Option<u32>
        ensures value { result ≡ number_at (memory self.now) 1 a }
        ensures small { IfSome result (λ n. n < 2 ^ 8) }
    {
        let low = self.byte_at(a)?;
        Some(u32::from(low))
    }

    #[tactic(auto, unfolding(x86_semantics::specs::Memory::number_at))]
    fn number_of_two(&self, a: u32) -> Option<u32>
        ensures value { result ≡ number_at (memory self.now) 2 a }
        ensures small { IfSome result (λ n. n < 2 ^ 16) }
    {
        let low = self.byte_at(a)?;
        let high = self.number_of_one(next_byte(a))?;
        Some(u32::from(low) + 256 * high)
    }

    #[tactic(auto, unfolding(x86_semantics::specs::Memory::number_at))]
    fn number_of_three(&self, a: u32) -> Option<u32>
        ensures value { result ≡ number_at (memory self.now) 3 a }
        ensures small { IfSome result (λ n. n < 2 ^ 24) }
    {
        let low = self.byte_at(a)?;
        let high = self.number_of_two(next_byte(a))?;
        Some(u32::from(low) + 256 * high)
    }

    #[tactic(auto, unfolding(x86_semantics::specs::Memory::number_at))]
    fn number_of_four(&self, a: u32) -> Option<u32>
        ensures { result ≡ number_at (memory self.now) 4 a }
    {
        let low = self.byte_at(a)?;
        let high = self.number_of_three(next_byte(a))?;
        Some(u32::from(low) + 256 * high)
    }

    /// Whether the bytes of a word at an address may be written.
    pub fn may_store(&self, w: Width, a: u32) -> bool
        ensures { result ≡ may_write_all (memory self.now) (bytes_of w) a }
    {
        let mut at = a;
        for _i in 0..w.bytes() {
            if !self.may_write(at) {
                return false;
            }
            at = next_byte(at);
        }
        true
    }

    /// Puts the low bytes of a number from an address on, where they may be written.
    pub fn put_number(&mut self, count: u32, a: u32, v: u32)
        ensures { self.new ≡ with_number count a v self.old }
    {
        let mut at = a;
        let mut left = v;
        for _i in 0..count {
            self.put(u64::from(at), (left % 256) as u8);
            at = next_byte(at);
            left /= 256;
        }
    }

    /// Puts the low bits of a word at an address, and tells whether all of it may be written; where not, nothing is.
    #[tactic(auto, unfolding(x86_semantics::specs::Memory::stored))]
    pub fn store(&mut self, w: Width, a: u32, v: u32) -> bool
        ensures stored { where_done result self.new ≡ stored w a v self.old }
        ensures kept { result ≡ false → self.new ≡ self.old }
    {
        if !self.may_store(w, a) {
            return false;
        }
        self.put_number(w.bytes(), a, v);
        true
    }
}
