ghost use Rattle.std.specs.Prelude.{⊤, ◌≡◌, [], ◌∷◌, codes, not, pos, ◌+ℤ◌, ◌-ℤ◌};
ghost use Rattle.bit_words.specs.Flags.{bits_if, difference_flags, flags_by, logic_flags, packed, replaced, sum_flags, unpacked};
ghost use Rattle.bit_words.specs.Operators.{one_if};
ghost use Rattle.bit_words.specs.Width.{is_signed, signed_of};

use crate::width::Width;
use bitflags::{Flag, Flags as FlagSet, bitflag_items};

/// A set of the processor's flags.
#[derive(Clone, Copy, Debug, PartialEq, Eq, Hash)]
pub struct Flags(u8);

bitflag_items! {
    impl Flags: u8 {
        const CARRY = 1;
        const PARITY = 2;
        const ADJUST = 4;
        const ZERO = 8;
        const SIGN = 16;
        const OVERFLOW = 32;
        const DIRECTION = 64;
    }
}

impl FlagSet for Flags {
    type Bits = u8;

    ghost exact = { ⊤ };

    ghost table = { (codes "CARRY", 1) ∷ (codes "PARITY", 2) ∷ (codes "ADJUST", 4) ∷ (codes "ZERO", 8) ∷ (codes "SIGN", 16) ∷ (codes "OVERFLOW", 32) ∷ (codes "DIRECTION", 64) ∷ [] };

    ghost set_of = { λ f. f.0 };

    fn flags<'a>() -> &'a [Flag<Flags>] {
        Flags::FLAGS
    }

    fn bits(&self) -> u8 {
        self.0
    }

    fn from_bits_retain(bits: u8) -> Flags {
        Flags(bits)
    }
}

impl Flags {
    /// These flags, with those of `which` taken from `by`.
    pub fn replaced(self, which: Flags, by: Flags) -> Flags
        ensures { unpacked result ≡ replaced (unpacked self) (unpacked which) (unpacked by) }
    {
        Flags((self.0 & !which.0) | (by.0 & which.0))
    }
}

/// The flags that ADD and ADC leave for the sum of two words and a carry, DF clear. Wider operands are cut to the width.
#[tactic(auto, unfolding(crate::specs::Flags::sum_flags))]
pub fn flags_of_add(w: Width, a: u32, b: u32, carry: bool) -> Flags
    ensures packed { result ≡ packed (sum_flags w a b carry) }
    ensures each { unpacked result ≡ sum_flags w a b carry }
{
    let total = u64::from(w.cut(a)) + u64::from(w.cut(b)) + u64::from(carry);
    let adjust = a % 16 + b % 16 + u32::from(carry) >= 16;
    flags_with(
        w,
        w.low(total),
        total >= w.size(),
        adjust,
        sum_overflows(w, a, b, carry),
    )
}

/// The flags that SUB, SBB and CMP leave for the difference of two words and a borrow, DF clear. Wider operands are cut to the width.
#[tactic(auto, unfolding(crate::specs::Flags::difference_flags))]
pub fn flags_of_sub(w: Width, a: u32, b: u32, borrow: bool) -> Flags
    ensures packed { result ≡ packed (difference_flags w a b borrow) }
    ensures each { unpacked result ≡ difference_flags w a b borrow }
{
    let x = u64::from(w.cut(a));
    let y = u64::from(w.cut(b)) + u64::from(borrow);
    let adjust = a % 16 < b % 16 + u32::from(borrow);
    flags_with(
        w,
        w.low(x + (w.size() - y)),
        x < y,
        adjust,
        difference_overflows(w, a, b, borrow),
    )
}

/// The flags that AND, OR, XOR and TEST leave for their result: CF, OF, AF and DF are clear. A wider result is cut to the width.
#[tactic(auto, unfolding(crate::specs::Flags::logic_flags))]
pub fn flags_of_logic(w: Width, word: u32) -> Flags
    ensures packed { result ≡ packed (logic_flags w word) }
    ensures each { unpacked result ≡ logic_flags w word }
{
    flags_with(w, w.cut(word), false, false, false)
}

// Whether the sum of two words as signed numbers, and a carry, is no signed number of the width.
fn sum_overflows(w: Width, a: u32, b: u32, carry: bool) -> bool
    ensures { result ≡ not (is_signed w (signed_of w a +ℤ signed_of w b +ℤ pos (one_if carry))) }
{
    !w.holds(signed_sum(w.signed(a), w.signed(b), carry))
}

// Whether the difference of two words as signed numbers, less a borrow, is no signed number of the width.
fn difference_overflows(w: Width, a: u32, b: u32, borrow: bool) -> bool
    ensures { result ≡ not (is_signed w (signed_of w a -ℤ signed_of w b -ℤ pos (one_if borrow))) }
{
    !w.holds(signed_difference(w.signed(a), w.signed(b), borrow))
}

fn signed_sum(x: i32, y: i32, carry: bool) -> i64
    ensures { result ≡ x +ℤ y +ℤ pos (one_if carry) }
{
    i64::from(x) + i64::from(y) + i64::from(carry)
}

fn signed_difference(x: i32, y: i32, borrow: bool) -> i64
    ensures { result ≡ x -ℤ y -ℤ pos (one_if borrow) }
{
    i64::from(x) - i64::from(y) - i64::from(borrow)
}

// PF, ZF and SF by a word that is a result, the others as given, DF clear.
fn flags_with(w: Width, word: u32, carry: bool, adjust: bool, overflow: bool) -> Flags
    ensures packed { result ≡ packed (flags_by w word carry adjust overflow) }
    ensures each { unpacked result ≡ flags_by w word carry adjust overflow }
{
    let parity = (word % 0x100).count_ones() % 2 == 0;
    flag_if(carry, Flags::CARRY)
        .union(flag_if(parity, Flags::PARITY))
        .union(flag_if(adjust, Flags::ADJUST))
        .union(flag_if(word == 0, Flags::ZERO))
        .union(flag_if(word >= w.top(), Flags::SIGN))
        .union(flag_if(overflow, Flags::OVERFLOW))
}

// The flag where a test holds, else none.
fn flag_if(holds: bool, flag: Flags) -> Flags
    ensures { result.0 ≡ bits_if holds flag.0 }
{
    if holds { flag } else { Flags(0) }
}
