ghost use Rattle.std.specs.Prelude.{◌≡◌, ◌*◌, ◌-◌, ◌%◌, ◌^◌, ◌*ℤ◌, ◌<◌, nat_le, not, true, false, if◌then◌else◌, Bool};
ghost use Rattle.std.specs.Bool.{xor};
ghost use Rattle.bit_words.specs.Flags.{difference_flags, flags_by, has_sign, logic_flags, sum_flags, unpacked};
ghost use Rattle.bit_words.specs.Width.{bits_of, cut, is_signed, signed_of};
ghost use Rattle.x86_semantics.specs.FlagRules.{both_by, changes_sign, freed_by, is_set, of_result, rotate_left_flags, rotate_right_flags, ruled, shift_left_flags, shift_right_flags, status_flags, unless_zero, with_status};
ghost use Rattle.statement_lang.specs.Cells.{flags_of};
ghost use Rattle.statement_lang.specs.Filling.{status_of};
ghost use Rattle.statement_lang.specs.Run.{set_to};

use bit_words::{Flags, Width, flags_of_add, flags_of_logic, flags_of_sub};
use bitflags::Flags as _;
use x86_semantics::{FlagRule, status_flags};

/// The status flags of a byte, CF PF AF ZF SF OF from bit 0 on; DF is clear.
pub fn status_of(bits: u8) -> Flags
    ensures { flags_of result ≡ status_of (record { 0 = bits }) }
{
    Flags::empty().replaced(status_flags(), Flags::from_bits_retain(bits))
}

/// Whether CF is set.
pub fn has_carry(flags: Flags) -> bool
    ensures { result ≡ (flags_of flags).carry }
{
    flags.contains(Flags::CARRY)
}

// The status flags as computed, DF as it was.
fn with_status(new: Flags, flags: Flags) -> Flags
    ensures { flags_of result ≡ with_status (unpacked new) (flags_of flags) }
{
    flags.replaced(status_flags(), new)
}

// The flags with another CF.
fn with_carry(flags: Flags, carry: bool) -> Flags
    ensures { flags_of result ≡ record (flags_of flags) { carry = carry } }
{
    if carry {
        flags.replaced(Flags::CARRY, Flags::CARRY)
    } else {
        flags.replaced(Flags::CARRY, Flags::empty())
    }
}

// The flags with another OF.
fn with_overflow(flags: Flags, overflow: bool) -> Flags
    ensures { flags_of result ≡ record (flags_of flags) { overflow = overflow } }
{
    if overflow {
        flags.replaced(Flags::OVERFLOW, Flags::OVERFLOW)
    } else {
        flags.replaced(Flags::OVERFLOW, Flags::empty())
    }
}

// The flags with another ZF.
fn with_zero(flags: Flags, zero: bool) -> Flags
    ensures { flags_of result ≡ record (flags_of flags) { zero = zero } }
{
    if zero {
        flags.replaced(Flags::ZERO, Flags::ZERO)
    } else {
        flags.replaced(Flags::ZERO, Flags::empty())
    }
}

fn with_both(flags: Flags, carry: bool, overflow: bool) -> Flags
    ensures { flags_of result ≡ record (flags_of flags) { carry = carry; overflow = overflow } }
{
    with_overflow(with_carry(flags, carry), overflow)
}

// SF, ZF and PF of a result, AF clear.
fn of_result(w: Width, r: u32, carry: bool, overflow: bool, flags: Flags) -> Flags
    ensures { flags_of result ≡ of_result w r carry overflow (flags_of flags) }
{
    with_both(with_status(flags_of_logic(w, r), flags), carry, overflow)
}

/// Whether one of two holds, and the other does not.
pub fn differ(a: bool, b: bool) -> bool
    ensures { result ≡ xor a b }
{
    a != b
}

// Whether a bit is set.
fn is_set(n: u32, k: u32) -> bool
    requires { k < 64 }
    ensures { result ≡ is_set n k }
{
    (u64::from(n) >> k) % 2 == 1
}

fn has_sign(w: Width, r: u32) -> bool
    ensures { result ≡ has_sign w (cut w r) }
{
    w.cut(r) >= w.top()
}

// Whether the top bit of a word is another than that of its result.
fn changes_sign(w: Width, a: u32, r: u32) -> bool
    ensures { result ≡ changes_sign w a r }
{
    differ(has_sign(w, r), has_sign(w, a))
}

fn shift_left(w: Width, a: u32, c: u32, r: u32, flags: Flags) -> Flags
    ensures { flags_of result ≡ shift_left_flags w a c r (flags_of flags) }
{
    let carry = is_set(w.cut(a), w.bits().saturating_sub(c));
    of_result(w, r, carry, differ(has_sign(w, r), carry), flags)
}

fn shift_right(w: Width, a: u32, c: u32, r: u32, overflow: bool, flags: Flags) -> Flags
    requires { c < 32 }
    ensures { flags_of result ≡ shift_right_flags w a c r overflow (flags_of flags) }
{
    let carry = is_set(w.cut(a), c.saturating_sub(1));
    of_result(w, r, carry, overflow, flags)
}

fn rotate_left(w: Width, r: u32, flags: Flags) -> Flags
    ensures { flags_of result ≡ rotate_left_flags w r (flags_of flags) }
{
    let carry = is_set(r, 0);
    with_both(flags, carry, differ(has_sign(w, r), carry))
}

fn rotate_right(w: Width, r: u32, flags: Flags) -> Flags
    ensures { flags_of result ≡ rotate_right_flags w r (flags_of flags) }
{
    let carry = has_sign(w, r);
    with_both(flags, carry, differ(carry, is_set(r, w.bits() - 2)))
}

// Whether the product of two words has more than the width's bits.
fn is_long_product(w: Width, x: u32, y: u32) -> bool
    ensures { result ≡ nat_le (2 ^ bits_of w) (x * y) }
{
    u64::from(x) * u64::from(y) >= w.size()
}

// Whether the product of two words as signed numbers is none of the width.
fn is_long_signed_product(w: Width, a: u32, b: u32) -> bool
    ensures { result ≡ not (is_signed w (signed_of w a *ℤ signed_of w b)) }
{
    !w.holds(product_of(w.signed(a), w.signed(b)))
}

fn product_of(x: i32, y: i32) -> i64
    ensures { result ≡ x *ℤ y }
{
    i64::from(x) * i64::from(y)
}

// CF, PF, AF, ZF and SF by a byte in AH.
fn by_status(a: u32, flags: Flags) -> Flags
    ensures { flags_of result ≡ ruled FlagRule.Status Width.B8 a 0 0 (flags_of flags) }
{
    let with = with_carry(flags, is_set(a, 0));
    let with = with_flag(with, Flags::PARITY, is_set(a, 2));
    let with = with_flag(with, Flags::ADJUST, is_set(a, 4));
    let with = with_flag(with, Flags::ZERO, is_set(a, 6));
    with_flag(with, Flags::SIGN, is_set(a, 7))
}

/// The flags of a set all as told.
pub fn with_flag(flags: Flags, which: Flags, told: bool) -> Flags
    ensures { flags_of result ≡ set_to which told (flags_of flags) }
{
    if told {
        flags.replaced(which, Flags::from_bits_retain(0x7F))
    } else {
        flags.replaced(which, Flags::empty())
    }
}

// The flags with CF and OF alike.
fn both_by(holds: bool, flags: Flags) -> Flags
    ensures { flags_of result ≡ both_by holds (flags_of flags) }
{
    with_both(flags, holds, holds)
}

// ADD and ADC, SUB and SBB, INC and DEC: what they add or take off, and whether CF is kept.
fn by_sum(w: Width, a: u32, b: u32, carry: bool, flags: Flags) -> Flags
    ensures { flags_of result ≡ with_status (sum_flags w a b carry) (flags_of flags) }
{
    with_status(flags_of_add(w, a, b, carry), flags)
}

fn by_difference(w: Width, a: u32, b: u32, borrow: bool, flags: Flags) -> Flags
    ensures { flags_of result ≡ with_status (difference_flags w a b borrow) (flags_of flags) }
{
    with_status(flags_of_sub(w, a, b, borrow), flags)
}

/// The flags of a rule, for operands `a` and `b`, a result and the flags before.
#[tactic(auto, unfolding(x86_semantics::specs::FlagRules::ruled))]
pub fn ruled(rule: FlagRule, w: Width, a: u32, b: u32, r: u32, flags: Flags) -> Flags
    ensures { flags_of result ≡ ruled rule w a b r (flags_of flags) }
{
    match rule {
        FlagRule::Sum => by_sum(w, a, b, false, flags),
        FlagRule::SumWithCarry => by_sum(w, a, b, has_carry(flags), flags),
        FlagRule::Difference => by_difference(w, a, b, false, flags),
        FlagRule::DifferenceWithBorrow => by_difference(w, a, b, has_carry(flags), flags),
        FlagRule::Increment => with_carry(by_sum(w, a, 1, false, flags), has_carry(flags)),
        FlagRule::Decrement => with_carry(by_difference(w, a, 1, false, flags), has_carry(flags)),
        FlagRule::Negation => by_difference(w, 0, a, false, flags),
        FlagRule::Logic => with_status(flags_of_logic(w, r), flags),
        FlagRule::ShiftLeft => by_shift_left(w, a, b % 32, r, flags),
        FlagRule::ShiftRight => by_shift_right(w, a, b % 32, r, has_sign(w, a), flags),
        FlagRule::ShiftRightSigned => by_shift_right(w, a, b % 32, r, false, flags),
        FlagRule::ShiftRightDouble => by_shift_right(w, a, b % 32, r, changes_sign(w, a, r), flags),
        FlagRule::RotateLeft => by_rotate_left(w, b % 32, r, flags),
        FlagRule::RotateRight => by_rotate_right(w, b % 32, r, flags),
        FlagRule::Product => both_by(is_long_product(w, w.cut(a), w.cut(b)), flags),
        FlagRule::SignedProduct => both_by(is_long_signed_product(w, a, b), flags),
        FlagRule::BitTest => with_carry(flags, is_set(w.cut(a), b % w.bits())),
        FlagRule::BitScan => with_zero(flags, w.cut(a) == 0),
        FlagRule::Status => by_status(a, flags),
    }
}

fn by_shift_left(w: Width, a: u32, c: u32, r: u32, flags: Flags) -> Flags
    ensures { flags_of result ≡ unless_zero c (shift_left_flags w a c r (flags_of flags)) (flags_of flags) }
{
    if c == 0 {
        flags
    } else {
        shift_left(w, a, c, r, flags)
    }
}

fn by_shift_right(w: Width, a: u32, c: u32, r: u32, overflow: bool, flags: Flags) -> Flags
    requires { c < 32 }
    ensures { flags_of result ≡ unless_zero c (shift_right_flags w a c r overflow (flags_of flags)) (flags_of flags) }
{
    if c == 0 {
        flags
    } else {
        shift_right(w, a, c, r, overflow, flags)
    }
}

fn by_rotate_left(w: Width, c: u32, r: u32, flags: Flags) -> Flags
    ensures { flags_of result ≡ unless_zero c (rotate_left_flags w r (flags_of flags)) (flags_of flags) }
{
    if c == 0 {
        flags
    } else {
        rotate_left(w, r, flags)
    }
}

fn by_rotate_right(w: Width, c: u32, r: u32, flags: Flags) -> Flags
    ensures { flags_of result ≡ unless_zero c (rotate_right_flags w r (flags_of flags)) (flags_of flags) }
{
    if c == 0 {
        flags
    } else {
        rotate_right(w, r, flags)
    }
}

/// The flags with those of a set, but DF, taken from others.
pub fn freed(which: Flags, by: Flags, flags: Flags) -> Flags
    ensures { flags_of result ≡ freed_by which by (flags_of flags) }
{
    flags.replaced(which, by).replaced(Flags::DIRECTION, flags)
}
