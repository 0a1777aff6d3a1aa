ghost use Rattle.std.specs.Prelude.{◌≡◌, ◌-◌, ◌*◌, ◌%◌, ◌^◌, ◌<◌, ◌≤◌, not, nat_le, ◌*ℤ◌};
ghost use Rattle.bit_words.specs.Flags.{difference_flags, has_even_parity, has_sign, sum_flags, unpacked};
ghost use Rattle.bit_words.specs.Width.{bits_of, cut, is_signed, signed_of};
ghost use Rattle.domain_laws.specs.Made.{values_of};
ghost use Rattle.abstract_state.specs.Flags.{unknown_flags};
ghost use Rattle.abstract_state.specs.Truth.{truth_of};
ghost use Rattle.x86_semantics.specs.FlagRules.{is_set};
ghost use Rattle.transfer_functions.specs.Flags.{below_width, by_one, by_operator, counted, known_of, known_of_all, of_bit_scan, of_bit_test, of_product, of_result, of_status, rotated, rotated_left, rotated_right, ruled_truths, shifted_left, shifted_right, sign_changed};

use abstract_state::{Truth, Truths};
use bit_words::{Flags, Op, Width, flags_of_add, flags_of_sub};
use bitflags::Flags as FlagSet;
use domain_laws::Domain;
use x86_semantics::FlagRule;

// The bit of a number at a place.
fn is_set(n: u32, place: u32) -> bool
    requires { place < 32 }
    ensures { result ≡ is_set n place }
{
    (n >> place) % 2 == 1
}

// ---- by a number

fn parity(known: Option<u32>) -> Truth
    ensures { result ≡ known_of has_even_parity known }
{
    match known {
        Some(r) => Truth::of((r % 0x100).count_ones() % 2 == 0),
        None => Truth::Unknown,
    }
}

fn sign(w: Width, known: Option<u32>) -> Truth
    ensures { result ≡ known_of (has_sign w) known }
{
    match known {
        Some(r) => Truth::of(r >= w.top()),
        None => Truth::Unknown,
    }
}

// The top bit of a number of any size, cut to the width.
fn top_bit(w: Width, known: Option<u32>) -> Truth
    ensures { result ≡ known_of (λ x. has_sign w (cut w x)) known }
{
    match known {
        Some(x) => Truth::of(w.cut(x) >= w.top()),
        None => Truth::Unknown,
    }
}

fn bit(known: Option<u32>, place: u32) -> Truth
    requires { place < 32 }
    ensures { result ≡ known_of (λ x. is_set x place) known }
{
    match known {
        Some(x) => Truth::of(is_set(x, place)),
        None => Truth::Unknown,
    }
}

// The bit of a number of any size, cut to the width.
fn low_bit(w: Width, known: Option<u32>, place: u32) -> Truth
    requires { place < 32 }
    ensures { result ≡ known_of (λ x. is_set (cut w x) place) known }
{
    match known {
        Some(x) => Truth::of(is_set(w.cut(x), place)),
        None => Truth::Unknown,
    }
}

// ---- by both operands

// CF, AF and OF, which do not follow from the result.
#[derive(Clone, Copy)]
struct Others {
    carry: Truth,
    adjust: Truth,
    overflow: Truth,
}

fn others_of(flags: Flags) -> Others
    ensures carry { result.carry ≡ truth_of (unpacked flags).carry }
    ensures adjust { result.adjust ≡ truth_of (unpacked flags).adjust }
    ensures overflow { result.overflow ≡ truth_of (unpacked flags).overflow }
{
    Others {
        carry: Truth::of(flags.contains(Flags::CARRY)),
        adjust: Truth::of(flags.contains(Flags::ADJUST)),
        overflow: Truth::of(flags.contains(Flags::OVERFLOW)),
    }
}

const UNKNOWN: Others = Others {
    carry: Truth::Unknown,
    adjust: Truth::Unknown,
    overflow: Truth::Unknown,
};

// CF and OF clear, AF free.
const LOGIC: Others = Others {
    carry: Truth::No,
    adjust: Truth::Unknown,
    overflow: Truth::No,
};

fn of_sum(w: Width, a: Option<u32>, b: Option<u32>, carry: Truth) -> Others
    ensures carry { result.carry ≡ known_of_all (λ x y c. (sum_flags w x y c).carry) a b carry }
    ensures adjust { result.adjust ≡ known_of_all (λ x y c. (sum_flags w x y c).adjust) a b carry }
    ensures overflow { result.overflow ≡ known_of_all (λ x y c. (sum_flags w x y c).overflow) a b carry }
{
    match (a, b, carry) {
        (Some(x), Some(y), Truth::Yes) => others_of(flags_of_add(w, x, y, true)),
        (Some(x), Some(y), Truth::No) => others_of(flags_of_add(w, x, y, false)),
        _ => UNKNOWN,
    }
}

fn of_difference(w: Width, a: Option<u32>, b: Option<u32>, borrow: Truth) -> Others
    ensures carry { result.carry ≡ known_of_all (λ x y c. (difference_flags w x y c).carry) a b borrow }
    ensures adjust { result.adjust ≡ known_of_all (λ x y c. (difference_flags w x y c).adjust) a b borrow }
    ensures overflow { result.overflow ≡ known_of_all (λ x y c. (difference_flags w x y c).overflow) a b borrow }
{
    match (a, b, borrow) {
        (Some(x), Some(y), Truth::Yes) => others_of(flags_of_sub(w, x, y, true)),
        (Some(x), Some(y), Truth::No) => others_of(flags_of_sub(w, x, y, false)),
        _ => UNKNOWN,
    }
}

// Whether the product of two words has bits above the width.
fn is_large(w: Width, a: Option<u32>, b: Option<u32>) -> Truth
    ensures { result ≡ known_of_all (λ x y c. nat_le (2 ^ bits_of w) (cut w x * cut w y)) a b Truth.No }
{
    match (a, b) {
        (Some(x), Some(y)) => Truth::of(u64::from(w.cut(x)) * u64::from(w.cut(y)) >= w.size()),
        _ => Truth::Unknown,
    }
}

// Whether the product of two signed words is none of the width.
fn is_large_signed(w: Width, a: Option<u32>, b: Option<u32>) -> Truth
    ensures { result ≡ known_of_all (λ x y c. not (is_signed w (signed_of w x *ℤ signed_of w y))) a b Truth.No }
{
    match (a, b) {
        (Some(x), Some(y)) => {
            Truth::of(!w.holds(i64::from(w.signed(x)) * i64::from(w.signed(y))))
        }
        _ => Truth::Unknown,
    }
}

// The bit of a number at a place, which counts modulo the width.
fn tested_bit(w: Width, a: Option<u32>, place: Option<u32>) -> Truth
    ensures { result ≡ known_of_all (λ x i c. is_set (cut w x) (i % bits_of w)) a place Truth.No }
{
    match (a, place) {
        (Some(x), Some(i)) => Truth::of(is_set(w.cut(x), i % w.bits())),
        _ => Truth::Unknown,
    }
}

// ---- by a result

// Whether an operator's value is not 0.
pub(crate) fn by_operator<D: Domain>(op: Op, w: Width, a: D, b: D, align: u32) -> Truth
    ensures { result ≡ by_operator (values_of D.Domain.own D.eq) align op w a b }
{
    Truth::of_number(D::eval(op, w, a, b, align).number_of())
}

// ZF, SF and PF by the result, and the others as given.
fn of_result<D: Domain>(w: Width, r: D, others: Others, t: &Truths, align: u32) -> Truths
    ensures { result ≡ of_result (values_of D.Domain.own D.eq) align w r
        others.carry others.adjust others.overflow t.now }
{
    Truths {
        carry: others.carry,
        parity: parity(r.number_of()),
        adjust: others.adjust,
        zero: by_operator(Op::Eq, w, r, D::number(0), align),
        sign: sign(w, r.number_of()),
        overflow: others.overflow,
        direction: t.direction,
    }
}

// ---- shifts and rotations

// CF, unless it is free.
fn below_width(w: Width, c: u32, carry: Truth) -> Truth
    ensures { result ≡ below_width w c carry }
{
    if c < w.bits() { carry } else { Truth::Unknown }
}

// OF, unless it is free.
fn by_one(c: u32, overflow: Truth) -> Truth
    ensures { result ≡ by_one c overflow }
{
    if c == 1 { overflow } else { Truth::Unknown }
}

// Of a left shift, after which the flags are as they were where the count is 0.
fn shifted_left<D: Domain>(w: Width, a: Option<u32>, c: u32, r: D, t: &Truths, align: u32) -> Truths
    requires { 1 ≤ c }
    ensures { result ≡ shifted_left (values_of D.Domain.own D.eq) align w a c r t.now }
{
    let carry = low_bit(w, a, w.bits().saturating_sub(c));
    let others = Others {
        carry: below_width(w, c, carry),
        adjust: Truth::Unknown,
        overflow: by_one(c, sign(w, r.number_of()).xor(carry)),
    };
    of_result(w, r, others, t, align)
}

// A right shift of `a` to `r`, with OF as it is by 1.
#[derive(Clone, Copy)]
struct RightShift<D> {
    a: Option<u32>,
    r: D,
    overflow: Truth,
}

fn shifted_right<D: Domain>(w: Width, of: RightShift<D>, c: u32, t: &Truths, align: u32) -> Truths
    requires some { 1 ≤ c }
    requires low { c < 32 }
    ensures { result ≡ shifted_right (values_of D.Domain.own D.eq) align w of.a c of.r of.overflow t.now }
{
    let others = Others {
        carry: below_width(w, c, low_bit(w, of.a, c - 1)),
        adjust: Truth::Unknown,
        overflow: by_one(c, of.overflow),
    };
    of_result(w, of.r, others, t, align)
}

// Whether the top bits of a number and its result differ.
fn sign_changed(w: Width, a: Option<u32>, r: Option<u32>) -> Truth
    ensures { result ≡ sign_changed w a r }
{
    sign(w, r).xor(top_bit(w, a))
}

fn rotated(carry: Truth, overflow: Truth, t: &Truths) -> Truths
    ensures { result ≡ rotated carry overflow t.now }
{
    Truths {
        carry,
        overflow,
        ..*t
    }
}

fn rotated_left(w: Width, c: u32, r: Option<u32>, t: &Truths) -> Truths
    ensures { result ≡ rotated_left w c r t.now }
{
    let carry = bit(r, 0);
    let overflow = sign(w, r).xor(carry);
    rotated(below_width(w, c, carry), by_one(c, overflow), t)
}

fn rotated_right(w: Width, c: u32, r: Option<u32>, t: &Truths) -> Truths
    ensures { result ≡ rotated_right w c r t.now }
{
    let carry = sign(w, r);
    let overflow = carry.xor(bit(r, w.bits() - 2));
    rotated(below_width(w, c, carry), by_one(c, overflow), t)
}

// ---- by the count of a shift or rotation

fn after_left_shift<D: Domain>(
    w: Width,
    a: Option<u32>,
    count: Option<u32>,
    r: D,
    t: &Truths,
    align: u32,
) -> Truths
    ensures { result ≡ counted count (λ c. shifted_left (values_of D.Domain.own D.eq) align w a c r t.now)
        (unknown_flags t.now.direction) t.now }
{
    match count {
        None => Truths::unknown(t.direction),
        Some(n) if n % 32 == 0 => *t,
        Some(n) => shifted_left(w, a, n % 32, r, t, align),
    }
}

fn after_right_shift<D: Domain>(
    w: Width,
    of: RightShift<D>,
    count: Option<u32>,
    t: &Truths,
    align: u32,
) -> Truths
    ensures { result ≡ counted count
        (λ c. shifted_right (values_of D.Domain.own D.eq) align w of.a c of.r of.overflow t.now)
        (unknown_flags t.now.direction) t.now }
{
    match count {
        None => Truths::unknown(t.direction),
        Some(n) if n % 32 == 0 => *t,
        Some(n) => shifted_right(w, of, n % 32, t, align),
    }
}

fn after_left_rotation(w: Width, count: Option<u32>, r: Option<u32>, t: &Truths) -> Truths
    ensures { result ≡ counted count (λ c. rotated_left w c r t.now)
        (rotated Truth.Unknown Truth.Unknown t.now) t.now }
{
    match count {
        None => rotated(Truth::Unknown, Truth::Unknown, t),
        Some(n) if n % 32 == 0 => *t,
        Some(n) => rotated_left(w, n % 32, r, t),
    }
}

fn after_right_rotation(w: Width, count: Option<u32>, r: Option<u32>, t: &Truths) -> Truths
    ensures { result ≡ counted count (λ c. rotated_right w c r t.now)
        (rotated Truth.Unknown Truth.Unknown t.now) t.now }
{
    match count {
        None => rotated(Truth::Unknown, Truth::Unknown, t),
        Some(n) if n % 32 == 0 => *t,
        Some(n) => rotated_right(w, n % 32, r, t),
    }
}

// ---- the rules

fn of_product(large: Truth, t: &Truths) -> Truths
    ensures { result ≡ of_product large t.now }
{
    rotated(large, large, &Truths::unknown(t.direction))
}

fn of_bit_test(w: Width, a: Option<u32>, place: Option<u32>, t: &Truths) -> Truths
    ensures { result ≡ of_bit_test w a place t.now }
{
    Truths {
        carry: tested_bit(w, a, place),
        zero: t.zero,
        ..Truths::unknown(t.direction)
    }
}

fn of_bit_scan(zero: Truth, t: &Truths) -> Truths
    ensures { result ≡ of_bit_scan zero t.now }
{
    Truths {
        zero,
        ..Truths::unknown(t.direction)
    }
}

fn of_status(a: Option<u32>, t: &Truths) -> Truths
    ensures { result ≡ of_status a t.now }
{
    Truths {
        carry: bit(a, 0),
        parity: bit(a, 2),
        adjust: bit(a, 4),
        zero: bit(a, 6),
        sign: bit(a, 7),
        overflow: t.overflow,
        direction: t.direction,
    }
}

/// What is known of the flags after an instruction of a rule with operands `a` and `b` and a result, where `t` was known before.
/// Of a shift or rotation `b` is the count as it is read, not yet taken modulo 32.
#[tactic(auto, unfolding(crate::specs::Flags::ruled_truths))]
pub fn flags_after<D: Domain>(
    rule: FlagRule,
    w: Width,
    operands: (D, D),
    result_value: D,
    t: &Truths,
    align: u32,
) -> Truths
    ensures { result ≡ ruled_truths (values_of D.Domain.own D.eq) align rule w operands.0 operands.1
        result_value t.now }
{
    let r = result_value;
    let (a, b) = (operands.0.number_of(), operands.1.number_of());
    match rule {
        FlagRule::Sum => of_result(w, r, of_sum(w, a, b, Truth::No), t, align),
        FlagRule::SumWithCarry => of_result(w, r, of_sum(w, a, b, t.carry), t, align),
        FlagRule::Difference => Truths {
            carry: by_operator(Op::Ult, w, operands.0, operands.1, align),
            zero: by_operator(Op::Eq, w, operands.0, operands.1, align),
            ..of_result(w, r, of_difference(w, a, b, Truth::No), t, align)
        },
        FlagRule::DifferenceWithBorrow => {
            of_result(w, r, of_difference(w, a, b, t.carry), t, align)
        }
        FlagRule::Increment => Truths {
            carry: t.carry,
            ..of_result(w, r, of_sum(w, a, Some(1), Truth::No), t, align)
        },
        FlagRule::Decrement => Truths {
            carry: t.carry,
            ..of_result(w, r, of_difference(w, a, Some(1), Truth::No), t, align)
        },
        FlagRule::Negation => Truths {
            carry: by_operator(Op::Eq, w, operands.0, D::number(0), align).opposite(),
            ..of_result(w, r, of_difference(w, Some(0), a, Truth::No), t, align)
        },
        FlagRule::Logic => of_result(w, r, LOGIC, t, align),
        FlagRule::ShiftLeft => after_left_shift(w, a, b, r, t, align),
        FlagRule::ShiftRight => {
            let overflow = top_bit(w, a);
            after_right_shift(w, RightShift { a, r, overflow }, b, t, align)
        }
        FlagRule::ShiftRightSigned => {
            let overflow = Truth::No;
            after_right_shift(w, RightShift { a, r, overflow }, b, t, align)
        }
        FlagRule::ShiftRightDouble => {
            let overflow = sign_changed(w, a, r.number_of());
            after_right_shift(w, RightShift { a, r, overflow }, b, t, align)
        }
        FlagRule::RotateLeft => after_left_rotation(w, b, r.number_of(), t),
        FlagRule::RotateRight => after_right_rotation(w, b, r.number_of(), t),
        FlagRule::Product => of_product(is_large(w, a, b), t),
        FlagRule::SignedProduct => of_product(is_large_signed(w, a, b), t),
        FlagRule::BitTest => of_bit_test(w, a, b, t),
        FlagRule::BitScan => {
            of_bit_scan(by_operator(Op::Eq, w, operands.0, D::number(0), align), t)
        }
        FlagRule::Status => of_status(a, t),
    }
}
