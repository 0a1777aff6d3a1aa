ghost use Rattle.std.specs.Prelude.{◌≡◌, IsTrue};
ghost use Rattle.std.specs.Int.{is_power_of_two};
ghost use Rattle.bounded_values.specs.Rules.{aligned_place, apart, between, between_places, by_places, is_outside, is_stack_mask, lies_in_region, masked_at, masked_place, moved_place, number_and_place, offset_down, offset_up, outside_place, place_less, place_plus, rounded_down, unit_of};

use crate::value::Bounded;
use address_regions::Region;
use bit_words::{Op, Width, apply};

// The rules of eval that follow those of every domain: the first that applies, and else any.
#[tactic(auto, unfolding(crate::specs::Rules::by_places))]
pub(crate) fn by_places(op: Op, w: Width, a: Bounded, b: Bounded, align: u32) -> Bounded
    ensures { result ≡ by_places op w a b align }
{
    moved_place(op, w, a, b)
        .or(between_places(op, w, a, b))
        .or(aligned_place(op, w, a, b, align))
        .or(apart(op, w, a, b))
        .unwrap_or(Bounded::Any)
}

// A place plus or less a number is the place at the offset so moved, wrapped to 32 bits.
fn moved_place(op: Op, w: Width, a: Bounded, b: Bounded) -> Option<Bounded>
    ensures { result ≡ moved_place op w a b }
{
    match (op, w) {
        (Op::Add, Width::B32) => place_plus(a, b),
        (Op::Sub, Width::B32) => place_less(a, b),
        _ => None,
    }
}

fn place_plus(a: Bounded, b: Bounded) -> Option<Bounded>
    ensures { result ≡ place_plus a b }
{
    match (a, b) {
        (Bounded::Exact(r, o), Bounded::Number(n)) => Some(Bounded::Exact(r, offset_up(o, n))),
        (Bounded::Number(n), Bounded::Exact(r, o)) => Some(Bounded::Exact(r, offset_up(o, n))),
        _ => None,
    }
}

fn place_less(a: Bounded, b: Bounded) -> Option<Bounded>
    ensures { result ≡ place_less a b }
{
    match (a, b) {
        (Bounded::Exact(r, o), Bounded::Number(n)) => Some(Bounded::Exact(r, offset_down(o, n))),
        _ => None,
    }
}

/// An offset plus a number, wrapped to a signed number of 32 bits.
pub fn offset_up(o: i32, n: u32) -> i32
    ensures { result ≡ offset_up o n }
{
    o.wrapping_add_unsigned(n)
}

/// An offset less a number, wrapped to a signed number of 32 bits.
pub fn offset_down(o: i32, n: u32) -> i32
    ensures { result ≡ offset_down o n }
{
    o.wrapping_sub_unsigned(n)
}

// The difference of two places from one base, and whether they are equal, are those of their offsets.
fn between_places(op: Op, w: Width, a: Bounded, b: Bounded) -> Option<Bounded>
    ensures { result ≡ between_places op w a b }
{
    match (op, w) {
        (Op::Sub | Op::Eq, Width::B32) => between(op, a, b),
        _ => None,
    }
}

#[tactic(auto, unfolding(address_regions::specs::Same::same_region))]
fn between(op: Op, a: Bounded, b: Bounded) -> Option<Bounded>
    ensures { result ≡ between op a b }
{
    match (a, b) {
        (Bounded::Exact(r, o), Bounded::Exact(s, q)) if r == s && r.has_one_base() => {
            Some(Bounded::Number(apply(
                op,
                Width::B32,
                Width::B32.word(i64::from(o)),
                Width::B32.word(i64::from(q)),
            )))
        }
        _ => None,
    }
}

// A stack place under an alignment mask is the place rounded down.
fn aligned_place(op: Op, w: Width, a: Bounded, b: Bounded, align: u32) -> Option<Bounded>
    ensures { result ≡ aligned_place op w a b align }
{
    match (op, w) {
        (Op::And, Width::B32) => masked_place(a, b, align),
        _ => None,
    }
}

fn masked_place(a: Bounded, b: Bounded, align: u32) -> Option<Bounded>
    ensures { result ≡ masked_place a b align }
{
    match (a, b) {
        (Bounded::Exact(Region::Stack, o), Bounded::Number(n)) => masked_at(o, n, align),
        (Bounded::Number(n), Bounded::Exact(Region::Stack, o)) => masked_at(o, n, align),
        _ => None,
    }
}

fn masked_at(o: i32, n: u32, align: u32) -> Option<Bounded>
    ensures { result ≡ masked_at o n align }
{
    if is_stack_mask(n, align) {
        Some(Bounded::Exact(Region::Stack, rounded_down(o, unit_of(n))))
    } else {
        None
    }
}

/// Whether `n` is 2^32 less a power of two that is at most the alignment.
pub fn is_stack_mask(n: u32, align: u32) -> bool
    ensures { result ≡ is_stack_mask n align }
{
    unit_of(n).is_power_of_two() && unit_of(n) <= align
}

/// The number of which `n` is the negative, modulo 2^32.
pub fn unit_of(n: u32) -> u32
    ensures { result ≡ unit_of n }
{
    n.wrapping_neg()
}

/// An offset less its remainder by a power of two.
pub fn rounded_down(o: i32, unit: u32) -> i32
    requires { IsTrue (is_power_of_two unit) }
    ensures { result ≡ rounded_down o unit }
{
    offset_down(o, o.cast_unsigned() % unit)
}

// A number below 4,096 or from 0xF0000000 on is no place of a region.
fn apart(op: Op, w: Width, a: Bounded, b: Bounded) -> Option<Bounded>
    ensures { result ≡ apart op w a b }
{
    match (op, w) {
        (Op::Eq, Width::B32) => number_and_place(a, b),
        _ => None,
    }
}

fn number_and_place(a: Bounded, b: Bounded) -> Option<Bounded>
    ensures { result ≡ number_and_place a b }
{
    match a {
        Bounded::Number(n) => outside_place(n, b),
        _ => match b {
            Bounded::Number(n) => outside_place(n, a),
            _ => None,
        },
    }
}

fn outside_place(n: u32, v: Bounded) -> Option<Bounded>
    ensures { result ≡ outside_place n v }
{
    if is_outside(n) && lies_in_region(v) {
        Some(Bounded::Number(0))
    } else {
        None
    }
}

/// Whether no region has a byte at this address.
pub fn is_outside(n: u32) -> bool
    ensures { result ≡ is_outside n }
{
    n < 4096 || n >= 0xF000_0000
}

// Whether the value stands for bytes of a region alone.
fn lies_in_region(v: Bounded) -> bool
    ensures { result ≡ lies_in_region v }
{
    match v {
        Bounded::Exact(r, o) => r.contains(o),
        Bounded::Inside(r) => r.has_room(),
        Bounded::Number(_) | Bounded::Any => false,
    }
}
