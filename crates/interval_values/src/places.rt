ghost use Rattle.std.specs.Prelude.{◌≡◌, int_le, int_lt, ◌+ℤ◌, ◌-ℤ◌};
ghost use Rattle.std.specs.Ordering.{int_eq};
ghost use Rattle.bit_words.specs.declared.width.Width.TheVariants.{B32};
ghost use Rattle.bit_words.specs.Width.{word_of};
ghost use Rattle.interval_values.specs.Forms.{distance};
ghost use Rattle.interval_values.specs.Rules.{aligned, aligned_offset, are_one, equal_offsets, have_one_base, moved_down, moved_up, of_offsets, of_offsets_and_number, of_offsets_and_numbers, offset_differences, outside, outside_offsets, signed_bounds, spread_down, spread_up};

use crate::divisor::gcd;
use crate::order::is_one_offset;
use crate::span::{distance, is_at_most, is_same, number, place, place_span, span};
use crate::value::{Interval, NumberSpan, OffsetSpan};
use address_regions::Region;
use bit_words::{Op, Width};
use bounded_values::{is_outside, is_stack_mask, offset_down, offset_up, rounded_down, unit_of};
use domain_laws::Domain;

// Offsets plus or less numbers.
pub(crate) fn of_offsets_and_numbers(op: Op, w: Width, a: Interval, b: Interval) -> Option<Interval>
    ensures { result ≡ of_offsets_and_numbers op w a b }
{
    match (op, w, a, b) {
        (Op::Add, Width::B32, Interval::Offsets(m), Interval::Numbers(n)) => moved_up(m, n),
        (Op::Add, Width::B32, Interval::Numbers(n), Interval::Offsets(m)) => moved_up(m, n),
        (Op::Sub, Width::B32, Interval::Offsets(m), Interval::Numbers(n)) => moved_down(m, n),
        _ => None,
    }
}

fn moved_up(m: OffsetSpan, n: NumberSpan) -> Option<Interval>
    ensures { result ≡ moved_up m n }
{
    if are_one(m, n) {
        Some(place(m.region, offset_up(m.low, n.low)))
    } else {
        spread_up(m, n, signed_bounds(n))
    }
}

fn moved_down(m: OffsetSpan, n: NumberSpan) -> Option<Interval>
    ensures { result ≡ moved_down m n }
{
    if are_one(m, n) {
        Some(place(m.region, offset_down(m.low, n.low)))
    } else {
        spread_down(m, n, signed_bounds(n))
    }
}

fn are_one(m: OffsetSpan, n: NumberSpan) -> bool
    ensures { result ≡ are_one m n }
{
    is_one_offset(m) && n.low == n.high
}

fn spread_up(m: OffsetSpan, n: NumberSpan, bounds: Option<(i32, i32)>) -> Option<Interval>
    ensures { result ≡ spread_up m n bounds }
{
    match bounds {
        Some((low, high)) => Some(place_span(
            m.region,
            offset_sum(m.low, low),
            offset_sum(m.high, high),
            gcd(m.stride, n.stride),
        )),
        None => None,
    }
}

fn spread_down(m: OffsetSpan, n: NumberSpan, bounds: Option<(i32, i32)>) -> Option<Interval>
    ensures { result ≡ spread_down m n bounds }
{
    match bounds {
        Some((low, high)) => Some(place_span(
            m.region,
            offset_difference(m.low, high),
            offset_difference(m.high, low),
            gcd(m.stride, n.stride),
        )),
        None => None,
    }
}

fn offset_sum(a: i32, b: i32) -> i64
    ensures { result ≡ a +ℤ b }
{
    i64::from(a) + i64::from(b)
}

fn offset_difference(a: i32, b: i32) -> i64
    ensures { result ≡ a -ℤ b }
{
    i64::from(a) - i64::from(b)
}

// The bounds of numbers as signed ones, where all are below 2^31, or none is.
fn signed_bounds(n: NumberSpan) -> Option<(i32, i32)>
    ensures { result ≡ signed_bounds n }
{
    if n.high < 0x8000_0000 || 0x8000_0000 <= n.low {
        Some((Width::B32.signed(n.low), Width::B32.signed(n.high)))
    } else {
        None
    }
}

// The difference of two offsets from the one base of their region, and whether they are equal.
pub(crate) fn of_offsets(op: Op, w: Width, a: Interval, b: Interval) -> Option<Interval>
    ensures { result ≡ of_offsets op w a b }
{
    match (op, w, a, b) {
        (Op::Sub, Width::B32, Interval::Offsets(m), Interval::Offsets(n)) if have_one_base(m, n) =>
            { offset_differences(m, n) }
        (Op::Eq, Width::B32, Interval::Offsets(m), Interval::Offsets(n)) if have_one_base(m, n) => {
            equal_offsets(m, n)
        }
        _ => None,
    }
}

#[tactic(auto, unfolding(address_regions::specs::Same::same_region))]
fn have_one_base(m: OffsetSpan, n: OffsetSpan) -> bool
    ensures { result ≡ have_one_base m n }
{
    m.region == n.region && m.region.has_one_base()
}

fn offset_differences(m: OffsetSpan, n: OffsetSpan) -> Option<Interval>
    ensures { result ≡ offset_differences m n }
{
    if is_one_offset(m) && is_one_offset(n) {
        Some(number(low_difference(m, n)))
    } else if is_above(m, n) {
        Some(span(
            least_difference(m, n),
            greatest_difference(m, n),
            gcd(m.stride, n.stride),
        ))
    } else {
        None
    }
}

// The difference of the low bounds, modulo 2^32.
fn low_difference(m: OffsetSpan, n: OffsetSpan) -> u32
    ensures { result ≡ word_of B32 (m.low -ℤ n.low) }
{
    Width::B32.word(offset_difference(m.low, n.low))
}

fn least_difference(m: OffsetSpan, n: OffsetSpan) -> u32
    ensures { result ≡ distance n.high m.low }
{
    distance(n.high, m.low)
}

fn greatest_difference(m: OffsetSpan, n: OffsetSpan) -> u32
    ensures { result ≡ distance n.low m.high }
{
    distance(n.low, m.high)
}

// Whether no offset of the second is above one of the first.
fn is_above(m: OffsetSpan, n: OffsetSpan) -> bool
    ensures { result ≡ int_le n.high m.low }
{
    is_at_most(n.high, m.low)
}

fn equal_offsets(m: OffsetSpan, n: OffsetSpan) -> Option<Interval>
    ensures { result ≡ equal_offsets m n }
{
    if is_one_offset(m) && is_one_offset(n) && have_one_low(m, n) {
        Some(number(1))
    } else if lies_below(m, n) || lies_below(n, m) {
        Some(number(0))
    } else {
        None
    }
}

fn have_one_low(m: OffsetSpan, n: OffsetSpan) -> bool
    ensures { result ≡ int_eq m.low n.low }
{
    is_same(i64::from(m.low), i64::from(n.low))
}

// Whether every offset of the first is below every one of the second.
fn lies_below(m: OffsetSpan, n: OffsetSpan) -> bool
    ensures { result ≡ int_lt m.high n.low }
{
    m.high < n.low
}

// One number and offsets: an alignment mask on the stack, and a number where no region has a byte.
pub(crate) fn of_offsets_and_number(
    op: Op,
    w: Width,
    a: Interval,
    b: Interval,
    align: u32,
) -> Option<Interval>
    ensures { result ≡ of_offsets_and_number op w a b align }
{
    match (op, w) {
        (Op::And, Width::B32) => aligned(a, b, align),
        (Op::Eq, Width::B32) => outside(a, b),
        _ => None,
    }
}

fn aligned(a: Interval, b: Interval, align: u32) -> Option<Interval>
    ensures { result ≡ aligned a b align }
{
    match (a, b) {
        (Interval::Offsets(m), _) => aligned_offset(m, b.number_of(), align),
        (Interval::Numbers(_), Interval::Offsets(m)) => aligned_offset(m, a.number_of(), align),
        _ => None,
    }
}

#[tactic(auto, unfolding(address_regions::specs::Same::same_region))]
fn aligned_offset(m: OffsetSpan, mask: Option<u32>, align: u32) -> Option<Interval>
    ensures { result ≡ aligned_offset m mask align }
{
    match mask {
        Some(n) if m.region == Region::Stack && is_one_offset(m) && is_stack_mask(n, align) => {
            Some(place(Region::Stack, rounded_down(m.low, unit_of(n))))
        }
        _ => None,
    }
}

fn outside(a: Interval, b: Interval) -> Option<Interval>
    ensures { result ≡ outside a b }
{
    match (a, b) {
        (Interval::Offsets(m), _) => outside_offsets(m, b.number_of()),
        (Interval::Numbers(_), Interval::Offsets(m)) => outside_offsets(m, a.number_of()),
        _ => None,
    }
}

fn outside_offsets(m: OffsetSpan, known: Option<u32>) -> Option<Interval>
    ensures { result ≡ outside_offsets m known }
{
    match known {
        Some(n) if is_outside(n) && m.region.contains(m.low) && m.region.contains(m.high) => {
            Some(number(0))
        }
        _ => None,
    }
}
