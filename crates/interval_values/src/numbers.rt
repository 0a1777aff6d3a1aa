ghost use Rattle.std.specs.Prelude.{◌≡◌, ◌≤◌, ◌*◌, ◌^◌, nat_lt};
ghost use Rattle.interval_values.specs.Rules.{below_numbers, compared, differences, equal_numbers, of_numbers, shifted, shifted_by, shifted_left, shifted_right, sums};

use crate::divisor::gcd;
use crate::span::{number, span};
use crate::value::{Interval, NumberSpan};
use bit_words::{Op, Width};
use domain_laws::Domain;

// How many numbers of 32 bits there are.
const WORDS: u64 = 0x1_0000_0000;

// The sums or the differences of numbers: all of them with a carry, or all without.
pub(crate) fn of_numbers(op: Op, w: Width, a: Interval, b: Interval) -> Option<Interval>
    ensures { result ≡ of_numbers op w a b }
{
    match (op, w, a, b) {
        (Op::Add, Width::B32, Interval::Numbers(m), Interval::Numbers(n)) => sums(m, n),
        (Op::Sub, Width::B32, Interval::Numbers(m), Interval::Numbers(n)) => differences(m, n),
        _ => None,
    }
}

fn sums(m: NumberSpan, n: NumberSpan) -> Option<Interval>
    ensures { result ≡ sums m n }
{
    let least = u64::from(m.low) + u64::from(n.low);
    let greatest = u64::from(m.high) + u64::from(n.high);
    if greatest < WORDS || WORDS <= least {
        Some(span(
            m.low.wrapping_add(n.low),
            m.high.wrapping_add(n.high),
            gcd(m.stride, n.stride),
        ))
    } else {
        None
    }
}

fn differences(m: NumberSpan, n: NumberSpan) -> Option<Interval>
    ensures { result ≡ differences m n }
{
    if n.high <= m.low || m.high < n.low {
        Some(span(
            m.low.wrapping_sub(n.high),
            m.high.wrapping_sub(n.low),
            gcd(m.stride, n.stride),
        ))
    } else {
        None
    }
}

// Whether numbers are equal, or the first below the second, where their bounds tell it.
pub(crate) fn compared(op: Op, a: Interval, b: Interval) -> Option<Interval>
    ensures { result ≡ compared op a b }
{
    match (op, a, b) {
        (Op::Eq, Interval::Numbers(m), Interval::Numbers(n)) => equal_numbers(m, n),
        (Op::Ult, Interval::Numbers(m), Interval::Numbers(n)) => below_numbers(m, n),
        _ => None,
    }
}

fn equal_numbers(m: NumberSpan, n: NumberSpan) -> Option<Interval>
    ensures { result ≡ equal_numbers m n }
{
    if m.high < n.low || n.high < m.low {
        Some(number(0))
    } else {
        None
    }
}

fn below_numbers(m: NumberSpan, n: NumberSpan) -> Option<Interval>
    ensures { result ≡ below_numbers m n }
{
    if m.high < n.low {
        Some(number(1))
    } else if n.high <= m.low {
        Some(number(0))
    } else {
        None
    }
}

// Numbers shifted by one number.
pub(crate) fn shifted(op: Op, w: Width, a: Interval, b: Interval) -> Option<Interval>
    ensures { result ≡ shifted op w a b }
{
    match (w, a) {
        (Width::B32, Interval::Numbers(m)) => shifted_by(op, m, b.number_of()),
        _ => None,
    }
}

fn shifted_by(op: Op, m: NumberSpan, count: Option<u32>) -> Option<Interval>
    ensures { result ≡ shifted_by op m count }
{
    match (op, count) {
        (Op::Shl, Some(c)) => shifted_left(m, c),
        (Op::Shr, Some(c)) => shifted_right(m, c),
        _ => None,
    }
}

fn shifted_left(m: NumberSpan, c: u32) -> Option<Interval>
    ensures { result ≡ shifted_left m c }
{
    if 1 <= c && c <= 31 && fits_shifted(m.high, c) {
        Some(span(m.low << c, m.high << c, m.stride << c))
    } else {
        None
    }
}

// Whether a number times 2^c is below 2^32.
fn fits_shifted(n: u32, c: u32) -> bool
    requires { c ≤ 31 }
    ensures { result ≡ nat_lt (n * 2 ^ c) (2 ^ 32) }
{
    u64::from(n) << c < WORDS
}

fn shifted_right(m: NumberSpan, c: u32) -> Option<Interval>
    ensures { result ≡ shifted_right m c }
{
    if c <= 31 {
        Some(span(m.low >> c, m.high >> c, 1))
    } else {
        None
    }
}
