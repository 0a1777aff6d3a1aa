ghost use Rattle.std.specs.Prelude.{◌≡◌, ◌%◌, pos};
ghost use Rattle.std.specs.Ordering.{int_eq};
ghost use Rattle.interval_values.specs.Forms.{distance};
ghost use Rattle.interval_values.specs.Order.{greatest_equal, has_inner_bounds, interval_leq, interval_raise, interval_rank, is_all_inside, is_all_low, is_between, is_part, is_place_part, least_equal, rank_of, raise_number, raise_numbers, raise_offset, raise_offsets, raise_to_inside};

use crate::span::{
    distance, first_inside, inside, is_at_most, is_multiple, is_same, last_inside, place_span, span,
};
use crate::value::{Interval, NumberSpan, OffsetSpan};
use address_regions::Region;

// Whether every number for which `a` stands is one of `b`.
#[tactic(auto, unfolding(address_regions::specs::Same::same_region))]
pub(crate) fn is_below(a: Interval, b: Interval) -> bool
    ensures { result ≡ interval_leq a b }
{
    match (a, b) {
        (_, Interval::Any) => true,
        (Interval::Numbers(m), Interval::Numbers(n)) => is_part(m, n),
        (Interval::Offsets(m), Interval::Offsets(n)) => m.region == n.region && is_place_part(m, n),
        _ => false,
    }
}

fn is_part(m: NumberSpan, n: NumberSpan) -> bool
    ensures { result ≡ is_part m n }
{
    n.low <= m.low
        && m.high <= n.high
        && is_multiple(m.low - n.low, n.stride)
        && is_multiple(m.stride, n.stride)
}

fn is_place_part(m: OffsetSpan, n: OffsetSpan) -> bool
    ensures { result ≡ is_place_part m n }
{
    is_between(m, n)
        && is_multiple(distance_above(n, m), n.stride)
        && is_multiple(m.stride, n.stride)
}

// Whether the bounds of the first offsets lie between those of the second.
fn is_between(m: OffsetSpan, n: OffsetSpan) -> bool
    ensures { result ≡ is_between m n }
{
    is_at_most(n.low, m.low) && is_at_most(m.high, n.high)
}

// How far the low bound of the second offsets is above that of the first.
fn distance_above(m: OffsetSpan, n: OffsetSpan) -> u32
    ensures { result ≡ distance m.low n.low }
{
    distance(m.low, n.low)
}

// How far a value can be raised.
pub(crate) fn rank(v: Interval) -> u8
    ensures { result ≡ interval_rank v }
{
    match v {
        Interval::Numbers(m) => rank_of(m.low == m.high, is_all_low(m)),
        Interval::Offsets(m) => rank_of(is_one_offset(m), is_all_inside(m)),
        Interval::Any => 0,
    }
}

fn rank_of(one: bool, all: bool) -> u8
    ensures { result ≡ rank_of one all }
{
    if one {
        3
    } else if all {
        1
    } else {
        2
    }
}

// Whether these are all numbers below 65,536.
fn is_all_low(m: NumberSpan) -> bool
    ensures { result ≡ is_all_low m }
{
    m.low == 0 && m.high == 0xFFFF && m.stride == 1
}

// Whether these are all offsets at which four bytes lie in their region.
fn is_all_inside(m: OffsetSpan) -> bool
    ensures { result ≡ is_all_inside m }
{
    m.region.has_room() && has_inner_bounds(m) && m.stride == 1
}

// Whether the bounds are the least and the greatest offset at which four bytes lie in the region.
fn has_inner_bounds(m: OffsetSpan) -> bool
    ensures { result ≡ has_inner_bounds m }
{
    is_same(i64::from(m.low), first_inside(m.region))
        && is_same(i64::from(m.high), last_inside(m.region))
}

pub(crate) fn is_one_offset(m: OffsetSpan) -> bool
    ensures { result ≡ int_eq m.low m.high }
{
    is_same(i64::from(m.low), i64::from(m.high))
}

// A value of smaller rank that stands for more.
pub(crate) fn raise(v: Interval) -> Interval
    ensures { result ≡ interval_raise v }
{
    match v {
        Interval::Numbers(m) if m.low == m.high => raise_number(m.low),
        Interval::Numbers(m) => raise_numbers(m),
        Interval::Offsets(m) if is_one_offset(m) => raise_offset(m.region, m.low),
        Interval::Offsets(m) => raise_offsets(m),
        Interval::Any => Interval::Any,
    }
}

// One number below 65,536 to those of them that are equal to it modulo 4.
fn raise_number(n: u32) -> Interval
    ensures { result ≡ raise_number n }
{
    if n < 0x1_0000 {
        span(n % 4, n % 4 + 65_532, 4)
    } else {
        Interval::Any
    }
}

// Several numbers below 65,536 to all of them, and these to any.
fn raise_numbers(m: NumberSpan) -> Interval
    ensures { result ≡ raise_numbers m }
{
    if is_all_low(m) {
        Interval::Any
    } else if m.high <= 0xFFFF {
        span(0, 0xFFFF, 1)
    } else {
        Interval::Any
    }
}

// One offset of four bytes to those that are equal to it modulo 4 where there are two, and else to all.
fn raise_offset(region: Region, o: i32) -> Interval
    ensures { result ≡ raise_offset region o }
{
    if region.is_inside(o) {
        let least = least_equal(region, o);
        let greatest = greatest_equal(region, o);
        if is_same(least, greatest) {
            raise_to_inside(region)
        } else {
            place_span(region, least, greatest, 4)
        }
    } else {
        Interval::Any
    }
}

fn least_equal(region: Region, o: i32) -> i64
    ensures { result ≡ least_equal region o }
{
    let first = first_inside(region);
    first + remainder_between(first, i64::from(o))
}

fn greatest_equal(region: Region, o: i32) -> i64
    ensures { result ≡ greatest_equal region o }
{
    let last = last_inside(region);
    last - remainder_between(i64::from(o), last)
}

// The remainder by 4 of the distance between two integers.
fn remainder_between(low: i64, high: i64) -> i64
    ensures { result ≡ pos (distance low high % 4) }
{
    (high.abs_diff(low) % 4) as i64
}

// All offsets at which four bytes lie in a region, where there are two.
fn raise_to_inside(region: Region) -> Interval
    ensures { result ≡ raise_to_inside region }
{
    if is_same(first_inside(region), last_inside(region)) {
        Interval::Any
    } else {
        inside(region)
    }
}

// Several offsets of four bytes to all of them, and these to any.
fn raise_offsets(m: OffsetSpan) -> Interval
    ensures { result ≡ raise_offsets m }
{
    if is_all_inside(m) {
        Interval::Any
    } else if m.region.is_inside(m.low) && m.region.is_inside(m.high) {
        inside(m.region)
    } else {
        Interval::Any
    }
}
