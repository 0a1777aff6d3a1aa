ghost use Rattle.std.specs.Prelude.{◌≡◌, ◌^◌, if◌then◌else◌, pos, neg_ℤ, ◌-ℤ◌, ◌≤ℤ◌, int_le};
ghost use Rattle.interval_values.specs.Forms.{distance, is_multiple, is_number_span, is_offset_span, is_stride};
ghost use Rattle.interval_values.specs.Spans.{interval_inside, interval_number, interval_place, numbers, offsets, place_span, span};
ghost use Rattle.std.specs.Ordering.{int_eq};
ghost use Rattle.address_regions.specs.Extents.{high_of, low_of};
ghost use Rattle.bit_words.specs.Width.{is_signed};
ghost use Rattle.bit_words.specs.declared.width.Width.TheVariants.{B32};

use crate::value::{Interval, NumberSpan, OffsetSpan};
use address_regions::Region;

// The numbers from `low` to `high` by a stride, which is taken as 0 where the bounds are equal; any, where they are not well-formed.
#[tactic(auto, unfolding(crate::specs::Spans::span))]
pub(crate) fn span(low: u32, high: u32, stride: u32) -> Interval
    ensures { result ≡ span low high stride }
{
    numbers(low, high, stride_of(low == high, stride))
}

// One number alone.
pub(crate) fn number(n: u32) -> Interval
    ensures { result ≡ interval_number n }
{
    span(n, n, 0)
}

// One offset alone.
pub(crate) fn place(region: Region, offset: i32) -> Interval
    ensures { result ≡ interval_place region offset }
{
    place_span(region, i64::from(offset), i64::from(offset), 0)
}

// The stride of a span: 0 for one member alone.
fn stride_of(one: bool, stride: u32) -> u32
    ensures { result ≡ (if one then 0 else stride) }
{
    if one { 0 } else { stride }
}

fn numbers(low: u32, high: u32, stride: u32) -> Interval
    ensures { result ≡ numbers low high stride }
{
    if is_number_span(low, high, stride) {
        Interval::Numbers(NumberSpan { low, high, stride })
    } else {
        Interval::Any
    }
}

fn is_number_span(low: u32, high: u32, stride: u32) -> bool
    ensures { result ≡ is_number_span low high stride }
{
    low <= high && is_stride(high - low, stride)
}

fn is_stride(distance: u32, stride: u32) -> bool
    ensures { result ≡ is_stride distance stride }
{
    if distance == 0 {
        stride == 0
    } else {
        is_multiple(distance, stride)
    }
}

// Whether n is a multiple of s; of 0 that is 0 alone.
pub(crate) fn is_multiple(n: u32, s: u32) -> bool
    ensures { result ≡ is_multiple n s }
{
    if s == 0 { n == 0 } else { n % s == 0 }
}

// The offsets of a region from `low` to `high` by a stride, which is taken as 0 where the bounds are equal; any, where they are not well-formed.
#[tactic(auto, unfolding(crate::specs::Spans::place_span))]
pub(crate) fn place_span(region: Region, low: i64, high: i64, stride: u32) -> Interval
    ensures { result ≡ place_span region low high stride }
{
    offsets(region, low, high, stride_of(is_same(low, high), stride))
}

// Whether two integers are one.
pub(crate) fn is_same(a: i64, b: i64) -> bool
    ensures { result ≡ int_eq a b }
{
    a == b
}

fn offsets(region: Region, low: i64, high: i64, stride: u32) -> Interval
    ensures { result ≡ offsets region low high stride }
{
    if is_offset_span(low, high, stride) {
        Interval::Offsets(OffsetSpan {
            region,
            low: low as i32,
            high: high as i32,
            stride,
        })
    } else {
        Interval::Any
    }
}

fn is_offset_span(low: i64, high: i64, stride: u32) -> bool
    ensures { result ≡ is_offset_span low high stride }
{
    low <= high && is_offset(low) && is_offset(high) && is_stride((high - low) as u32, stride)
}

// Whether an integer is a signed number of 32 bits.
pub(crate) fn is_offset(n: i64) -> bool
    ensures { result ≡ is_signed B32 n }
{
    -0x8000_0000 <= n && n < 0x8000_0000
}

// How far the second offset is above the first.
pub(crate) fn distance(low: i32, high: i32) -> u32
    ensures { result ≡ distance low high }
{
    high.abs_diff(low)
}

// Whether the second offset is no less than the first.
pub(crate) fn is_at_most(a: i32, b: i32) -> bool
    ensures { result ≡ int_le a b }
{
    a <= b
}

// The least and the greatest offset at which four bytes would lie in a region.
pub(crate) fn first_inside(region: Region) -> i64
    ensures value { result ≡ low_of region }
    ensures low { neg_ℤ (pos (2 ^ 32)) ≤ℤ result }
    ensures high { result ≤ℤ pos (2 ^ 32) }
{
    let (low, _) = region.extent();
    low
}

pub(crate) fn last_inside(region: Region) -> i64
    ensures value { result ≡ high_of region -ℤ pos 4 }
    ensures low { neg_ℤ (pos (2 ^ 32)) ≤ℤ result }
    ensures high { result ≤ℤ pos (2 ^ 32) }
{
    let (_, high) = region.extent();
    high - 4
}

// The offsets at which four bytes lie in a region, for one with room; else any.
pub(crate) fn inside(region: Region) -> Interval
    ensures { result ≡ interval_inside region }
{
    if region.has_room() {
        place_span(region, first_inside(region), last_inside(region), 1)
    } else {
        Interval::Any
    }
}
