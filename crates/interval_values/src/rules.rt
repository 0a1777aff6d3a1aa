ghost use Rattle.std.specs.Prelude.{◌≡◌};
ghost use Rattle.interval_values.specs.Rules.{by_bits, by_intervals, by_sums};

use crate::masks::{low_bits, masked};
use crate::numbers::{compared, of_numbers, shifted};
use crate::places::{of_offsets, of_offsets_and_number, of_offsets_and_numbers};
use crate::value::Interval;
use bit_words::{Op, Width};

// The rules of eval that follow those of every domain: the first that applies, and else any.
#[tactic(auto, unfolding(crate::specs::Rules::by_intervals))]
pub(crate) fn by_intervals(op: Op, w: Width, a: Interval, b: Interval, align: u32) -> Interval
    ensures { result ≡ by_intervals op w a b align }
{
    by_sums(op, w, a, b, align)
        .or(by_bits(op, w, a, b))
        .unwrap_or(Interval::Any)
}

#[tactic(auto, unfolding(crate::specs::Rules::by_sums))]
fn by_sums(op: Op, w: Width, a: Interval, b: Interval, align: u32) -> Option<Interval>
    ensures { result ≡ by_sums op w a b align }
{
    of_numbers(op, w, a, b)
        .or(of_offsets_and_numbers(op, w, a, b))
        .or(of_offsets(op, w, a, b))
        .or(of_offsets_and_number(op, w, a, b, align))
}

#[tactic(auto, unfolding(crate::specs::Rules::by_bits))]
fn by_bits(op: Op, w: Width, a: Interval, b: Interval) -> Option<Interval>
    ensures { result ≡ by_bits op w a b }
{
    compared(op, a, b)
        .or(shifted(op, w, a, b))
        .or(masked(op, a, b))
        .or(low_bits(op, a))
}
