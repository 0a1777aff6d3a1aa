ghost use Rattle.std.specs.Prelude.{◌≡◌, ◌≤◌};
ghost use Rattle.interval_values.specs.declared.value.Interval.TheVariants as values;
ghost use Rattle.interval_values.specs.IntervalLaws.{interval-lawful};
ghost use Rattle.interval_values.specs.Order.{interval_leq, interval_raise, interval_rank};
ghost use Rattle.interval_values.specs.Rules.{interval_eval};
ghost use Rattle.interval_values.specs.Spans.{interval_inside, interval_number, interval_place};
ghost use Rattle.interval_values.specs.Stands.{greatest_to, interval_number_of, interval_reach, interval_stands, interval_up_to};

use crate::order::{is_below, raise, rank};
use crate::rules::by_intervals;
use crate::span::{inside, number, place, span};
use crate::value::{Interval, NumberSpan};
use address_regions::Region;
use bit_words::{Op, Width};
use domain_laws::{Domain, Reach, Settled, settle};

impl Domain for Interval {
    ghost stands = { interval_stands };

    ghost number = { interval_number };

    ghost place = { interval_place };

    ghost inside = { interval_inside };

    ghost any = { values.Any };

    ghost eval = { interval_eval };

    ghost number_of = { interval_number_of };

    ghost reach = { interval_reach };

    ghost up_to = { interval_up_to };

    ghost leq = { interval_leq };

    ghost rank = { interval_rank };

    ghost raise = { interval_raise };

    ghost lawful = { interval-lawful };

    fn number(n: u32) -> Interval {
        number(n)
    }

    fn place(region: Region, offset: i32) -> Interval {
        place(region, offset)
    }

    fn inside(region: Region) -> Interval {
        inside(region)
    }

    fn any() -> Interval {
        Interval::Any
    }

    fn eval(op: Op, w: Width, a: Interval, b: Interval, align: u32) -> Interval {
        match settle(op, w, a.number_of(), b.number_of()) {
            Some(Settled::Number(n)) => number(n),
            Some(Settled::First) => a,
            Some(Settled::Second) => b,
            None => by_intervals(op, w, a, b, align),
        }
    }

    fn number_of(self) -> Option<u32> {
        match self {
            Interval::Numbers(m) if m.low == m.high => Some(m.low),
            Interval::Numbers(_) | Interval::Offsets(_) | Interval::Any => None,
        }
    }

    fn reach(self) -> Reach {
        match self {
            Interval::Numbers(m) => Reach::Number {
                low: m.low,
                high: m.high,
            },
            Interval::Offsets(m) => Reach::Place {
                region: m.region,
                low: m.low,
                high: m.high,
            },
            Interval::Any => Reach::Anywhere,
        }
    }

    fn up_to(self, c: u32) -> Interval {
        match self {
            Interval::Numbers(m) if m.low <= c => span(m.low, greatest_to(m, c), m.stride),
            Interval::Numbers(_) | Interval::Offsets(_) => self,
            Interval::Any => span(0, c, 1),
        }
    }

    fn leq(self, other: Interval) -> bool {
        is_below(self, other)
    }

    fn rank(self) -> u8 {
        rank(self)
    }

    fn raise(self) -> Interval {
        raise(self)
    }
}

// The greatest of the numbers that is at most `c`, where the low bound is.
fn greatest_to(m: NumberSpan, c: u32) -> u32
    requires { m.low ≤ c }
    ensures { result ≡ greatest_to m c }
{
    if m.stride == 0 {
        m.low
    } else {
        m.low + (m.high.min(c) - m.low) / m.stride * m.stride
    }
}
