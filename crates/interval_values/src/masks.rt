ghost use Rattle.std.specs.Prelude.{◌≡◌};
ghost use Rattle.interval_values.specs.Rules.{low_bits, low_part, masked, masked_by};

use crate::span::span;
use crate::value::Interval;
use bit_words::Op;
use domain_laws::Domain;

// A value under a mask of one number from 1 to 65,535 is at most that.
pub(crate) fn masked(op: Op, a: Interval, b: Interval) -> Option<Interval>
    ensures { result ≡ masked op a b }
{
    match op {
        Op::And => masked_by(a.number_of()).or(masked_by(b.number_of())),
        _ => None,
    }
}

fn masked_by(mask: Option<u32>) -> Option<Interval>
    ensures { result ≡ masked_by mask }
{
    match mask {
        Some(n) if 1 <= n && n <= 0xFFFF => Some(span(0, n, 1)),
        _ => None,
    }
}

// The low byte or the low 16 bits.
pub(crate) fn low_bits(op: Op, a: Interval) -> Option<Interval>
    ensures { result ≡ low_bits op a }
{
    match op {
        Op::Low8 => Some(low_part(0xFF, a)),
        Op::Low16 => Some(low_part(0xFFFF, a)),
        _ => None,
    }
}

// Numbers that are at most the limit stay.
fn low_part(limit: u32, a: Interval) -> Interval
    ensures { result ≡ low_part limit a }
{
    match a {
        Interval::Numbers(m) if m.high <= limit => a,
        _ => span(0, limit, 1),
    }
}
