ghost use Rattle.std.specs.Prelude.{◌≡◌, ◌==◌};
ghost use Rattle.domain_laws.specs.Rules.{by_absorbing_number, by_neutral_number, by_numbers, has_one_operand, is_number, settled};

use bit_words::{Op, Width, apply};

/// What the rules that every domain shares tell of an operator's result.
#[derive(Clone, Copy, Debug, PartialEq, Eq)]
pub enum Settled {
    /// It is this number.
    Number(u32),
    /// It is the first operand.
    First,
    /// It is the second operand.
    Second,
}

/// What the operands' numbers alone tell of an operator's result, where they are known: the first rule of three that applies.
///
/// 1. Both are known, or the first of an operator with one operand: the operator's value.
/// 2. AND with 0 is 0, and OR with all ones is all ones.
/// 3. At 32 bits, what 0 is added to, subtracted from, or shifts left, is the result.
#[tactic(auto, unfolding(crate::specs::Rules::settled))]
pub fn settle(op: Op, w: Width, a: Option<u32>, b: Option<u32>) -> Option<Settled>
    ensures { result ≡ settled op w a b }
{
    by_numbers(op, w, a, b)
        .or(by_absorbing_number(op, w, a, b))
        .or(by_neutral_number(op, w, a, b))
}

fn by_numbers(op: Op, w: Width, a: Option<u32>, b: Option<u32>) -> Option<Settled>
    ensures { result ≡ by_numbers op w a b }
{
    match (a, b) {
        (Some(x), Some(y)) => Some(Settled::Number(apply(op, w, x, y))),
        (Some(x), None) if has_one_operand(op) => Some(Settled::Number(apply(op, w, x, 0))),
        _ => None,
    }
}

fn by_absorbing_number(op: Op, w: Width, a: Option<u32>, b: Option<u32>) -> Option<Settled>
    ensures { result ≡ by_absorbing_number op w a b }
{
    let ones = w.ones();
    match op {
        Op::And if is_number(a, 0) || is_number(b, 0) => Some(Settled::Number(0)),
        Op::Or if is_number(a, ones) || is_number(b, ones) => Some(Settled::Number(ones)),
        _ => None,
    }
}

fn by_neutral_number(op: Op, w: Width, a: Option<u32>, b: Option<u32>) -> Option<Settled>
    ensures { result ≡ by_neutral_number op w a b }
{
    match (op, w) {
        (Op::Add | Op::Sub | Op::Shl, Width::B32) if is_number(b, 0) => Some(Settled::First),
        (Op::Add, Width::B32) if is_number(a, 0) => Some(Settled::Second),
        _ => None,
    }
}

fn has_one_operand(op: Op) -> bool
    ensures { result ≡ has_one_operand op }
{
    matches!(
        op,
        Op::Not
            | Op::Neg
            | Op::Low8
            | Op::High8
            | Op::Low16
            | Op::Sign8
            | Op::Sign16
            | Op::Swap
            | Op::LowBit
            | Op::HighBit
    )
}

fn is_number(known: Option<u32>, n: u32) -> bool
    ensures { result ≡ is_number known n }
{
    known == Some(n)
}

#[cfg(test)]
mod tests {
    use super::*;

    #[test]
    fn the_three_rules_by_the_numbers_of_the_operands(rt: HostRuntime) {
        let rows = [
            (
                Op::Add,
                Width::B8,
                Some(0xFF),
                Some(1),
                Some(Settled::Number(0)),
            ),
            (
                Op::Swap,
                Width::B32,
                Some(0x0102_0304),
                None,
                Some(Settled::Number(0x0403_0201)),
            ),
            (Op::Swap, Width::B32, None, Some(0), None),
            (
                Op::LowBit,
                Width::B32,
                Some(0x10),
                None,
                Some(Settled::Number(4)),
            ),
            (
                Op::HighBit,
                Width::B16,
                Some(0x8010),
                None,
                Some(Settled::Number(15)),
            ),
            (Op::HighBit, Width::B32, None, Some(0), None),
            (Op::And, Width::B8, None, Some(0), Some(Settled::Number(0))),
            (Op::And, Width::B8, Some(0), None, Some(Settled::Number(0))),
            (
                Op::Or,
                Width::B16,
                Some(0xFFFF),
                None,
                Some(Settled::Number(0xFFFF)),
            ),
            (Op::Or, Width::B32, Some(0xFFFF), None, None),
            (Op::Add, Width::B32, None, Some(0), Some(Settled::First)),
            (Op::Add, Width::B32, Some(0), None, Some(Settled::Second)),
            (Op::Add, Width::B16, None, Some(0), None),
            (Op::Sub, Width::B32, None, Some(0), Some(Settled::First)),
            (Op::Sub, Width::B32, Some(0), None, None),
            (Op::Shl, Width::B32, None, Some(0), Some(Settled::First)),
            (Op::Shr, Width::B32, None, Some(0), None),
        ];
        for (op, w, a, b, want) in rows {
            assert!(rt;
                settle(op, w, a, b) == want,
                "{op:?} at {w:?} of {a:?} and {b:?}"
            );
        }
    }
}
