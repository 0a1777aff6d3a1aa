ghost use Rattle.std.specs.Prelude.{◌≡◌, ◌<◌, Bool, true};
ghost use Rattle.x86_semantics.specs.Condition.{is_met};
ghost use Rattle.statement_lang.specs.Run.{agreeing, all_are};
ghost use Rattle.statement_lang.specs.Cells.{even_met, flags_of, has_all};

use crate::rules::differ;
use bit_words::Flags;
use bitflags::Flags as _;
use x86_syntax::Cond;

// The test of the even condition of this half.
fn is_even_met(half: u8, flags: Flags) -> bool
    ensures { result ≡ even_met half (flags_of flags) }
{
    let carry = flags.contains(Flags::CARRY);
    let zero = flags.contains(Flags::ZERO);
    let sign = flags.contains(Flags::SIGN);
    let overflow = flags.contains(Flags::OVERFLOW);
    let less = differ(sign, overflow);
    match half {
        0 => overflow,
        1 => carry,
        2 => zero,
        3 => carry || zero,
        4 => sign,
        5 => flags.contains(Flags::PARITY),
        6 => less,
        7 => zero || less,
        _ => false,
    }
}

/// Whether flags meet a condition; none above 15 is met where its number is even.
#[tactic(auto, unfolding(x86_semantics::specs::Condition::is_met))]
pub fn is_met(c: Cond, flags: Flags) -> bool
    ensures { result ≡ is_met c (flags_of flags) }
{
    differ(c.0 % 2 == 1, is_even_met(c.0 / 2, flags))
}

// A flag as told, where it is asked about, beside others.
fn agrees(asked: bool, told: bool, flag: bool, others: bool) -> bool
    ensures { result ≡ agreeing asked told flag others }
{
    if asked {
        others && flag == told
    } else {
        others
    }
}

fn agrees_at(which: Flags, told: bool, flags: Flags, one: Flags, others: bool) -> bool
    ensures { result ≡ agreeing (has_all which one) told (has_all flags one) others }
{
    agrees(which.contains(one), told, flags.contains(one), others)
}

/// Whether each flag of a set is as told.
pub fn all_are(which: Flags, told: bool, flags: Flags) -> bool
    ensures { result ≡ all_are which told (flags_of flags) }
{
    let all = agrees_at(which, told, flags, Flags::DIRECTION, true);
    let all = agrees_at(which, told, flags, Flags::OVERFLOW, all);
    let all = agrees_at(which, told, flags, Flags::SIGN, all);
    let all = agrees_at(which, told, flags, Flags::ZERO, all);
    let all = agrees_at(which, told, flags, Flags::ADJUST, all);
    let all = agrees_at(which, told, flags, Flags::PARITY, all);
    agrees_at(which, told, flags, Flags::CARRY, all)
}
