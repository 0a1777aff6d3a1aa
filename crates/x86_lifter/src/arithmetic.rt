ghost use Rattle.std.specs.Prelude.{◌≡◌, ◌++◌};
ghost use Rattle.x86_lifter.specs.Pieces.{places};
ghost use Rattle.x86_lifter.specs.Lists.{carrying, combining, comparing};

use crate::pieces::{behind_places, copy, fetch, free, go_to, keep, put, set_flags, skip_unless};
use bit_words::{Flags, Op, Width};
use statement_lang::{Source, Stmts, Test};
use x86_semantics::FlagRule;
use x86_syntax::Operand;

/// ADD, SUB, AND, OR, XOR, INC, DEC, NEG.
pub fn combine(op: Op, rule: FlagRule, w: Width, to: Operand, from: Operand, next: u32) -> Stmts
    ensures { result.items ≡ places to from ++ combining op rule w to from next }
{
    let list = [
        fetch(to, 0, 2),
        fetch(from, 1, 3),
        put(4, op, w, Source::Temp(2), Source::Temp(3)),
        keep(to, 0, 4),
        set_flags(rule, w, 2, 3, 4),
        free(rule),
        go_to(next),
    ];
    behind_places(to, from, &list)
}

/// ADC, SBB.
pub fn carry(op: Op, rule: FlagRule, w: Width, to: Operand, from: Operand, next: u32) -> Stmts
    ensures { result.items ≡ places to from ++ carrying op rule w to from next }
{
    let list = [
        fetch(to, 0, 2),
        fetch(from, 1, 3),
        copy(Source::Temp(5), Source::Number(0)),
        skip_unless(Test::Flag(Flags::CARRY, true), 1),
        copy(Source::Temp(5), Source::Number(1)),
        put(4, op, w, Source::Temp(2), Source::Temp(3)),
        put(4, op, w, Source::Temp(4), Source::Temp(5)),
        keep(to, 0, 4),
        set_flags(rule, w, 2, 3, 4),
        free(rule),
        go_to(next),
    ];
    behind_places(to, from, &list)
}

/// CMP, TEST.
pub fn compare(op: Op, rule: FlagRule, w: Width, left: Operand, right: Operand, next: u32) -> Stmts
    ensures { result.items ≡ places left right ++ comparing op rule w left right next }
{
    let list = [
        fetch(left, 0, 2),
        fetch(right, 1, 3),
        put(4, op, w, Source::Temp(2), Source::Temp(3)),
        set_flags(rule, w, 2, 3, 4),
        free(rule),
        go_to(next),
    ];
    behind_places(left, right, &list)
}
