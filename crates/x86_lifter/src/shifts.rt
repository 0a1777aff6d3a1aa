ghost use Rattle.std.specs.Prelude.{◌≡◌, ◌++◌};
ghost use Rattle.x86_lifter.specs.Pieces.{places};
ghost use Rattle.x86_lifter.specs.Lists.{shifting};

use crate::pieces::{
    behind_places, fetch, free, free_flags, go_to, keep, put, set_flags, skip_unless,
};
use bit_words::{Flags, Op, Width};
use statement_lang::{Source, Stmt, Stmts, Test};
use x86_semantics::FlagRule;
use x86_syntax::Operand;

/// An operator at the count, which is the temporary 3, and a number, into a temporary.
pub fn of_count(t: u8, op: Op, n: u32) -> Stmt
    ensures { result ≡ Stmt.Put (Source.Temp t) op Width.B32 (Source.Temp 3) (Source.Number n) }
{
    put(t, op, Width::B32, Source::Temp(3), Source::Number(n))
}

/// Passes over statements where the temporary 5 is not 0.
pub fn unless_zero(count: u8) -> Stmt
    ensures { result ≡ Stmt.SkipUnless (Test.Zero (Source.Temp 5)) count }
{
    skip_unless(Test::Zero(Source::Temp(5)), count)
}

/// SHL, SHR, SAR, ROL, ROR.
pub fn shift(op: Op, rule: FlagRule, w: Width, to: Operand, count: Operand, next: u32) -> Stmts
    ensures { result.items ≡ places to count ++ shifting op rule w to count next }
{
    let list = [
        fetch(to, 0, 2),
        fetch(count, 1, 3),
        of_count(3, Op::And, 31),
        put(4, op, w, Source::Temp(2), Source::Temp(3)),
        keep(to, 0, 4),
        of_count(5, Op::Eq, 0),
        unless_zero(8),
        set_flags(rule, w, 2, 3, 4),
        free(rule),
        of_count(5, Op::Eq, 1),
        unless_zero(1),
        free_flags(Flags::OVERFLOW),
        of_count(5, Op::Ult, w.bits()),
        unless_zero(1),
        free_flags(Flags::CARRY),
        go_to(next),
    ];
    behind_places(to, count, &list)
}
