ghost use Rattle.std.specs.Prelude.{◌≡◌, ◌++◌};
ghost use Rattle.bit_words.specs.Width.{bits_of};
ghost use Rattle.x86_lifter.specs.Pieces.{places};
ghost use Rattle.x86_lifter.specs.Lists.{double_shifting};

use crate::pieces::{
    behind_places, choose, fetch, fetch_register, free, free_flags, go_to, keep, put, set_flags,
};
use crate::shifts::{of_count, unless_zero};
use bit_words::{Flags, Op, Width};
use statement_lang::{Source, Stmt, Stmts};
use x86_semantics::{FlagRule, status_flags};
use x86_syntax::Operand;

// How far the register's bits go to come behind those of the first operand: the width less the count.
fn rest_of_count(t: u8, w: Width) -> Stmt
    ensures { result ≡ Stmt.Put (Source.Temp t) Op.Sub Width.B32 (Source.Number (bits_of w)) (Source.Temp 3) }
{
    put(
        t,
        Op::Sub,
        Width::B32,
        Source::Number(w.bits()),
        Source::Temp(3),
    )
}

/// SHLD, SHRD.
pub fn double_shift(
    op: Op,
    other: Op,
    rule: FlagRule,
    w: Width,
    to: Operand,
    register: u8,
    count: Operand,
    next: u32,
) -> Stmts
    ensures { result.items ≡ places to count ++ double_shifting op other rule w to register count next }
{
    let list = [
        fetch(to, 0, 2),
        fetch(count, 1, 3),
        fetch_register(w, register, 5),
        of_count(3, Op::And, 31),
        put(4, op, w, Source::Temp(2), Source::Temp(3)),
        rest_of_count(6, w),
        put(5, other, w, Source::Temp(5), Source::Temp(6)),
        put(4, Op::Or, w, Source::Temp(4), Source::Temp(5)),
        of_count(5, Op::Ult, w.bits()),
        unless_zero(1),
        choose(4, w),
        keep(to, 0, 4),
        of_count(5, Op::Eq, 0),
        unless_zero(8),
        set_flags(rule, w, 2, 3, 4),
        free(rule),
        of_count(5, Op::Eq, 1),
        unless_zero(1),
        free_flags(Flags::OVERFLOW),
        of_count(5, Op::Ult, w.bits()),
        unless_zero(1),
        free_flags(status_flags()),
        go_to(next),
    ];
    behind_places(to, count, &list)
}
