ghost use Rattle.std.specs.Prelude.{◌≡◌, ◌++◌};
ghost use Rattle.x86_semantics.specs.Exchanges.{is_register_numbered};
ghost use Rattle.x86_lifter.specs.Pieces.{places};
ghost use Rattle.x86_lifter.specs.Lists.{added_source, adding_exchange, comparing_exchange, none};

use crate::moves::none;
use crate::pieces::{
    behind_places, copy, fetch, fetch_register, free, go_to, keep, keep_register, put, set_flags,
    skip_unless,
};
use bit_words::{Op, Width};
use memory_map::EAX;
use statement_lang::{Source, Stmt, Stmts, Test};
use x86_semantics::FlagRule;
use x86_syntax::Operand;

// Passes over what the accumulator takes where it is equal to the place, which the temporary 6 tells.
fn unless_equal() -> Stmt
    ensures { result ≡ Stmt.SkipUnless (Test.Zero (Source.Temp 6)) 1 }
{
    skip_unless(Test::Zero(Source::Temp(6)), 1)
}

/// CMPXCHG.
pub fn compare_exchange(place: Operand, w: Width, register: u8, next: u32) -> Stmts
    ensures { result.items ≡ places place none ++ comparing_exchange place w register next }
{
    let list = [
        fetch(place, 0, 2),
        fetch_register(w, EAX, 3),
        fetch_register(w, register, 4),
        put(5, Op::Sub, w, Source::Temp(3), Source::Temp(2)),
        put(6, Op::Eq, w, Source::Temp(3), Source::Temp(2)),
        skip_unless(Test::Zero(Source::Temp(6)), 1),
        copy(Source::Temp(4), Source::Temp(2)),
        keep(place, 0, 4),
        unless_equal(),
        keep_register(w, EAX, 2),
        set_flags(FlagRule::Difference, w, 3, 2, 5),
        free(FlagRule::Difference),
        go_to(next),
    ];
    behind_places(place, none(), &list)
}

// Whether a place is a register itself.
fn is_register_numbered(register: u8, place: Operand) -> bool
    ensures { result ≡ is_register_numbered register place }
{
    match place {
        Operand::Register(_, r) => r == register,
        _ => false,
    }
}

// The temporary that the register takes: the place's old value, or the sum.
fn added_source(register: u8, place: Operand) -> u8
    ensures { result ≡ added_source register place }
{
    if is_register_numbered(register, place) {
        4
    } else {
        2
    }
}

/// XADD.
pub fn exchange_add(place: Operand, w: Width, register: u8, next: u32) -> Stmts
    ensures { result.items ≡ places place none ++ adding_exchange place w register next }
{
    let list = [
        fetch(place, 0, 2),
        fetch_register(w, register, 3),
        put(4, Op::Add, w, Source::Temp(2), Source::Temp(3)),
        keep(place, 0, 4),
        keep_register(w, register, added_source(register, place)),
        set_flags(FlagRule::Sum, w, 2, 3, 4),
        free(FlagRule::Sum),
        go_to(next),
    ];
    behind_places(place, none(), &list)
}
