ghost use Rattle.std.specs.Prelude.{◌≡◌, ◌++◌};
ghost use Rattle.x86_lifter.specs.Pieces.{places};
ghost use Rattle.x86_lifter.specs.Lists.{converting, exchanging, leaing, moving, moving_if, none, plain, setting};

use crate::pieces::{
    behind_places, copy, fetch, fetch_register, go_to, keep, keep_register, put, skip_unless,
};
use bit_words::{Op, Width};
use statement_lang::{Source, Stmts, Test};
use x86_syntax::{Address, Cond, Operand, Seg};

/// An operand that is not there.
pub fn none() -> Operand
    ensures { result ≡ none }
{
    Operand::Number(Width::B32, 0)
}

/// MOV, MOVZX.
pub fn move_value(to: Operand, from: Operand, next: u32) -> Stmts
    ensures { result.items ≡ places to from ++ moving to from next }
{
    let list = [fetch(from, 1, 3), keep(to, 0, 3), go_to(next)];
    behind_places(to, from, &list)
}

/// NOT, BSWAP and the sign extensions.
pub fn convert(op: Op, w: Width, to: Operand, from: Operand, by: u32, next: u32) -> Stmts
    ensures { result.items ≡ places to from ++ converting op w to from by next }
{
    let list = [
        fetch(from, 1, 3),
        put(4, op, w, Source::Temp(3), Source::Number(by)),
        keep(to, 0, 4),
        go_to(next),
    ];
    behind_places(to, from, &list)
}

// The address without its segment, as that of an operand.
fn plain(a: Address) -> Operand
    ensures { result ≡ plain a }
{
    let plain = Address {
        seg: Seg::Plain,
        base: a.base,
        index: a.index,
        disp: a.disp,
    };
    Operand::Memory(Width::B32, plain)
}

/// LEA.
pub fn load_address(to: Operand, address: Address, next: u32) -> Stmts
    ensures { result.items ≡ places to (plain address) ++ leaing to next }
{
    let list = [keep(to, 0, 1), go_to(next)];
    behind_places(to, plain(address), &list)
}

/// XCHG.
pub fn exchange(place: Operand, w: Width, register: u8, next: u32) -> Stmts
    ensures { result.items ≡ places place none ++ exchanging place w register next }
{
    let list = [
        fetch(place, 0, 2),
        fetch_register(w, register, 3),
        keep(place, 0, 3),
        keep_register(w, register, 2),
        go_to(next),
    ];
    behind_places(place, none(), &list)
}

/// SETcc.
pub fn set(condition: Cond, to: Operand, next: u32) -> Stmts
    ensures { result.items ≡ places to none ++ setting condition to next }
{
    let list = [
        copy(Source::Temp(2), Source::Number(0)),
        skip_unless(Test::Condition(condition), 1),
        copy(Source::Temp(2), Source::Number(1)),
        keep(to, 0, 2),
        go_to(next),
    ];
    behind_places(to, none(), &list)
}

/// CMOVcc.
pub fn move_if(condition: Cond, to: Operand, from: Operand, next: u32) -> Stmts
    ensures { result.items ≡ places to from ++ moving_if condition to from next }
{
    let list = [
        fetch(from, 1, 3),
        skip_unless(Test::Condition(condition), 1),
        keep(to, 0, 3),
        go_to(next),
    ];
    behind_places(to, from, &list)
}
