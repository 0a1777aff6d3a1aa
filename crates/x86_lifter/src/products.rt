ghost use Rattle.std.specs.Prelude.{◌≡◌, ◌++◌};
ghost use Rattle.x86_lifter.specs.Pieces.{places};
ghost use Rattle.x86_lifter.specs.Lists.{dividing, multiplying, multiplying_long, none};

use crate::moves::none;
use crate::pieces::{
    behind_places, fetch, fetch_register, free, free_flags, go_to, keep_register, put, set_flags,
};
use bit_words::{Op, Width};
use memory_map::EAX;
use statement_lang::{Source, Stmt, Stmts};
use x86_semantics::{FlagRule, status_flags, upper_register};
use x86_syntax::Operand;

/// MUL, IMUL of the accumulator.
pub fn multiply_long(high: Op, rule: FlagRule, w: Width, from: Operand, next: u32) -> Stmts
    ensures { result.items ≡ places from none ++ multiplying_long high rule w from next }
{
    let list = [
        fetch(from, 0, 2),
        fetch_register(w, EAX, 3),
        put(4, Op::Mul, w, Source::Temp(3), Source::Temp(2)),
        put(5, high, w, Source::Temp(3), Source::Temp(2)),
        keep_register(w, EAX, 4),
        keep_register(w, upper_register(w), 5),
        set_flags(rule, w, 3, 2, 4),
        free(rule),
        go_to(next),
    ];
    behind_places(from, none(), &list)
}

/// IMUL with a register to write.
pub fn multiply(w: Width, register: u8, left: Operand, right: Operand, next: u32) -> Stmts
    ensures { result.items ≡ places left right ++ multiplying w register left right next }
{
    let list = [
        fetch(left, 0, 2),
        fetch(right, 1, 3),
        put(4, Op::Mul, w, Source::Temp(2), Source::Temp(3)),
        keep_register(w, register, 4),
        set_flags(FlagRule::SignedProduct, w, 2, 3, 4),
        free(FlagRule::SignedProduct),
        go_to(next),
    ];
    behind_places(left, right, &list)
}

/// DIV, IDIV.
pub fn divide(signed: bool, w: Width, by: Operand, next: u32) -> Stmts
    ensures { result.items ≡ places by none ++ dividing signed w by next }
{
    let list = [
        fetch(by, 0, 2),
        Stmt::Divide {
            signed,
            w,
            by: Source::Temp(2),
        },
        free_flags(status_flags()),
        go_to(next),
    ];
    behind_places(by, none(), &list)
}
