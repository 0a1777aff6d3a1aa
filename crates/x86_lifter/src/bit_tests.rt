ghost use Rattle.std.specs.Prelude.{◌≡◌, ◌-◌, ◌++◌};
ghost use Rattle.bit_words.specs.Width.{bits_of};
ghost use Rattle.x86_lifter.specs.Pieces.{places};
ghost use Rattle.x86_lifter.specs.Lists.{changing_bit, finding_bit, keeping_bit, none, testing_bit, turning_bit};

use crate::moves::none;
use crate::pieces::{
    behind_places, choose, fetch, fetch_register, free, go_to, keep_register, nothing, put,
    skip_unless,
};
use bit_words::{Op, Width};
use statement_lang::{Source, Stmt, Stmts, Test};
use x86_semantics::{BitChange, FlagRule};
use x86_syntax::Operand;

// The bit in the temporary 4 turned into all others, for BTR.
fn turn_bit(change: BitChange, w: Width) -> Stmt
    ensures { result ≡ turning_bit change w }
{
    match change {
        BitChange::ClearBit => put(4, Op::Not, w, Source::Temp(4), Source::Number(0)),
        _ => nothing(),
    }
}

// The temporary 3 with it set, cleared or flipped.
fn change_bit(change: BitChange, w: Width) -> Stmt
    ensures { result ≡ changing_bit change w }
{
    match change {
        BitChange::KeepBit => nothing(),
        BitChange::SetBit => put(4, Op::Or, w, Source::Temp(3), Source::Temp(4)),
        BitChange::ClearBit => put(4, Op::And, w, Source::Temp(3), Source::Temp(4)),
        BitChange::FlipBit => put(4, Op::Xor, w, Source::Temp(3), Source::Temp(4)),
    }
}

// BT writes none.
fn keep_bit(change: BitChange, w: Width, register: u8) -> Stmt
    ensures { result ≡ keeping_bit change w register }
{
    match change {
        BitChange::KeepBit => nothing(),
        _ => keep_register(w, register, 4),
    }
}

// The index modulo the width into the temporary 5.
fn place_of_bit(w: Width) -> Stmt
    ensures { result ≡ Stmt.Put (Source.Temp 5) Op.And Width.B32 (Source.Temp 2) (Source.Number (bits_of w - 1)) }
{
    put(
        5,
        Op::And,
        Width::B32,
        Source::Temp(2),
        Source::Number(w.bits() - 1),
    )
}

// The flags of a rule by a value, an index or 0, and a result.
fn set_flags_by(rule: FlagRule, w: Width, a: u8, b: Source, result_of: Source) -> Stmt
    ensures { result ≡ Stmt.SetFlags rule w (Source.Temp a) b result_of }
{
    Stmt::SetFlags {
        rule,
        w,
        a: Source::Temp(a),
        b,
        result: result_of,
    }
}

/// BT, BTS, BTR, BTC.
pub fn test_bit(change: BitChange, w: Width, register: u8, index: Operand, next: u32) -> Stmts
    ensures { result.items ≡ places index none ++ testing_bit change w register index next }
{
    let list = [
        fetch(index, 0, 2),
        fetch_register(w, register, 3),
        place_of_bit(w),
        put(4, Op::Shl, w, Source::Number(1), Source::Temp(5)),
        turn_bit(change, w),
        change_bit(change, w),
        keep_bit(change, w, register),
        set_flags_by(FlagRule::BitTest, w, 3, Source::Temp(2), Source::Number(0)),
        free(FlagRule::BitTest),
        go_to(next),
    ];
    behind_places(index, none(), &list)
}

/// BSF, BSR.
pub fn find_bit(op: Op, w: Width, register: u8, from: Operand, next: u32) -> Stmts
    ensures { result.items ≡ places from none ++ finding_bit op w register from next }
{
    let list = [
        fetch(from, 0, 2),
        choose(4, w),
        put(5, Op::Eq, w, Source::Temp(2), Source::Number(0)),
        skip_unless(Test::Zero(Source::Temp(5)), 1),
        put(4, op, w, Source::Temp(2), Source::Number(0)),
        keep_register(w, register, 4),
        set_flags_by(FlagRule::BitScan, w, 2, Source::Number(0), Source::Temp(4)),
        free(FlagRule::BitScan),
        go_to(next),
    ];
    behind_places(from, none(), &list)
}
