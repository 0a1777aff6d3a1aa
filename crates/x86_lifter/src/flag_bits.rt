ghost use Rattle.std.specs.Prelude.{◌≡◌, true, ◌∷◌, []};
ghost use Rattle.x86_lifter.specs.Lists.{changing, loading_status, storing_status};

use crate::pieces::{copy, fetch_register, go_to, keep_register, listed, put, skip_unless};
use bit_words::{Flags, Op, Width};
use statement_lang::{Source, Stmt, Stmts, Test};
use x86_semantics::{AH, FlagChange, FlagRule};

fn changing(change: FlagChange) -> Stmt
    ensures { result ≡ changing change }
{
    let always = Test::Zero(Source::Number(0));
    let never = Test::Zero(Source::Number(1));
    match change {
        FlagChange::FlipCarry => Stmt::SetFlag {
            flag: Flags::CARRY,
            to: Test::Flag(Flags::CARRY, false),
        },
        FlagChange::ClearCarry => Stmt::SetFlag {
            flag: Flags::CARRY,
            to: never,
        },
        FlagChange::SetCarry => Stmt::SetFlag {
            flag: Flags::CARRY,
            to: always,
        },
        FlagChange::ClearDirection => Stmt::SetFlag {
            flag: Flags::DIRECTION,
            to: never,
        },
        FlagChange::SetDirection => Stmt::SetFlag {
            flag: Flags::DIRECTION,
            to: always,
        },
    }
}

/// CMC, CLC, STC, CLD, STD.
pub fn change_flag(change: FlagChange, next: u32) -> Stmts
    ensures { result.items ≡ changing change ∷ Stmt.Goto (Source.Number next) ∷ [] }
{
    listed(&[changing(change), go_to(next)])
}

// A bit of the status byte, which is the temporary 2.
fn add_bit(bit: u32) -> Stmt
    ensures { result ≡ Stmt.Put (Source.Temp 2) Op.Add Width.B32 (Source.Temp 2) (Source.Number bit) }
{
    put(2, Op::Add, Width::B32, Source::Temp(2), Source::Number(bit))
}

fn unless_set(flag: Flags) -> Stmt
    ensures { result ≡ Stmt.SkipUnless (Test.Flag flag true) 1 }
{
    skip_unless(Test::Flag(flag, true), 1)
}

/// LAHF.
pub fn load_status(next: u32) -> Stmts
    ensures { result.items ≡ loading_status next }
{
    let list = [
        copy(Source::Temp(2), Source::Number(2)),
        unless_set(Flags::CARRY),
        add_bit(1),
        unless_set(Flags::PARITY),
        add_bit(4),
        unless_set(Flags::ADJUST),
        add_bit(16),
        unless_set(Flags::ZERO),
        add_bit(64),
        unless_set(Flags::SIGN),
        add_bit(128),
        keep_register(Width::B8, AH, 2),
        go_to(next),
    ];
    listed(&list)
}

/// SAHF.
pub fn store_status(next: u32) -> Stmts
    ensures { result.items ≡ storing_status next }
{
    let flags = Stmt::SetFlags {
        rule: FlagRule::Status,
        w: Width::B8,
        a: Source::Temp(2),
        b: Source::Number(0),
        result: Source::Number(0),
    };
    listed(&[fetch_register(Width::B8, AH, 2), flags, go_to(next)])
}
