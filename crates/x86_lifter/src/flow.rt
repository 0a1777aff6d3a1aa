ghost use Rattle.std.specs.Prelude.{◌≡◌, ◌++◌, ◌∷◌, []};
ghost use Rattle.x86_lifter.specs.Pieces.{places};
ghost use Rattle.x86_lifter.specs.Lists.{counting, going, loop_test, looping, none, resolved};

use crate::moves::none;
use crate::pieces::{behind_places, copy, fetch, go_to, listed, put, skip_unless};
use bit_words::{Flags, Op, Width};
use memory_map::ECX;
use statement_lang::{Source, Stmt, Stmts, Test};
use x86_semantics::{Looping, branch_target};
use x86_syntax::Operand;

/// A branch's operand: an offset as the number of its target.
pub fn resolved(at: u32, len: u8, target: Operand) -> Operand
    ensures { result ≡ resolved at len target }
{
    match target {
        Operand::Offset(offset) => Operand::Number(Width::B32, branch_target(at, len, offset)),
        _ => target,
    }
}

/// Jcc and JECXZ: to one address where a test holds, else to another.
pub fn branch(test: Test, there: u32, here: u32) -> Stmts
    ensures { result.items ≡ Stmt.Branch test there here ∷ [] }
{
    listed(&[Stmt::Branch {
        test,
        yes: there,
        no: here,
    }])
}

/// JMP; the target is no offset.
pub fn go(target: Operand) -> Stmts
    ensures { result.items ≡ places target none ++ going target }
{
    let list = [
        fetch(target, 0, 2),
        Stmt::Goto {
            to: Source::Temp(2),
        },
    ];
    behind_places(target, none(), &list)
}

fn loop_test(kind: Looping) -> Test
    ensures { result ≡ loop_test kind }
{
    match kind {
        Looping::Counted => Test::Zero(Source::Number(0)),
        Looping::Equal => Test::Flag(Flags::ZERO, true),
        Looping::NotEqual => Test::Flag(Flags::ZERO, false),
    }
}

/// ECX less 1 into the temporary 6.
pub fn count_down() -> Stmt
    ensures { result ≡ Stmt.Put (Source.Temp 6) Op.Sub Width.B32 (Source.Register ECX) (Source.Number 1) }
{
    put(
        6,
        Op::Sub,
        Width::B32,
        Source::Register(ECX),
        Source::Number(1),
    )
}

/// LOOP, LOOPE, LOOPNE.
pub fn loop_to(kind: Looping, there: u32, here: u32) -> Stmts
    ensures { result.items ≡ looping kind there here }
{
    let list = [
        count_down(),
        copy(Source::Register(ECX), Source::Temp(6)),
        go_to(here),
        skip_unless(loop_test(kind), 1),
        Stmt::Branch {
            test: Test::Zero(Source::Temp(6)),
            yes: here,
            no: there,
        },
    ];
    listed(&list)
}
