ghost use Rattle.std.specs.Prelude.{◌≡◌, ◌++◌, ◌∷◌, []};
ghost use Rattle.x86_lifter.specs.Pieces.{places};
ghost use Rattle.x86_lifter.specs.Lists.{calling, esp, leaving, none, popping, popping_into, pushing_list, returning, with_new_esp};

use crate::moves::none;
use crate::pieces::{
    add, add_address, base_source, behind_places, copy, fetch, go_to, index_source, keep, listed,
    put,
};
use bit_words::{Op, Width};
use memory_map::{EBP, ESP};
use statement_lang::{Source, Stmt, Stmts};
use x86_syntax::Operand;

fn esp() -> Source
    ensures { result ≡ esp }
{
    Source::Register(ESP)
}

// The address below ESP, where a word is pushed, into the temporary 3.
fn below_esp() -> Stmt
    ensures { result ≡ Stmt.Put (Source.Temp 3) Op.Sub Width.B32 esp (Source.Number 4) }
{
    put(3, Op::Sub, Width::B32, esp(), Source::Number(4))
}

fn above(at: Source) -> Stmt
    ensures { result ≡ Stmt.Put (Source.Temp 3) Op.Add Width.B32 at (Source.Number 4) }
{
    put(3, Op::Add, Width::B32, at, Source::Number(4))
}

fn store_pushed(from: Source) -> Stmt
    ensures { result ≡ Stmt.Store (Source.Temp 3) Width.B32 from }
{
    Stmt::Store {
        at: Source::Temp(3),
        w: Width::B32,
        from,
    }
}

fn load_popped(at: Source) -> Stmt
    ensures { result ≡ Stmt.Load (Source.Temp 2) Width.B32 at }
{
    Stmt::Load {
        to: Source::Temp(2),
        w: Width::B32,
        at,
    }
}

/// PUSH.
pub fn push(from: Operand, next: u32) -> Stmts
    ensures { result.items ≡ places from none ++ pushing_list from next }
{
    let list = [
        fetch(from, 0, 2),
        below_esp(),
        store_pushed(Source::Temp(2)),
        copy(esp(), Source::Temp(3)),
        go_to(next),
    ];
    behind_places(from, none(), &list)
}

// A register, and the new ESP for ESP.
fn with_new_esp(source: Source) -> Source
    ensures { result ≡ with_new_esp source }
{
    match source {
        Source::Register(r) => {
            if r % 8 == ESP {
                Source::Temp(3)
            } else {
                source
            }
        }
        _ => source,
    }
}

/// POP.
pub fn pop(to: Operand, next: u32) -> Stmts
    ensures { result.items ≡ popping (popping_into to next) }
{
    let mut out = listed(&[load_popped(esp()), above(esp())]);
    match to {
        Operand::Memory(w, a) => {
            let index = with_new_esp(index_source(a.index));
            let base = with_new_esp(base_source(a.base));
            add_address(&mut out, 0, index, base, a);
            let store = Stmt::Store {
                at: Source::Temp(0),
                w,
                from: Source::Temp(2),
            };
            add(
                &mut out,
                &[store, copy(esp(), Source::Temp(3)), go_to(next)],
            );
        }
        _ => add(
            &mut out,
            &[copy(esp(), Source::Temp(3)), keep(to, 0, 2), go_to(next)],
        ),
    }
    out
}

/// LEAVE.
pub fn leave(next: u32) -> Stmts
    ensures { result.items ≡ leaving next }
{
    let list = [
        load_popped(Source::Register(EBP)),
        above(Source::Register(EBP)),
        copy(esp(), Source::Temp(3)),
        copy(Source::Register(EBP), Source::Temp(2)),
        go_to(next),
    ];
    listed(&list)
}

/// CALL; the target is no offset.
pub fn call(target: Operand, next: u32) -> Stmts
    ensures { result.items ≡ places target none ++ calling target next }
{
    let list = [
        fetch(target, 0, 2),
        below_esp(),
        store_pushed(Source::Number(next)),
        copy(esp(), Source::Temp(3)),
        Stmt::Goto {
            to: Source::Temp(2),
        },
    ];
    behind_places(target, none(), &list)
}

/// RET, which takes `extra` more bytes off the stack.
pub fn return_past(extra: u32) -> Stmts
    ensures { result.items ≡ returning extra }
{
    let past = Stmt::Put {
        to: esp(),
        op: Op::Add,
        w: Width::B32,
        a: Source::Temp(3),
        b: Source::Number(extra),
    };
    let list = [
        load_popped(esp()),
        above(esp()),
        past,
        Stmt::Goto {
            to: Source::Temp(2),
        },
    ];
    listed(&list)
}
