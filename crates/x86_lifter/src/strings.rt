ghost use Rattle.std.specs.Prelude.{◌≡◌, ◌≤◌, ◌+◌, ◌-◌, ◌^◌, ◌++◌, ◌∷◌, []};
ghost use Rattle.arrayvec.specs.ArrayVec.{array_vec_len};
ghost use Rattle.bit_words.specs.Width.{bytes_of};
ghost use Rattle.x86_semantics.specs.FlagRules.{free_of};
ghost use Rattle.x86_lifter.specs.Lists.{advancing, element_list, element_size, end_test, ending_repetition, never, repeating, stepping, string_list};

use crate::flow::count_down;
use crate::pieces::{
    add, copy, fetch_register, free, go_to, keep_register, listed, put, set_flags, skip_unless,
};
use bit_words::{Flags, Op, Width};
use memory_map::{EAX, ECX, EDI, ESI};
use statement_lang::{Source, Stmt, Stmts, Test};
use x86_semantics::{FlagRule, StringKind};
use x86_syntax::{Repeat, Seg};

fn never() -> Test
    ensures { result ≡ never }
{
    Test::Zero(Source::Number(1))
}

// The step of ESI and EDI into the temporary 5.
fn add_step(out: &mut Stmts, w: Width)
    requires { array_vec_len out.old + 3 ≤ 32 }
    ensures items { out.new.items ≡ out.old.items ++ stepping w [] }
    ensures len { array_vec_len out.new ≡ array_vec_len out.old + 3 }
{
    let list = [
        copy(Source::Temp(5), Source::Number(w.bytes())),
        skip_unless(Test::Flag(Flags::DIRECTION, true), 1),
        copy(
            Source::Temp(5),
            Source::Number(0u32.wrapping_sub(w.bytes())),
        ),
    ];
    add(out, &list);
}

// A register moved by the step.
fn advance(r: u8) -> Stmt
    ensures { result ≡ advancing r }
{
    Stmt::Put {
        to: Source::Register(r),
        op: Op::Add,
        w: Width::B32,
        a: Source::Register(r),
        b: Source::Temp(5),
    }
}

// The address of the element at ESI into the temporary 0.
fn source_address(seg: Seg) -> Stmt
    ensures { result ≡ Stmt.Put (Source.Temp 0) Op.Add Width.B32 (Source.Register ESI) (Source.Base seg) }
{
    put(
        0,
        Op::Add,
        Width::B32,
        Source::Register(ESI),
        Source::Base(seg),
    )
}

// The element there into the temporary 2.
fn load_source(w: Width) -> Stmt
    ensures { result ≡ Stmt.Load (Source.Temp 2) w (Source.Temp 0) }
{
    Stmt::Load {
        to: Source::Temp(2),
        w,
        at: Source::Temp(0),
    }
}

// The element at EDI into the temporary 3.
fn load_destination(w: Width) -> Stmt
    ensures { result ≡ Stmt.Load (Source.Temp 3) w (Source.Register EDI) }
{
    Stmt::Load {
        to: Source::Temp(3),
        w,
        at: Source::Register(EDI),
    }
}

// The temporary 2 into the element at EDI.
fn store_destination(w: Width) -> Stmt
    ensures { result ≡ Stmt.Store (Source.Register EDI) w (Source.Temp 2) }
{
    Stmt::Store {
        at: Source::Register(EDI),
        w,
        from: Source::Temp(2),
    }
}

// The temporary 2 less the temporary 3.
fn difference(w: Width) -> Stmt
    ensures { result ≡ Stmt.Put (Source.Temp 4) Op.Sub w (Source.Temp 2) (Source.Temp 3) }
{
    put(4, Op::Sub, w, Source::Temp(2), Source::Temp(3))
}

fn add_move(out: &mut Stmts, w: Width, seg: Seg)
    requires { array_vec_len out.old + 5 ≤ 32 }
    ensures items { out.new.items ≡ out.old.items ++ element_list StringKind.Move w seg [] }
    ensures len { array_vec_len out.new ≡ array_vec_len out.old + 5 }
{
    let list = [
        source_address(seg),
        load_source(w),
        store_destination(w),
        advance(ESI),
        advance(EDI),
    ];
    add(out, &list);
}

fn add_compare(out: &mut Stmts, w: Width, seg: Seg)
    requires { array_vec_len out.old + 8 ≤ 32 }
    ensures items { out.new.items ≡ out.old.items ++ element_list StringKind.Compare w seg [] }
    ensures len { array_vec_len out.new ≡ array_vec_len out.old + 8 }
{
    let list = [
        source_address(seg),
        load_source(w),
        load_destination(w),
        difference(w),
        set_flags(FlagRule::Difference, w, 2, 3, 4),
        free(FlagRule::Difference),
        advance(ESI),
        advance(EDI),
    ];
    add(out, &list);
}

fn add_store(out: &mut Stmts, w: Width, seg: Seg)
    requires { array_vec_len out.old + 3 ≤ 32 }
    ensures items { out.new.items ≡ out.old.items ++ element_list StringKind.Store w seg [] }
    ensures len { array_vec_len out.new ≡ array_vec_len out.old + 3 }
{
    let list = [
        fetch_register(w, EAX, 2),
        store_destination(w),
        advance(EDI),
    ];
    add(out, &list);
}

fn add_load(out: &mut Stmts, w: Width, seg: Seg)
    requires { array_vec_len out.old + 4 ≤ 32 }
    ensures items { out.new.items ≡ out.old.items ++ element_list StringKind.Load w seg [] }
    ensures len { array_vec_len out.new ≡ array_vec_len out.old + 4 }
{
    let list = [
        source_address(seg),
        load_source(w),
        keep_register(w, EAX, 2),
        advance(ESI),
    ];
    add(out, &list);
}

fn add_scan(out: &mut Stmts, w: Width, seg: Seg)
    requires { array_vec_len out.old + 6 ≤ 32 }
    ensures items { out.new.items ≡ out.old.items ++ element_list StringKind.Scan w seg [] }
    ensures len { array_vec_len out.new ≡ array_vec_len out.old + 6 }
{
    let list = [
        fetch_register(w, EAX, 2),
        load_destination(w),
        difference(w),
        set_flags(FlagRule::Difference, w, 2, 3, 4),
        free(FlagRule::Difference),
        advance(EDI),
    ];
    add(out, &list);
}

fn add_element(out: &mut Stmts, kind: StringKind, w: Width, seg: Seg)
    requires { array_vec_len out.old + 8 ≤ 32 }
    ensures items { out.new.items ≡ out.old.items ++ element_list kind w seg [] }
    ensures len { array_vec_len out.new ≤ array_vec_len out.old + 8 }
{
    match kind {
        StringKind::Move => add_move(out, w, seg),
        StringKind::Compare => add_compare(out, w, seg),
        StringKind::Store => add_store(out, w, seg),
        StringKind::Load => add_load(out, w, seg),
        StringKind::Scan => add_scan(out, w, seg),
    }
}

// How many statements an element has.
fn element_size(kind: StringKind) -> u8
    ensures { result ≡ element_size kind }
{
    match kind {
        StringKind::Move => 5,
        StringKind::Compare => 8,
        StringKind::Store => 3,
        StringKind::Load => 4,
        StringKind::Scan => 6,
    }
}

fn end_test(repeat: Repeat) -> Test
    ensures { result ≡ end_test repeat }
{
    match repeat {
        Repeat::Repe => Test::Flag(Flags::ZERO, false),
        Repeat::Repne => Test::Flag(Flags::ZERO, true),
        _ => never(),
    }
}

// The end of a repetition: back to the instruction itself, unless it is over.
fn add_ending(out: &mut Stmts, repeat: Repeat, here: u32, next: u32)
    requires { array_vec_len out.old + 7 ≤ 32 }
    ensures { out.new.items ≡ out.old.items ++ ending_repetition repeat here next }
{
    let list = [
        count_down(),
        copy(Source::Register(ECX), Source::Temp(6)),
        go_to(here),
        skip_unless(Test::Zero(Source::Temp(6)), 1),
        go_to(next),
        skip_unless(end_test(repeat), 1),
        go_to(next),
    ];
    add(out, &list);
}

fn once(kind: StringKind, w: Width, seg: Seg, next: u32) -> Stmts
    ensures { result.items ≡ stepping w (element_list kind w seg (Stmt.Goto (Source.Number next) ∷ [])) }
{
    let mut out = Stmts::new();
    add_step(&mut out, w);
    add_element(&mut out, kind, w, seg);
    add(&mut out, &[go_to(next)]);
    out
}

fn repeated(repeat: Repeat, kind: StringKind, w: Width, seg: Seg, here: u32, next: u32) -> Stmts
    ensures { result.items ≡ repeating repeat kind w seg here next }
{
    let list = [
        skip_unless(Test::Zero(Source::Register(ECX)), 2),
        go_to(next),
        skip_unless(never(), element_size(kind) + 10),
    ];
    let mut out = listed(&list);
    add_step(&mut out, w);
    add_element(&mut out, kind, w, seg);
    add_ending(&mut out, repeat, here, next);
    out
}

/// MOVS, CMPS, STOS, LODS, SCAS, at this address and before the next instruction's.
pub fn string(kind: StringKind, w: Width, seg: Seg, repeat: Repeat, here: u32, next: u32) -> Stmts
    ensures { result.items ≡ string_list kind w seg repeat here next }
{
    match repeat {
        Repeat::Once => once(kind, w, seg, next),
        _ => repeated(repeat, kind, w, seg, here, next),
    }
}
