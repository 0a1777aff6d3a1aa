ghost use Rattle.std.specs.Prelude.{◌≡◌, ◌%◌, ℕ, List, slice_index, slice_set, length, if◌then◌else◌};
ghost use Rattle.memory_map.specs.State.{MachineState};
ghost use Rattle.x86_semantics.specs.FlagRules.{freed, ruled};
ghost use Rattle.x86_semantics.specs.Operands.{loading, storing, with_flags};
ghost use Rattle.x86_semantics.specs.Products.{divided, on_divided};
ghost use Rattle.statement_lang.specs.Run.{Going, doing, ended_as, giving, holds, run, set_to, value_of};
ghost use Rattle.statement_lang.specs.Flowing.{flowing};

use crate::conditions::{all_are, is_met};
use crate::rules::{freed, ruled, with_flag};
use crate::{Cells, Ran, Source, Stmt, Stmts, Test};
use bit_words::{Flags, Width, apply};
use bitflags::Flags as _;
use memory_map::{Choice, FaultKind};
use x86_semantics::FlagRule;

/// What a statement leads to: the next ones, of which some are passed over, or a fault.
#[derive(Clone, Copy)]
pub enum Flow {
    On(u8),
    Failed(FaultKind),
}

/// The temporaries.
type Temps = [u32; 16];

fn value_of(cells: &Cells, temps: &Temps, source: Source) -> u32
    ensures { result ≡ value_of cells.now temps.now source }
{
    match source {
        Source::Register(r) => cells.register(r),
        Source::Temp(k) => temps[usize::from(k % 16)],
        Source::Number(n) => n,
        Source::Base(seg) => cells.base(seg),
    }
}

fn holds(cells: &Cells, temps: &Temps, test: Test) -> bool
    ensures { result ≡ holds cells.now temps.now test }
{
    match test {
        Test::Condition(c) => is_met(c, cells.flags()),
        Test::Zero(s) => value_of(cells, temps, s) == 0,
        Test::Flag(which, told) => all_are(which, told, cells.flags()),
    }
}

// Gives a register or a temporary a value.
fn give(cells: &mut Cells, temps: &mut Temps, to: Source, v: u32)
    ensures { (go : Going) → giving to v cells.old temps.old go ≡ go cells.new temps.new 0 }
{
    match to {
        Source::Register(r) => cells.set_register(r, v),
        Source::Temp(k) => temps[usize::from(k % 16)] = v,
        Source::Number(_) => {}
        Source::Base(_) => {}
    }
}

fn load(cells: &mut Cells, temps: &mut Temps, to: Source, w: Width, at: u32) -> Flow
    ensures { (go : Going) → loading cells.old w at (λ v. giving to v cells.old temps.old go) ≡ flowing result cells.new temps.new go }
{
    match cells.load(w, at) {
        Some(v) => {
            give(cells, temps, to, v);
            Flow::On(0)
        }
        None => Flow::Failed(FaultKind::Read),
    }
}

fn store(cells: &mut Cells, w: Width, at: u32, v: u32) -> Flow
    ensures { (go : Going) (t : List ℕ) → storing cells.old w at v (λ n. go n t 0) ≡ flowing result cells.new t go }
{
    if cells.store(w, at, v) {
        Flow::On(0)
    } else {
        Flow::Failed(FaultKind::Write)
    }
}

fn divide(cells: &mut Cells, signed: bool, w: Width, by: u32) -> Flow
    ensures { (go : Going) (t : List ℕ) → on_divided cells.old (divided signed w by cells.old) (λ n. go n t 0) ≡ flowing result cells.new t go }
{
    if cells.divide(signed, w, by) {
        Flow::On(0)
    } else {
        Flow::Failed(FaultKind::Divide)
    }
}

fn set_flags(cells: &mut Cells, rule: FlagRule, w: Width, a: u32, b: u32, r: u32)
    ensures { cells.new ≡ with_flags (ruled rule w a b r cells.old.flags) cells.old }
{
    let flags = ruled(rule, w, a, b, r, cells.flags());
    cells.set_flags(flags);
}

fn set_flag(cells: &mut Cells, flag: Flags, told: bool)
    ensures { cells.new ≡ with_flags (set_to flag told cells.old.flags) cells.old }
{
    let flags = with_flag(cells.flags(), flag, told);
    cells.set_flags(flags);
}

fn free_flags(cells: &mut Cells, which: Flags, choice: &Choice)
    ensures { cells.new ≡ with_flags (freed which choice.now cells.old.flags) cells.old }
{
    let flags = freed(which, Flags::from_bits_retain(choice.flags), cells.flags());
    cells.set_flags(flags);
}

fn skip_unless(holds: bool, count: u8) -> u8
    ensures { result ≡ (if holds then 0 else count) }
{
    if holds { 0 } else { count }
}

fn either(holds: bool, there: u32, here: u32) -> u32
    ensures { result ≡ (if holds then there else here) }
{
    if holds { there } else { here }
}

// A statement done: what stands behind it goes on from the new state and temporaries, or the fault is told.
fn step(statement: Stmt, cells: &mut Cells, temps: &mut Temps, choice: &Choice) -> Flow
    ensures { (go : Going) → doing statement choice.now cells.old temps.old go ≡ flowing result cells.new temps.new go }
{
    match statement {
        Stmt::Put { to, op, w, a, b } => {
            let v = apply(op, w, value_of(cells, temps, a), value_of(cells, temps, b));
            give(cells, temps, to, v);
        }
        Stmt::Copy { to, from } => {
            let v = value_of(cells, temps, from);
            give(cells, temps, to, v);
        }
        Stmt::SetFlags {
            rule,
            w,
            a,
            b,
            result,
        } => {
            let x = value_of(cells, temps, a);
            let y = value_of(cells, temps, b);
            let r = value_of(cells, temps, result);
            set_flags(cells, rule, w, x, y, r);
        }
        Stmt::SetFlag { flag, to } => {
            let told = holds(cells, temps, to);
            set_flag(cells, flag, told);
        }
        Stmt::Load { to, w, at } => {
            let address = value_of(cells, temps, at);
            return load(cells, temps, to, w, address);
        }
        Stmt::Store { at, w, from } => {
            let address = value_of(cells, temps, at);
            let v = value_of(cells, temps, from);
            return store(cells, w, address, v);
        }
        Stmt::Choose { to, w } => give(cells, temps, to, w.cut(choice.eax)),
        Stmt::FreeFlags { which } => free_flags(cells, which, choice),
        Stmt::Divide { signed, w, by } => {
            let d = value_of(cells, temps, by);
            return divide(cells, signed, w, d);
        }
        Stmt::SkipUnless { test, count } => {
            return Flow::On(skip_unless(holds(cells, temps, test), count));
        }
        Stmt::Stop(kind) => return Flow::Failed(kind),
        Stmt::Goto { to } => {
            let a = value_of(cells, temps, to);
            cells.go_to(a);
        }
        Stmt::Branch { test, yes, no } => {
            let a = either(holds(cells, temps, test), yes, no);
            cells.go_to(a);
        }
    }
    Flow::On(0)
}

/// Does the statements of a list in order, each by its meaning (`specs/Run.antt`), and changes the state. The list ends
/// at its last statement, or where a skip passes it. A fault ends it with what was done before. It takes no memory.
#[tactic(auto, unfolding(crate::specs::Run::run))]
pub fn run_stmts(list: &Stmts, state: &mut Cells, choice: &Choice) -> Ran
    ensures { run list.now.items choice.now state.old ≡ ended_as result state.new }
{
    let mut temps: Temps = [0; 16];
    let mut skip = 0u8;
    let mut left = list.as_slice();
    while let Some((first, rest)) = left.split_first() {
        if skip > 0 {
            skip -= 1;
        } else {
            match step(*first, state, &mut temps, choice) {
                Flow::On(count) => skip = count,
                Flow::Failed(kind) => return Ran::Faulted(kind),
            }
        }
        left = rest;
    }
    Ran::Next
}
