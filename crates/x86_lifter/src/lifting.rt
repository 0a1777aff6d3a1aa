ghost use Rattle.std.specs.Prelude.{◌≡◌};
ghost use Rattle.memory_map.specs.declared.choice.Choice.{Choice};
ghost use Rattle.memory_map.specs.State.{MachineState};
ghost use Rattle.x86_semantics.specs.Operations.{operation_of};
ghost use Rattle.x86_semantics.specs.Does.{does, ended};
ghost use Rattle.statement_lang.specs.Run.{run};
ghost use Rattle.x86_lifter.specs.Lifted.{lifted};

use crate::arithmetic::{carry, combine, compare};
use crate::bit_tests::{find_bit, test_bit};
use crate::double_shifts::double_shift;
use crate::exchanges::{compare_exchange, exchange_add};
use crate::flag_bits::{change_flag, load_status, store_status};
use crate::flow::{branch, go, loop_to, resolved};
use crate::moves::{convert, exchange, load_address, move_if, move_value, set};
use crate::pieces::{go_to, listed};
use crate::products::{divide, multiply, multiply_long};
use crate::shifts::shift;
use crate::stack::{call, leave, pop, push, return_past};
use crate::strings::string;
use memory_map::ECX;
use statement_lang::{Source, Stmt, Stmts, Test};
use x86_semantics::{Operation, branch_target, next_address, operation_of};
use x86_syntax::Instr;

/// The instruction of `len` bytes at an address as statements, at most 32. Run on a state whose EIP is that address,
/// they give exactly its next state, or its fault with the state as it was. It takes no memory.
pub fn lift(at: u32, i: &Instr, len: u8) -> Stmts
    ensures { (choice : Choice) (m : MachineState) → m.eip ≡ at → run result.items choice m ≡ ended m (does i.now len choice m) }
{
    lift_operation(operation_of(i), at, len)
}

fn lift_operation(operation: Operation, at: u32, len: u8) -> Stmts
    ensures { result.items ≡ lifted operation at len }
{
    let next = next_address(at, len);
    match operation {
        Operation::Combine {
            op,
            rule,
            w,
            to,
            from,
        } => combine(op, rule, w, to, from, next),
        Operation::Carry {
            op,
            rule,
            w,
            to,
            from,
        } => carry(op, rule, w, to, from, next),
        Operation::Compare {
            op,
            rule,
            w,
            left,
            right,
        } => compare(op, rule, w, left, right, next),
        Operation::Move { to, from } => move_value(to, from, next),
        Operation::Convert {
            op,
            w,
            to,
            from,
            by,
        } => convert(op, w, to, from, by, next),
        Operation::Lea { to, address } => load_address(to, address, next),
        Operation::Exchange { place, w, register } => exchange(place, w, register, next),
        Operation::Shift {
            op,
            rule,
            w,
            to,
            count,
        } => shift(op, rule, w, to, count, next),
        Operation::DoubleShift {
            op,
            other,
            rule,
            w,
            to,
            register,
            count,
        } => double_shift(op, other, rule, w, to, register, count, next),
        Operation::TestBit {
            change,
            w,
            register,
            index,
        } => test_bit(change, w, register, index, next),
        Operation::FindBit {
            op,
            w,
            register,
            from,
        } => find_bit(op, w, register, from, next),
        Operation::CompareExchange { place, w, register } => {
            compare_exchange(place, w, register, next)
        }
        Operation::ExchangeAdd { place, w, register } => exchange_add(place, w, register, next),
        Operation::MultiplyLong {
            high,
            rule,
            w,
            from,
        } => multiply_long(high, rule, w, from, next),
        Operation::Multiply {
            w,
            register,
            left,
            right,
        } => multiply(w, register, left, right, next),
        Operation::Divide { signed, w, by } => divide(signed, w, by, next),
        Operation::Jump { condition, offset } => branch(
            Test::Condition(condition),
            branch_target(at, len, offset),
            next,
        ),
        Operation::Goto { target } => go(resolved(at, len, target)),
        Operation::Loop { kind, offset } => loop_to(kind, branch_target(at, len, offset), next),
        Operation::JumpIfNoCount { offset } => branch(
            Test::Zero(Source::Register(ECX)),
            branch_target(at, len, offset),
            next,
        ),
        Operation::Call { target } => call(resolved(at, len, target), next),
        Operation::Return { extra } => return_past(extra),
        Operation::Push { from } => push(from, next),
        Operation::Pop { to } => pop(to, next),
        Operation::Leave => leave(next),
        Operation::Set { condition, to } => set(condition, to, next),
        Operation::MoveIf {
            condition,
            to,
            from,
        } => move_if(condition, to, from, next),
        Operation::Flag { change } => change_flag(change, next),
        Operation::LoadStatus => load_status(next),
        Operation::StoreStatus => store_status(next),
        Operation::Element {
            kind,
            w,
            seg,
            repeat,
        } => string(kind, w, seg, repeat, at, next),
        Operation::Nothing => listed(&[go_to(next)]),
        Operation::Stop { kind } => listed(&[Stmt::Stop(kind)]),
    }
}
