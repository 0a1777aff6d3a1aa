ghost use Rattle.std.specs.Prelude.{◌≡◌};
ghost use Rattle.x86_semantics.specs.Operations.{bit_scan_of, bit_test_of, compare_exchange_of, count_jump_of, converted, double_shift_of, element, exchange_add_of, exchange_of, jump_of, lea_of, loop_of, of_none, of_one, of_three, of_two, if_spelled, operation_of, operation_with, product_of, return_of, sign_of, unlisted, with_number};

use crate::{BitChange, FlagChange, FlagRule, Looping, Operation, StringKind, has_own_widths};
use bit_words::{Op, Width};
use memory_map::{EAX, EDX, FaultKind};
use x86_syntax::{Cond, Instr, Mnemonic, Operand};

/// The operation of an instruction. What no spelling names is the fault Undefined, also where operands have other widths than the
/// operation's own.
#[tactic(auto, unfolding(crate::specs::Operations::operation_of))]
pub fn operation_of(i: &Instr) -> Operation
    ensures { result ≡ operation_of i.now }
{
    if_spelled(by_operands(i))
}

fn if_spelled(operation: Operation) -> Operation
    ensures { result ≡ if_spelled operation }
{
    if has_own_widths(operation) {
        operation
    } else {
        unlisted()
    }
}

fn by_operands(i: &Instr) -> Operation
    ensures { result ≡ operation_with i.now.name i.now i.now.ops.items }
{
    match i.ops.as_slice() {
        [] => of_none(i),
        [a] => of_one(i.name, i.w, *a),
        [a, b] => of_two(i.name, i.w, *a, *b),
        [a, b, c] => of_three(i.name, i.w, *a, *b, *c),
        _ => unlisted(),
    }
}

fn unlisted() -> Operation
    ensures { result ≡ unlisted }
{
    Operation::Stop {
        kind: FaultKind::Undefined,
    }
}

fn stop(kind: FaultKind) -> Operation
    ensures { result ≡ Operation.Stop kind }
{
    Operation::Stop { kind }
}

fn element(i: &Instr, kind: StringKind) -> Operation
    ensures { result ≡ element i.now kind }
{
    Operation::Element {
        kind,
        w: i.w,
        seg: i.seg,
        repeat: i.repeat,
    }
}

fn change(change: FlagChange) -> Operation
    ensures { result ≡ Operation.Flag change }
{
    Operation::Flag { change }
}

// A sign extension from one register to another.
fn extended(op: Op, w: Width, to: Operand, from: Operand, by: u32) -> Operation
    ensures { result ≡ Operation.Convert op w to from by }
{
    Operation::Convert {
        op,
        w,
        to,
        from,
        by,
    }
}

fn of_none(i: &Instr) -> Operation
    ensures { result ≡ of_none i.now.name i.now }
{
    let byte = Operand::Register(Width::B8, EAX);
    let word = Operand::Register(Width::B16, EAX);
    let long = Operand::Register(Width::B32, EAX);
    match i.name {
        Mnemonic::Nop => Operation::Nothing,
        Mnemonic::Endbr32 => Operation::Nothing,
        Mnemonic::Ret => Operation::Return { extra: 0 },
        Mnemonic::Leave => Operation::Leave,
        Mnemonic::Cbw => extended(Op::Sign8, Width::B16, word, byte, 0),
        Mnemonic::Cwde => extended(Op::Sign16, Width::B32, long, word, 0),
        Mnemonic::Cwd => extended(
            Op::Sar,
            Width::B16,
            Operand::Register(Width::B16, EDX),
            word,
            15,
        ),
        Mnemonic::Cdq => extended(
            Op::Sar,
            Width::B32,
            Operand::Register(Width::B32, EDX),
            long,
            31,
        ),
        Mnemonic::Movs => element(i, StringKind::Move),
        Mnemonic::Cmps => element(i, StringKind::Compare),
        Mnemonic::Stos => element(i, StringKind::Store),
        Mnemonic::Lods => element(i, StringKind::Load),
        Mnemonic::Scas => element(i, StringKind::Scan),
        Mnemonic::Cmc => change(FlagChange::FlipCarry),
        Mnemonic::Clc => change(FlagChange::ClearCarry),
        Mnemonic::Stc => change(FlagChange::SetCarry),
        Mnemonic::Cld => change(FlagChange::ClearDirection),
        Mnemonic::Std => change(FlagChange::SetDirection),
        Mnemonic::Lahf => Operation::LoadStatus,
        Mnemonic::Sahf => Operation::StoreStatus,
        Mnemonic::Ud2 => stop(FaultKind::Undefined),
        Mnemonic::Int3 => stop(FaultKind::Trap),
        Mnemonic::Hlt => stop(FaultKind::Halt),
        _ => unlisted(),
    }
}

// The operator at the operand and a number.
fn with_number(op: Op, rule: FlagRule, n: u32, w: Width, to: Operand) -> Operation
    ensures { result ≡ with_number op rule n w to }
{
    Operation::Combine {
        op,
        rule,
        w,
        to,
        from: Operand::Number(w, n),
    }
}

fn jump_of(condition: Cond, target: Operand) -> Operation
    ensures { result ≡ jump_of condition target }
{
    match target {
        Operand::Offset(offset) => Operation::Jump { condition, offset },
        _ => unlisted(),
    }
}

fn loop_of(kind: Looping, target: Operand) -> Operation
    ensures { result ≡ loop_of kind target }
{
    match target {
        Operand::Offset(offset) => Operation::Loop { kind, offset },
        _ => unlisted(),
    }
}

fn count_jump_of(target: Operand) -> Operation
    ensures { result ≡ count_jump_of target }
{
    match target {
        Operand::Offset(offset) => Operation::JumpIfNoCount { offset },
        _ => unlisted(),
    }
}

fn return_of(extra: Operand) -> Operation
    ensures { result ≡ return_of extra }
{
    match extra {
        Operand::Number(w, extra) => Operation::Return {
            extra: w.cut(extra),
        },
        _ => unlisted(),
    }
}

fn of_one(name: Mnemonic, w: Width, a: Operand) -> Operation
    ensures { result ≡ of_one name w a }
{
    match name {
        Mnemonic::Nop => Operation::Nothing,
        Mnemonic::Inc => with_number(Op::Add, FlagRule::Increment, 1, w, a),
        Mnemonic::Dec => with_number(Op::Sub, FlagRule::Decrement, 1, w, a),
        Mnemonic::Neg => with_number(Op::Neg, FlagRule::Negation, 0, w, a),
        Mnemonic::Not => extended(Op::Not, w, a, a, 0),
        Mnemonic::Bswap => extended(Op::Swap, w, a, a, 0),
        Mnemonic::Mul => long_product(Op::HighU, FlagRule::Product, w, a),
        Mnemonic::Imul => long_product(Op::HighS, FlagRule::SignedProduct, w, a),
        Mnemonic::Div => quotient(false, w, a),
        Mnemonic::Idiv => quotient(true, w, a),
        Mnemonic::Push => Operation::Push { from: a },
        Mnemonic::Pop => Operation::Pop { to: a },
        Mnemonic::Call => Operation::Call { target: a },
        Mnemonic::Jmp => Operation::Goto { target: a },
        Mnemonic::J(condition) => jump_of(condition, a),
        Mnemonic::Set(condition) => Operation::Set { condition, to: a },
        Mnemonic::Loop => loop_of(Looping::Counted, a),
        Mnemonic::Loope => loop_of(Looping::Equal, a),
        Mnemonic::Loopne => loop_of(Looping::NotEqual, a),
        Mnemonic::Jecxz => count_jump_of(a),
        Mnemonic::Ret => return_of(a),
        _ => unlisted(),
    }
}

fn long_product(high: Op, rule: FlagRule, w: Width, from: Operand) -> Operation
    ensures { result ≡ Operation.MultiplyLong high rule w from }
{
    Operation::MultiplyLong {
        high,
        rule,
        w,
        from,
    }
}

fn quotient(signed: bool, w: Width, by: Operand) -> Operation
    ensures { result ≡ Operation.Divide signed w by }
{
    Operation::Divide { signed, w, by }
}

// The sign extension of an operand, by its width.
fn sign_of(from: Operand) -> Op
    ensures { result ≡ sign_of from }
{
    match from {
        Operand::Register(Width::B8, _) => Op::Sign8,
        Operand::Memory(Width::B8, _) => Op::Sign8,
        _ => Op::Sign16,
    }
}

fn lea_of(to: Operand, from: Operand) -> Operation
    ensures { result ≡ lea_of to from }
{
    match from {
        Operand::Memory(_, address) => Operation::Lea { to, address },
        _ => unlisted(),
    }
}

fn exchange_of(place: Operand, with: Operand) -> Operation
    ensures { result ≡ exchange_of place with }
{
    match with {
        Operand::Register(w, register) => Operation::Exchange { place, w, register },
        _ => unlisted(),
    }
}

fn compare_exchange_of(place: Operand, with: Operand) -> Operation
    ensures { result ≡ compare_exchange_of place with }
{
    match with {
        Operand::Register(w, register) => Operation::CompareExchange { place, w, register },
        _ => unlisted(),
    }
}

fn exchange_add_of(place: Operand, with: Operand) -> Operation
    ensures { result ≡ exchange_add_of place with }
{
    match with {
        Operand::Register(w, register) => Operation::ExchangeAdd { place, w, register },
        _ => unlisted(),
    }
}

fn bit_test_of(change: BitChange, of: Operand, index: Operand) -> Operation
    ensures { result ≡ bit_test_of change of index }
{
    match of {
        Operand::Register(w, register) => Operation::TestBit {
            change,
            w,
            register,
            index,
        },
        _ => unlisted(),
    }
}

fn bit_scan_of(op: Op, to: Operand, from: Operand) -> Operation
    ensures { result ≡ bit_scan_of op to from }
{
    match to {
        Operand::Register(w, register) => Operation::FindBit {
            op,
            w,
            register,
            from,
        },
        _ => unlisted(),
    }
}

fn combined(op: Op, rule: FlagRule, w: Width, to: Operand, from: Operand) -> Operation
    ensures { result ≡ Operation.Combine op rule w to from }
{
    Operation::Combine {
        op,
        rule,
        w,
        to,
        from,
    }
}

fn carried(op: Op, rule: FlagRule, w: Width, to: Operand, from: Operand) -> Operation
    ensures { result ≡ Operation.Carry op rule w to from }
{
    Operation::Carry {
        op,
        rule,
        w,
        to,
        from,
    }
}

fn compared(op: Op, rule: FlagRule, w: Width, left: Operand, right: Operand) -> Operation
    ensures { result ≡ Operation.Compare op rule w left right }
{
    Operation::Compare {
        op,
        rule,
        w,
        left,
        right,
    }
}

fn shifted(op: Op, rule: FlagRule, w: Width, to: Operand, count: Operand) -> Operation
    ensures { result ≡ Operation.Shift op rule w to count }
{
    Operation::Shift {
        op,
        rule,
        w,
        to,
        count,
    }
}

fn product_of(to: Operand, left: Operand, right: Operand) -> Operation
    ensures { result ≡ product_of to left right }
{
    match to {
        Operand::Register(w, register) => Operation::Multiply {
            w,
            register,
            left,
            right,
        },
        _ => unlisted(),
    }
}

fn of_two(name: Mnemonic, w: Width, a: Operand, b: Operand) -> Operation
    ensures { result ≡ of_two name w a b }
{
    match name {
        Mnemonic::Add => combined(Op::Add, FlagRule::Sum, w, a, b),
        Mnemonic::Sub => combined(Op::Sub, FlagRule::Difference, w, a, b),
        Mnemonic::And => combined(Op::And, FlagRule::Logic, w, a, b),
        Mnemonic::Or => combined(Op::Or, FlagRule::Logic, w, a, b),
        Mnemonic::Xor => combined(Op::Xor, FlagRule::Logic, w, a, b),
        Mnemonic::Adc => carried(Op::Add, FlagRule::SumWithCarry, w, a, b),
        Mnemonic::Sbb => carried(Op::Sub, FlagRule::DifferenceWithBorrow, w, a, b),
        Mnemonic::Cmp => compared(Op::Sub, FlagRule::Difference, w, a, b),
        Mnemonic::Test => compared(Op::And, FlagRule::Logic, w, a, b),
        Mnemonic::Mov => Operation::Move { to: a, from: b },
        Mnemonic::Movzx => Operation::Move { to: a, from: b },
        Mnemonic::Movsx => extended(sign_of(b), w, a, b, 0),
        Mnemonic::Lea => lea_of(a, b),
        Mnemonic::Xchg => exchange_of(a, b),
        Mnemonic::Shl => shifted(Op::Shl, FlagRule::ShiftLeft, w, a, b),
        Mnemonic::Shr => shifted(Op::Shr, FlagRule::ShiftRight, w, a, b),
        Mnemonic::Sar => shifted(Op::Sar, FlagRule::ShiftRightSigned, w, a, b),
        Mnemonic::Rol => shifted(Op::Rol, FlagRule::RotateLeft, w, a, b),
        Mnemonic::Ror => shifted(Op::Ror, FlagRule::RotateRight, w, a, b),
        Mnemonic::Bt => bit_test_of(BitChange::KeepBit, a, b),
        Mnemonic::Bts => bit_test_of(BitChange::SetBit, a, b),
        Mnemonic::Btr => bit_test_of(BitChange::ClearBit, a, b),
        Mnemonic::Btc => bit_test_of(BitChange::FlipBit, a, b),
        Mnemonic::Bsf => bit_scan_of(Op::LowBit, a, b),
        Mnemonic::Bsr => bit_scan_of(Op::HighBit, a, b),
        Mnemonic::Cmpxchg => compare_exchange_of(a, b),
        Mnemonic::Xadd => exchange_add_of(a, b),
        Mnemonic::Imul => product_of(a, a, b),
        Mnemonic::Cmov(condition) => Operation::MoveIf {
            condition,
            to: a,
            from: b,
        },
        _ => unlisted(),
    }
}

fn double_shift_of(
    op: Op,
    other: Op,
    rule: FlagRule,
    to: Operand,
    from: Operand,
    count: Operand,
) -> Operation
    ensures { result ≡ double_shift_of op other rule to from count }
{
    match from {
        Operand::Register(w, register) => Operation::DoubleShift {
            op,
            other,
            rule,
            w,
            to,
            register,
            count,
        },
        _ => unlisted(),
    }
}

fn of_three(name: Mnemonic, w: Width, a: Operand, b: Operand, c: Operand) -> Operation
    ensures { result ≡ of_three name w a b c }
{
    match name {
        Mnemonic::Imul => product_of(a, b, c),
        Mnemonic::Shld => double_shift_of(Op::Shl, Op::Shr, FlagRule::ShiftLeft, a, b, c),
        Mnemonic::Shrd => double_shift_of(Op::Shr, Op::Shl, FlagRule::ShiftRightDouble, a, b, c),
        _ => unlisted(),
    }
}
