use crate::FlagRule;
use bit_words::{Op, Width};
use memory_map::FaultKind;
use x86_syntax::{Address, Cond, Operand, Repeat, Seg};

/// When a loop goes on, beside ECX not being 0 after it has been counted down.
#[derive(Clone, Copy)]
pub enum Looping {
    /// LOOP: always.
    Counted,
    /// LOOPE: where ZF is set.
    Equal,
    /// LOOPNE: where ZF is clear.
    NotEqual,
}

/// What a string operation does with an element.
#[derive(Clone, Copy)]
pub enum StringKind {
    /// MOVS: from ESI to EDI.
    Move,
    /// CMPS: that at ESI with that at EDI.
    Compare,
    /// STOS: the accumulator to EDI.
    Store,
    /// LODS: from ESI to the accumulator.
    Load,
    /// SCAS: the accumulator with that at EDI.
    Scan,
}

/// A change of one flag alone.
#[derive(Clone, Copy)]
pub enum FlagChange {
    /// CMC
    FlipCarry,
    /// CLC
    ClearCarry,
    /// STC
    SetCarry,
    /// CLD
    ClearDirection,
    /// STD
    SetDirection,
}

/// What a bit test does to the bit.
#[derive(Clone, Copy)]
pub enum BitChange {
    /// BT
    KeepBit,
    /// BTS
    SetBit,
    /// BTR
    ClearBit,
    /// BTC
    FlipBit,
}

/// What an instruction does: one variant for each shape of the manual's "Operation" sections, with the operands, the
/// operator and the rule of the flags as parameters.
#[derive(Clone, Copy)]
pub enum Operation {
    /// ADD, SUB, AND, OR, XOR, INC, DEC, NEG: `to` becomes the operator's value at both.
    Combine {
        op: Op,
        rule: FlagRule,
        w: Width,
        to: Operand,
        from: Operand,
    },
    /// ADC, SBB: the same, and CF is added or taken off.
    Carry {
        op: Op,
        rule: FlagRule,
        w: Width,
        to: Operand,
        from: Operand,
    },
    /// CMP, TEST: the flags of it alone.
    Compare {
        op: Op,
        rule: FlagRule,
        w: Width,
        left: Operand,
        right: Operand,
    },
    /// MOV, MOVZX.
    Move {
        to: Operand,
        from: Operand,
    },
    /// NOT, BSWAP, MOVSX, CBW, CWDE, CWD, CDQ: `to` becomes the operator's value at `from` and `by`, no flag.
    Convert {
        op: Op,
        w: Width,
        to: Operand,
        from: Operand,
        by: u32,
    },
    /// LEA: the address without its segment.
    Lea {
        to: Operand,
        address: Address,
    },
    /// XCHG of a place with a register of this width.
    Exchange {
        place: Operand,
        w: Width,
        register: u8,
    },
    /// SHL, SHR, SAR, ROL, ROR.
    Shift {
        op: Op,
        rule: FlagRule,
        w: Width,
        to: Operand,
        count: Operand,
    },
    /// SHLD, SHRD: `op` moves the bits of `to`, and `other` those of the register that come after them.
    DoubleShift {
        op: Op,
        other: Op,
        rule: FlagRule,
        w: Width,
        to: Operand,
        register: u8,
        count: Operand,
    },
    /// BT, BTS, BTR, BTC of a register of this width.
    TestBit {
        change: BitChange,
        w: Width,
        register: u8,
        index: Operand,
    },
    /// BSF, BSR into a register of this width: `op` tells the place of the bit.
    FindBit {
        op: Op,
        w: Width,
        register: u8,
        from: Operand,
    },
    /// CMPXCHG of a place with a register of this width.
    CompareExchange {
        place: Operand,
        w: Width,
        register: u8,
    },
    /// XADD of a place with a register of this width.
    ExchangeAdd {
        place: Operand,
        w: Width,
        register: u8,
    },
    /// MUL, IMUL of the accumulator: `high` is the operator of the upper half.
    MultiplyLong {
        high: Op,
        rule: FlagRule,
        w: Width,
        from: Operand,
    },
    /// IMUL with a register to write: the low half of the product.
    Multiply {
        w: Width,
        register: u8,
        left: Operand,
        right: Operand,
    },
    /// DIV, IDIV.
    Divide {
        signed: bool,
        w: Width,
        by: Operand,
    },
    /// Jcc.
    Jump {
        condition: Cond,
        offset: i32,
    },
    /// JMP.
    Goto {
        target: Operand,
    },
    /// LOOP, LOOPE, LOOPNE.
    Loop {
        kind: Looping,
        offset: i32,
    },
    /// JECXZ.
    JumpIfNoCount {
        offset: i32,
    },
    /// CALL.
    Call {
        target: Operand,
    },
    /// RET, which takes `extra` more bytes off the stack.
    Return {
        extra: u32,
    },
    Push {
        from: Operand,
    },
    Pop {
        to: Operand,
    },
    Leave,
    /// SETcc.
    Set {
        condition: Cond,
        to: Operand,
    },
    /// CMOVcc.
    MoveIf {
        condition: Cond,
        to: Operand,
        from: Operand,
    },
    /// CMC, CLC, STC, CLD, STD.
    Flag {
        change: FlagChange,
    },
    /// LAHF.
    LoadStatus,
    /// SAHF.
    StoreStatus,
    /// MOVS, CMPS, STOS, LODS, SCAS, once or repeated.
    Element {
        kind: StringKind,
        w: Width,
        seg: Seg,
        repeat: Repeat,
    },
    /// NOP, ENDBR32.
    Nothing,
    /// HLT, INT3, UD2, and what no spelling names.
    Stop {
        kind: FaultKind,
    },
}
