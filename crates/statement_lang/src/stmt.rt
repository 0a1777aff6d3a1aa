use arrayvec::ArrayVec;
use bit_words::{Flags, Op, Width};
use memory_map::FaultKind;
use x86_semantics::FlagRule;
use x86_syntax::{Cond, Seg};

/// Where a statement takes a value of 32 bits from. A register counts modulo 8, a temporary modulo 16; the base of
/// `Plain` is 0.
#[derive(Clone, Copy)]
pub enum Source {
    Register(u8),
    Temp(u8),
    Number(u32),
    Base(Seg),
}

/// A test of the state. `Flag` holds where each flag of the set is as told.
#[derive(Clone, Copy)]
pub enum Test {
    Condition(Cond),
    Zero(Source),
    Flag(Flags, bool),
}

/// A statement. `to` is a register or a temporary; to another source nothing is written.
#[derive(Clone, Copy)]
pub enum Stmt {
    /// `to` becomes the operator's value at `a` and `b`.
    Put {
        to: Source,
        op: Op,
        w: Width,
        a: Source,
        b: Source,
    },
    Copy {
        to: Source,
        from: Source,
    },
    /// The flags become those of the rule, by the operands, the result and the flags before.
    SetFlags {
        rule: FlagRule,
        w: Width,
        a: Source,
        b: Source,
        result: Source,
    },
    /// Each flag of the set becomes whether the test holds.
    SetFlag {
        flag: Flags,
        to: Test,
    },
    /// `to` becomes the word at an address, or the fault is Read.
    Load {
        to: Source,
        w: Width,
        at: Source,
    },
    /// The low bits of `from` go to an address, or the fault is Write.
    Store {
        at: Source,
        w: Width,
        from: Source,
    },
    /// `to` becomes the low bits of the choice's `eax`.
    Choose {
        to: Source,
        w: Width,
    },
    /// The flags of the set, but DF, become those of the choice.
    FreeFlags {
        which: Flags,
    },
    /// DIV or IDIV without its flags, or the fault is Divide.
    Divide {
        signed: bool,
        w: Width,
        by: Source,
    },
    /// Where the test does not hold, the next `count` statements are passed over.
    SkipUnless {
        test: Test,
        count: u8,
    },
    Stop(FaultKind),
    /// EIP becomes `to`.
    Goto {
        to: Source,
    },
    /// EIP becomes `yes` where the test holds, and else `no`.
    Branch {
        test: Test,
        yes: u32,
        no: u32,
    },
}

/// Up to 32 statements.
pub type Stmts = ArrayVec<Stmt, 32>;

/// How a list of statements ends: at its end, or in a fault.
#[derive(Clone, Copy, Debug, PartialEq, Eq)]
pub enum Ran {
    Next,
    Faulted(FaultKind),
}

impl Default for Stmt {
    ghost use Rattle.std.specs.Prelude.{◌≡◌};
    ghost use Rattle.memory_map.specs.declared.fault.FaultKind.TheVariants.{Undefined};
    ghost use Rattle.statement_lang.specs.declared.stmt.Stmt.TheVariants.{Stop};

    ghost is_default = { λ s. s ≡ Stop Undefined };

    fn default() -> Stmt {
        Stmt::Stop(FaultKind::Undefined)
    }
}
