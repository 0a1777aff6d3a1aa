ghost use Rattle.std.specs.Prelude.{◌≡◌};
ghost use Rattle.x86_semantics.specs.FlagRules.{free_of, status_flags};

use bit_words::Flags;
use bitflags::Flags as _;

/// A way to compute the status flags of an instruction from its operands `a` and `b`, its result, and the flags before
/// (`specs/FlagRules.antt`).
#[derive(Clone, Copy)]
pub enum FlagRule {
    /// ADD: all six by `a + b`.
    Sum,
    /// ADC: all six by `a + b + CF`.
    SumWithCarry,
    /// SUB, CMP, CMPS, SCAS: all six by `a - b`.
    Difference,
    /// SBB: all six by `a - b - CF`.
    DifferenceWithBorrow,
    /// INC: as ADD of `a` and 1, CF kept.
    Increment,
    /// DEC: as SUB of `a` and 1, CF kept.
    Decrement,
    /// NEG: all six by `0 - a`.
    Negation,
    /// AND, OR, XOR, TEST: CF and OF clear, SF, ZF and PF by the result.
    Logic,
    /// SHL of `a` by the count `b`, and SHLD.
    ShiftLeft,
    /// SHR of `a` by the count `b`.
    ShiftRight,
    /// SAR of `a` by the count `b`.
    ShiftRightSigned,
    /// SHRD of `a` by the count `b`.
    ShiftRightDouble,
    /// ROL by the count `b`.
    RotateLeft,
    /// ROR by the count `b`.
    RotateRight,
    /// MUL: CF and OF where the upper half of `a * b` is not 0.
    Product,
    /// IMUL: CF and OF where the signed `a * b` does not fit.
    SignedProduct,
    /// BT, BTS, BTR, BTC: CF is the bit of `a` at the place `b`.
    BitTest,
    /// BSF, BSR: ZF where `a` is 0.
    BitScan,
    /// SAHF: CF, PF, AF, ZF and SF are the bits 0, 2, 4, 6 and 7 of `a`.
    Status,
}

/// The status flags, which are all but DF.
pub fn status_flags() -> Flags
    ensures { result ≡ status_flags }
{
    Flags::CARRY
        .union(Flags::PARITY)
        .union(Flags::ADJUST)
        .union(Flags::ZERO)
        .union(Flags::SIGN)
        .union(Flags::OVERFLOW)
}

impl FlagRule {
    /// The flags that the rule leaves free, whatever the operands are.
    pub fn free(self) -> Flags
        ensures { result ≡ free_of self }
    {
        match self {
            FlagRule::Logic
            | FlagRule::ShiftLeft
            | FlagRule::ShiftRight
            | FlagRule::ShiftRightDouble
            | FlagRule::ShiftRightSigned => Flags::ADJUST,
            FlagRule::Product | FlagRule::SignedProduct => Flags::PARITY
                .union(Flags::ADJUST)
                .union(Flags::ZERO)
                .union(Flags::SIGN),
            FlagRule::BitTest => Flags::PARITY
                .union(Flags::ADJUST)
                .union(Flags::SIGN)
                .union(Flags::OVERFLOW),
            FlagRule::BitScan => Flags::CARRY
                .union(Flags::PARITY)
                .union(Flags::ADJUST)
                .union(Flags::SIGN)
                .union(Flags::OVERFLOW),
            _ => Flags::empty(),
        }
    }
}
