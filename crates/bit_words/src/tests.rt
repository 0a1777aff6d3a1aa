use crate::flags::{flags_of_add, flags_of_logic, flags_of_sub};
use crate::op::Op::{self, *};
use crate::op::apply;
use crate::width::Width::{self, B8, B16, B32};
use bitflags::Flags as _;

// Worked by hand from the operations of the manual's instructions.
static VALUES: [(Op, Width, u32, u32, u32); 108] = [
    (Add, B8, 0xFF, 0x01, 0x00),
    (Add, B8, 0x1FF, 0x101, 0x00),
    (Add, B16, 0xFFFF, 0x0001, 0x0000),
    (Add, B32, 0xFFFF_FFFF, 0x0000_0001, 0x0000_0000),
    (Sub, B8, 0x00, 0x01, 0xFF),
    (Sub, B16, 0x0000, 0x0001, 0xFFFF),
    (Sub, B32, 0x0000_0000, 0x0000_0001, 0xFFFF_FFFF),
    (And, B8, 0x1F0, 0x13C, 0x30),
    (And, B32, 0xFFFF_FFFF, 0xFFFF_FFF0, 0xFFFF_FFF0),
    (Or, B8, 0xF0, 0x10F, 0xFF),
    (Xor, B16, 0xFFFF, 0x00FF, 0xFF00),
    (Not, B8, 0x00, 0, 0xFF),
    (Not, B16, 0x00FF, 0, 0xFF00),
    (Not, B32, 0x0000_0000, 0, 0xFFFF_FFFF),
    (Neg, B8, 0x80, 0, 0x80),
    (Neg, B8, 0x00, 0, 0x00),
    (Neg, B16, 0x0001, 0, 0xFFFF),
    (Neg, B32, 0x8000_0000, 0, 0x8000_0000),
    (Mul, B8, 0x10, 0x10, 0x00),
    (Mul, B16, 0xFFFF, 0xFFFF, 0x0001),
    (Mul, B32, 0x0001_0000, 0x0001_0000, 0x0000_0000),
    (HighU, B8, 0xFF, 0xFF, 0xFE),
    (HighU, B16, 0xFFFF, 0xFFFF, 0xFFFE),
    (HighU, B32, 0xFFFF_FFFF, 0xFFFF_FFFF, 0xFFFF_FFFE),
    (HighS, B8, 0xFF, 0xFF, 0x00),
    (HighS, B8, 0x80, 0x80, 0x40),
    (HighS, B8, 0x80, 0x7F, 0xC0),
    (HighS, B16, 0xFFFF, 0x0001, 0xFFFF),
    (HighS, B16, 0x8000, 0x8000, 0x4000),
    (HighS, B32, 0xFFFF_FFFF, 0xFFFF_FFFF, 0x0000_0000),
    (HighS, B32, 0x8000_0000, 0x8000_0000, 0x4000_0000),
    (HighS, B32, 0x8000_0000, 0x7FFF_FFFF, 0xC000_0000),
    (Shl, B8, 0x01, 7, 0x80),
    (Shl, B8, 0xFF, 8, 0x00),
    (Shl, B8, 0x01, 0x100, 0x00),
    (Shl, B16, 0x0001, 15, 0x8000),
    (Shl, B16, 0x0001, 16, 0x0000),
    (Shl, B32, 0x8000_0001, 1, 0x0000_0002),
    (Shl, B32, 0x0000_0001, 31, 0x8000_0000),
    (Shl, B32, 0xFFFF_FFFF, 32, 0x0000_0000),
    (Shl, B32, 0x0000_0001, 0xFFFF_FFFF, 0x0000_0000),
    (Shr, B8, 0x80, 7, 0x01),
    (Shr, B8, 0xFF, 8, 0x00),
    (Shr, B8, 0x1FF, 0, 0xFF),
    (Shr, B16, 0x8000, 15, 0x0001),
    (Shr, B32, 0x8000_0000, 31, 0x0000_0001),
    (Shr, B32, 0xFFFF_FFFF, 32, 0x0000_0000),
    (Sar, B8, 0x80, 1, 0xC0),
    (Sar, B8, 0x80, 7, 0xFF),
    (Sar, B8, 0x80, 8, 0xFF),
    (Sar, B8, 0x7F, 8, 0x00),
    (Sar, B16, 0x8000, 15, 0xFFFF),
    (Sar, B32, 0x8000_0000, 31, 0xFFFF_FFFF),
    (Sar, B32, 0x8000_0000, 40, 0xFFFF_FFFF),
    (Sar, B32, 0x7FFF_FFFF, 32, 0x0000_0000),
    (Rol, B8, 0x81, 0, 0x81),
    (Rol, B8, 0x81, 1, 0x03),
    (Rol, B8, 0x81, 8, 0x81),
    (Rol, B8, 0x81, 9, 0x03),
    (Rol, B16, 0x8001, 4, 0x0018),
    (Rol, B32, 0x8000_0000, 1, 0x0000_0001),
    (Rol, B32, 0x1234_5678, 32, 0x1234_5678),
    (Rol, B32, 0x1234_5678, 36, 0x2345_6781),
    (Ror, B8, 0x01, 1, 0x80),
    (Ror, B8, 0x01, 9, 0x80),
    (Ror, B8, 0x81, 8, 0x81),
    (Ror, B16, 0x1234, 4, 0x4123),
    (Ror, B16, 0x1234, 16, 0x1234),
    (Ror, B32, 0x1234_5678, 0, 0x1234_5678),
    (Ror, B32, 0x1234_5678, 8, 0x7812_3456),
    (Ror, B32, 0x1234_5678, 40, 0x7812_3456),
    (Eq, B8, 0x101, 0x01, 1),
    (Eq, B16, 0x1001, 0x0001, 0),
    (Eq, B32, 5, 5, 1),
    (Eq, B32, 5, 6, 0),
    (Ult, B8, 0x7F, 0x80, 1),
    (Ult, B16, 1, 1, 0),
    (Ult, B32, 0xFFFF_FFFF, 0, 0),
    (Ult, B32, 0, 0xFFFF_FFFF, 1),
    (Low8, B32, 0x1234_5678, 0, 0x78),
    (High8, B32, 0x1234_5678, 0, 0x56),
    (Low16, B32, 0x1234_5678, 0, 0x5678),
    (PutLow8, B32, 0x1234_5678, 0xAB, 0x1234_56AB),
    (PutLow8, B32, 0x1234_5678, 0x1FF, 0x1234_56FF),
    (PutHigh8, B32, 0x1234_5678, 0xAB, 0x1234_AB78),
    (PutHigh8, B32, 0xFFFF_FFFF, 0x100, 0xFFFF_00FF),
    (PutLow16, B32, 0x1234_5678, 0xABCD, 0x1234_ABCD),
    (Sign8, B16, 0x80, 0, 0xFF80),
    (Sign8, B32, 0x80, 0, 0xFFFF_FF80),
    (Sign8, B32, 0x7F, 0, 0x0000_007F),
    (Sign8, B32, 0x1234_56FF, 0, 0xFFFF_FFFF),
    (Sign16, B32, 0x8000, 0, 0xFFFF_8000),
    (Sign16, B32, 0x7FFF, 0, 0x0000_7FFF),
    (Sign16, B32, 0x1234_FFFF, 0, 0xFFFF_FFFF),
    (Swap, B32, 0x1234_5678, 0, 0x7856_3412),
    (Swap, B32, 0x0000_00FF, 0, 0xFF00_0000),
    (LowBit, B32, 0x0000_0000, 0, 0),
    (LowBit, B32, 0x0000_0050, 0, 4),
    (LowBit, B32, 0x8000_0000, 0, 31),
    (LowBit, B32, 0xFFFF_FFFF, 0, 0),
    (LowBit, B16, 0x1_8000, 0, 15),
    (LowBit, B8, 0x100, 0, 0),
    (HighBit, B32, 0x0000_0000, 0, 0),
    (HighBit, B32, 0x0000_0050, 0, 6),
    (HighBit, B32, 0x0000_0001, 0, 0),
    (HighBit, B32, 0xFFFF_FFFF, 0, 31),
    (HighBit, B16, 0x1_0010, 0, 4),
    (HighBit, B8, 0x17F, 0, 6),
];

// Operands, the carry or borrow, and what is left: OF SF ZF AF PF CF.
static SUMS: [(Width, u32, u32, bool, u8); 18] = [
    (B8, 0xFF, 0x01, false, 0b001111),
    (B8, 0x7F, 0x01, false, 0b110100),
    (B8, 0x80, 0x80, false, 0b101011),
    (B8, 0x00, 0x00, false, 0b001010),
    (B8, 0xFF, 0xFF, true, 0b010111),
    (B8, 0x0F, 0x00, true, 0b000100),
    (B8, 0x7F, 0x00, true, 0b110100),
    (B8, 0xFF, 0x00, true, 0b001111),
    (B8, 0x80, 0x7F, false, 0b010010),
    (B16, 0xFFFF, 0x0001, false, 0b001111),
    (B16, 0x7FFF, 0x0001, false, 0b110110),
    (B16, 0x8000, 0x8000, false, 0b101011),
    (B16, 0x00FF, 0x0001, false, 0b000110),
    (B32, 0xFFFF_FFFF, 0x0000_0001, false, 0b001111),
    (B32, 0x7FFF_FFFF, 0x0000_0001, false, 0b110110),
    (B32, 0x8000_0000, 0x8000_0000, false, 0b101011),
    (B32, 0x1234_5678, 0x1111_1111, false, 0b000000),
    (B32, 0xFFFF_FFFF, 0xFFFF_FFFF, true, 0b010111),
];

static DIFFERENCES: [(Width, u32, u32, bool, u8); 15] = [
    (B8, 0x00, 0x01, false, 0b010111),
    (B8, 0x80, 0x01, false, 0b100100),
    (B8, 0x05, 0x05, false, 0b001010),
    (B8, 0x7F, 0xFF, false, 0b110001),
    (B8, 0x00, 0xFF, true, 0b001111),
    (B8, 0x10, 0x00, true, 0b000110),
    (B8, 0x80, 0x00, true, 0b100100),
    (B8, 0xFF, 0xFF, true, 0b010111),
    (B16, 0x0000, 0x0001, false, 0b010111),
    (B16, 0x8000, 0x0001, false, 0b100110),
    (B16, 0x1000, 0x0001, false, 0b000110),
    (B32, 0x0000_0000, 0x0000_0001, false, 0b010111),
    (B32, 0x8000_0000, 0x0000_0001, false, 0b100110),
    (B32, 0x0000_0000, 0x8000_0000, false, 0b110011),
    (B32, 0x0000_0005, 0x0000_0007, false, 0b010101),
];

static RESULTS: [(Width, u32, u8); 7] = [
    (B8, 0x00, 0b001010),
    (B8, 0x80, 0b010000),
    (B8, 0xFF, 0b010010),
    (B16, 0x0100, 0b000010),
    (B16, 0x8001, 0b010000),
    (B32, 0x8000_0000, 0b010010),
    (B32, 0x0000_0007, 0b000000),
];

#[test]
fn operators_and_flags_are_those_of_the_manual(rt: HostRuntime) {
    for (op, w, a, b, want) in &VALUES {
        assert_eq!(rt; apply(*op, *w, *a, *b), *want, "{op:?} {w:?} {a} {b}");
    }
    for (w, a, b, carry, want) in &SUMS {
        assert_eq!(rt;
            flags_of_add(*w, *a, *b, *carry).bits(),
            *want,
            "{w:?} {a} + {b} + {carry}"
        );
    }
    for (w, a, b, borrow, want) in &DIFFERENCES {
        assert_eq!(rt;
            flags_of_sub(*w, *a, *b, *borrow).bits(),
            *want,
            "{w:?} {a} - {b} - {borrow}"
        );
    }
    for (w, word, want) in &RESULTS {
        assert_eq!(rt; flags_of_logic(*w, *word).bits(), *want, "{w:?} {word}");
    }
}
