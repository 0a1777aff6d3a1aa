use crate::span::{place_span, span};
use crate::value::Interval;
use Shape::{Along, At, Many, One};
use address_regions::Region;
use bit_words::{Op, Width};
use domain_laws::{Domain, Reach};
use std::process::Abort;

// A value by what it shows.
#[derive(Clone, Copy, Debug, PartialEq, Eq)]
enum Shape {
    One(u32),
    // Low bound, high bound and stride.
    Many(u32, u32, u32),
    At(Region, i32),
    Along(Region, i32, i32, u32),
    Any,
}

const STACK: Region = Region::Stack;

const FS: Region = Region::Fs;

const GS: Region = Region::Gs;

const BLOCK: Region = Region::Block {
    site: 0x0804_8008,
    size: 16,
    zeroed: true,
};

const PAIR: Region = Region::Block {
    site: 0x0804_8008,
    size: 8,
    zeroed: true,
};

const SIX: Region = Region::Block {
    site: 0x0804_8008,
    size: 6,
    zeroed: false,
};

const WORD: Region = Region::Block {
    site: 0x0804_8008,
    size: 4,
    zeroed: true,
};

const TINY: Region = Region::Block {
    site: 0x0804_8008,
    size: 3,
    zeroed: true,
};

const HUGE: Region = Region::Block {
    site: 0x0804_8008,
    size: 67_108_865,
    zeroed: true,
};

const LARGE: Region = Region::Block {
    site: 0x0804_8008,
    size: 67_108_864,
    zeroed: true,
};

const ANY: Shape = Shape::Any;

fn made(shape: Shape) -> Interval {
    match shape {
        One(n) => Interval::number(n),
        Many(low, high, stride) => span(low, high, stride),
        At(region, o) => Interval::place(region, o),
        Along(region, low, high, stride) => {
            place_span(region, i64::from(low), i64::from(high), stride)
        }
        Shape::Any => Interval::any(),
    }
}

fn shown(v: Interval) -> Shape {
    match v {
        Interval::Numbers(m) if m.low == m.high && m.stride == 0 => One(m.low),
        Interval::Numbers(m) => Many(m.low, m.high, m.stride),
        Interval::Offsets(m) if m.low == m.high && m.stride == 0 => At(m.region, m.low),
        Interval::Offsets(m) => Along(m.region, m.low, m.high, m.stride),
        Interval::Any => Shape::Any,
    }
}

// A value of this shape, which has to be one that a value can show.
fn value_of(rt: &impl Abort, shape: Shape) -> Interval {
    let v = made(shape);
    assert!(rt; shown(v) == shape, "{shape:?} is {v:?}");
    v
}

// An operator at 32 bits with the stack aligned to 16, its operands, and the result.
static EVALUATIONS: [(Op, Shape, Shape, Shape); 173] = [
    // 1: numbers alone, and what absorbs or changes nothing
    (Op::Add, One(2), One(3), One(5)),
    (Op::Neg, One(1), ANY, One(0xFFFF_FFFF)),
    (Op::Swap, One(0x0102_0304), ANY, One(0x0403_0201)),
    (Op::And, ANY, One(0), One(0)),
    (Op::And, One(0), Along(STACK, 0, 8, 4), One(0)),
    (Op::Or, One(0xFFFF_FFFF), Many(0, 9, 3), One(0xFFFF_FFFF)),
    (Op::Or, ANY, One(65_535), ANY),
    (Op::Add, ANY, One(0), ANY),
    (Op::Add, One(0), Many(4, 12, 4), Many(4, 12, 4)),
    (
        Op::Sub,
        Along(STACK, 0, 8, 4),
        One(0),
        Along(STACK, 0, 8, 4),
    ),
    (Op::Shl, Many(1, 9, 2), One(0), Many(1, 9, 2)),
    (Op::Sub, One(0), ANY, ANY),
    (Op::Mul, One(6), One(7), One(42)),
    (Op::Mul, Many(0, 3, 1), One(2), ANY),
    (Op::Low8, One(4660), ANY, One(52)),
    (Op::Sar, One(0x8000_0000), One(31), One(0xFFFF_FFFF)),
    // 2: sums and differences of numbers
    (Op::Add, Many(0, 8, 4), Many(0, 6, 6), Many(0, 14, 2)),
    (Op::Add, Many(0, 8, 4), One(5), Many(5, 13, 4)),
    (Op::Add, One(5), Many(10, 30, 10), Many(15, 35, 10)),
    (Op::Add, Many(0, 12, 4), Many(0, 12, 4), Many(0, 24, 4)),
    (Op::Add, Many(1, 7, 3), Many(2, 7, 5), Many(3, 14, 1)),
    (
        Op::Add,
        Many(0xFFFF_FFF0, 0xFFFF_FFFE, 2),
        One(1),
        Many(0xFFFF_FFF1, 0xFFFF_FFFF, 2),
    ),
    (
        Op::Add,
        Many(0xFFFF_FFF0, 0xFFFF_FFFF, 3),
        One(0),
        Many(0xFFFF_FFF0, 0xFFFF_FFFF, 3),
    ),
    (
        Op::Add,
        Many(0xFFFF_FFF0, 0xFFFF_FFFC, 4),
        One(3),
        Many(0xFFFF_FFF3, 0xFFFF_FFFF, 4),
    ),
    (Op::Add, Many(0xFFFF_FFF0, 0xFFFF_FFFC, 4), One(4), ANY),
    (
        Op::Add,
        Many(0xFFFF_FFF0, 0xFFFF_FFFC, 4),
        One(16),
        Many(0, 12, 4),
    ),
    (Op::Add, Many(0xFFFF_FFF0, 0xFFFF_FFFC, 4), One(15), ANY),
    (
        Op::Add,
        Many(0xFFFF_FFF0, 0xFFFF_FFFC, 4),
        Many(16, 24, 8),
        Many(0, 20, 4),
    ),
    (
        Op::Add,
        Many(0x8000_0000, 0x8000_0008, 8),
        Many(0x8000_0000, 0x8000_0004, 4),
        Many(0, 12, 4),
    ),
    (
        Op::Add,
        Many(0x7FFF_FFFE, 0x8000_0000, 2),
        One(0x8000_0000),
        ANY,
    ),
    (
        Op::Add,
        Many(0x8000_0000, 0xFFFF_FFFF, 1),
        Many(0x8000_0000, 0xFFFF_FFFF, 1),
        Many(0, 0xFFFF_FFFE, 1),
    ),
    (Op::Add, Many(0, 0xFFFF_FFFF, 1), One(1), ANY),
    (Op::Add, Many(0, 8, 4), ANY, ANY),
    (Op::Sub, Many(10, 20, 5), Many(0, 6, 2), Many(4, 20, 1)),
    (Op::Sub, Many(10, 20, 5), One(10), Many(0, 10, 5)),
    (Op::Sub, Many(10, 20, 5), One(11), ANY),
    (Op::Sub, Many(6, 12, 6), Many(0, 4, 4), Many(2, 12, 2)),
    (Op::Sub, Many(6, 12, 6), Many(2, 6, 4), Many(0, 10, 2)),
    (
        Op::Sub,
        Many(0, 2, 1),
        Many(3, 5, 1),
        Many(0xFFFF_FFFB, 0xFFFF_FFFF, 1),
    ),
    (Op::Sub, Many(0, 2, 1), Many(2, 5, 1), ANY),
    (
        Op::Sub,
        One(0),
        Many(1, 7, 3),
        Many(0xFFFF_FFF9, 0xFFFF_FFFF, 3),
    ),
    (Op::Sub, Many(0, 4, 4), One(0xFFFF_FFFF), Many(1, 5, 4)),
    (Op::Sub, ANY, Many(0, 4, 2), ANY),
    (
        Op::Sub,
        Many(0xFFFF_FFF8, 0xFFFF_FFFC, 4),
        Many(0xFFFF_FFF0, 0xFFFF_FFF8, 8),
        Many(0, 12, 4),
    ),
    // 3: offsets plus or less numbers
    (Op::Add, At(STACK, -4), One(4), At(STACK, 0)),
    (Op::Add, One(0xFFFF_FFFC), At(STACK, 0), At(STACK, -4)),
    (
        Op::Add,
        At(STACK, 0x7FFF_FFFF),
        One(1),
        At(STACK, -0x8000_0000),
    ),
    (
        Op::Sub,
        At(STACK, -0x8000_0000),
        One(1),
        At(STACK, 0x7FFF_FFFF),
    ),
    (Op::Sub, At(STACK, -4), One(8), At(STACK, -12)),
    (Op::Sub, At(STACK, 4), One(0xFFFF_FFFC), At(STACK, 8)),
    (
        Op::Add,
        At(STACK, 0),
        One(0x8000_0000),
        At(STACK, -0x8000_0000),
    ),
    (Op::Add, At(BLOCK, 4), One(4), At(BLOCK, 8)),
    (Op::Add, At(FS, 0), One(24), At(FS, 24)),
    (Op::Sub, One(8), At(STACK, -4), ANY),
    (
        Op::Add,
        Along(STACK, -16, -8, 8),
        One(4),
        Along(STACK, -12, -4, 8),
    ),
    (
        Op::Add,
        Along(STACK, -16, -8, 8),
        Many(0, 6, 6),
        Along(STACK, -16, -2, 2),
    ),
    (
        Op::Add,
        Many(0, 8, 4),
        Along(STACK, -8, -2, 6),
        Along(STACK, -8, 6, 2),
    ),
    (
        Op::Add,
        Along(STACK, 0, 8, 4),
        One(0xFFFF_FFF8),
        Along(STACK, -8, 0, 4),
    ),
    (
        Op::Add,
        Along(STACK, 0, 8, 4),
        Many(0xFFFF_FFF0, 0xFFFF_FFF8, 8),
        Along(STACK, -16, 0, 4),
    ),
    (
        Op::Add,
        At(STACK, 0),
        Many(0x7FFF_FFFC, 0x8000_0000, 4),
        ANY,
    ),
    (
        Op::Add,
        At(STACK, 0),
        Many(0x7FFF_FFF8, 0x7FFF_FFFC, 4),
        Along(STACK, 0x7FFF_FFF8, 0x7FFF_FFFC, 4),
    ),
    (
        Op::Add,
        At(STACK, 8),
        Many(0x7FFF_FFF4, 0x7FFF_FFF8, 4),
        ANY,
    ),
    (
        Op::Add,
        At(STACK, 3),
        Many(0x7FFF_FFF8, 0x7FFF_FFFC, 4),
        Along(STACK, 0x7FFF_FFFB, 0x7FFF_FFFF, 4),
    ),
    (
        Op::Add,
        At(STACK, 4),
        Many(0x7FFF_FFF8, 0x7FFF_FFFC, 4),
        ANY,
    ),
    (
        Op::Add,
        At(STACK, 0),
        Many(0x8000_0000, 0x8000_0004, 4),
        Along(STACK, -0x8000_0000, -0x7FFF_FFFC, 4),
    ),
    (
        Op::Add,
        At(STACK, -4),
        Many(0x8000_0000, 0x8000_0004, 4),
        ANY,
    ),
    (
        Op::Add,
        Along(BLOCK, 0, 12, 4),
        Many(0, 3, 1),
        Along(BLOCK, 0, 15, 1),
    ),
    (Op::Add, Along(GS, 0, 8, 8), One(12), Along(GS, 12, 20, 8)),
    (Op::Add, Along(STACK, 0, 8, 4), ANY, ANY),
    (
        Op::Sub,
        Along(STACK, -16, -8, 8),
        One(4),
        Along(STACK, -20, -12, 8),
    ),
    (
        Op::Sub,
        Along(STACK, 0, 12, 6),
        Many(0, 8, 4),
        Along(STACK, -8, 12, 2),
    ),
    (
        Op::Sub,
        Along(STACK, 0, 12, 6),
        One(0xFFFF_FFFC),
        Along(STACK, 4, 16, 6),
    ),
    (
        Op::Sub,
        At(STACK, 0),
        Many(0xFFFF_FFF8, 0xFFFF_FFFC, 4),
        Along(STACK, 4, 8, 4),
    ),
    (
        Op::Sub,
        Along(STACK, -0x8000_0000, -0x7FFF_FFF8, 8),
        One(4),
        ANY,
    ),
    (
        Op::Sub,
        Along(STACK, -0x7FFF_FFFC, -0x7FFF_FFF8, 4),
        One(4),
        Along(STACK, -0x8000_0000, -0x7FFF_FFFC, 4),
    ),
    (
        Op::Sub,
        At(STACK, 0),
        Many(0x7FFF_FFFF, 0x8000_0000, 1),
        ANY,
    ),
    (Op::Sub, Many(0, 8, 4), At(STACK, 0), ANY),
    // 4: two offsets in one region
    (Op::Sub, At(STACK, 4), At(STACK, 8), One(0xFFFF_FFFC)),
    (Op::Sub, At(STACK, 8), At(STACK, 4), One(4)),
    (Op::Sub, At(FS, -4), At(FS, -4), One(0)),
    (
        Op::Sub,
        At(STACK, 0x7FFF_FFFF),
        At(STACK, -0x8000_0000),
        One(0xFFFF_FFFF),
    ),
    (Op::Sub, At(BLOCK, 4), At(BLOCK, 8), ANY),
    (Op::Sub, At(STACK, 4), At(GS, 4), ANY),
    (
        Op::Sub,
        Along(STACK, 0, 8, 4),
        At(STACK, -6),
        Many(6, 14, 4),
    ),
    (Op::Sub, Along(STACK, 0, 8, 4), At(STACK, 0), Many(0, 8, 4)),
    (Op::Sub, Along(STACK, 0, 8, 4), At(STACK, 1), ANY),
    (
        Op::Sub,
        Along(STACK, 0, 8, 4),
        Along(STACK, -12, 0, 6),
        Many(0, 20, 2),
    ),
    (Op::Sub, At(STACK, 8), Along(STACK, 0, 8, 4), Many(0, 8, 4)),
    (
        Op::Sub,
        Along(GS, 10, 16, 6),
        Along(GS, 0, 4, 4),
        Many(6, 16, 2),
    ),
    (Op::Sub, Along(BLOCK, 8, 12, 4), At(BLOCK, 0), ANY),
    (
        Op::Sub,
        Along(STACK, 0x7FFF_FFF8, 0x7FFF_FFFC, 4),
        At(STACK, -0x8000_0000),
        Many(0xFFFF_FFF8, 0xFFFF_FFFC, 4),
    ),
    (Op::Eq, At(STACK, 4), At(STACK, 8), One(0)),
    (Op::Eq, At(STACK, 4), At(STACK, 4), One(1)),
    (Op::Eq, At(STACK, 4), At(GS, 4), ANY),
    (
        Op::Eq,
        Along(STACK, 0, 8, 4),
        Along(STACK, 12, 16, 4),
        One(0),
    ),
    (
        Op::Eq,
        Along(STACK, 12, 16, 4),
        Along(STACK, 0, 8, 4),
        One(0),
    ),
    (Op::Eq, Along(STACK, 0, 8, 4), At(STACK, 8), ANY),
    (Op::Eq, Along(STACK, 0, 8, 4), At(STACK, 6), ANY),
    (Op::Eq, Along(STACK, 0, 8, 4), Along(STACK, 0, 8, 4), ANY),
    (Op::Eq, Along(STACK, 0, 8, 4), At(STACK, 9), One(0)),
    (Op::Eq, At(BLOCK, 0), At(BLOCK, 8), ANY),
    (Op::Eq, Along(FS, 0, 4, 4), At(FS, -4), One(0)),
    (
        Op::Eq,
        At(STACK, -0x8000_0000),
        At(STACK, 0x7FFF_FFFF),
        One(0),
    ),
    // 5: one offset under an alignment mask, and numbers outside every region
    (Op::And, At(STACK, -44), One(0xFFFF_FFF0), At(STACK, -48)),
    (Op::And, One(0xFFFF_FFF0), At(STACK, -44), At(STACK, -48)),
    (Op::And, At(STACK, -44), One(0xFFFF_FFF8), At(STACK, -48)),
    (Op::And, At(STACK, -45), One(0xFFFF_FFFE), At(STACK, -46)),
    (Op::And, At(STACK, -45), One(0xFFFF_FFFF), At(STACK, -45)),
    (Op::And, At(STACK, -44), One(0xFFFF_FFF1), ANY),
    (Op::And, At(STACK, -44), One(0xFFFF_FFE0), ANY),
    (Op::And, Along(STACK, -48, -44, 4), One(0xFFFF_FFF0), ANY),
    (Op::And, At(FS, -44), One(0xFFFF_FFF0), ANY),
    (
        Op::And,
        At(STACK, -0x8000_0000),
        One(0xFFFF_FFF0),
        At(STACK, -0x8000_0000),
    ),
    (Op::Eq, One(0), Along(BLOCK, 0, 12, 1), One(0)),
    (Op::Eq, Along(BLOCK, 0, 12, 1), One(0xF000_0000), One(0)),
    (Op::Eq, One(4095), At(STACK, 4095), One(0)),
    (Op::Eq, One(4096), At(BLOCK, 0), ANY),
    (Op::Eq, One(0xEFFF_FFFF), At(BLOCK, 0), ANY),
    (Op::Eq, One(0), At(BLOCK, 15), One(0)),
    (Op::Eq, One(0), At(BLOCK, 16), ANY),
    (Op::Eq, One(0), Along(BLOCK, 12, 16, 4), ANY),
    (Op::Eq, One(0), Along(STACK, -1_048_576, 4092, 1), One(0)),
    (Op::Eq, At(STACK, -1_048_577), One(0), ANY),
    (Op::Eq, Many(0, 1, 1), At(BLOCK, 0), ANY),
    (Op::Eq, One(0), At(TINY, 2), One(0)),
    // 6: comparisons of numbers
    (Op::Eq, Many(0, 8, 4), Many(9, 15, 3), One(0)),
    (Op::Eq, Many(9, 15, 3), Many(0, 8, 4), One(0)),
    (Op::Eq, Many(0, 8, 4), One(8), ANY),
    (Op::Eq, Many(0, 8, 4), One(6), ANY),
    (Op::Eq, Many(0, 8, 4), One(9), One(0)),
    (Op::Eq, ANY, One(9), ANY),
    (Op::Ult, Many(0, 8, 4), One(9), One(1)),
    (Op::Ult, Many(0, 8, 4), One(8), ANY),
    (Op::Ult, Many(8, 12, 4), One(8), One(0)),
    (Op::Ult, Many(8, 12, 4), Many(0, 8, 8), One(0)),
    (Op::Ult, Many(8, 12, 4), Many(0, 9, 9), ANY),
    (Op::Ult, One(3), ANY, ANY),
    (Op::Ult, At(STACK, 0), At(STACK, 4), ANY),
    // 7: shifts of numbers
    (Op::Shl, Many(1, 9, 4), One(2), Many(4, 36, 16)),
    (
        Op::Shl,
        Many(0, 0x7FFF_FFFF, 1),
        One(1),
        Many(0, 0xFFFF_FFFE, 2),
    ),
    (Op::Shl, Many(0, 0x8000_0000, 0x8000_0000), One(1), ANY),
    (
        Op::Shl,
        Many(0, 1, 1),
        One(31),
        Many(0, 0x8000_0000, 0x8000_0000),
    ),
    (Op::Shl, Many(0, 1, 1), One(32), ANY),
    (Op::Shl, Many(0, 2, 2), One(31), ANY),
    (Op::Shl, Many(1, 9, 4), Many(1, 2, 1), ANY),
    (Op::Shl, At(STACK, 0), One(2), ANY),
    (Op::Shr, Many(4, 12, 4), One(2), Many(1, 3, 1)),
    (Op::Shr, Many(5, 17, 4), One(2), Many(1, 4, 1)),
    (Op::Shr, Many(5, 17, 4), One(0), Many(5, 17, 1)),
    (Op::Shr, Many(5, 17, 4), One(5), One(0)),
    (Op::Shr, Many(0, 0xFFFF_FFFF, 1), One(31), Many(0, 1, 1)),
    (Op::Shr, Many(0, 0xFFFF_FFFF, 1), One(32), ANY),
    (Op::Shr, ANY, One(2), ANY),
    // 8: masks
    (Op::And, ANY, One(1), Many(0, 1, 1)),
    (Op::And, One(255), ANY, Many(0, 255, 1)),
    (Op::And, Many(0, 600, 3), One(65_535), Many(0, 65_535, 1)),
    (Op::And, Many(0, 600, 3), One(65_536), ANY),
    (Op::And, At(STACK, 0), One(12), Many(0, 12, 1)),
    (Op::And, Many(0, 1, 1), Many(2, 3, 1), ANY),
    // 9: the low byte and the low 16 bits
    (Op::Low8, Many(0, 255, 5), ANY, Many(0, 255, 5)),
    (Op::Low8, Many(0, 256, 4), ANY, Many(0, 255, 1)),
    (Op::Low8, ANY, ANY, Many(0, 255, 1)),
    (Op::Low8, At(STACK, 0), ANY, Many(0, 255, 1)),
    (Op::Low16, Many(1, 65_535, 2), ANY, Many(1, 65_535, 2)),
    (Op::Low16, Many(0, 65_536, 2), ANY, Many(0, 65_535, 1)),
    (Op::Low16, ANY, ANY, Many(0, 65_535, 1)),
    (Op::Low16, Along(BLOCK, 0, 12, 4), ANY, Many(0, 65_535, 1)),
    // 10: any
    (Op::Xor, Many(0, 3, 1), One(1), ANY),
    (Op::Or, Many(0, 3, 1), One(4), ANY),
    (Op::High8, Many(0, 256, 256), ANY, ANY),
    (Op::Sar, Many(0, 8, 4), One(1), ANY),
    (Op::Mul, Many(0, 3, 1), One(4), ANY),
    (Op::Sub, ANY, ANY, ANY),
];

// At other widths and alignments.
static FURTHER: [(Op, Width, u32, Shape, Shape, Shape); 17] = [
    (Op::Add, Width::B8, 16, One(255), One(1), One(0)),
    (Op::Not, Width::B16, 16, One(0), ANY, One(65_535)),
    (
        Op::Or,
        Width::B16,
        16,
        At(STACK, 4),
        One(65_535),
        One(65_535),
    ),
    (Op::Add, Width::B16, 16, ANY, One(0), ANY),
    (Op::Add, Width::B16, 16, Many(0, 8, 4), One(5), ANY),
    (Op::Sub, Width::B8, 16, Many(0, 4, 2), One(6), ANY),
    (Op::Add, Width::B16, 16, Along(STACK, 0, 8, 4), One(4), ANY),
    (
        Op::And,
        Width::B32,
        4,
        At(STACK, -44),
        One(0xFFFF_FFF0),
        ANY,
    ),
    (
        Op::And,
        Width::B32,
        4096,
        At(STACK, 7),
        One(0xFFFF_F000),
        At(STACK, 0),
    ),
    (
        Op::And,
        Width::B32,
        4096,
        At(STACK, -1),
        One(0xFFFF_F000),
        At(STACK, -4096),
    ),
    (Op::Eq, Width::B16, 16, One(0), At(BLOCK, 0), ANY),
    (Op::Eq, Width::B8, 16, Many(0, 8, 4), One(9), One(0)),
    (
        Op::Ult,
        Width::B16,
        16,
        Many(0, 4, 4),
        Many(5, 9, 4),
        One(1),
    ),
    (Op::Shl, Width::B16, 16, Many(1, 9, 4), One(2), ANY),
    (Op::Shr, Width::B8, 16, Many(4, 12, 4), One(2), ANY),
    (Op::And, Width::B8, 16, ANY, One(7), Many(0, 7, 1)),
    (
        Op::Low8,
        Width::B16,
        16,
        Many(4, 12, 4),
        ANY,
        Many(4, 12, 4),
    ),
];

#[test]
fn operators_by_the_rules_in_order(rt: HostRuntime) {
    for (op, a, b, want) in &EVALUATIONS {
        let got = Interval::eval(*op, Width::B32, value_of(&rt, *a), value_of(&rt, *b), 16);
        assert!(rt; shown(got) == *want, "{op:?} of {a:?} and {b:?} is {got:?}");
    }
    for (op, w, align, a, b, want) in &FURTHER {
        let got = Interval::eval(*op, *w, value_of(&rt, *a), value_of(&rt, *b), *align);
        assert!(rt;
            shown(got) == *want,
            "{op:?} at {w:?} of {a:?} and {b:?} is {got:?}"
        );
    }
}

static ORDER: [(Shape, Shape, bool); 26] = [
    (One(4), One(4), true),
    (One(4), One(5), false),
    (One(4), ANY, true),
    (ANY, One(4), false),
    (ANY, ANY, true),
    (One(4), Many(0, 8, 4), true),
    (One(4), Many(0, 9, 3), false),
    (Many(0, 8, 4), Many(0, 8, 2), true),
    (Many(0, 8, 2), Many(0, 8, 4), false),
    (Many(4, 12, 8), Many(0, 16, 4), true),
    (Many(4, 12, 8), Many(1, 16, 3), false),
    (Many(0, 12, 4), Many(0, 8, 4), false),
    (Many(2, 8, 6), Many(2, 8, 3), true),
    (Many(0, 8, 4), One(4), false),
    (Many(0, 65_535, 1), Many(0, 0xFFFF_FFFF, 1), true),
    (One(4), At(STACK, 4), false),
    (At(STACK, 4), One(4), false),
    (At(STACK, 4), Along(STACK, 0, 8, 4), true),
    (At(STACK, 4), Along(FS, 0, 8, 4), false),
    (Along(STACK, -8, 0, 8), Along(STACK, -8, 0, 4), true),
    (Along(STACK, -8, 0, 4), Along(STACK, -8, 0, 8), false),
    (Along(STACK, -6, 2, 8), Along(STACK, -8, 4, 4), false),
    (At(BLOCK, 12), Along(BLOCK, 0, 12, 1), true),
    (At(BLOCK, 13), Along(BLOCK, 0, 12, 1), false),
    (At(STACK, 4), ANY, true),
    (ANY, At(STACK, 4), false),
];

#[test]
fn a_value_is_below_another_where_every_number_is_one_of_its(rt: HostRuntime) {
    for (a, b, want) in &ORDER {
        assert!(rt;
            value_of(&rt, *a).leq(value_of(&rt, *b)) == *want,
            "{a:?} below {b:?}"
        );
    }
}

// A value with its rank, and what it is raised to.
static RAISED: [(Shape, u8, Shape); 39] = [
    (One(5), 3, Many(1, 65_533, 4)),
    (One(65_535), 3, Many(3, 65_535, 4)),
    (One(65_536), 3, ANY),
    (Many(0, 8, 4), 2, Many(0, 65_535, 1)),
    (Many(1, 65_533, 4), 2, Many(0, 65_535, 1)),
    (Many(0, 65_534, 2), 2, Many(0, 65_535, 1)),
    (Many(0, 65_536, 4), 2, ANY),
    (Many(7, 0xFFFF_FFFF, 1), 2, ANY),
    (At(STACK, -8), 3, Along(STACK, -1_048_576, 4092, 4)),
    (At(STACK, 4092), 3, Along(STACK, -1_048_576, 4092, 4)),
    (At(STACK, 4093), 3, ANY),
    (At(STACK, -1_048_576), 3, Along(STACK, -1_048_576, 4092, 4)),
    (At(GS, -4095), 3, Along(GS, -4095, 4089, 4)),
    (At(BLOCK, 6), 3, Along(BLOCK, 2, 10, 4)),
    (At(BLOCK, 13), 3, ANY),
    (At(PAIR, 1), 3, Along(PAIR, 0, 4, 1)),
    (At(PAIR, 0), 3, Along(PAIR, 0, 4, 4)),
    (At(SIX, 0), 3, Along(SIX, 0, 2, 1)),
    (At(SIX, 1), 3, Along(SIX, 0, 2, 1)),
    (At(WORD, 0), 3, ANY),
    (At(TINY, 0), 3, ANY),
    (At(HUGE, 8), 3, ANY),
    (Along(STACK, -8, 0, 4), 2, Along(STACK, -1_048_576, 4092, 1)),
    (Along(STACK, -8, 4096, 8), 2, ANY),
    (Along(BLOCK, 0, 12, 4), 2, Along(BLOCK, 0, 12, 1)),
    (Along(PAIR, 0, 4, 4), 2, Along(PAIR, 0, 4, 1)),
    (Along(BLOCK, 0, 13, 1), 2, ANY),
    (Along(TINY, 0, 1, 1), 2, ANY),
    (ANY, 0, ANY),
    (Many(3, 65_535, 4), 2, Many(0, 65_535, 1)),
    (Many(0, 65_535, 1), 1, ANY),
    (
        Along(STACK, -1_048_576, 4092, 4),
        2,
        Along(STACK, -1_048_576, 4092, 1),
    ),
    (Along(GS, -4095, 4089, 4), 2, Along(GS, -4096, 4092, 1)),
    (Along(BLOCK, 2, 10, 4), 2, Along(BLOCK, 0, 12, 1)),
    (Along(PAIR, 0, 4, 1), 1, ANY),
    (Along(SIX, 0, 2, 1), 1, ANY),
    (Along(STACK, -1_048_576, 4092, 1), 1, ANY),
    (Along(BLOCK, 0, 12, 1), 1, ANY),
    (Along(GS, -4096, 4092, 1), 1, ANY),
];

#[test]
fn each_value_is_raised_step_by_step_to_any(rt: HostRuntime) {
    for (v, rank, want) in &RAISED {
        let value = value_of(&rt, *v);
        assert!(rt; value.rank() == *rank, "the rank of {v:?}");
        assert!(rt;
            shown(value.raise()) == *want,
            "{v:?} is raised to {:?}",
            value.raise()
        );
        assert!(rt;
            value.leq(value.raise()),
            "{v:?} is below what it is raised to"
        );
        assert!(rt;
            shown(value.raise().raise().raise()) == ANY,
            "three steps from {v:?}"
        );
    }
}

static CUT: [(Shape, u32, Shape); 15] = [
    (ANY, 0, One(0)),
    (ANY, 39, Many(0, 39, 1)),
    (ANY, 0xFFFF_FFFF, Many(0, 0xFFFF_FFFF, 1)),
    (One(5), 5, One(5)),
    (One(5), 9, One(5)),
    (One(5), 4, One(5)),
    (Many(0, 8, 4), 8, Many(0, 8, 4)),
    (Many(0, 8, 4), 7, Many(0, 4, 4)),
    (Many(0, 8, 4), 4, Many(0, 4, 4)),
    (Many(0, 8, 4), 3, One(0)),
    (Many(2, 8, 3), 1, Many(2, 8, 3)),
    (Many(2, 8, 3), 6, Many(2, 5, 3)),
    (Many(0, 0xFFFF_FFFF, 1), 39, Many(0, 39, 1)),
    (Many(1, 0xFFFF_FFFE, 0xFFFF_FFFD), 0xFFFF_FFFD, One(1)),
    (Along(STACK, -8, 0, 4), 0, Along(STACK, -8, 0, 4)),
];

#[test]
fn numbers_are_cut_to_those_at_most_a_bound(rt: HostRuntime) {
    for (v, c, want) in &CUT {
        let got = value_of(&rt, *v).up_to(*c);
        assert!(rt; shown(got) == *want, "{v:?} up to {c} is {got:?}");
    }
}

static INSIDE: [(Region, Shape); 8] = [
    (STACK, Along(STACK, -1_048_576, 4092, 1)),
    (FS, Along(FS, -4096, 4092, 1)),
    (GS, Along(GS, -4096, 4092, 1)),
    (BLOCK, Along(BLOCK, 0, 12, 1)),
    (WORD, At(WORD, 0)),
    (TINY, ANY),
    (LARGE, Along(LARGE, 0, 0x03FF_FFFC, 1)),
    (HUGE, ANY),
];

#[test]
fn makers_numbers_and_reaches(rt: HostRuntime) {
    for (region, want) in &INSIDE {
        let got = Interval::inside(*region);
        assert!(rt; shown(got) == *want, "inside {region:?} is {got:?}");
    }
    assert!(rt; shown(Interval::number(0xFFFF_FFFF)) == One(0xFFFF_FFFF));
    assert!(rt; shown(Interval::place(STACK, -0x8000_0000)) == At(STACK, -0x8000_0000));
    assert!(rt; made(One(7)).number_of() == Some(7));
    assert!(rt; made(Many(7, 9, 2)).number_of() == None);
    assert!(rt; made(At(STACK, 7)).number_of() == None);
    assert!(rt; Interval::any().number_of() == None);
    assert!(rt; made(Many(7, 9, 2)).reach() == Reach::Number { low: 7, high: 9 });
    assert!(rt;
        made(Along(FS, -8, 4, 6)).reach()
            == Reach::Place {
                region: FS,
                low: -8,
                high: 4
            }
    );
    assert!(rt; Interval::any().reach() == Reach::Anywhere);
}

#[test]
fn bounds_and_strides_that_are_not_well_formed_make_no_value(rt: HostRuntime) {
    assert!(rt; span(9, 8, 1) == Interval::Any);
    assert!(rt; span(0, 8, 3) == Interval::Any);
    assert!(rt; span(0, 8, 0) == Interval::Any);
    assert!(rt; shown(span(8, 8, 3)) == One(8));
    assert!(rt; place_span(STACK, 0x7FFF_FFFC, 0x8000_0000, 4) == Interval::Any);
    assert!(rt; place_span(STACK, -0x8000_0001, 0, 1) == Interval::Any);
}
