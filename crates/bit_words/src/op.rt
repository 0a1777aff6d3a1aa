ghost use Rattle.std.specs.Prelude.{◌≡◌, ◌*◌, ◌*ℤ◌, ◌/◌, ◌^◌, ◌<◌, ◌≤◌};
ghost use Rattle.bit_words.specs.Operators.{apply_op, highest_bit, lowest_bit, rotated};
ghost use Rattle.bit_words.specs.Width.{bits_of, modulo};

use crate::width::Width;

/// An operator of the processor's arithmetic. `Low8`, `High8`, `Low16`, the three `Put` operators and `Swap` are meant for 32 bits; their values at other widths are cut to the width.
#[derive(Clone, Copy, Debug)]
pub enum Op {
    Add,
    Sub,
    And,
    Or,
    Xor,
    Not,
    Neg,
    /// The low half of the product.
    Mul,
    /// The high half of the product of unsigned numbers.
    HighU,
    /// The high half of the product of signed numbers.
    HighS,
    Shl,
    Shr,
    Sar,
    Rol,
    Ror,
    /// 1 where the operands are equal, else 0.
    Eq,
    /// 1 where the first operand is below the second, both unsigned, else 0.
    Ult,
    Low8,
    High8,
    Low16,
    /// The first operand with its low byte replaced by that of the second.
    PutLow8,
    PutHigh8,
    PutLow16,
    /// The low byte, extended by its sign.
    Sign8,
    Sign16,
    /// The four bytes in reverse.
    Swap,
    /// The place of the least set bit, 0 where none is set.
    LowBit,
    /// The place of the greatest set bit, 0 where none is set.
    HighBit,
}

/// The value of an operator. An operand that is no count of places is first cut to the width; an operator of one operand ignores `b`.
#[tactic(auto, unfolding(crate::specs::Operators::apply_op, crate::specs::Operators::formula))]
pub fn apply(op: Op, w: Width, a: u32, b: u32) -> u32
    ensures { result ≡ apply_op op w a b }
{
    let x = w.cut(a);
    let y = w.cut(b);
    match op {
        Op::Add => w.cut(x.wrapping_add(y)),
        Op::Sub => w.cut(x.wrapping_sub(y)),
        Op::And => x & y,
        Op::Or => x | y,
        Op::Xor => x ^ y,
        Op::Not => w.ones() - x,
        Op::Neg => w.low(w.size() - u64::from(x)),
        Op::Mul => w.low(u64::from(x) * u64::from(y)),
        Op::HighU => high_unsigned(w, x, y),
        Op::HighS => high_of(w, product_of(w.signed(x), w.signed(y))),
        Op::Shl => w.low(u64::from(x) << b.min(w.bits())),
        Op::Shr => (u64::from(x) >> b.min(w.bits())) as u32,
        Op::Sar => w.word(i64::from(w.signed(x)) >> b.min(w.bits())),
        Op::Rol => rotated_left(w, x, b % w.bits()),
        Op::Ror => rotated_left(w, x, w.bits() - b % w.bits()),
        Op::Eq => u32::from(x == y),
        Op::Ult => u32::from(x < y),
        Op::Low8 => x % 0x100,
        Op::High8 => x / 0x100 % 0x100,
        Op::Low16 => x % 0x1_0000,
        Op::PutLow8 => w.cut(x - x % 0x100 + y % 0x100),
        Op::PutHigh8 => w.cut(x - x % 0x1_0000 + y % 0x100 * 0x100 + x % 0x100),
        Op::PutLow16 => w.cut(x - x % 0x1_0000 + y % 0x1_0000),
        Op::Sign8 => w.word(i64::from(Width::B8.signed(x))),
        Op::Sign16 => w.word(i64::from(Width::B16.signed(x))),
        Op::Swap => w.cut(x.swap_bytes()),
        Op::LowBit => lowest_bit(x),
        Op::HighBit => highest_bit(x),
    }
}

// The high half of the product of two words.
fn high_unsigned(w: Width, x: u32, y: u32) -> u32
    requires left { x < 2 ^ bits_of w }
    requires right { y < 2 ^ bits_of w }
    ensures { result ≡ x * y / 2 ^ bits_of w }
{
    ((u64::from(x) * u64::from(y)) >> w.bits()) as u32
}

// The high half of a product of two signed words, of twice the width.
fn high_of(w: Width, product: i64) -> u32
    ensures { result ≡ modulo product (2 ^ (2 * bits_of w)) / 2 ^ bits_of w }
{
    w.low(product.cast_unsigned() >> w.bits())
}

fn product_of(x: i32, y: i32) -> i64
    ensures { result ≡ x *ℤ y }
{
    i64::from(x) * i64::from(y)
}

// A word rotated left by at most its width.
fn rotated_left(w: Width, x: u32, count: u32) -> u32
    requires word { x < 2 ^ bits_of w }
    requires within { count ≤ bits_of w }
    ensures { result ≡ rotated (bits_of w) x count }
{
    let stay = w.bits() - count;
    let low = u64::from(x) % (1 << stay);
    let high = u64::from(x) >> stay;
    ((low << count) + high) as u32
}

// The place of the least set bit.
fn lowest_bit(x: u32) -> u32
    ensures { result ≡ lowest_bit x }
{
    if x == 0 { 0 } else { x.trailing_zeros() }
}

// The place of the greatest set bit.
fn highest_bit(x: u32) -> u32
    ensures { result ≡ highest_bit x }
{
    if x == 0 { 0 } else { 31 - x.leading_zeros() }
}
