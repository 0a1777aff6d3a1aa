ghost use Rattle.std.specs.Prelude.{◌≡◌};
ghost use Rattle.x86_semantics.specs.Registers.{byte_part, put_byte_part, upper_register};

use bit_words::{Op, Width};
use memory_map::EDX;

/// The number by which instructions name AH, a register of 8 bits.
pub const AH: u8 = 4;

/// The operator that reads a register of 8 bits from the register that holds it.
pub fn byte_part(r: u8) -> Op
    ensures { result ≡ byte_part r }
{
    if r < 4 { Op::Low8 } else { Op::High8 }
}

/// The operator that writes a register of 8 bits.
pub fn put_byte_part(r: u8) -> Op
    ensures { result ≡ put_byte_part r }
{
    if r < 4 { Op::PutLow8 } else { Op::PutHigh8 }
}

/// Where products and dividends have their upper half: AH, DX or EDX.
pub fn upper_register(w: Width) -> u8
    ensures { result ≡ upper_register w }
{
    match w {
        Width::B8 => AH,
        Width::B16 => EDX,
        Width::B32 => EDX,
    }
}
