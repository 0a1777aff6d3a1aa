ghost use Rattle.std.specs.Prelude.{◌≡◌, ◌<◌, ◌/◌, ◌%◌, ◌++◌, decimal, OnOk, OnErr};
ghost use Rattle.text_fields.specs.Fields.{bool_text};
ghost use Rattle.text_fields.specs.Hex.{hex_digit, hex2, hex8, hex_text};

use bit_words::NoMemory;
use itoa::Buffer;

/// The upper-case hexadecimal digit of a number below 16.
#[tactic(auto, unfolding(crate::specs::Hex::hex_digit))]
pub fn hex_digit(d: u8) -> u8
    requires { d < 16 }
    ensures value { result ≡ hex_digit d }
    ensures ascii { result < 128 }
{
    if d < 10 { b'0' + d } else { b'A' - 10 + d }
}

/// Appends the bytes. After want of memory nothing is appended, here and in each other writer.
pub fn push_bytes(out: &mut Vec<u8>, bytes: &[u8]) -> Result<(), NoMemory>
    ensures ok { OnOk result (out.new.items ≡ out.old.items ++ bytes.now) }
    ensures err { OnErr result (out.new.items ≡ out.old.items) }
{
    out.extend_from_slice(bytes)?;
    Ok(())
}

/// Appends the digit 1 of a truth, or 0.
pub fn push_bool(out: &mut Vec<u8>, b: bool) -> Result<(), NoMemory>
    ensures ok { OnOk result (out.new.items ≡ out.old.items ++ bool_text b) }
    ensures err { OnErr result (out.new.items ≡ out.old.items) }
{
    push_bytes(out, if b { b"1" } else { b"0" })
}

/// Appends the two upper-case hexadecimal digits of a byte.
#[tactic(auto, using(crate::proofs::HexFacts::hex2_places))]
pub fn push_hex2(out: &mut Vec<u8>, b: u8) -> Result<(), NoMemory>
    ensures ok { OnOk result (out.new.items ≡ out.old.items ++ hex2 b) }
    ensures err { OnErr result (out.new.items ≡ out.old.items) }
{
    push_bytes(out, &[hex_digit(b / 16 % 16), hex_digit(b % 16)])
}

/// Appends the eight upper-case hexadecimal digits of a word.
#[tactic(auto, using(crate::proofs::HexFacts::hex8_places))]
pub fn push_hex8(out: &mut Vec<u8>, n: u32) -> Result<(), NoMemory>
    ensures ok { OnOk result (out.new.items ≡ out.old.items ++ hex8 n) }
    ensures err { OnErr result (out.new.items ≡ out.old.items) }
{
    push_bytes(
        out,
        &[
            digit_at(n, 0x1000_0000),
            digit_at(n, 0x100_0000),
            digit_at(n, 0x10_0000),
            digit_at(n, 0x1_0000),
            digit_at(n, 0x1000),
            digit_at(n, 0x100),
            digit_at(n, 0x10),
            digit_at(n, 1),
        ],
    )
}

fn digit_at(n: u32, weight: u32) -> u8
    requires { 0 < weight }
    ensures { result ≡ hex_digit (n / weight % 16) }
{
    hex_digit((n / weight % 16) as u8)
}

/// Appends two digits for each byte, without spaces.
#[tactic(auto, unfolding(crate::specs::Hex::hex_text))]
pub fn push_hex_bytes(out: &mut Vec<u8>, bytes: &[u8]) -> Result<(), NoMemory>
    ensures ok { OnOk result (out.new.items ≡ out.old.items ++ hex_text bytes.now) }
    ensures err { OnErr result (out.new.items ≡ out.old.items) }
{
    let start = out.len();
    for b in bytes {
        if let Err(e) = push_hex2(out, *b) {
            out.truncate(start);
            return Err(e);
        }
    }
    Ok(())
}

/// Appends the number in decimal, without leading zeros.
pub fn push_decimal(out: &mut Vec<u8>, n: u64) -> Result<(), NoMemory>
    ensures ok { OnOk result (out.new.items ≡ out.old.items ++ decimal n) }
    ensures err { OnErr result (out.new.items ≡ out.old.items) }
{
    let mut digits = Buffer::new();
    push_bytes(out, digits.format(n).as_bytes())
}
