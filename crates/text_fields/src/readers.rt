ghost use Rattle.std.specs.Prelude.{◌≡◌, ℕ, Some, ◌<◌, ◌≤◌, ◌^◌, ◌↔◌, length, option_map, IfOk, IfSome, IfNone, SomeIff, decimal};
ghost use Rattle.std.specs.Char.{is_ascii_digit};
ghost use Rattle.std.specs.List.{list_all};
ghost use Rattle.std.specs.Str.{str_to_ascii_uppercase};
ghost use Rattle.std.specs.Str.Parse.{IsNumeral, digits_value};
ghost use Rattle.text_fields.specs.Decimal.{decimal_below, decimal_is, is_decimal};
ghost use Rattle.text_fields.specs.Fields.{bool_of};
ghost use Rattle.text_fields.specs.Hex.{digit_number, hex2, hex8, hex_bytes, hex_number, hex_text, IsHexText, number_after};

use bit_words::NoMemory;
use std::alloc::Global;

// The number of an upper-case digit.
#[tactic(auto, unfolding(crate::specs::Hex::digit_number))]
fn digit_number(c: u8) -> Option<u8>
    ensures value { result ≡ digit_number c }
    ensures within { IfSome result (λ d. d < 16) }
{
    match c {
        b'0'..=b'9' => Some(c - b'0'),
        b'A'..=b'F' => Some(c - b'A' + 10),
        _ => None,
    }
}

// The number that at most eight upper-case digits write.
fn parse_hex(text: &[u8]) -> Option<u32>
    requires { length text.now ≤ 8 }
    ensures value { result ≡ number_after 0 text.now }
    ensures within { IfSome result (λ n. n < 16 ^ length text.now) }
{
    let mut n = 0u32;
    for c in text {
        let digit = digit_number(*c)?;
        n = n * 16 + u32::from(digit);
    }
    Some(n)
}

/// The byte that exactly two upper-case hexadecimal digits write; None for any other text.
pub fn parse_hex2(text: &[u8]) -> Option<u8>
    ensures value { result ≡ hex_number 2 text.now }
    ensures digits { (b : ℕ) → b < 2 ^ 8 → (result ≡ Some b) ↔ (text.now ≡ hex2 b) }
{
    if text.len() != 2 {
        return None;
    }
    match parse_hex(text) {
        Some(b) => Some(b as u8),
        None => None,
    }
}

/// The word that exactly eight upper-case hexadecimal digits write; None for any other text.
pub fn parse_hex8(text: &[u8]) -> Option<u32>
    ensures value { result ≡ hex_number 8 text.now }
    ensures digits { (n : ℕ) → n < 2 ^ 32 → (result ≡ Some n) ↔ (text.now ≡ hex8 n) }
{
    if text.len() != 8 {
        return None;
    }
    parse_hex(text)
}

/// The word that exactly eight hexadecimal digits write, of either case each; None for any other text.
pub fn parse_hex8_any_case(text: &[u8]) -> Option<u32>
    ensures { (n : ℕ) → n < 2 ^ 32 → (result ≡ Some n) ↔ (str_to_ascii_uppercase text.now ≡ hex8 n) }
{
    if text.len() != 8 {
        return None;
    }
    let mut upper = [0; 8];
    upper.copy_from_slice(text);
    upper.make_ascii_uppercase();
    parse_hex8(&upper)
}

// The number that one or more decimal digits write, where it is below 2^64.
fn decimal_value(text: &[u8]) -> Option<u64>
    ensures { SomeIff result (IsNumeral 10 text.now × (digits_value 10 text.now < 2 ^ 64)) (digits_value 10 text.now) }
{
    if text.first() == Some(&b'+') {
        return None;
    }
    str::from_utf8(text).ok()?.parse::<u64>().ok()
}

/// The number below 2^32 that one to ten decimal digits write, with leading zeros or without; None for any other text.
pub fn parse_number(text: &[u8]) -> Option<u32>
    ensures { SomeIff result (IsNumeral 10 text.now × (length text.now ≤ 10) × (digits_value 10 text.now < 2 ^ 32)) (digits_value 10 text.now) }
{
    if text.len() > 10 {
        return None;
    }
    u32::try_from(decimal_value(text)?).ok()
}

fn is_digit(c: u8) -> bool
    ensures { result ≡ is_ascii_digit c }
{
    c.is_ascii_digit()
}

fn are_digits(text: &[u8]) -> bool
    ensures { result ≡ list_all is_ascii_digit text.now }
{
    text.iter().all(|c| is_digit(*c))
}

fn is_decimal(text: &[u8]) -> bool
    ensures { result ≡ is_decimal text.now }
{
    match text {
        [] => false,
        [digit] => is_digit(*digit),
        [first, ..] => *first != b'0' && are_digits(text),
    }
}

/// The number below 2^64 whose decimal text, without leading zeros, this is; None for any other text.
pub fn parse_decimal(text: &[u8]) -> Option<u64>
    ensures value { result ≡ decimal_below (2 ^ 64) text.now }
    ensures digits { (n : ℕ) → n < 2 ^ 64 → (result ≡ Some n) ↔ (text.now ≡ decimal n) }
{
    if !is_decimal(text) {
        return None;
    }
    decimal_value(text)
}

/// Whether a decimal text, which may be of any length, writes this number; None for any other text.
pub fn decimal_is(text: &[u8], n: u64) -> Option<bool>
    ensures { result ≡ decimal_is n text.now }
{
    if !is_decimal(text) {
        return None;
    }
    match decimal_value(text) {
        Some(m) => Some(m == n),
        None => Some(false),
    }
}

/// The truth that a digit 0 or 1 writes; None for any other text.
pub fn parse_bool(text: &[u8]) -> Option<bool>
    ensures { result ≡ bool_of text.now }
{
    if text == b"1".as_slice() {
        Some(true)
    } else if text == b"0".as_slice() {
        Some(false)
    } else {
        None
    }
}

/// The bytes that upper-case hexadecimal digits write, two for each and without spaces; None for any other text.
pub fn parse_hex_bytes(alloc: Global, text: &[u8]) -> Result<Option<Vec<u8>>, NoMemory>
    ensures value { IfOk result (λ read. option_map (λ bytes. bytes.items) read ≡ hex_bytes text.now) }
    ensures some { IfOk result (λ read. IfSome read (λ bytes. text.now ≡ hex_text bytes.items)) }
    ensures none { IfOk result (λ read. IfNone read (¬ IsHexText text.now)) }
{
    let mut bytes = Vec::new(alloc);
    let mut rest = text;
    while !rest.is_empty() {
        if rest.len() < 2 {
            return Ok(None);
        }
        let (digits, others) = rest.split_at(2);
        match parse_hex2(digits) {
            Some(b) => bytes.push(b)?,
            None => return Ok(None),
        }
        rest = others;
    }
    Ok(Some(bytes))
}
