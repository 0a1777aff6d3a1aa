// The fields of line texts: bytes and words in hexadecimal, numbers in decimal, and the first line that breaks a text's rules.
// It stands on bit_words.
// Its contract: each writer appends exactly its text, each reader gives exactly the number that its text writes, and a text is refused exactly at its first bad line.
#![tactic(auto)]

mod fields;
mod line_fault;
mod lines;
mod readers;
#[cfg(test)]
mod tests;
mod writers;

pub use fields::Fields;
pub use line_fault::{
    CONTENT, COUNT, END, FIELD, HEADER, LineFault, LineRefusal, ORDER, TextFault, WORD,
};
pub use lines::{LineReader, cut_at, read_lines, split_field, split_line};
pub use readers::{
    decimal_is, parse_bool, parse_decimal, parse_hex_bytes, parse_hex2, parse_hex8,
    parse_hex8_any_case, parse_number,
};
pub use writers::{
    hex_digit, push_bool, push_bytes, push_decimal, push_hex_bytes, push_hex2, push_hex8,
};
