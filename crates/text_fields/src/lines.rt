ghost use Rattle.std.specs.Prelude.{◌≡◌, ◌<◌, ◌==◌, ◌∷◌, [], length, position, false, Ok, IfSome, MatchOption, MatchResult, option_map};
ghost use Rattle.std.specs.List.{slice_split};
ghost use Rattle.text_fields.specs.Lines.{Grammar, IsFaultOf, IsRefusalOf, cut_at, end_fault, fields, lines, read_text};

use crate::{END, LineFault, LineRefusal, TextFault};
use std::alloc::Global;

/// What reads a kind of text, a line at a time.
pub trait LineReader {
    ghost grammar: { Grammar Self };

    /// Takes in the next line, which is given without its 0A; refuses it exactly where the grammar does, with the kind of
    /// that fault, or for want of memory.
    fn read_line(&mut self, alloc: Global, line: &[u8]) -> Result<(), LineRefusal>
        requires { grammar.is_ended self.old ≡ false }
        ensures { MatchResult result (λ _. grammar.step self.old line.now ≡ Ok self.new) (λ e. IsRefusalOf (grammar.step self.old line.now) e) };

    /// Whether the line that ends the text was read.
    fn is_ended(&self) -> bool
        ensures { result ≡ grammar.is_ended self.now };
}

fn place_of(text: &[u8], byte: u8) -> Option<usize>
    ensures { result ≡ position (λ b. b == byte) text.now }
{
    text.iter().position(|b| *b == byte)
}

/// What stands before the first of these bytes and what behind it, where there is one.
pub fn cut_at(separator: u8, text: &[u8]) -> Option<(&[u8], &[u8])>
    ensures cut { option_map (λ p. (p.0.now, p.1.now)) result ≡ cut_at separator text.now }
    ensures parts { MatchOption result (slice_split (λ b. b == separator) text.now ≡ text.now ∷ []) (λ p. slice_split (λ b. b == separator) text.now ≡ p.0.now ∷ slice_split (λ b. b == separator) p.1.now) }
    ensures shorter { IfSome result (λ p. length p.1.now < length text.now) }
{
    let at = place_of(text, separator)?;
    Some((&text[..at], &text[at + 1..]))
}

/// The first whole line of a text, without its 0A, and what stands behind it; None where no 0A is left.
#[tactic(auto, unfolding(crate::specs::Lines::lines))]
pub fn split_line(text: &[u8]) -> Option<(&[u8], &[u8])>
    ensures parts { MatchOption result (lines text.now ≡ text.now ∷ []) (λ p. lines text.now ≡ p.0.now ∷ lines p.1.now) }
    ensures shorter { IfSome result (λ p. length p.1.now < length text.now) }
{
    cut_at(b'\n', text)
}

/// The first field of a line and what stands behind its space; None where the line is its only field.
#[tactic(auto, unfolding(crate::specs::Lines::fields))]
pub fn split_field(line: &[u8]) -> Option<(&[u8], &[u8])>
    ensures { MatchOption result (fields line.now ≡ line.now ∷ []) (λ p. fields line.now ≡ p.0.now ∷ fields p.1.now) }
{
    cut_at(b' ', line)
}

/// Reads a text from its first line on, and gives what its lines make; refuses it exactly at its first bad line.
pub fn read_lines<R: LineReader + Drop>(
    alloc: Global,
    mut reader: R,
    bytes: &[u8],
) -> Result<R, TextFault>
    ensures { MatchResult result (λ read. read_text R.grammar reader bytes.now ≡ Ok read) (λ fault. IsFaultOf (read_text R.grammar reader bytes.now) fault) }
{
    let mut rest = bytes;
    let mut number = 1;
    while let Some((line, behind)) = split_line(rest) {
        if reader.is_ended() {
            return Err(end_fault(number));
        }
        match reader.read_line(alloc, line) {
            Ok(()) => {}
            Err(LineRefusal::Kind(kind)) => {
                return Err(TextFault::Line(LineFault { line: number, kind }));
            }
            Err(LineRefusal::Memory) => return Err(TextFault::Memory),
        }
        number += 1;
        rest = behind;
    }
    if !rest.is_empty() {
        return Err(end_fault(number));
    }
    if !reader.is_ended() {
        return Err(end_fault(number));
    }
    Ok(reader)
}

fn end_fault(line: u64) -> TextFault
    ensures { result ≡ TextFault.Line (end_fault line) }
{
    TextFault::Line(LineFault { line, kind: END })
}
