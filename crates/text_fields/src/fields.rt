ghost use Rattle.std.specs.Prelude.{◌≡◌, ◌∷◌, [], MatchOption, length, ◌==◌};
ghost use Rattle.text_fields.specs.Fields.{Lacks, Reads, byte_of, only_word, word_of};
ghost use Rattle.text_fields.specs.Lines.{fields};

use crate::{parse_hex2, parse_hex8, split_field};
use std::marker::Model;

/// The fields of a line that are left to read, which contracts see as their list.
#[derive(Drop)]
pub struct Fields<'a> {
    rest: &'a [u8],
    ended: bool,
}

impl<'a> Model for Fields<'a> {
    ghost use Rattle.std.specs.Prelude.{ℕ, List};
    ghost use Rattle.text_fields.specs.Fields.{fields_left};

    ghost Value = { List (List ℕ) };

    ghost view = { λ f. fields_left f.ended f.rest.now };
}

impl<'a> Fields<'a> {
    /// All fields of a line.
    pub fn of(line: &'a [u8]) -> Fields<'a>
        ensures { result ≡ fields line.now }
    {
        Fields {
            rest: line,
            ended: false,
        }
    }

    /// The next field.
    pub fn next_field(&mut self) -> Option<&'a [u8]>
        ensures { MatchOption result ((self.old ≡ []) × (self.new ≡ [])) (λ field. self.old ≡ field.now ∷ self.new) }
    {
        if self.ended {
            return None;
        }
        let line = self.rest;
        match split_field(line) {
            Some((field, behind)) => {
                self.rest = behind;
                Some(field)
            }
            None => {
                self.ended = true;
                Some(line)
            }
        }
    }

    /// Whether no field was left; takes the next one off.
    pub fn is_done(&mut self) -> bool
        ensures { result ≡ (length self.old == 0) }
    {
        self.next_field().is_none()
    }

    /// The next field's byte, where two digits write one.
    pub fn next_byte(&mut self) -> Option<u8>
        ensures { MatchOption result (Lacks byte_of self.old) (λ b. Reads byte_of self.old b self.new) }
    {
        parse_hex2(self.next_field()?)
    }

    /// The next field's word, where eight digits write one.
    pub fn next_word(&mut self) -> Option<u32>
        ensures { MatchOption result (Lacks word_of self.old) (λ n. Reads word_of self.old n self.new) }
    {
        parse_hex8(self.next_field()?)
    }

    /// The only field's word, where there is no other and eight digits write one.
    #[tactic(auto, unfolding(crate::specs::Fields::only_word), using(crate::proofs::FieldFacts::then_reads, crate::proofs::FieldFacts::then_lacks))]
    pub fn only_word(mut self) -> Option<u32>
        ensures { result ≡ only_word self.entry }
    {
        let n = self.next_word()?;
        if self.is_done() { Some(n) } else { None }
    }

    /// What is left of the line, where a field is left.
    pub fn rest(&self) -> Option<&'a [u8]>
        ensures { MatchOption result (self.now ≡ []) (λ rest. self.now ≡ fields rest.now) }
    {
        if self.ended { None } else { Some(self.rest) }
    }
}
