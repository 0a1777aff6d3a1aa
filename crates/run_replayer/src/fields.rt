ghost use Rattle.std.specs.Prelude.{◌≡◌, ◌<◌, ◌≤◌, ◌^◌, IfOk, IfSome, MatchOption, length};
ghost use Rattle.run_replayer.specs.Fields.{bases_of, bit_of, bits_of, choice_of, end_of, ending_of, fill_bytes_of, fill_of, fits_fill, flags_of, regs_of, six_flags_of, step_of};
ghost use Rattle.text_fields.specs.Fields.{Lacks, Reads, bool_of};

use crate::print::end_word;
use crate::six_flags::SixFlags;
use crate::{EndWord, RunStep};
use bit_words::NoMemory;
use memory_map::{Bytes, Choice, Fill, Items};
use std::alloc::Global;
use text_fields::{Fields, parse_bool, parse_hex_bytes};

// The next field's flags, where it has six.
fn next_flags(fields: &mut Fields) -> Option<SixFlags>
    ensures { MatchOption result (Lacks flags_of fields.old) (λ f. Reads flags_of fields.old f fields.new) }
{
    flags_of(fields.next_field()?)
}

// The next field's truth.
fn next_truth(fields: &mut Fields) -> Option<bool>
    ensures { MatchOption result (Lacks bool_of fields.old) (λ b. Reads bool_of fields.old b fields.new) }
{
    parse_bool(fields.next_field()?)
}

// The next field's word of an end.
fn next_end(fields: &mut Fields) -> Option<EndWord>
    ensures { MatchOption result (Lacks end_of fields.old) (λ end. Reads end_of fields.old end fields.new) }
{
    end_of(fields.next_field()?)
}

// The next field's bytes of a fill.
fn next_fill_bytes(alloc: Global, fields: &mut Fields) -> Result<Option<Bytes>, NoMemory>
    ensures { IfOk result (λ read. MatchOption read (Lacks fill_bytes_of fields.old) (λ bytes. Reads fill_bytes_of fields.old bytes fields.new)) }
{
    match fields.next_field() {
        Some(field) => fill_bytes_of(alloc, field),
        None => Ok(None),
    }
}

// The bit that a digit writes.
fn bit_of(c: u8) -> Option<u8>
    ensures value { result ≡ bit_of c }
    ensures bit { IfSome result (λ bit. bit < 2) }
{
    match c {
        b'0' => Some(0),
        b'1' => Some(1),
        _ => None,
    }
}

// The number whose bits are these digits, bit 0 first.
fn bits_of(digits: &[u8]) -> Option<u8>
    requires { length digits.now ≤ 6 }
    ensures value { result ≡ bits_of digits.now }
    ensures small { IfSome result (λ n. n < 2 ^ length digits.now) }
{
    match digits.split_first() {
        None => Some(0),
        Some((c, others)) => {
            let bit = bit_of(*c)?;
            let rest = bits_of(others)?;
            Some(bit + 2 * rest)
        }
    }
}

fn flags_of(field: &[u8]) -> Option<SixFlags>
    ensures { result ≡ flags_of field.now }
{
    if field.len() != 6 {
        return None;
    }
    Some(SixFlags::new(bits_of(field)?))
}

const END_WORDS: [EndWord; 6] = [
    EndWord::Steps,
    EndWord::Exited,
    EndWord::Faulted,
    EndWord::NotListed,
    EndWord::NoStub,
    EndWord::BadChoice,
];

fn end_of(field: &[u8]) -> Option<EndWord>
    ensures { result ≡ end_of field.now }
{
    END_WORDS
        .iter()
        .copied()
        .find(|end| end_word(*end) == field)
}

/// The most bytes of a fill.
const LONGEST_FILL: usize = 1024;

// Whether a fill may have these bytes.
fn fits_fill(bytes: &[u8]) -> bool
    ensures { result ≡ fits_fill bytes.now }
{
    1 <= bytes.len() && bytes.len() <= LONGEST_FILL
}

fn fill_bytes_of(alloc: Global, field: &[u8]) -> Result<Option<Bytes>, NoMemory>
    ensures { IfOk result (λ read. read ≡ fill_bytes_of field.now) }
{
    match parse_hex_bytes(alloc, field)? {
        Some(bytes) if fits_fill(&bytes) => Ok(Some(Bytes::from_vec(bytes))),
        _ => Ok(None),
    }
}

/// EAX ECX EDX EBX ESP EBP ESI EDI.
#[tactic(auto, unfolding(crate::specs::Fields::regs_of), using(text_fields::proofs::FieldFacts::then_reads, text_fields::proofs::FieldFacts::then_lacks))]
pub fn regs_of(mut fields: Fields) -> Option<[u32; 8]>
    ensures { result ≡ regs_of fields.entry }
{
    let regs = [
        fields.next_word()?,
        fields.next_word()?,
        fields.next_word()?,
        fields.next_word()?,
        fields.next_word()?,
        fields.next_word()?,
        fields.next_word()?,
        fields.next_word()?,
    ];
    if fields.is_done() { Some(regs) } else { None }
}

/// Six flags in one field.
#[tactic(auto, unfolding(crate::specs::Fields::six_flags_of), using(text_fields::proofs::FieldFacts::then_reads, text_fields::proofs::FieldFacts::then_lacks))]
pub fn six_flags_of(mut fields: Fields) -> Option<SixFlags>
    ensures { result ≡ six_flags_of fields.entry }
{
    let flags = next_flags(&mut fields)?;
    if fields.is_done() { Some(flags) } else { None }
}

/// FS GS.
#[tactic(auto, unfolding(crate::specs::Fields::bases_of), using(text_fields::proofs::FieldFacts::then_reads, text_fields::proofs::FieldFacts::then_lacks))]
pub fn bases_of(mut fields: Fields) -> Option<(u32, u32)>
    ensures { result ≡ bases_of fields.entry }
{
    let fs = fields.next_word()?;
    let gs = fields.next_word()?;
    if fields.is_done() {
        Some((fs, gs))
    } else {
        None
    }
}

/// An address and the bytes from there on.
#[tactic(auto, unfolding(crate::specs::Fields::fill_of), using(text_fields::proofs::FieldFacts::then_reads, text_fields::proofs::FieldFacts::then_lacks))]
pub fn fill_of(alloc: Global, mut fields: Fields) -> Result<Option<Fill>, NoMemory>
    ensures { IfOk result (λ read. read ≡ fill_of fields.entry) }
{
    let Some(at) = fields.next_word() else {
        return Ok(None);
    };
    let Some(bytes) = next_fill_bytes(alloc, &mut fields)? else {
        return Ok(None);
    };
    if fields.is_done() {
        Ok(Some(Fill { at, bytes }))
    } else {
        Ok(None)
    }
}

/// FLAGS EAX ECX EDX BASE FAILS, without fills.
#[tactic(auto, unfolding(crate::specs::Fields::choice_of), using(text_fields::proofs::FieldFacts::then_reads, text_fields::proofs::FieldFacts::then_lacks))]
pub fn choice_of(alloc: Global, mut fields: Fields) -> Option<Choice>
    ensures { result ≡ choice_of fields.entry }
{
    let flags = fields.next_byte()?;
    let eax = fields.next_word()?;
    let ecx = fields.next_word()?;
    let edx = fields.next_word()?;
    let base = fields.next_word()?;
    let fails = next_truth(&mut fields)?;
    if !fields.is_done() {
        return None;
    }
    Some(Choice {
        flags,
        eax,
        ecx,
        edx,
        base,
        fails,
        fill: Items::from_vec(Vec::new(alloc)),
    })
}

/// FROM TO and a choice.
#[tactic(auto, unfolding(crate::specs::Fields::step_of), using(text_fields::proofs::FieldFacts::then_reads, text_fields::proofs::FieldFacts::then_lacks))]
pub fn step_of(alloc: Global, mut fields: Fields) -> Option<RunStep>
    ensures { result ≡ step_of fields.entry }
{
    let from = fields.next_word()?;
    let to = fields.next_word()?;
    let choice = choice_of(alloc, fields)?;
    Some(RunStep { from, to, choice })
}

/// The word of a record's end.
#[tactic(auto, unfolding(crate::specs::Fields::ending_of), using(text_fields::proofs::FieldFacts::then_reads, text_fields::proofs::FieldFacts::then_lacks))]
pub fn ending_of(mut fields: Fields) -> Option<EndWord>
    ensures { result ≡ ending_of fields.entry }
{
    let end = next_end(&mut fields)?;
    if fields.is_done() { Some(end) } else { None }
}
