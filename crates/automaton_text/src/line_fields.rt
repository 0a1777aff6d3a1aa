ghost use Rattle.std.specs.Prelude.{◌≡◌, IfOk, option_map};
ghost use Rattle.text_fields.specs.Lines.{fields};
ghost use Rattle.automaton_text.specs.Reading.{code_fields, end_fields, import_fields, location_fields, mark_fields, name_of, row_fields, row_of, suffix_fields};

use crate::OpenMark;
use crate::causes::cause_of;
use bit_words::NoMemory;
use memory_map::Name;
use std::alloc::Global;
use text_fields::{Fields, parse_decimal, parse_hex_bytes};

fn name_of(alloc: Global, field: &[u8]) -> Result<Option<Name>, NoMemory>
    ensures { IfOk result (λ read. read ≡ name_of field.now) }
{
    Ok(Name::new(Vec::from_slice(alloc, field)?))
}

// A name or a dash, where a field is left.
fn suffix_fields(alloc: Global, mut fields: Fields) -> Result<Option<Option<Name>>, NoMemory>
    ensures { IfOk result (λ read. read ≡ suffix_fields fields.entry) }
{
    let Some(field) = fields.next_field() else {
        return Ok(Some(None));
    };
    let Some(name) = name_of(alloc, field)? else {
        return Ok(None);
    };
    if fields.is_done() {
        Ok(Some(Some(name)))
    } else {
        Ok(None)
    }
}

/// An address, and a name or a dash behind it.
#[tactic(auto, unfolding(crate::specs::Reading::location_fields), using(text_fields::proofs::FieldFacts::then_reads, text_fields::proofs::FieldFacts::then_lacks))]
pub fn location_fields(
    alloc: Global,
    mut fields: Fields,
) -> Result<Option<(u32, Option<Name>)>, NoMemory>
    ensures { IfOk result (λ read. read ≡ location_fields fields.entry) }
{
    let Some(at) = fields.next_word() else {
        return Ok(None);
    };
    match suffix_fields(alloc, fields)? {
        Some(suffix) => Ok(Some((at, suffix))),
        None => Ok(None),
    }
}

/// The ends of an edge, and the fields behind them.
#[tactic(auto, unfolding(crate::specs::Reading::end_fields), using(text_fields::proofs::FieldFacts::then_reads, text_fields::proofs::FieldFacts::then_lacks))]
pub fn end_fields(mut fields: Fields) -> Option<(u32, u32, Fields)>
    ensures { result ≡ end_fields fields.entry }
{
    let from = fields.next_word()?;
    let to = fields.next_word()?;
    Some((from, to, fields))
}

/// A name and no more.
#[tactic(auto, unfolding(crate::specs::Reading::import_fields, text_fields::specs::Fields::then_field))]
pub fn import_fields(alloc: Global, mut fields: Fields) -> Result<Option<Name>, NoMemory>
    ensures { IfOk result (λ read. read ≡ import_fields fields.entry) }
{
    let Some(field) = fields.next_field() else {
        return Ok(None);
    };
    let Some(name) = name_of(alloc, field)? else {
        return Ok(None);
    };
    if fields.is_done() {
        Ok(Some(name))
    } else {
        Ok(None)
    }
}

/// The bytes of an instruction, and its text in the fields behind them.
#[tactic(auto, unfolding(crate::specs::Reading::code_fields), using(crate::proofs::Reading::text_back))]
pub fn code_fields<'a>(
    alloc: Global,
    field: &[u8],
    fields: Fields<'a>,
) -> Result<Option<(Vec<u8>, &'a [u8])>, NoMemory>
    ensures { IfOk result (λ read. option_map (λ p. (p.0.items, p.1.now)) read ≡ code_fields field.now fields.entry) }
{
    let Some(bytes) = parse_hex_bytes(alloc, field)? else {
        return Ok(None);
    };
    match fields.rest() {
        Some(text) => Ok(Some((bytes, text))),
        None => Ok(None),
    }
}

fn row_of(field: &[u8]) -> Option<u32>
    ensures { result ≡ row_of field.now }
{
    u32::try_from(parse_decimal(field)?).ok()
}

// A row in version 2, and none in version 1.
#[tactic(auto, unfolding(text_fields::specs::Fields::then_field))]
fn row_fields(version: u8, mut fields: Fields) -> Option<Option<u32>>
    ensures { result ≡ row_fields version fields.entry }
{
    let mut row = None;
    if version == 2 {
        row = Some(row_of(fields.next_field()?)?);
    }
    if fields.is_done() { Some(row) } else { None }
}

/// A location, a cause, and in version 2 a row.
#[tactic(auto, unfolding(crate::specs::Reading::mark_fields, text_fields::specs::Fields::then_field))]
pub fn mark_fields(version: u8, mut fields: Fields) -> Option<OpenMark>
    ensures { result ≡ mark_fields version fields.entry }
{
    let at = fields.next_word()?;
    let cause = cause_of(fields.next_field()?)?;
    let row = row_fields(version, fields)?;
    Some(OpenMark { at, cause, row })
}
