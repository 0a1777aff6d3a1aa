ghost use Rattle.std.specs.Prelude.{◌≡◌, IfOk, MatchOption, option_map};
ghost use Rattle.table_check.specs.Fields.{area_of, block_by, block_fields, block_of, dirty_fields, fact_fields, flags_fields, flags_of, inside_in, inside_of, k_fields, k_of, low_in, many_of, note_fields, place_by, place_of, plain_value, region_of, register_note, register_of, regs_fields, truth_of, truths_by, value_of, width_of, window_of, word_note};
ghost use Rattle.text_fields.specs.Fields.{Lacks, Reads};

use abstract_state::{Note, Truth};
use address_regions::Region;
use bit_words::{NoMemory, Width};
use bounded_values::Bounded;
use partitioned_memory::{Area, Counted, Dirty, Fact};
use std::alloc::Global;
use text_fields::{Fields, cut_at, parse_bool, parse_decimal, parse_hex8};

// ---- regions and areas

fn window_of(field: &[u8]) -> Option<Region>
    ensures { result ≡ window_of field.now }
{
    if field == b"stack".as_slice() {
        Some(Region::Stack)
    } else if field == b"fs".as_slice() {
        Some(Region::Fs)
    } else if field == b"gs".as_slice() {
        Some(Region::Gs)
    } else {
        None
    }
}

fn block_by(site: &[u8], size: &[u8], zeroed: &[u8]) -> Option<Region>
    ensures { result ≡ block_by site.now size.now zeroed.now }
{
    let site = parse_hex8(site)?;
    let size = parse_hex8(size)?;
    let zeroed = parse_bool(zeroed)?;
    Some(Region::Block { site, size, zeroed })
}

fn block_of(text: &[u8]) -> Option<Region>
    ensures { result ≡ block_of text.now }
{
    let (site, rest) = cut_at(b'.', text)?;
    let (size, zeroed) = cut_at(b'.', rest)?;
    block_by(site, size, zeroed)
}

#[tactic(auto, unfolding(crate::specs::Fields::region_of))]
fn region_of(field: &[u8]) -> Option<Region>
    ensures { result ≡ region_of field.now }
{
    match cut_at(b'.', field) {
        None => window_of(field),
        Some((letter, rest)) => {
            if letter == b"b".as_slice() {
                block_of(rest)
            } else {
                None
            }
        }
    }
}

#[tactic(auto, unfolding(crate::specs::Fields::area_of))]
fn area_of(field: &[u8]) -> Option<Area>
    ensures { result ≡ area_of field.now }
{
    if field == b"image".as_slice() {
        return Some(Area::Image);
    }
    match region_of(field) {
        Some(region) => Some(Area::In(region)),
        None => None,
    }
}

// The offset that a word writes: of the stack, fs and gs one in two's complement.
fn low_in(area: Area, n: u32) -> i64
    ensures { result ≡ low_in area n }
{
    match area {
        Area::Image => i64::from(n),
        Area::In(region) => {
            if region.has_one_base() {
                i64::from(Width::B32.signed(n))
            } else {
                i64::from(n)
            }
        }
    }
}

// ---- values

fn plain_value(field: &[u8]) -> Option<Bounded>
    ensures { result ≡ plain_value field.now }
{
    if field == b"a".as_slice() {
        return Some(Bounded::Any);
    }
    match parse_hex8(field) {
        Some(n) => Some(Bounded::Number(n)),
        None => None,
    }
}

fn place_by(region: &[u8], offset: &[u8]) -> Option<Bounded>
    ensures { result ≡ place_by region.now offset.now }
{
    let region = region_of(region)?;
    let n = parse_hex8(offset)?;
    Some(Bounded::Exact(region, Width::B32.signed(n)))
}

fn place_of(text: &[u8]) -> Option<Bounded>
    ensures { result ≡ place_of text.now }
{
    let (region, offset) = cut_at(b':', text)?;
    place_by(region, offset)
}

fn inside_in(region: Region) -> Option<Bounded>
    ensures { result ≡ inside_in region }
{
    if region.has_room() {
        Some(Bounded::Inside(region))
    } else {
        None
    }
}

fn inside_of(text: &[u8]) -> Option<Bounded>
    ensures { result ≡ inside_of text.now }
{
    inside_in(region_of(text)?)
}

#[tactic(auto, unfolding(crate::specs::Fields::value_of))]
fn value_of(field: &[u8]) -> Option<Bounded>
    ensures { result ≡ value_of field.now }
{
    match cut_at(b':', field) {
        None => plain_value(field),
        Some((letter, rest)) => {
            if letter == b"e".as_slice() {
                place_of(rest)
            } else if letter == b"i".as_slice() {
                inside_of(rest)
            } else {
                None
            }
        }
    }
}

// ---- other forms

fn truth_of(c: u8) -> Option<Truth>
    ensures { result ≡ truth_of c }
{
    match c {
        b'1' => Some(Truth::Yes),
        b'0' => Some(Truth::No),
        b'?' => Some(Truth::Unknown),
        _ => None,
    }
}

fn truths_by(alloc: Global, field: &[u8]) -> Result<Option<Vec<Truth>>, NoMemory>
    ensures { IfOk result (λ read. option_map (λ truths. truths.items) read ≡ truths_by field.now) }
{
    let mut truths = Vec::new(alloc);
    for c in field {
        match truth_of(*c) {
            Some(truth) => truths.push(truth)?,
            None => return Ok(None),
        }
    }
    Ok(Some(truths))
}

fn flags_of(alloc: Global, field: &[u8]) -> Result<Option<Vec<Truth>>, NoMemory>
    ensures { IfOk result (λ read. option_map (λ truths. truths.items) read ≡ flags_of field.now) }
{
    if field.len() != 7 {
        return Ok(None);
    }
    truths_by(alloc, field)
}

fn k_of(field: &[u8]) -> Option<u32>
    ensures { result ≡ k_of field.now }
{
    let n = parse_decimal(field)?;
    if 1 <= n && n <= 1024 {
        Some(n as u32)
    } else {
        None
    }
}

fn register_of(field: &[u8]) -> Option<u8>
    ensures { result ≡ register_of field.now }
{
    let n = parse_decimal(field)?;
    if n < 8 { Some(n as u8) } else { None }
}

fn width_of(field: &[u8]) -> Option<Width>
    ensures { result ≡ width_of field.now }
{
    if field == b"1".as_slice() {
        Some(Width::B8)
    } else if field == b"2".as_slice() {
        Some(Width::B16)
    } else if field == b"4".as_slice() {
        Some(Width::B32)
    } else {
        None
    }
}

fn many_of(field: &[u8]) -> Option<bool>
    ensures { result ≡ many_of field.now }
{
    if field == b"one".as_slice() {
        Some(false)
    } else if field == b"many".as_slice() {
        Some(true)
    } else {
        None
    }
}

// ---- the next field of a line

fn next_value(fields: &mut Fields) -> Option<Bounded>
    ensures { MatchOption result (Lacks value_of fields.old) (λ v. Reads value_of fields.old v fields.new) }
{
    value_of(fields.next_field()?)
}

// ---- lines behind their first words

/// The number of a `k` line.
#[tactic(auto, unfolding(crate::specs::Fields::k_fields, text_fields::specs::Fields::then_field))]
pub fn k_fields(mut fields: Fields) -> Option<u32>
    ensures { result ≡ k_fields fields.entry }
{
    let k = k_of(fields.next_field()?)?;
    if fields.is_done() { Some(k) } else { None }
}

/// The values of the eight registers.
#[tactic(auto, unfolding(crate::specs::Fields::regs_fields), using(text_fields::proofs::FieldFacts::then_reads, text_fields::proofs::FieldFacts::then_lacks))]
pub fn regs_fields(mut fields: Fields) -> Option<[Bounded; 8]>
    ensures { result ≡ regs_fields fields.entry }
{
    let eax = next_value(&mut fields)?;
    let ecx = next_value(&mut fields)?;
    let edx = next_value(&mut fields)?;
    let ebx = next_value(&mut fields)?;
    let esp = next_value(&mut fields)?;
    let ebp = next_value(&mut fields)?;
    let esi = next_value(&mut fields)?;
    let edi = next_value(&mut fields)?;
    if fields.is_done() {
        Some([eax, ecx, edx, ebx, esp, ebp, esi, edi])
    } else {
        None
    }
}

/// What is known of the seven flags.
#[tactic(auto, unfolding(crate::specs::Fields::flags_fields, text_fields::specs::Fields::then_field))]
pub fn flags_fields(alloc: Global, mut fields: Fields) -> Result<Option<Vec<Truth>>, NoMemory>
    ensures { IfOk result (λ read. option_map (λ truths. truths.items) read ≡ flags_fields fields.entry) }
{
    let Some(field) = fields.next_field() else {
        return Ok(None);
    };
    let Some(truths) = flags_of(alloc, field)? else {
        return Ok(None);
    };
    if fields.is_done() {
        Ok(Some(truths))
    } else {
        Ok(None)
    }
}

#[tactic(auto, unfolding(crate::specs::Fields::register_note, text_fields::specs::Fields::then_field))]
fn register_note(mut fields: Fields) -> Option<Note>
    ensures { result ≡ register_note fields.entry }
{
    let r = register_of(fields.next_field()?)?;
    let c = parse_hex8(fields.next_field()?)?;
    if fields.is_done() {
        Some(Note::Register(r, c))
    } else {
        None
    }
}

#[tactic(auto, unfolding(crate::specs::Fields::word_note, text_fields::specs::Fields::then_field))]
fn word_note(mut fields: Fields) -> Option<Note>
    ensures { result ≡ word_note fields.entry }
{
    let o = parse_hex8(fields.next_field()?)?;
    let c = parse_hex8(fields.next_field()?)?;
    if fields.is_done() {
        Some(Note::Word(i64::from(Width::B32.signed(o)), c))
    } else {
        None
    }
}

/// A note of a register or of a word of the stack.
#[tactic(auto, unfolding(crate::specs::Fields::note_fields))]
pub fn note_fields(mut fields: Fields) -> Option<Note>
    ensures { result ≡ note_fields fields.entry }
{
    let kind = fields.next_field()?;
    if kind == b"reg".as_slice() {
        register_note(fields)
    } else if kind == b"word".as_slice() {
        word_note(fields)
    } else {
        None
    }
}

/// An area, an offset, a width and a value.
#[tactic(auto, unfolding(crate::specs::Fields::fact_fields, text_fields::specs::Fields::then_field))]
pub fn fact_fields(mut fields: Fields) -> Option<Fact<Bounded>>
    ensures { result ≡ fact_fields fields.entry }
{
    let area = area_of(fields.next_field()?)?;
    let low = parse_hex8(fields.next_field()?)?;
    let w = width_of(fields.next_field()?)?;
    let value = value_of(fields.next_field()?)?;
    if fields.is_done() {
        Some(Fact {
            area,
            low: low_in(area, low),
            w,
            value,
        })
    } else {
        None
    }
}

/// An area, an offset and a size.
#[tactic(auto, unfolding(crate::specs::Fields::dirty_fields, text_fields::specs::Fields::then_field))]
pub fn dirty_fields(mut fields: Fields) -> Option<Dirty>
    ensures { result ≡ dirty_fields fields.entry }
{
    let area = area_of(fields.next_field()?)?;
    let low = parse_hex8(fields.next_field()?)?;
    let size = parse_hex8(fields.next_field()?)?;
    if fields.is_done() {
        Some(Dirty {
            area,
            low: low_in(area, low),
            size: i64::from(size),
        })
    } else {
        None
    }
}

/// A region, and how many blocks it has.
#[tactic(auto, unfolding(crate::specs::Fields::block_fields, text_fields::specs::Fields::then_field))]
pub fn block_fields(mut fields: Fields) -> Option<Counted>
    ensures { result ≡ block_fields fields.entry }
{
    let region = region_of(fields.next_field()?)?;
    let many = many_of(fields.next_field()?)?;
    if fields.is_done() {
        Some(Counted { region, many })
    } else {
        None
    }
}
