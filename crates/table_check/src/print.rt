ghost use Rattle.std.specs.Prelude.{◌≡◌, ◌++◌, IfOk, OnOk, flat_map, map};
ghost use Rattle.table_check.specs.Text.{area_text, block_line, count_text, dirty_line, end_line, fact_line, flags_line, k_line, note_line, offset_text, open_line, region_text, regs_line, row_text, state_text, table_text, truth_code, value_text};
ghost use Rattle.text_fields.specs.Line.{space};

use crate::Table;
use abstract_state::{Note, State, StateData, Truth};
use address_regions::Region;
use bit_words::{NoMemory, Width};
use bounded_values::Bounded;
use partitioned_memory::{Area, Counted, Dirty, Fact};
use std::alloc::Global;
use text_fields::{push_bool, push_bytes, push_decimal, push_hex8};

/// The text of a table: its k, a line for each marked location, and the lines of each row in the order that they stand in.
/// Only want of memory refuses.
#[tactic(auto, unfolding(crate::specs::Text::table_text), using(std::proofs::Common::append_assoc))]
pub fn print_table(alloc: Global, t: &Table<Bounded>) -> Result<Vec<u8>, NoMemory>
    ensures { IfOk result (λ text. text.items ≡ table_text t.now) }
{
    let mut out = Vec::new(alloc);
    push_bytes(&mut out, b"jakstab-table 1\n")?;
    push_k(&mut out, t.k)?;
    push_marks(&mut out, t.marked.as_slice())?;
    push_rows(&mut out, t.rows.as_slice())?;
    push_end(&mut out, t.rows.len())?;
    Ok(out)
}

#[tactic(auto, using(std::proofs::Common::append_assoc))]
fn push_k(out: &mut Vec<u8>, k: u32) -> Result<(), NoMemory>
    ensures { OnOk result (out.new.items ≡ out.old.items ++ k_line k) }
{
    push_bytes(out, b"k ")?;
    push_decimal(out, u64::from(k))?;
    push_bytes(out, b"\n")
}

#[tactic(auto, using(std::proofs::Common::append_assoc))]
fn push_mark(out: &mut Vec<u8>, at: u32) -> Result<(), NoMemory>
    ensures { OnOk result (out.new.items ≡ out.old.items ++ open_line at) }
{
    push_bytes(out, b"open ")?;
    push_hex8(out, at)?;
    push_bytes(out, b"\n")
}

fn push_marks(out: &mut Vec<u8>, marked: &[u32]) -> Result<(), NoMemory>
    ensures { OnOk result (out.new.items ≡ out.old.items ++ flat_map open_line marked.now) }
{
    for at in marked {
        push_mark(out, *at)?;
    }
    Ok(())
}

#[tactic(auto, using(std::proofs::Common::append_assoc))]
fn push_row(out: &mut Vec<u8>, row: &(u32, State<Bounded>)) -> Result<(), NoMemory>
    ensures { OnOk result (out.new.items ≡ out.old.items ++ row_text row.now) }
{
    let plain = row.1.to_plain()?;
    push_bytes(out, b"row ")?;
    push_hex8(out, row.0)?;
    push_bytes(out, b"\n")?;
    push_state(out, &plain)
}

fn push_rows(out: &mut Vec<u8>, rows: &[(u32, State<Bounded>)]) -> Result<(), NoMemory>
    ensures { OnOk result (out.new.items ≡ out.old.items ++ flat_map row_text rows.now) }
{
    for row in rows {
        push_row(out, row)?;
    }
    Ok(())
}

#[tactic(auto, using(std::proofs::Common::append_assoc))]
fn push_end(out: &mut Vec<u8>, rows: usize) -> Result<(), NoMemory>
    ensures { OnOk result (out.new.items ≡ out.old.items ++ end_line rows) }
{
    push_bytes(out, b"end ")?;
    push_decimal(out, rows as u64)?;
    push_bytes(out, b"\n")
}

// ---- states

#[tactic(auto, unfolding(crate::specs::Text::state_text), using(std::proofs::Common::append_assoc))]
fn push_state(out: &mut Vec<u8>, s: &StateData<Bounded>) -> Result<(), NoMemory>
    ensures { OnOk result (out.new.items ≡ out.old.items ++ state_text s.now) }
{
    push_regs(out, s.regs.as_slice())?;
    push_flags(out, s.flags.as_slice())?;
    push_note(out, s.note)?;
    push_facts(out, s.facts.as_slice())?;
    push_dirty(out, s.dirty.as_slice())?;
    push_blocks(out, s.blocks.as_slice())
}

fn push_values(out: &mut Vec<u8>, values: &[Bounded]) -> Result<(), NoMemory>
    ensures { OnOk result (out.new.items ≡ out.old.items ++ flat_map (λ v. space ++ value_text v) values.now) }
{
    for v in values {
        push_bytes(out, b" ")?;
        push_value(out, *v)?;
    }
    Ok(())
}

#[tactic(auto, unfolding(crate::specs::Text::regs_line), using(std::proofs::Common::append_assoc))]
fn push_regs(out: &mut Vec<u8>, values: &[Bounded]) -> Result<(), NoMemory>
    ensures { OnOk result (out.new.items ≡ out.old.items ++ regs_line values.now) }
{
    push_bytes(out, b"regs")?;
    push_values(out, values)?;
    push_bytes(out, b"\n")
}

fn truth_code(t: Truth) -> u8
    ensures { result ≡ truth_code t }
{
    match t {
        Truth::Yes => b'1',
        Truth::No => b'0',
        Truth::Unknown => b'?',
    }
}

fn push_truths(out: &mut Vec<u8>, truths: &[Truth]) -> Result<(), NoMemory>
    ensures { OnOk result (out.new.items ≡ out.old.items ++ map truth_code truths.now) }
{
    for t in truths {
        out.push(truth_code(*t))?;
    }
    Ok(())
}

#[tactic(auto, unfolding(crate::specs::Text::flags_line), using(std::proofs::Common::append_assoc))]
fn push_flags(out: &mut Vec<u8>, truths: &[Truth]) -> Result<(), NoMemory>
    ensures { OnOk result (out.new.items ≡ out.old.items ++ flags_line truths.now) }
{
    push_bytes(out, b"flags ")?;
    push_truths(out, truths)?;
    push_bytes(out, b"\n")
}

#[tactic(auto, unfolding(crate::specs::Text::note_line), using(std::proofs::Common::append_assoc))]
fn push_note(out: &mut Vec<u8>, note: Option<Note>) -> Result<(), NoMemory>
    ensures { OnOk result (out.new.items ≡ out.old.items ++ note_line note) }
{
    match note {
        None => Ok(()),
        Some(Note::Register(r, c)) => {
            push_bytes(out, b"note reg ")?;
            push_decimal(out, u64::from(r))?;
            push_bytes(out, b" ")?;
            push_hex8(out, c)?;
            push_bytes(out, b"\n")
        }
        Some(Note::Word(o, c)) => {
            push_bytes(out, b"note word ")?;
            push_offset(out, o)?;
            push_bytes(out, b" ")?;
            push_hex8(out, c)?;
            push_bytes(out, b"\n")
        }
    }
}

#[tactic(auto, unfolding(crate::specs::Text::fact_line), using(std::proofs::Common::append_assoc))]
fn push_fact(out: &mut Vec<u8>, f: &Fact<Bounded>) -> Result<(), NoMemory>
    ensures { OnOk result (out.new.items ≡ out.old.items ++ fact_line f.now) }
{
    push_bytes(out, b"fact ")?;
    push_area(out, f.area)?;
    push_bytes(out, b" ")?;
    push_offset(out, f.low)?;
    push_bytes(out, b" ")?;
    push_decimal(out, u64::from(f.w.bytes()))?;
    push_bytes(out, b" ")?;
    push_value(out, f.value)?;
    push_bytes(out, b"\n")
}

fn push_facts(out: &mut Vec<u8>, facts: &[Fact<Bounded>]) -> Result<(), NoMemory>
    ensures { OnOk result (out.new.items ≡ out.old.items ++ flat_map fact_line facts.now) }
{
    for f in facts {
        push_fact(out, f)?;
    }
    Ok(())
}

#[tactic(auto, unfolding(crate::specs::Text::dirty_line), using(std::proofs::Common::append_assoc))]
fn push_range(out: &mut Vec<u8>, r: Dirty) -> Result<(), NoMemory>
    ensures { OnOk result (out.new.items ≡ out.old.items ++ dirty_line r) }
{
    push_bytes(out, b"dirty ")?;
    push_area(out, r.area)?;
    push_bytes(out, b" ")?;
    push_offset(out, r.low)?;
    push_bytes(out, b" ")?;
    push_offset(out, r.size)?;
    push_bytes(out, b"\n")
}

fn push_dirty(out: &mut Vec<u8>, dirty: &[Dirty]) -> Result<(), NoMemory>
    ensures { OnOk result (out.new.items ≡ out.old.items ++ flat_map dirty_line dirty.now) }
{
    for r in dirty {
        push_range(out, *r)?;
    }
    Ok(())
}

fn count_text(many: bool) -> &'static [u8]
    ensures { result.now ≡ count_text many }
{
    if many { b"many" } else { b"one" }
}

#[tactic(auto, unfolding(crate::specs::Text::block_line), using(std::proofs::Common::append_assoc))]
fn push_block(out: &mut Vec<u8>, c: Counted) -> Result<(), NoMemory>
    ensures { OnOk result (out.new.items ≡ out.old.items ++ block_line c) }
{
    push_bytes(out, b"block ")?;
    push_region(out, c.region)?;
    push_bytes(out, b" ")?;
    push_bytes(out, count_text(c.many))?;
    push_bytes(out, b"\n")
}

fn push_blocks(out: &mut Vec<u8>, blocks: &[Counted]) -> Result<(), NoMemory>
    ensures { OnOk result (out.new.items ≡ out.old.items ++ flat_map block_line blocks.now) }
{
    for c in blocks {
        push_block(out, *c)?;
    }
    Ok(())
}

// ---- fields

// The low 32 bits of an offset or a size.
fn push_offset(out: &mut Vec<u8>, o: i64) -> Result<(), NoMemory>
    ensures { OnOk result (out.new.items ≡ out.old.items ++ offset_text o) }
{
    push_hex8(out, Width::B32.word(o))
}

#[tactic(auto, unfolding(crate::specs::Text::region_text), using(std::proofs::Common::append_assoc))]
fn push_region(out: &mut Vec<u8>, region: Region) -> Result<(), NoMemory>
    ensures { OnOk result (out.new.items ≡ out.old.items ++ region_text region) }
{
    match region {
        Region::Stack => push_bytes(out, b"stack"),
        Region::Fs => push_bytes(out, b"fs"),
        Region::Gs => push_bytes(out, b"gs"),
        Region::Block { site, size, zeroed } => {
            push_bytes(out, b"b.")?;
            push_hex8(out, site)?;
            push_bytes(out, b".")?;
            push_hex8(out, size)?;
            push_bytes(out, b".")?;
            push_bool(out, zeroed)
        }
    }
}

fn push_area(out: &mut Vec<u8>, area: Area) -> Result<(), NoMemory>
    ensures { OnOk result (out.new.items ≡ out.old.items ++ area_text area) }
{
    match area {
        Area::Image => push_bytes(out, b"image"),
        Area::In(region) => push_region(out, region),
    }
}

#[tactic(auto, unfolding(crate::specs::Text::value_text), using(std::proofs::Common::append_assoc))]
fn push_value(out: &mut Vec<u8>, v: Bounded) -> Result<(), NoMemory>
    ensures { OnOk result (out.new.items ≡ out.old.items ++ value_text v) }
{
    match v {
        Bounded::Number(n) => push_hex8(out, n),
        Bounded::Exact(region, o) => {
            push_bytes(out, b"e:")?;
            push_region(out, region)?;
            push_bytes(out, b":")?;
            push_offset(out, i64::from(o))
        }
        Bounded::Inside(region) => {
            push_bytes(out, b"i:")?;
            push_region(out, region)
        }
        Bounded::Any => push_bytes(out, b"a"),
    }
}
