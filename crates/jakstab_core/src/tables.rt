ghost use Rattle.std.specs.Prelude.{ℕ, ◌≡◌, ◌<◌, ◌≤◌, ◌^◌, ◌++◌, IfOk, MatchResult, OnOk, length, map, filter_map, flat_map, option_map, option_to_list, slice_get};
ghost use Rattle.bounded_values.specs.BoundedLaws.{bounded};
ghost use Rattle.flow_log.specs.Log.{expansion_mark, marks_by, pair_of};
ghost use Rattle.flow_worklist.specs.Analysis.{image_log};
ghost use Rattle.jakstab_core.specs.Due.{OrMemory};
ghost use Rattle.jakstab_core.specs.Inputs.{IsBadLine};
ghost use Rattle.jakstab_core.specs.Tables.{IsChecked, answer_line, is_no, left_at, table_of, tabulated_text};
ghost use Rattle.run_replayer.specs.VerdictLine.{number_field};
ghost use Rattle.table_check.specs.Closed.{IsYes, table_answer};
ghost use Rattle.table_check.specs.Reading.{table_read};

use crate::Status;
use crate::inputs::text_status;
use crate::work::Output;
use abstract_state::State;
use bit_words::NoMemory;
use bounded_values::Bounded;
use flow_log::{Cause, sorted_set};
use flow_worklist::{Gate, Limits, Log, PIECE, ROUND, Row, explore_in};
use image_loader::Image;
use memory_map::Items;
use std::alloc::Global;
use std::thread::Threads;
use stub_file::Stubs;
use table_check::{Table, TableAnswer, check_table, print_table, read_table};
use text_fields::{push_bytes, push_decimal};

// Where each row stands and its state, in row order.
fn rows_of(alloc: Global, rows: &[Row<Bounded>]) -> Result<Vec<(u32, State<Bounded>)>, NoMemory>
    ensures { IfOk result (λ copies. copies.items ≡ map pair_of rows.now) }
{
    let mut copies = Vec::new(alloc);
    for row in rows {
        copies.push((row.location(), row.state().copy()?))?;
    }
    Ok(copies)
}

// The location of the row of a number.
fn location_at(rows: &[Row<Bounded>], number: u32) -> Option<u32>
    ensures { result ≡ option_map (λ row. row.location) (slice_get rows.now number) }
{
    match rows.get(number as usize) {
        Some(row) => Some(row.location()),
        None => None,
    }
}

// The location at which an expansion gave a cause.
fn push_caused(
    found: &mut Vec<u32>,
    rows: &[Row<Bounded>],
    number: u32,
    cause: Cause,
) -> Result<(), NoMemory>
    ensures { OnOk result (found.new.items ≡ found.old.items ++ option_to_list (option_map (λ mark. mark.location) (expansion_mark rows.now (number, cause)))) }
{
    let _ = cause;
    match location_at(rows, number) {
        None => Ok(()),
        Some(at) => {
            found.push(at)?;
            Ok(())
        }
    }
}

// The locations at which expansions gave causes.
fn push_all_caused(
    found: &mut Vec<u32>,
    rows: &[Row<Bounded>],
    causes: &[(u32, Cause)],
) -> Result<(), NoMemory>
    ensures { OnOk result (found.new.items ≡ found.old.items ++ map (λ mark. mark.location) (filter_map (expansion_mark rows.now) causes.now)) }
{
    for noted in causes {
        push_caused(found, rows, noted.0, noted.1)?;
    }
    Ok(())
}

fn push_unexpanded(found: &mut Vec<u32>, row: &Row<Bounded>) -> Result<(), NoMemory>
    ensures { OnOk result (found.new.items ≡ found.old.items ++ left_at row.now) }
{
    if !row.is_expanded() {
        found.push(row.location())?;
    }
    Ok(())
}

// The locations of rows that were not expanded.
fn push_all_unexpanded(found: &mut Vec<u32>, rows: &[Row<Bounded>]) -> Result<(), NoMemory>
    ensures { OnOk result (found.new.items ≡ found.old.items ++ flat_map left_at rows.now) }
{
    for row in rows {
        push_unexpanded(found, row)?;
    }
    Ok(())
}

// The open locations of a log.
fn open_of(alloc: Global, log: &Log<Bounded>) -> Result<Vec<u32>, NoMemory>
    ensures { IfOk result (λ found. found.items ≡ map (λ mark. mark.location) (marks_by Cause.Budget log.now)) }
{
    let mut found = Vec::new(alloc);
    push_all_caused(&mut found, log.rows(), log.causes())?;
    push_all_unexpanded(&mut found, log.rows())?;
    Ok(found)
}

/// The table of a log that was made with this image, these stubs and this k: all its rows, with its open locations marked. It is closed.
/// Refuses want of memory alone.
pub fn table_of(
    alloc: Global,
    log: &Log<Bounded>,
    image: &Image,
    stubs: &Stubs,
    k: u32,
) -> Result<Table<Bounded>, NoMemory>
    requires some { 0 < length log.now.rows }
    requires few { length log.now.rows < 2 ^ 32 }
    ensures table { IfOk result (λ t. t ≡ table_of k log.now) }
    ensures closed { (budget : ℕ) → log.now ≡ image_log bounded image.now stubs.now k budget → IfOk result (λ t. IsYes (table_answer bounded image.now stubs.now t)) }
{
    let _ = image.entry();
    let _ = stubs;
    let rows = rows_of(alloc, log.rows())?;
    let places = open_of(alloc, log)?;
    Ok(Table {
        k,
        rows: Items::from_vec(rows),
        marked: Items::from_vec(sorted_set(places)),
    })
}

/// The text of the table of an image's exploration over bounded values.
pub fn table_text<R: Threads + Sync, G: Gate>(
    rt: &R,
    alloc: Global,
    image: &Image,
    stubs: &Stubs,
    limits: Limits,
    gate: &G,
) -> Result<Vec<u8>, NoMemory>
    ensures { IfOk result (λ text. text.items ≡ tabulated_text image.now stubs.now limits.k limits.budget) }
{
    let log = explore_in::<R, Bounded, G>(rt, alloc, image, stubs, limits, ROUND, PIECE, gate)?;
    let table = table_of(alloc, &log, image, stubs, limits.k)?;
    print_table(alloc, &table)
}

#[tactic(auto, using(std::proofs::Common::append_assoc))]
fn push_number(out: &mut Vec<u8>, n: u64) -> Result<(), NoMemory>
    ensures { OnOk result (out.new.items ≡ out.old.items ++ number_field n) }
{
    push_bytes(out, b" ")?;
    push_decimal(out, n)
}

#[tactic(auto, using(std::proofs::Common::append_assoc))]
fn push_answer(out: &mut Vec<u8>, rows: u64, answer: TableAnswer) -> Result<(), NoMemory>
    ensures { OnOk result (out.new.items ≡ out.old.items ++ answer_line rows answer) }
{
    match answer {
        TableAnswer::Yes { edges } => {
            push_bytes(out, b"yes")?;
            push_number(out, rows)?;
            push_number(out, edges)?;
        }
        TableAnswer::No { row, kind } => {
            push_bytes(out, b"no")?;
            push_number(out, row)?;
            push_number(out, u64::from(kind))?;
        }
    }
    push_bytes(out, b"\n")
}

fn answer_line(alloc: Global, rows: u64, answer: TableAnswer) -> Result<Vec<u8>, NoMemory>
    ensures { IfOk result (λ text. text.items ≡ answer_line rows answer) }
{
    let mut out = Vec::new(alloc);
    push_answer(&mut out, rows, answer)?;
    Ok(out)
}

fn is_no(answer: TableAnswer) -> bool
    ensures { result ≡ is_no answer }
{
    match answer {
        TableAnswer::Yes { .. } => false,
        TableAnswer::No { .. } => true,
    }
}

// The line of a table's answer, and whether it is no.
fn checked<R: Threads + Sync>(
    rt: &R,
    alloc: Global,
    image: &Image,
    stubs: &Stubs,
    table: &Table<Bounded>,
) -> Result<Output, NoMemory>
    requires least { 1 ≤ table.now.k }
    requires greatest { table.now.k ≤ 1024 }
    ensures text { IfOk result (λ o. o.text.items ≡ answer_line (length table.now.rows) (table_answer bounded image.now stubs.now table.now)) }
    ensures says { IfOk result (λ o. o.is_no ≡ is_no (table_answer bounded image.now stubs.now table.now)) }
{
    let answer = check_table(rt, alloc, image, stubs, table)?;
    let text = answer_line(alloc, table.rows.len() as u64, answer)?;
    Ok(Output {
        text,
        is_no: is_no(answer),
    })
}

/// The line of the answer on the table that a text tells; refuses a text that tells none of the image.
pub fn check_output<R: Threads + Sync>(
    rt: &R,
    alloc: Global,
    image: &Image,
    stubs: &Stubs,
    told: &[u8],
) -> Result<Output, Status>
    ensures { MatchResult result (λ o. IsChecked image.now stubs.now told.now o.text.items o.is_no) (OrMemory (IsBadLine (table_read image.now told.now))) }
{
    match read_table(alloc, image, told) {
        Ok(table) => match checked(rt, alloc, image, stubs, &table) {
            Ok(output) => Ok(output),
            Err(_) => Err(Status::Memory),
        },
        Err(fault) => Err(text_status(fault)),
    }
}
