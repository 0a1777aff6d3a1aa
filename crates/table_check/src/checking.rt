ghost use Rattle.std.specs.Prelude.{◌≡◌, ◌==◌, ◌&&◌, ◌<◌, ◌≤◌, All, IfOk, length, map, not};
ghost use Rattle.std.specs.List.{list_all, list_any};
ghost use Rattle.domain_laws.specs.Made.{values_of};
ghost use Rattle.memory_map.specs.Image.{IsLoaded};
ghost use Rattle.abstract_state.specs.State.{IsWellState, covers_state, start_state};
ghost use Rattle.flow_log.specs.Ordered.{ordered_set};
ghost use Rattle.flow_log.specs.Orders.{edge_cmp};
ghost use Rattle.flow_worklist.specs.Analysis.{edge_by};
ghost use Rattle.table_check.specs.Checking.{AreFindings, AreMarksOf, IsExpandedOf, IsFindingAt, IsFindingOf, IsIndexOf, answer_found};
ghost use Rattle.table_check.specs.Closed.{IsYes, table_answer};
ghost use Rattle.table_check.specs.Laws.{RunsAreFollowedBy};

use crate::Table;
use crate::finding::{Finding, all_edges, first_broken};
use crate::marks::Marks;
use crate::row_index::RowIndex;
use abstract_state::State;
use bit_words::NoMemory;
use domain_laws::Domain;
use flow_log::{Edge, Label, sorted_edges};
use flow_worklist::{Reading, expanded};
use image_loader::Image;
use rayon::prelude::*;
use std::alloc::Global;
use std::thread::Threads;
use stub_file::Stubs;

/// The clause that row 0 is at the entry and covers the start.
const START: u8 = 1;
/// The clause that the expansion of a row at a location that is not marked gives no cause.
const CAUSE: u8 = 2;
/// The clause that each of its next pairs is covered by a row at its location.
const NEXT: u8 = 3;

/// What the check of a table answers.
#[derive(Clone, Copy, Debug, PartialEq, Eq)]
pub enum TableAnswer {
    /// The table is closed.
    Yes {
        /// How many different edges it has.
        edges: u64,
    },
    /// The first row that fails, counted from 0, and the first clause that does: 1 for the start, 2 for a cause, 3 for a next pair.
    No {
        row: u64,
        kind: u8,
    },
}

// What a row is checked with: the state at the start, where rows are, and which locations are marked.
#[derive(Drop)]
struct Check<'a, D: Domain> {
    image: &'a Image,
    stubs: &'a Stubs,
    table: &'a Table<D>,
    start: State<D>,
    index: RowIndex,
    marks: Marks,
    ghost started: { start ≡ start_state (values_of D.Domain D.eq) image.now },
    ghost indexed: { IsIndexOf index table.now.rows },
    ghost marked: { AreMarksOf marks table.now.marked },
}

// Whether a row is at the entry and covers the start.
fn starts<D: Domain>(image: &Image, start: &State<D>, row: &(u32, State<D>)) -> bool
    ensures { result ≡ (row.now.0 == image.now.entry && covers_state (values_of D.Domain.own D.eq) row.now.1 start.now) }
{
    row.0 == image.entry() && row.1.covers(start)
}

// The edges to next pairs, from an address by a label.
fn edges_of<D: Domain>(
    alloc: Global,
    from: u32,
    label: &Label,
    next: &[(u32, State<D>)],
) -> Result<Vec<Edge>, NoMemory>
    ensures { IfOk result (λ edges. edges.items ≡ map (λ pair. edge_by from label.now pair.0) next.now) }
{
    let mut edges = Vec::new(alloc);
    for pair in next {
        edges.push(Edge {
            from,
            to: pair.0,
            label: label.copy(alloc)?,
        })?;
    }
    Ok(edges)
}

// Whether each next pair is covered by a row at its location.
fn lead_to_rows<D: Domain>(
    rows: &[(u32, State<D>)],
    index: &RowIndex,
    next: &[(u32, State<D>)],
) -> bool
    requires { IsIndexOf index.now rows.now }
    ensures { result ≡ list_all (λ pair. list_any (λ row. row.0 == pair.0 && covers_state (values_of D.Domain.own D.eq) row.1 pair.1) rows.now) next.now }
{
    for pair in next {
        if !index.covers(rows, pair.0, &pair.1) {
            return false;
        }
    }
    true
}

// What is always so of an image, and of the state of each row.
fn kept<D: Domain>(image: &Image, rows: &[(u32, State<D>)])
    ensures loaded { IsLoaded image.now }
    ensures well { All (λ row. IsWellState (values_of D.Domain.own D.eq) row.1) rows.now }
{
    let _ = image.entry();
    for row in rows {
        row.1.well();
    }
}

impl<'a, D: Domain> Check<'a, D> {
    fn of(
        alloc: Global,
        image: &'a Image,
        stubs: &'a Stubs,
        table: &'a Table<D>,
    ) -> Result<Check<'a, D>, NoMemory>
        ensures image { IfOk result (λ check. check.image.now ≡ image.now) }
        ensures stubs { IfOk result (λ check. check.stubs.now ≡ stubs.now) }
        ensures table { IfOk result (λ check. check.table.now ≡ table.now) }
    {
        Ok(Check {
            image,
            stubs,
            table,
            start: State::start(alloc, image)?,
            index: RowIndex::of(alloc, table.rows.as_slice())?,
            marks: Marks::of(alloc, table.marked.as_slice())?,
        })
    }

    // Whether the row of a number fails as the start.
    fn is_wrong_start(&self, number: usize, row: &(u32, State<D>)) -> bool
        ensures { result ≡ (number == 0 && not (row.now.0 == self.now.image.now.entry && covers_state (values_of D.Domain.own D.eq) row.now.1 self.now.start)) }
    {
        number == 0 && !starts(self.image, &self.start, row)
    }

    // What is found of a row at a location that is not marked.
    fn expanded(&self, alloc: Global, row: &(u32, State<D>)) -> Result<Finding, NoMemory>
        ensures { IfOk result (IsExpandedOf (values_of D.Domain.own D.eq) self.now.image.now self.now.stubs.now self.now.table.now row.now) }
    {
        let reading = Reading::of(self.image.fetch(row.0));
        let k = self.table.k;
        let post = expanded(alloc, self.image, self.stubs, k, row.0, &row.1, &reading)?;
        if !post.expansion.causes().is_empty() {
            return Ok(Finding::Broken(CAUSE));
        }
        let rows = self.table.rows.as_slice();
        if !lead_to_rows(rows, &self.index, post.expansion.next()) {
            return Ok(Finding::Broken(NEXT));
        }
        let edges = edges_of(alloc, post.at, &post.label, post.expansion.next())?;
        Ok(Finding::Leads(edges))
    }

    // What is found of the row that has a number.
    fn row(&self, alloc: Global, number: usize, row: &(u32, State<D>)) -> Result<Finding, NoMemory>
        ensures { IfOk result (IsFindingOf (values_of D.Domain.own D.eq) self.now.image.now self.now.stubs.now self.now.table.now number row.now) }
    {
        if self.is_wrong_start(number, row) {
            return Ok(Finding::Broken(START));
        }
        if self.marks.contain(row.0) {
            return Ok(Finding::Leads(Vec::new(alloc)));
        }
        self.expanded(alloc, row)
    }

    // What is found of the row of a number.
    fn finding(&self, alloc: Global, number: usize) -> Result<Finding, NoMemory>
        requires { number < length self.now.table.now.rows }
        ensures { IfOk result (IsFindingAt (values_of D.Domain.own D.eq) self.now.image.now self.now.stubs.now self.now.table.now number) }
    {
        let rows = self.table.rows.as_slice();
        self.row(alloc, number, &rows[number])
    }
}

// What is found of each row, in row order.
fn findings<R: Threads + Sync, D: Domain>(
    rt: &R,
    alloc: Global,
    check: &Check<D>,
) -> Result<Vec<Finding>, NoMemory>
    ensures { IfOk result (λ found. AreFindings (values_of D.Domain.own D.eq) check.now.image.now check.now.stubs.now check.now.table.now found.items) }
{
    (0..check.table.rows.len())
        .into_par_iter()
        .map(
            |i: usize| -> Result<Finding, NoMemory>
                requires { i < length check.now.table.now.rows }
                ensures { IfOk result (IsFindingAt (values_of D.Domain.own D.eq) check.entry.now.image.now check.entry.now.stubs.now check.entry.now.table.now i) }
            { check.finding(alloc, i) },
        )
        .collect::<Result<Vec<Finding>, NoMemory>>(rt, alloc)?
}

// How many different edges there are.
fn count(edges: Vec<Edge>) -> u64
    ensures { result ≡ length (ordered_set edge_cmp edges.items) }
{
    sorted_edges(edges).len() as u64
}

// The answer by what was found of each row.
fn answer_of(alloc: Global, found: Vec<Finding>) -> Result<TableAnswer, NoMemory>
    ensures { IfOk result (λ answer. answer ≡ answer_found found.items) }
{
    if let Some((row, kind)) = first_broken(&found) {
        return Ok(TableAnswer::No { row, kind });
    }
    let edges = all_edges(alloc, found)?;
    Ok(TableAnswer::Yes {
        edges: count(edges),
    })
}

/// Whether a table is closed for an image with stubs: row 0 stands for the start, and each row at a location that is not marked leads to
/// rows of the table alone. Then no run leaves the table's edges before it first stands at a marked location. Else the first row that
/// fails, and its first clause that does, the same in however many threads. Refuses want of memory alone.
pub fn check_table<R: Threads + Sync, D: Domain>(
    rt: &R,
    alloc: Global,
    image: &Image,
    stubs: &Stubs,
    t: &Table<D>,
) -> Result<TableAnswer, NoMemory>
    requires least { 1 ≤ t.now.k }
    requires greatest { t.now.k ≤ 1024 }
    ensures answer { IfOk result (λ answer. answer ≡ table_answer (values_of D.Domain.own D.eq) image.now stubs.now t.now) }
    ensures sound { IfOk result (λ answer. IsYes answer → RunsAreFollowedBy (values_of D.Domain.own D.eq) image.now stubs.now t.now) }
{
    kept(image, t.rows.as_slice());
    if t.rows.len() == 0 {
        return Ok(TableAnswer::No {
            row: 0,
            kind: START,
        });
    }
    let check = Check::of(alloc, image, stubs, t)?;
    answer_of(alloc, findings(rt, alloc, &check)?)
}
