ghost use Rattle.std.specs.Prelude.{◌≡◌, ◌<◌, ◌^◌, ◌++◌, ◌∷◌, [], Contains, IfOk, IsTrue, OnOk, length, map, filter_map, option_map, option_to_list};
ghost use Rattle.std.specs.Ordering.{nat_cmp};
ghost use Rattle.flow_log.specs.Log.{expansion_mark, marks_by, unexpanded_marks};
ghost use Rattle.flow_log.specs.Ordered.{ordered_set};
ghost use Rattle.flow_log.specs.Orders.{edge_cmp};
ghost use Rattle.flow_worklist.specs.Analysis.{automaton_of, location_of, open_at, open_mark};
ghost use Rattle.flow_worklist.specs.Exploring.{cause_unexpanded};

use crate::log::location_at;
use crate::{Log, Row};
use automaton_text::{Automaton, Location, OpenMark, first_marks};
use bit_words::NoMemory;
use domain_laws::Domain;
use flow_log::{Cause, Edge, sorted_edges, sorted_set};
use image_loader::Image;
use memory_map::{Items, Name};
use std::alloc::Global;
use std::cmp::Ordering;

/// The automaton of a log that was made with this image. Refuses want of memory alone.
pub fn automaton_of<D: Domain>(
    alloc: Global,
    image: &Image,
    log: &Log<D>,
) -> Result<Automaton, NoMemory>
    requires some { 0 < length log.now.rows }
    requires few { length log.now.rows < 2 ^ 32 }
    ensures { IfOk result (λ a. a ≡ automaton_of image.now log.now) }
{
    let entry = log.rows()[0].location();
    let locations = locations(alloc, image, log.rows())?;
    let edges = sorted_edges(copies(alloc, log.edges())?);
    let marks = first_marks(marks(alloc, log)?);
    Ok(Automaton {
        version: 2,
        entry,
        locations: Items::from_vec(locations),
        edges: Items::from_vec(edges),
        marks: Items::from_vec(marks),
    })
}

fn addresses<D: Domain>(alloc: Global, rows: &[Row<D>]) -> Result<Vec<u32>, NoMemory>
    ensures { IfOk result (λ a. a.items ≡ map (λ row. row.location) rows.now) }
{
    let mut found = Vec::new(alloc);
    for row in rows {
        found.push(row.location())?;
    }
    Ok(found)
}

fn location(alloc: Global, image: &Image, at: u32) -> Result<Location, NoMemory>
    ensures { IfOk result (λ l. l ≡ location_of image.now at) }
{
    match image.name_at(at) {
        None => Ok(Location { at, name: None }),
        Some(name) => Ok(Location {
            at,
            name: Name::new(Vec::from_slice(alloc, name)?),
        }),
    }
}

fn locations<D: Domain>(
    alloc: Global,
    image: &Image,
    rows: &[Row<D>],
) -> Result<Vec<Location>, NoMemory>
    ensures { IfOk result (λ l. l.items ≡ map (location_of image.now) (ordered_set nat_cmp (map (λ row. row.location) rows.now))) }
{
    let sorted = sorted_set(addresses(alloc, rows)?);
    located(alloc, image, &sorted)
}

fn located(alloc: Global, image: &Image, sorted: &[u32]) -> Result<Vec<Location>, NoMemory>
    ensures { IfOk result (λ l. l.items ≡ map (location_of image.now) sorted.now) }
{
    let mut found = Vec::new(alloc);
    for at in sorted {
        found.push(location(alloc, image, *at)?)?;
    }
    Ok(found)
}

// Whether an edge is the newest of these.
fn is_newest(edges: &[Edge], e: &Edge) -> bool
    ensures { IsTrue result → Contains edges.now e.now }
{
    match edges.last() {
        Some(last) => match last.cmp(e) {
            Ordering::Equal => true,
            Ordering::Less | Ordering::Greater => false,
        },
        None => false,
    }
}

// An edge more, unless it is the newest.
fn push_edge(made: &mut Vec<Edge>, e: &Edge) -> Result<(), NoMemory>
    ensures { OnOk result (ordered_set edge_cmp made.new.items ≡ ordered_set edge_cmp (made.old.items ++ e.now ∷ [])) }
{
    if is_newest(made, e) {
        return Ok(());
    }
    let copy = e.copy(*made.allocator())?;
    made.push(copy)?;
    Ok(())
}

// Copies of edges, one of neighbours that are the same: rows of a location follow each other, and have the same edges.
fn copies(alloc: Global, edges: &[Edge]) -> Result<Vec<Edge>, NoMemory>
    ensures { IfOk result (λ c. ordered_set edge_cmp c.items ≡ ordered_set edge_cmp edges.now) }
{
    let mut made = Vec::new(alloc);
    for e in edges {
        push_edge(&mut made, e)?;
    }
    Ok(made)
}

// All marks, in the order of the definition.
#[tactic(auto, unfolding(flow_log::specs::Log::marks_by))]
fn marks<D: Domain>(alloc: Global, log: &Log<D>) -> Result<Vec<OpenMark>, NoMemory>
    requires { length log.now.rows < 2 ^ 32 }
    ensures { IfOk result (λ m. m.items ≡ map open_mark (marks_by Cause.Budget log.now)) }
{
    let mut found = Vec::new(alloc);
    push_expansion_marks(&mut found, log.rows(), log.causes())?;
    push_unexpanded_marks(&mut found, log.rows())?;
    Ok(found)
}

fn push_expansion_mark<D: Domain>(
    out: &mut Vec<OpenMark>,
    rows: &[Row<D>],
    number: u32,
    cause: Cause,
) -> Result<(), NoMemory>
    ensures { OnOk result (out.new.items ≡ out.old.items ++ option_to_list (option_map open_mark (expansion_mark rows.now (number, cause)))) }
{
    match location_at(rows, number) {
        None => Ok(()),
        Some(at) => {
            out.push(open_at(at, cause, number))?;
            Ok(())
        }
    }
}

fn push_expansion_marks<D: Domain>(
    out: &mut Vec<OpenMark>,
    rows: &[Row<D>],
    causes: &[(u32, Cause)],
) -> Result<(), NoMemory>
    ensures { OnOk result (out.new.items ≡ out.old.items ++ map open_mark (filter_map (expansion_mark rows.now) causes.now)) }
{
    for noted in causes {
        push_expansion_mark(out, rows, noted.0, noted.1)?;
    }
    Ok(())
}

// The mark of the row of a number.
fn open_at(at: u32, cause: Cause, number: u32) -> OpenMark
    ensures { result ≡ open_at at cause number }
{
    OpenMark {
        at,
        cause,
        row: Some(number),
    }
}

// The mark of a row that is not expanded.
fn push_unexpanded_mark<D: Domain>(
    out: &mut Vec<OpenMark>,
    row: &Row<D>,
    number: u32,
) -> Result<(), NoMemory>
    ensures { OnOk result (out.new.items ≡ out.old.items ++ map (λ cause. open_at row.now.location cause number) (option_to_list (cause_unexpanded row.now))) }
{
    if !row.is_expanded() {
        out.push(open_at(row.location(), Cause::Budget, number))?;
    }
    Ok(())
}

fn push_unexpanded_marks<D: Domain>(
    out: &mut Vec<OpenMark>,
    rows: &[Row<D>],
) -> Result<(), NoMemory>
    requires { length rows.now < 2 ^ 32 }
    ensures { OnOk result (out.new.items ≡ out.old.items ++ map open_mark (unexpanded_marks Cause.Budget rows.now)) }
{
    for (number, row) in rows.iter().enumerate() {
        push_unexpanded_mark(out, row, number as u32)?;
    }
    Ok(())
}
