ghost use Rattle.std.specs.Prelude.{◌≡◌, map};
ghost use Rattle.flow_log.specs.Ordered.{ordered_set};
ghost use Rattle.automaton_text.specs.Orders.{first_marks, is_same_opening, mark_cmp};

use flow_log::{Cause, Edge, sorted_set};
use memory_map::{Items, Name};

/// An address at which a run may stand, and the import's name where it is the place of one.
#[derive(Drop)]
pub struct Location {
    pub at: u32,
    pub name: Option<Name>,
}

/// A location that is left open, why, and the row of the log that tells it; version 1 of the text has no rows. Marks are
/// ordered by their fields.
#[derive(Clone, Copy, Debug, PartialEq, Eq, PartialOrd, Ord)]
pub struct OpenMark {
    pub at: u32,
    pub cause: Cause,
    pub row: Option<u32>,
}

/// A control-flow automaton: the version of its text, where it starts, its locations, its edges and what it leaves open.
#[derive(Drop)]
pub struct Automaton {
    pub version: u8,
    pub entry: u32,
    pub locations: Items<Location>,
    pub edges: Items<Edge>,
    pub marks: Items<OpenMark>,
}

/// Marks in the order of every text, each once; takes no memory.
pub fn sorted_marks(marks: Vec<OpenMark>) -> Vec<OpenMark>
    ensures { result.items ≡ ordered_set mark_cmp marks.items }
{
    sorted_set(marks)
}

fn is_same_opening(later: &OpenMark, first: &OpenMark) -> bool
    ensures { result ≡ is_same_opening later.now first.now }
{
    later.at == first.at && later.cause == first.cause
}

/// Marks in the order of every text, of each location and cause the one with the least row; takes no memory.
pub fn first_marks(marks: Vec<OpenMark>) -> Vec<OpenMark>
    ensures { result.items ≡ first_marks marks.items }
{
    let mut first = sorted_marks(marks);
    first.dedup_by(|later, kept| is_same_opening(later, kept));
    first
}
