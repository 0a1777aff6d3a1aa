ghost use Rattle.std.specs.Prelude.{◌≡◌, option_map, slice_get};

use abstract_state::State;
use domain_laws::Domain;
use flow_log::{Cause, Edge};
use std::marker::Model;

/// A row of a log: a location with a state, the row from whose expansion it came, and whether it is expanded itself.
#[derive(Drop)]
pub struct Row<D: Domain> {
    parent: Option<u32>,
    location: u32,
    state: State<D>,
    expanded: bool,
}

impl<D: Domain> Model for Row<D> {
    ghost use Rattle.flow_log.specs.Log.{Row as LogRow};
    ghost use Rattle.abstract_state.specs.State.{Known};

    ghost Value = { LogRow (Known D) };

    ghost view = { λ r. record { parent = r.parent; location = r.location; state = r.state; expanded = r.expanded } };
}

impl<D: Domain> Row<D> {
    /// A row with these parts.
    pub fn new(parent: Option<u32>, location: u32, state: State<D>, expanded: bool) -> Row<D>
        ensures { result ≡ record { parent = parent; location = location; state = state; expanded = expanded } }
    {
        Row {
            parent,
            location,
            state,
            expanded,
        }
    }

    /// The number of the row from whose expansion it came.
    pub fn parent(&self) -> Option<u32>
        ensures { result ≡ self.now.parent }
    {
        self.parent
    }

    /// The address.
    pub fn location(&self) -> u32
        ensures { result ≡ self.now.location }
    {
        self.location
    }

    /// What is known there.
    pub fn state(&self) -> &State<D>
        ensures { result.now ≡ self.now.state }
    {
        &self.state
    }

    /// Whether it is expanded.
    pub fn is_expanded(&self) -> bool
        ensures { result ≡ self.now.expanded }
    {
        self.expanded
    }
}

/// A log, by its rows, its edges, the causes by the number of the row, and the written ranges.
#[derive(Drop)]
pub struct Log<D: Domain> {
    pub(crate) rows: Vec<Row<D>>,
    pub(crate) edges: Vec<Edge>,
    pub(crate) causes: Vec<(u32, Cause)>,
    pub(crate) writes: Vec<(u32, u32)>,
}

impl<D: Domain> Model for Log<D> {
    ghost use Rattle.flow_worklist.specs.Analysis.{ImageLog};

    ghost Value = { ImageLog D };

    ghost view = { λ l. record { rows = l.rows.items; edges = l.edges.items; causes = l.causes.items; writes = l.writes.items } };
}

impl<D: Domain> Log<D> {
    /// The rows, in order.
    pub fn rows(&self) -> &[Row<D>]
        ensures { result.now ≡ self.now.rows }
    {
        self.rows.as_slice()
    }

    /// The edges, in row order.
    pub fn edges(&self) -> &[Edge]
        ensures { result.now ≡ self.now.edges }
    {
        self.edges.as_slice()
    }

    /// The causes that expansions gave, each with the number of its row.
    pub fn causes(&self) -> &[(u32, Cause)]
        ensures { result.now ≡ self.now.causes }
    {
        self.causes.as_slice()
    }

    /// The ranges that expansions may write: where each is low, and how many bytes.
    pub fn writes(&self) -> &[(u32, u32)]
        ensures { result.now ≡ self.now.writes }
    {
        self.writes.as_slice()
    }
}

// The location of the row of a number.
pub(crate) fn location_at<D: Domain>(rows: &[Row<D>], number: u32) -> Option<u32>
    ensures { result ≡ option_map (λ row. row.location) (slice_get rows.now number) }
{
    match rows.get(number as usize) {
        Some(row) => Some(row.location()),
        None => None,
    }
}
