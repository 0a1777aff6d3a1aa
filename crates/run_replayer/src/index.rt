ghost use Rattle.std.specs.Prelude.{◌≡◌, IfOk, map};
ghost use Rattle.run_replayer.specs.Replaying.{IsIndex};

use crate::sorted::Sorted;
use automaton_text::{Automaton, OpenMark};
use flow_log::Edge;
use std::alloc::{AllocError, Global};

/// What a replay looks up in an automaton: its edges, and the addresses that it marks open.
#[derive(Drop)]
pub struct Index {
    pub edges: Sorted<Edge>,
    pub opened: Sorted<u32>,
}

fn copy_edges(alloc: Global, edges: &[Edge]) -> Result<Vec<Edge>, AllocError>
    ensures { IfOk result (λ copies. copies.items ≡ edges.now) }
{
    let mut copies = Vec::with_capacity(alloc, edges.len())?;
    for e in edges {
        copies.push(e.copy(alloc)?)?;
    }
    Ok(copies)
}

fn open_addresses(alloc: Global, marks: &[OpenMark]) -> Result<Vec<u32>, AllocError>
    ensures { IfOk result (λ found. found.items ≡ map (λ m. m.at) marks.now) }
{
    marks.iter().map(|m| m.at).collect(alloc)
}

/// The index of an automaton.
pub fn index_of(alloc: Global, a: &Automaton) -> Result<Index, AllocError>
    ensures { IfOk result (IsIndex a.now) }
{
    let edges = copy_edges(alloc, a.edges.as_slice())?;
    let opened = open_addresses(alloc, a.marks.as_slice())?;
    Ok(Index {
        edges: Sorted::new(edges),
        opened: Sorted::new(opened),
    })
}
