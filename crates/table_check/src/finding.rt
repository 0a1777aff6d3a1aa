ghost use Rattle.std.specs.Prelude.{◌≡◌, IfOk, filter_map, flat_map, slice_get};
ghost use Rattle.std.specs.List.{enumerate_from};
ghost use Rattle.table_check.specs.Checking.{broken_in, edges_in};

use bit_words::NoMemory;
use flow_log::Edge;
use std::alloc::Global;

/// What was found of a row.
#[derive(Drop)]
pub enum Finding {
    /// The first clause that fails of it.
    Broken(u8),
    /// The edges of its next pairs.
    Leads(Vec<Edge>),
}

/// The number of the first row that fails, and the first clause that does.
pub fn first_broken(found: &[Finding]) -> Option<(u64, u8)>
    ensures { result ≡ slice_get (filter_map broken_in (enumerate_from 0 found.now)) 0 }
{
    for (number, finding) in found.iter().enumerate() {
        if let Finding::Broken(kind) = finding {
            return Some((number as u64, *kind));
        }
    }
    None
}

/// The edges of all rows, in row order.
pub fn all_edges(alloc: Global, found: Vec<Finding>) -> Result<Vec<Edge>, NoMemory>
    ensures { IfOk result (λ edges. edges.items ≡ flat_map edges_in found.items) }
{
    let mut edges = Vec::new(alloc);
    for finding in found {
        match finding {
            Finding::Broken(_) => {}
            Finding::Leads(mut more) => edges.append(&mut more)?,
        }
    }
    Ok(edges)
}
