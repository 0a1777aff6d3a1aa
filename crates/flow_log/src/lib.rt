// The flow log: how an exploration is written down, what a run of a machine is, and why no run leaves a finished log.
// It stands on memory_map, for the names of imports.
// Its contract: `specs/` has the definitions and `proofs/` the theorem, for every analysis and every machine.
#![tactic(auto)]

mod cause;
mod edge;
mod sets;

pub use cause::Cause;
pub use edge::{Edge, Label};
pub use sets::{sorted_edges, sorted_set};
