// Statements: small steps in which an instruction is done, and what a list of them does to the machine's state.
// It stands on x86_semantics and memory_map.
// Its contract: `run_stmts` does every list exactly as `specs/Run.antt` says.
#![tactic(auto)]

mod block;
mod cells;
mod conditions;
mod mapped;
mod memory;
mod parts;
mod rules;
mod running;
mod stmt;

pub use block::Block;
pub use cells::Cells;
pub use rules::status_of;
pub use running::run_stmts;
pub use stmt::{Ran, Source, Stmt, Stmts, Test};
pub use x86_semantics::FlagRule;
