// What instructions do to the machine's state.
// It stands on memory_map and x86_syntax.
// Its contract: `specs/Does.antt` gives for an instruction, a choice and a state the next state, or why there is none;
// `operation_of` tells the operation of an instruction.
#![tactic(auto)]

mod addresses;
mod flag_rule;
mod operation;
mod operations;
mod parts;
mod widths;

pub use addresses::{branch_target, next_address};
pub use flag_rule::{FlagRule, status_flags};
pub use operation::{BitChange, FlagChange, Looping, Operation, StringKind};
pub use operations::operation_of;
pub use parts::{AH, byte_part, put_byte_part, upper_register};
pub use widths::has_own_widths;
