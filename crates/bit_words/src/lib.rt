// The words of the processor: widths, the operators of its arithmetic, its flags, and the error of a call that only memory can fail.
// It stands on no other crate of this repository.
// Its contract: each operator and flag rule is its formula over numbers, for every width, operand and count.
#![tactic(auto)]

mod flags;
mod memory;
mod op;
#[cfg(test)]
mod tests;
mod width;

pub use flags::{Flags, flags_of_add, flags_of_logic, flags_of_sub};
pub use memory::NoMemory;
pub use op::{Op, apply};
pub use width::Width;
