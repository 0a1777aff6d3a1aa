// Files to read: executables built from their fields, and the demo image with its stub file.
// It stands on bit_words.
// Its contract: `demo`, `form_e`, `form_d` and `form_p` give exactly the files that `specs/` describes field by field.
#![tactic(auto)]

mod elf;
mod forms;
mod generator;
mod import;
mod import_tables;
mod little_endian;
mod pe;

pub use forms::{form_d, form_e};
pub use generator::{DemoFault, MOST_BLOCKS, demo};
pub use import::Import;
pub use pe::form_p;

#[cfg(test)]
mod tests;
