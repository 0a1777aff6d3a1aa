// From the bytes of a 32-bit executable for Windows to what it maps and imports, or to the first reason to refuse it.
// It stands on memory_map, file_pieces and pe_headers.
// Its contract: `read_pe` answers exactly the image of the file's headers and import directory, and else exactly its first fault.
#![tactic(auto)]

mod descriptor;
mod file;
mod imports;
mod named_places;
mod names;
mod slots;

pub use file::{PeFile, read_pe};
pub use pe_headers::PeFault;

#[cfg(test)]
mod tests;
