// The machine's memory and state: what a loader maps, what a run may start from, and what a step may choose.
// It stands on no other crate.
// Its contract: `specs/` has the machine's state whole; the types here are what code and definitions share.
#![tactic(auto)]

mod alignment;
mod bytes;
mod choice;
mod fault;
mod file_bytes;
mod format;
mod import_name;
mod items;
mod name;
mod patch;
mod perm;
mod ranges;
mod registers;
mod runs;
mod segment;
mod segments;
mod span;
mod span_index;

pub use alignment::is_alignment;
pub use bytes::Bytes;
pub use choice::{Choice, Fill};
pub use fault::{BadKind, FaultKind, MapFault};
pub use file_bytes::{half_at, word_at};
pub use format::Format;
pub use import_name::ImportName;
pub use items::Items;
pub use name::{LONGEST_NAME, MOST_NAMES, Name, is_name};
pub use perm::Perm;
pub use ranges::Ranges;
pub use registers::{EAX, EBP, EBX, ECX, EDI, EDX, ESI, ESP, Regs};
pub use segment::{Segment, USER_END, USER_LOW};
pub use segments::{MAPPED_BYTES, Segments};
pub use span::{Span, sort_by_low};

#[cfg(test)]
mod tests;
