// What readers of image files share: ranges of file bytes, the segments that they map, and what is found in these.
// It stands on memory_map.
// Its contract: `map_pieces` gives exactly the segments of file bytes and zeros, or the first fault of their list; the look-ups give what lies in one segment.
#![tactic(auto)]

mod found;
mod names;
mod piece;

pub use found::{bytes_at, is_in_one, name_from, passes_end};
pub use names::{NameFault, Names, SeenNames};
pub use piece::{Piece, map_pieces};

#[cfg(test)]
mod tests;
