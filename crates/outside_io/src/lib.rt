// The outside of the program: files to read and streams to write.
// It stands on bit_words.
// Its contract: a read or a write fails only where a count of faults rose, and what was read and written is told exactly.
#![tactic(auto)]

mod file_shelf;
mod files;
mod memory_shelf;
mod memory_sink;
mod shelf;
mod sink;
mod stream_sink;
mod sure;
#[cfg(test)]
mod tests;

pub use file_shelf::FileShelf;
pub use memory_shelf::MemoryShelf;
pub use memory_sink::MemorySink;
pub use shelf::{Shelf, ShelfFault};
pub use sink::{PIECE, Sink, SinkFailed, write_all};
pub use stream_sink::{StandardStream, StreamSink};
pub use sure::{SureShelf, SureSink};
