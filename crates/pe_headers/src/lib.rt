// The headers of a 32-bit executable for Windows, and what they map of the file.
// It stands on memory_map and file_pieces.
// Its contract: `map_file` gives exactly the segments that the headers map, or the first fault of the headers and of these.
#![tactic(auto)]

mod fault;
mod fields;
mod headers;
mod sections;

pub use fault::PeFault;
pub use fields::{address_from, entry, image_base, import_directory};
pub use headers::lacks_magic;
pub use sections::map_file;
