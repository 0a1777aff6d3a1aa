// The listing of the instructions that stand one after another in an image's executable bytes.
// It stands on image_loader, x86_decoder and text_fields.
// Its contract: `print_listing` gives exactly a text that `specs/Listing.antt` defines, of which there is one alone.
#![tactic(auto)]

mod laws;
mod listing;

pub use laws::one_listing;
pub use listing::print_listing;
