// What the image and the stub file that the program makes itself come to when they are read: neither has a fault.
// It stands on `demo_images`, and on what reads images and stub files.
// Its contract: two laws.
#![tactic(auto)]

mod laws;

pub use laws::{demo_images_load, demo_stubs_are_read};
