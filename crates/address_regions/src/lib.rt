// The regions of a program's memory outside its image, the offsets that each has, and the places where they lie in one run.
// It stands on no other crate of this repository.
// Its contract: the extent of each region and the offsets at which a word lies inside it. `specs/Places.antt` has the places, `proofs/` their laws.
#![tactic(auto)]

mod region;

pub use region::Region;
