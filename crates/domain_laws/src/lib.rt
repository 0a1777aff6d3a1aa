// What an abstract value is: the trait of every domain with its laws, what an address can be, and the plainest domain.
// It stands on `bit_words` and `address_regions`.
// Its contract: each method of a domain is its defining function, and every domain keeps each law; flat numbers are one.
#![tactic(auto)]

mod domain;
mod flat;
mod flat_domain;
mod reach;
mod rules;

pub use domain::Domain;
pub use flat::FlatNumbers;
pub use reach::Reach;
pub use rules::{Settled, settle};
