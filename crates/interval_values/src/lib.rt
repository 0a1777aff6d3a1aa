// The domain of intervals: numbers or offsets at equal distances between two bounds, or any.
// It stands on `bit_words`, `address_regions`, `domain_laws`, and on `bounded_values` for what both do to one offset.
// Its contract: each method is its defining function, the rules of eval in their order among them, and the domain keeps every law.
#![tactic(auto)]

mod divisor;
mod domain;
mod masks;
mod numbers;
mod order;
mod places;
mod rules;
mod span;
mod value;

pub use value::{Interval, NumberSpan, OffsetSpan};

#[cfg(test)]
mod tests;
