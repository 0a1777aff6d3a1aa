// The domain of bounded values: a number, one place, somewhere inside a region, or any.
// It stands on `bit_words`, `address_regions` and `domain_laws`.
// Its contract: each method is its defining function, the rules of eval in their order among them, and the domain keeps every law.
#![tactic(auto)]

mod domain;
mod rules;
mod value;

pub use rules::{is_outside, is_stack_mask, offset_down, offset_up, rounded_down, unit_of};
pub use value::Bounded;

#[cfg(test)]
mod tests;
