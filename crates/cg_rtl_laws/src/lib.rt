//! Expressions in which nothing is wrong stand for expressions that are formed.
#![tactic(auto)]

mod laws;
mod uses;

pub use laws::{moded_is_shallow, named_is_formed, shaped_is_formed};
pub use uses::{nodes_are_covered, numbers_name_something, values_stand_inside};
