//! Whether the values of a machine's data are allowed at all, whatever else is wrong with them
//! (docs/REFUSALS.md, "Faults of a machine").
#![tactic(auto)]

mod elements;
mod place;
mod standing;

pub use elements::{are_all_words, is_formed, is_piece};
