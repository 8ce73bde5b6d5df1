//! The names in a description: those that stand for something of another kind than their place takes (E304),
//! and those that stand for nothing (E306) (docs/REFUSALS.md).
#![tactic(auto)]

mod kinds;
mod macros;
mod missing;
mod names;
mod shapes;
mod words;

pub use kinds::first_of_another_kind;
pub use missing::first_missing;
