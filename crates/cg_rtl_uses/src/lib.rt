//! What stands in an expression of RTL, from left to right: its operations, and the names that stand for constants
//! or for nothing, each with its place (docs/LANGUAGE.md, "Names in expressions").
#![tactic(auto)]

mod names;
mod place;
mod uses;
mod walk;

pub use uses::{PlacedUse, Use};
pub use walk::uses_of;
