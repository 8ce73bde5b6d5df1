//! The machine of a description, or its least refusal (docs/REFUSALS.md).
#![tactic(auto)]

mod clash;
mod judging;
mod selecting;

pub use selecting::machine;
