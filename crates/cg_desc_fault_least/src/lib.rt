//! The least refusal of a description, but for instructions that clash: form by form, first by its names, counts
//! and data, and then by the modes of its expressions (docs/REFUSALS.md).
#![tactic(auto)]

mod data;
mod least;
mod modes;
mod rules;

pub use least::first_by_elements;
