//! The image of a source.
#![tactic(auto)]

mod assembling;
mod faults;
mod placing;

pub use assembling::{AsmStop, SourceRefusal, assemble};
