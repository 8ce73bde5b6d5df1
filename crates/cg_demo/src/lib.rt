//! The made example: a machine with many instructions, and a source for it. A number determines
//! both.
#![tactic(auto)]

mod description;
mod draws;
mod example;
mod source;

pub use example::{Example, demo};
