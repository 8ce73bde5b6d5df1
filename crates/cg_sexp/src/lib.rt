//! Reads texts into forms, and prints forms (docs/LANGUAGE.md, "Texts and forms").
#![tactic(auto)]

mod clauses;
mod forms;
mod kind;
mod printing;
mod reader;
mod refused;
mod stack;
mod token;

pub use clauses::clause;
pub use forms::{one_reading, read};
pub use printing::print;
