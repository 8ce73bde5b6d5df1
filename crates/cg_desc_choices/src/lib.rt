//! Instructions whose anyof operands are replaced by their choices: in expressions, in syntaxes and in
//! formats (docs/LANGUAGE.md, "Choices").
#![tactic(auto)]

mod choosing;
mod joining;
mod putting;
mod stand;
mod ways;
mod written;

pub use choosing::with_choices;
pub use putting::put;
pub use stand::Stand;
pub use ways::each_choice;
pub use written::{
    Anyof, Choice, Chosen, NamedPart, Spot, Written, WrittenAssertion, WrittenPart, WrittenPiece,
};
