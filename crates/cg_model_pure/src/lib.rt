//! What pure expressions give: the rules of fields and the assertions of instructions.
#![tactic(auto)]

mod rules;

pub use rules::{decoded, field_value, multi_value, pure_eval};
