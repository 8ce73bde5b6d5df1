//! Modes of expressions that have none in them: numbers, names and locals. What modes have to do
//! with one another.
#![tactic(auto)]

pub mod leaf;
pub mod named;
mod needed;
mod rules;
pub mod scope;
mod search;
mod size;
mod table;
pub mod verdict;

pub use needed::{RuleName, needed_at, rule_named};
pub use rules::{hardware_of, is_set};
pub use search::delays;
pub use size::is_small;
