//! The expressions of a description, clause by clause: what stands in them, whether those are pure that have
//! to be (E315), and symbols that name nothing (E405) (docs/REFUSALS.md).
#![tactic(auto)]

mod asking;
mod clauses;
mod instructions;
mod judging;
mod purity;
mod symbols;
mod unknown;

pub use asking::{Asked, Asking, Expression, Naming, asks_meaning, asks_operands, is_coding};
pub use clauses::{expressions, sets_in};
pub use judging::{UseRule, no_operand, put_of_expression, put_of_expressions};
pub use purity::first_impure;
pub use symbols::is_anyof;
pub use unknown::first_unknown;
