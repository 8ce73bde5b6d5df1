//! Values of pure expressions together with their modes: what the operations give, and the laws
//! that it is what the expressions mean.
#![tactic(auto)]

pub mod around;
mod evaluator;
pub mod leads;
pub mod leaf;
pub mod typed;
pub mod words;

pub use evaluator::eval;
