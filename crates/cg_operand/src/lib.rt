//! Reading the forms of operands, plain, derived and anyof.
#![tactic(auto)]

mod content;
mod form;
mod read;
mod table;

pub use form::{AnyofOperandForm, DerivedOperandForm, OperandForm, PlainOperandForm};
pub use read::read_operand;
