//! Reading the forms of instructions, and the pieces of their syntax.
#![tactic(auto)]

mod content;
mod expression;
mod form;
mod part;
mod read;
mod syntax;
mod table;

pub use content::fits_syntax;
pub use expression::{left_out_expression, wrong_expression};
pub use form::{InsnForm, InstructionForm, MacroForm};
pub use part::{are_parts, is_encoding};
pub use read::read_insn;
pub use syntax::{NamedPiece, is_syntax, pieces};
