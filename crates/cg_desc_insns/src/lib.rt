//! The instructions of a description as they are written: each with anyof operands stands once for each way
//! to choose for them (docs/LANGUAGE.md, "Choices").
#![tactic(auto)]

mod choices;
mod instructions;
mod named;
mod parts;
mod written;

pub use choices::anyofs_of;
pub use instructions::{expanded, form_over};
pub use parts::{own_spot, parts_of};
pub use written::{all_pieces, expression_in, only_in};
