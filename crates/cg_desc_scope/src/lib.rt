//! What a description says of a machine before its expressions are read: the instructions as they are
//! written, and all that their names stand for (docs/LANGUAGE.md, "Machines").
#![tactic(auto)]

mod bare;
mod by_form;
mod described;
mod once;
mod texts;
mod timing;

pub use bare::{all_bare, bare_names, bare_operand};
pub use by_form::ByForm;
pub use described::{Described, append, describe, scope_of};
pub use once::distinct;
pub use texts::{error_texts, texts_with};
pub use timing::{cycles_of, first_model};
