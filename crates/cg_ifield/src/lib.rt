//! Reading the forms of fields, plain and multi.
#![tactic(auto)]

mod content;
mod form;
mod read;
mod sets;
mod table;

pub use content::FieldContent;
pub use form::{FieldForm, MultiForm, PlainForm};
pub use read::read_field;
pub use sets::{field_set, sets_behind};
pub use table::FieldKind;
