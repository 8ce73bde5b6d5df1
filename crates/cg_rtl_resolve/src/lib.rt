//! What the names of RTL stand for: an expression as it is written becomes one whose names are numbers
//! (docs/LANGUAGE.md, "Names in expressions").
#![tactic(auto)]

mod around;
mod build;
mod function;
mod missing;
mod names;
mod resolver;
mod scope;
mod words;

pub use around::{Around, behind_first, elements_or_none, local_name, name_first, number_of};
pub use build::{elements_first, first_alone, number_first};
pub use function::{Function, function_of};
pub use names::{
    bare_field, constant_named, constant_value, field_named, leaf, named_by_rule, nothing,
    number_named, operand_index,
};
pub use resolver::{built, resolve};
pub use scope::{EnumValue, Lack, Rule, Scope};
pub use words::{Wording, mode_first, mode_named};
