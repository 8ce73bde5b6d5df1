//! Expansion of macros: what the top forms of a description stand for.
#![tactic(auto)]

mod laws;
mod tops;

pub use laws::{call_leaves, quoted_leaf_is_free, same_form_is_equality, unchanged_at_rest};
pub use tops::{SHORT_FORMS, expand, short_forms};
