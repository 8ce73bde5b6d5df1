//! Reading the files of a description: its own and those of its includes, each in its place
//! (docs/LANGUAGE.md, "Includes"); and what stands in a form.
#![tactic(auto)]

mod fetching;
mod gathering;
mod including;
mod pending;
mod shape;

pub use fetching::fetch;
pub use gathering::{Fetched, Sources};
pub use including::Include;
pub use shape::{
    behind_name, four, is_empty_clause, is_symbol, named, number_clause, one_behind, symbol_clause,
    three, two,
};
