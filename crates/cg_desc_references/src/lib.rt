//! The names of a machine's elements, and the names that stand for them:
//! one of another kind than its place takes (E304), and one that isn't defined (E306)
//! (docs/LANGUAGE.md, "Names").
#![tactic(auto)]

mod clauses;
mod finding;
mod judge;
mod reference;
mod references;
mod repeated;
mod repeated_units;
mod units;

pub use clauses::clauses_of;
pub use finding::{Finding, found, is_defined};
pub use judge::{first_of_another_kind, first_undefined, is_of_another_kind, is_undefined};
pub use reference::{Place, Reference};
pub use references::{parts_in, put_names, put_part, put_slots, references_of};
pub use repeated::first_repeated;
