//! What is wrong with the expressions of a machine, but for their modes: each rule by itself, and the
//! first fault that it finds (docs/REFUSALS.md, "Faults of a machine").
#![tactic(auto)]

mod cells;
mod circle;
mod names;
mod own;
mod purity;
mod rule;
mod unnamed;
mod walk;

pub use cells::{Cells, first_no_cell, first_no_register};
pub use circle::first_circular;
pub use names::{Names, Standing, first_stray};
pub use own::{first_other_mode, first_outside};
pub use purity::{Purity, first_impure, names_many};
pub use unnamed::first_unnamed;
pub use walk::{NodeRule, first_in};
