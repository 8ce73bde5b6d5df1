//! The mode of each expression, and its first fault where it has none.
#![tactic(auto)]

mod modes;

pub use cg_model::ModeFault;
pub use cg_modes_leaf::scope::Scope;
pub use cg_modes_leaf::{leaf, named, verdict};
pub use modes::{mode_among, mode_of, mode_within};
