//! Whether a machine in hand is accepted, and how it is refused where it isn't (docs/REFUSALS.md, "Faults of a
//! machine").
#![tactic(auto)]

mod checking;
mod clash;

pub use checking::check;
pub use clash::clash_refusal;
