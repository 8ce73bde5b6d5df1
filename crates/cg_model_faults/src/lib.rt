//! What a machine in hand is refused for (docs/REFUSALS.md, "Faults of a machine").
#![tactic(auto)]

mod fault;

pub use fault::{MachineFault, Purpose, Said};
