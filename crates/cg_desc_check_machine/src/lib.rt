//! How a machine in hand is refused for its data and for the modes of its expressions (docs/REFUSALS.md,
//! "Faults of a machine").
#![tactic(auto)]

mod fold;
mod modes;
mod said;
mod whole;

pub use said::{refusal_for, said_text, spaced};
pub use whole::first_refusal;
