//! What a machine holds while it runs (docs/RUNNING.md, "States").
#![tactic(auto)]

mod due;
mod register;
mod starting;
mod state;

pub use cg_model_effects::{Change, Due, Outcome, Place, Trap, Write};
pub use register::Register;
pub use state::State;
