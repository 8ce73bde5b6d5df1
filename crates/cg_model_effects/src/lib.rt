//! What instructions do, asking devices in turn (docs/LANGUAGE.md, "Expressions").
#![tactic(auto)]

mod laws;
mod outcome;

pub use laws::effects_are_judged;
pub use outcome::{Change, Due, Outcome, Place, Trap, Write};
