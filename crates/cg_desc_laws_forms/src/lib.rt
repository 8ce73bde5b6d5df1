//! What the frames, fields and hardware of a description without a fault in its forms give a machine.
#![tactic(auto)]

mod clear;
mod laws;

pub use clear::{forms_are_clear, sizes_are_allowed};
pub use laws::sizes_are_kept;
