//! A machine whose elements have no fault is sound.
#![tactic(auto)]

mod law;

pub use law::{accepted_is_sound, faultless_is_sound};
