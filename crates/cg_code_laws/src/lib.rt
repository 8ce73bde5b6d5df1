//! Laws of encodings.
#![tactic(auto)]

mod reading;

pub use reading::encodings_read_back;
