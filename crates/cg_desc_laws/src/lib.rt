//! The machine of a description without a fault is formed, and has no fault in hand.
#![tactic(auto)]

mod counted;
mod faultless;
mod fitted;
mod laws;
mod machine;
mod meant;
mod numbered;
mod unrefused;

pub use counted::counts_are_kept;
pub use faultless::machine_is_faultless;
pub use fitted::elements_fit;
pub use laws::elements_are_formed;
pub use machine::machine_is_formed;
pub use meant::expressions_are_meant;
pub use numbered::numbers_name_elements;
pub use unrefused::no_element_is_refused;
