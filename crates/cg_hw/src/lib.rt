//! Reading the forms of hardware.
#![tactic(auto)]

mod content;
mod form;
mod keyword;
mod kind;
mod read;
mod rule;
mod table;

pub use form::HardwareForm;
pub use read::read_hardware;
pub use rule::expression;
