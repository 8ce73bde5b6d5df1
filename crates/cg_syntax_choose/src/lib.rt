//! Which instruction a text is.
#![tactic(auto)]

mod front;
mod index;
mod order;
mod trying;

pub use index::{Index, Pattern};
pub use order::{known_all, sum_there};
pub use trying::{Choice, choose};
