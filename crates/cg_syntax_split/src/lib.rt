//! How a text is split by a syntax.
#![tactic(auto)]

mod character;
mod laws;
mod splitting;
mod squeeze;

pub use laws::texts_split_once;
pub use splitting::{Filled, split};
pub use squeeze::{squeezed, squeezed_syntax};
