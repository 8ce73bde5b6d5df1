//! Labels, and the bytes of lines once all labels are known.
#![tactic(auto)]

mod joining;
mod labels;

pub use joining::{Laid, lines_put, on_line};
pub use labels::Labels;
