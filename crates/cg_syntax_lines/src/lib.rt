//! What the lines of a source say: labels, directives and bundles.
#![tactic(auto)]

mod blank;
mod line;
mod part;

pub use blank::{is_blank, trimmed};
pub use line::{Line, Statement, is_readable, read_line};
pub use part::{bundle_texts, comma_texts, line_texts};
