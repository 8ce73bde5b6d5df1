//! What source means: its lines, statements, bundles and image, and the listing of an image (docs/ASSEMBLY.md).
#![tactic(auto)]

mod written;

pub use written::{Mark, Sum, Term};
