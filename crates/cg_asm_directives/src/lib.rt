//! What the lines of a source lay down: data, texts, gaps and bundles.
#![tactic(auto)]

mod content;
mod order;
mod unfit;

pub use content::{Content, content_of, content_size, order_size};
pub use order::{Order, Width, width_bytes};
pub use unfit::{unfit_in, unfit_refusal};
