//! Instructions that the same bytes match.
#![tactic(auto)]

mod ambiguity;
mod laws;
mod patterns;

pub use ambiguity::first_clash;
pub use cg_model::Clash;
pub use laws::same_on_strings;
