//! What is counted over a whole machine (E308), what is left out or lacking of its frames (E303, E307), and rules
//! that need themselves (E314) (docs/REFUSALS.md).
#![tactic(auto)]

mod circle;
mod counts;
mod frames;
mod known;
mod limits;
mod passing;
mod shapes;
mod texts;

pub use circle::first_circular;
pub use counts::{Before, Counts};
pub use frames::{first_lacking, first_left_out};
pub use known::Known;
pub use limits::first_passed;
