//! Whether an instruction may stand for the numbers that its slots are given.
#![tactic(auto)]

mod fitting;
mod misfit;
mod sums;
mod value;

pub use fitting::{Fitted, fit};
pub use misfit::{Misfit, is_within, misfit_refusal};
pub use sums::{Sums, copied_sum};
pub use value::wrapped;
