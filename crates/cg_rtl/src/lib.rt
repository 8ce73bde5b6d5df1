//! The shapes of RTL: what is wrong in an expression, and what is left out of the language
//! (docs/LANGUAGE.md, "RTL").
#![tactic(auto)]

mod check;
mod faults;
mod functions;

pub use check::{check_rtl, first_left_out_in, first_wrong_in};
pub use faults::{Flaw, behind_mode, first_symbol, is_else};
pub use functions::Item;
