//! Expansion of one form: what its macros and built-ins come to, by a budget and a depth.
#![tactic(auto)]

mod charging;
mod expander;

pub use expander::expand;
