//! Cases of expansion: texts, what they expand to, and how they are refused.
#![tactic(auto)]

#[cfg(test)]
mod cases;
#[cfg(test)]
mod short;
#[cfg(test)]
mod tests;
