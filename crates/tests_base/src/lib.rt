//! Tests of texts, lists, modes and numbers against values from outside.
#![tactic(auto)]

#[cfg(test)]
mod tests;
