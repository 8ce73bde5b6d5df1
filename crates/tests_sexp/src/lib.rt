//! Tests of reading and printing against texts from outside.
#![tactic(auto)]

#[cfg(test)]
mod tests;
