//! Tests of the decision tree, over machines made by hand.
#![tactic(auto)]

#[cfg(test)]
mod machine;
#[cfg(test)]
mod tests;
