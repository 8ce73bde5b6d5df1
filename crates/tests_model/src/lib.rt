//! What the definitions of a machine give on machines made by hand.
#![tactic(auto)]

#[cfg(test)]
mod tests;
