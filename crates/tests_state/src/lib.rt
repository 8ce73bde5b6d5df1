//! What a machine holds while it runs, against values reckoned by hand.
#![tactic(auto)]

#[cfg(test)]
mod tests;
