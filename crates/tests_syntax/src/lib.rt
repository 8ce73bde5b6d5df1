//! What the definitions of syntax, sources and listings give on a machine made by hand.
#![tactic(auto)]

#[cfg(test)]
mod tests;
