//! Tests of files and sinks, each over calls that come one behind the other.
#![tactic(auto)]

#[cfg(test)]
mod tests;
