//! The decision tree of a machine's decoder, in an arena (docs/LANGUAGE.md, "The decision tree").
#![tactic(auto)]

mod asking;
mod bits;
mod branch;
mod building;
mod finding;
mod growing;
mod laws;
mod steps;
mod table;
mod tree;

pub use building::build;
pub use laws::decoded_alone;
pub use steps::Steps;
pub use tree::Tree;
