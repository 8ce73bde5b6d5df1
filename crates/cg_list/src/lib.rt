//! The listing of an image: source that gives the image again (docs/ASSEMBLY.md, "Listings").
#![tactic(auto)]

mod bundle;
mod decoding;
mod digits;
mod line;
mod listing;

pub use decoding::decode;
pub use listing::list;
