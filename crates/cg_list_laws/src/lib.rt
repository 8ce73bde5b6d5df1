//! The law of listings: the source that an image is listed as gives the image again (docs/ASSEMBLY.md, "Listings").
#![tactic(auto)]

mod laws;

pub use laws::listings_give_back;
