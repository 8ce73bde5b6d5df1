//! The top call: from the words of a command to its lines and its status.
#![tactic(auto)]

mod asking;
mod decoding;
mod image;
mod laws;
mod lines;
mod listing;
mod loading;
mod own;
mod replies;
mod top;

pub use laws::{one_answer, printed_listings_give_back, some_answer};
pub use top::cgen;
