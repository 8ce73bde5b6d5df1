//! How slots are written: keywords, labels and sums.
#![tactic(auto)]

mod character;
mod keyword;
mod laws;
mod sum;
mod word;

pub use character::{has_words, is_in_label, is_label, lower, may_have};
pub use keyword::{Keywords, keywords_of};
pub use laws::same_spellings;
pub use sum::sum_of;
pub use word::{cut, spelled, word_value};
