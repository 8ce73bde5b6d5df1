//! The fields, formats and syntaxes of a description: fields that leave their words (E309), parts that cover one
//! bit (E310), constants that don't fit (E311), slots that aren't delimited (E312), slots that differ (E313)
//! and the bundle field (E316) (docs/REFUSALS.md).
#![tactic(auto)]

mod bits;
mod bundle;
mod constants;
mod delimited;
mod emitted;
mod fields;
mod slots;

pub use bits::first_overlap;
pub use bundle::first_of_bundle;
pub use constants::first_unfit;
pub use delimited::first_undelimited;
pub use fields::first_misplaced;
pub use slots::first_unmatched;
