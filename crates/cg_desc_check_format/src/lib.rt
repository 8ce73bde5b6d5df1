//! What is wrong with the fields of a machine, and with its formats and syntaxes: each rule by itself,
//! and the first fault that it finds (docs/REFUSALS.md, "Faults of a machine").
#![tactic(auto)]

mod constants;
mod counts;
mod delimited;
mod fields;
mod numbers;
mod overlap;
mod slots;

pub use constants::first_unfit;
pub use counts::{
    bytes_of, first_long_insn, first_long_syntax, first_of_too_many_insns, first_passing,
};
pub use delimited::first_undelimited;
pub use fields::{first_misplaced, first_no_bundle_bit};
pub use numbers::{
    first_no_bundle, first_no_emitted, first_no_sub, first_shapeless, first_unsourced, slot_count,
};
pub use overlap::{bits_covered, fields_of_part, first_bundled, first_overlap};
pub use slots::{first_ungiven, first_unmatched, first_unused, first_written_twice};
