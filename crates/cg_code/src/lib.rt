//! Instructions as bytes: how long they are, when bytes match them, and their values.
#![tactic(auto)]

mod encoding;
mod extracting;
mod lengths;
mod lookups;
mod matching;
mod putting;

pub use cg_model::Values;
pub use encoding::{NotInRange, encode};
pub use extracting::{extract, slot_mode, values_of, word_pc};
pub use lengths::{insn_length, length};
pub use lookups::{insn_at, operand_at};
pub use matching::{asserted, matches};
pub use putting::{in_place, put_bits};
