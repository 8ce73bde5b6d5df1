//! The bytes of statements, and how instructions are shown.
#![tactic(auto)]

mod bundle;
mod bytes;
mod laws;
mod shown;
mod stating;

pub use bundle::{Part, first_label, first_refused, has_empty, part_size, parts_at};
pub use bytes::{put_instruction, set_bundle_bit};
pub use cg_syntax_choose::{Choice, Index, Pattern, choose};
pub use laws::accepted_is_ready;
pub use shown::show;
pub use stating::{said_alone, statement};
