//! What a refusal of a description says, and of which place in a clause (docs/REFUSALS.md).
#![tactic(auto)]

mod saying;
mod spots;
mod subject;

pub use saying::{
    Placed, Saying, earliest_said, fault_said, is_before, joined_place, only_text, put_at,
    put_copies, refusal_of, texts_said,
};
pub use spots::{part_spot, place_at, put_at_part, put_at_piece, put_at_spot, spot_among};
pub use subject::Subject;
