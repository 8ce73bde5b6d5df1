//! The machine of a description: fields, multi fields and hardware with their rules, instructions and
//! macro instructions (docs/LANGUAGE.md, "Machines").
#![tactic(auto)]

mod given;
mod instructions;
mod machine;
mod macros;
mod rules;
mod slots;

pub use given::{given_by, slot_or_keyword};
pub use instructions::{
    assertion_of, insn_by, insn_of, number_or_none, parts_of, pieces_of, semantics_of,
};
pub use machine::{machine_of, ruled_field, ruled_hardware, ruled_multi};
pub use macros::{emitted_name, items_of, macro_slots, numbers_of, target_of};
pub use rules::{read, set_rule, sets_among};
pub use slots::{is_among, place_of, slot_names};
