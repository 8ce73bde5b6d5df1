//! What is wrong with a machine in hand: the first fault of each element, and how the machine is refused
//! for it (docs/REFUSALS.md, "Faults of a machine").
#![tactic(auto)]

mod counting;
mod elements;
mod expressions;
mod moded;
mod texts;

pub use counting::{add, field_nodes, hardware_nodes, insn_nodes, multi_nodes, nodes};
pub use elements::{
    first_of_bundle, first_of_field, first_of_hardware, first_of_insn, first_of_macro,
    first_of_multi, first_of_operand, first_of_texts,
};
pub use moded::{
    Wanted, by_mode, first_of_field_modes, first_of_hardware_modes, first_of_insn_modes,
    first_of_multi_modes,
};
