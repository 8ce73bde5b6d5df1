//! The elements of a description: each form as its reader gives it, and which of them a machine has
//! (docs/LANGUAGE.md, "Selection").
#![tactic(auto)]

mod belonging;
mod element;
mod kind;
mod reading;
mod selected;

pub use belonging::{belongs_to_isa, belongs_to_machine};
pub use element::Element;
pub use kind::{Kind, Namespace};
pub use reading::{Reader, element_of, elements};
pub use selected::{isas_of, selected_arch, selected_isa, selected_mach};
