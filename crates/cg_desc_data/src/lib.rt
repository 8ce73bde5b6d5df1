//! The data of a machine as its description says it, but for instructions and what is written in RTL:
//! its frames, fields, multi fields, hardware and operands (docs/LANGUAGE.md, "Machines").
#![tactic(auto)]

mod extent;
mod fields;
mod framing;
mod hardware;
mod keywords;
mod members;
mod multis;
mod numbering;
mod operands;
mod selecting;

pub use extent::{Extent, extent_of, field_of, has_place, is_constant};
pub use fields::fields_of;
pub use framing::{Framing, cut, framing_of, isa_form};
pub use hardware::{built_in, cells_of, hardware_list, hardware_of};
pub use keywords::{keyword_named, words, words_of, wrapped};
pub use members::{
    field_member, field_names, hardware_member, hardware_names, multi_member, multi_names,
    operand_names,
};
pub use multis::{multi_of, multis_of};
pub use numbering::{Numbering, Numbers, numbers_of, short};
pub use operands::{constants, field_source, operand_of, operands_of};
pub use selecting::Selection;
