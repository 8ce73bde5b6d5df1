//! The data of a machine, and what they mean.
#![tactic(auto)]

mod bits;
mod field;
mod hardware;
mod insn;
mod judged;
mod laws;
mod machine;
mod operand;
mod rtl;

pub use bits::{extended, field_bits};
pub use field::{Field, Multi};
pub use hardware::{Hardware, HwKind, Keyword, NamedValue};
pub use insn::{Clash, Given, Insn, MacroInsn, Part, Piece, Values};
pub use judged::{Kind, Local, ModeFault};
pub use laws::values_are_judged;
pub use machine::{Alignment, Machine};
pub use operand::{Operand, Source};
pub use rtl::{Op, Rtl};
