use cg_base::Mode;
use cg_model::Op;

/// What a text of a refusal says. A number names an element of the machine at hand.
#[derive(Clone, Copy)]
pub enum Said {
    /// No bytes.
    Nothing,
    /// The name of the element that is at fault.
    Own,
    /// The name of a field.
    Field(usize),
    /// The names of two fields, a blank between.
    Fields(usize, usize),
    /// The name of a multi field.
    Multi(usize),
    /// The name of hardware.
    Hardware(usize),
    /// The name of an operand.
    Operand(usize),
    /// A count, in decimal.
    Count(u64),
    /// A number, in decimal.
    Number(i64),
    /// Two modes, a blank between.
    Modes(Mode, Mode),
    /// The name by which a rule names its value, its index or its new value.
    Name(Op),
}

/// What is wrong with an element of a machine (docs/REFUSALS.md, "Faults of a machine").
#[derive(Clone, Copy)]
pub struct MachineFault {
    /// The number of its refusal, as 310 for `E310`.
    pub number: u16,
    /// Where it stands in the element: the place of a piece, a part, an operand or a given
    /// number, by what the refusal speaks of, and 0 where it speaks of the whole.
    pub place: usize,
    /// The text of its refusal.
    pub text: Said,
    /// The rest of it.
    pub other: Said,
}

/// What an expression of a machine is for.
#[derive(Clone, Copy, PartialEq, Eq)]
pub enum Purpose {
    /// What a field's value is for its bits.
    Encode,
    /// What a field's bits are for its value.
    Decode,
    /// The value of one field of a multi field.
    Insert,
    /// The value of a multi field.
    Extract,
    /// What a read of a register gives.
    Get,
    /// What a write of a register does.
    Set,
    /// What must not be 0 for bytes to be an instruction.
    Assertion,
    /// What an instruction does.
    Semantics,
}
