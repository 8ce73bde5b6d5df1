use crate::Rtl;
use cg_base::{List, Text};

/// A part of a format.
#[derive(Clone, Copy, Debug, PartialEq, Eq)]
pub enum Part {
    /// A field that always holds one number.
    Constant {
        /// The field's number.
        field: u16,
        /// What the field holds.
        value: u64,
    },
    /// An operand whose fields hold its value.
    Slot {
        /// The operand's number.
        operand: u16,
    },
}

/// A piece of a syntax.
#[derive(Drop)]
pub enum Piece {
    /// A text that stands in the source as it is.
    Literal(Text),
    /// A slot, by its place among the slots of the format.
    Slot(u8),
}

/// An instruction (docs/LANGUAGE.md, "Instructions").
#[derive(Drop)]
pub struct Insn {
    /// Its name.
    pub name: Text,
    /// Its syntax.
    pub pieces: List<Piece>,
    /// Its format.
    pub parts: List<Part>,
    /// What must not be 0 for bytes to be this instruction.
    pub assertion: Option<Rtl>,
    /// Whether bytes are decoded to it.
    pub decodable: bool,
    /// How long it takes.
    pub cycles: u32,
    /// What it does.
    pub semantics: Rtl,
}

/// What a macro instruction gives for a slot of the instruction that it emits.
#[derive(Clone, Copy, Debug, PartialEq, Eq)]
pub enum Given {
    /// This number.
    Number(i64),
    /// What is written in this slot of its own syntax.
    Slot(u8),
}

/// A line of source that stands for an instruction with some of its slots given.
#[derive(Drop)]
pub struct MacroInsn {
    /// Its name.
    pub name: Text,
    /// Its syntax.
    pub pieces: List<Piece>,
    /// The operands of its own slots.
    pub operands: List<u16>,
    /// The number of the instruction that it emits.
    pub target: u16,
    /// What each slot of that instruction is given.
    pub given: List<Given>,
}

/// The values of an instruction's slots, in the format's order.
#[derive(Clone, Copy, Debug, PartialEq, Eq)]
pub struct Values {
    /// How many slots there are, at most 16.
    pub count: u8,
    /// One number for each slot, modulo 2^bits of the slot's mode, and then zeros.
    pub numbers: [u64; 16],
}

/// Two instructions that match the same bytes.
#[derive(Clone, Copy, Debug, PartialEq, Eq)]
pub struct Clash {
    /// The number of the first.
    pub first: u16,
    /// The number of the second, which stands behind the first.
    pub second: u16,
    /// How many bytes there are: as many as the longer of the two has.
    pub len: u8,
    /// The bytes, and zeros behind them.
    pub bytes: [u8; 16],
}
