use crate::Rtl;
use cg_base::{List, Mode, Text};

/// What kind of thing hardware is.
#[derive(Clone, Copy, Debug, PartialEq, Eq)]
pub enum HwKind {
    /// Cells that hold values.
    Register,
    /// The memory.
    Memory,
    /// The program counter.
    Pc,
    /// A value that stands in the instruction.
    Immediate,
    /// An address that stands in the instruction.
    Address,
}

/// A word of source, and the value that it stands for.
#[derive(Drop)]
pub struct NamedValue {
    /// The word as it was written.
    pub word: Text,
    /// Its value modulo 2^64.
    pub value: u64,
}

/// The words by which the values of hardware are written.
#[derive(Drop)]
pub struct Keyword {
    /// Each word, in the order of the description.
    pub words: List<NamedValue>,
}

/// A register, the memory, the pc, or the kind of a value that an instruction holds
/// (docs/LANGUAGE.md, "Hardware").
#[derive(Drop)]
pub struct Hardware {
    /// Its name.
    pub name: Text,
    /// What it is.
    pub kind: HwKind,
    /// The mode of its values.
    pub mode: Mode,
    /// How many cells a register has, and 0 for all else.
    pub count: u32,
    /// Its words, where its values are written so.
    pub keyword: Option<Keyword>,
    /// What a read gives, where that isn't the cell.
    pub get: Option<Rtl>,
    /// What a write does, where that isn't to set the cell.
    pub set: Option<Rtl>,
}
