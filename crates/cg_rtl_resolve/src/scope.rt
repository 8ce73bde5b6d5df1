use cg_base::{List, Mode, Text};

/// A constant of a description's enums.
#[derive(Debug, Drop)]
pub struct EnumValue {
    /// Its name, with the enum's prefix.
    pub name: Text,
    /// Its value.
    pub value: i64,
}

/// Where an expression stands (docs/LANGUAGE.md, "Names in expressions").
#[derive(Debug, Drop)]
pub enum Rule {
    /// What an instruction does.
    Semantics,
    /// What a read of a register gives.
    Get,
    /// What a write of a register does.
    Set,
    /// What a field's bits are.
    Encode,
    /// What a field's value is.
    Decode,
    /// What a subfield's value is, by that of the multi field of this name.
    Insert(Text),
    /// What a multi field's value is.
    Extract,
    /// What must not be 0.
    Assertion,
}

/// What names stand for: the place of each is its number.
#[derive(Debug, Drop)]
pub struct Scope {
    /// The names of the machine's fields.
    pub fields: List<Text>,
    /// The names of its multi fields.
    pub multis: List<Text>,
    /// The names of its hardware.
    pub hardware: List<Text>,
    /// The names of its operands.
    pub operands: List<Text>,
    /// Its constants.
    pub enums: List<EnumValue>,
    /// The texts of its `error` traps.
    pub texts: List<Text>,
    /// The bits of the cpu's word: 8, 16, 32 or 64.
    pub word_bits: u8,
    /// The mode of `value` or `newval`, or of the multi field in its `insert`.
    pub own: Option<Mode>,
    /// Where the expression stands.
    pub rule: Rule,
}

/// How a name lacks a meaning.
#[derive(Clone, Copy)]
pub enum Lack {
    /// Nothing of the wanted kind has the name: E306.
    Undefined,
    /// A bare symbol names nothing at all: E405.
    Unknown,
}
