use cg_base::Text;

/// Where the value or index of an operand comes from.
#[derive(Clone, Copy, Debug, PartialEq, Eq)]
pub enum Source {
    /// Nowhere: it is 0.
    None,
    /// The value of the field of this number.
    Field(u16),
    /// The value of the multi field of this number.
    Multi(u16),
    /// This number.
    Fixed(u64),
}

/// What an instruction works on: hardware, and a value or index for it (docs/LANGUAGE.md,
/// "Operands").
#[derive(Drop)]
pub struct Operand {
    /// Its name.
    pub name: Text,
    /// The number of its hardware.
    pub hardware: u16,
    /// Where its value or index comes from.
    pub source: Source,
}
