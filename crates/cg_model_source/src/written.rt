use cg_base::{List, Text};

/// A character of a syntax, or a slot that stands in it.
#[derive(Clone, Copy, Debug, PartialEq, Eq)]
pub enum Mark {
    /// A character that stands in the source as it is.
    Byte(u8),
    /// A slot, by its number.
    Slot(u8),
}

/// A label in a sum.
#[derive(Drop)]
pub struct Term {
    /// Its name.
    pub label: Text,
    /// Whether its address is taken off, and not added.
    pub minus: bool,
}

/// What an operand or a directive is given in source: a number, to which addresses of labels are added
/// (docs/ASSEMBLY.md, "Sums").
#[derive(Drop)]
pub struct Sum {
    /// All its numbers together.
    pub number: i128,
    /// Its labels, in order.
    pub terms: List<Term>,
}
