use cg_base::{List, Mode, Text};
use cg_model::Op;

/// What stands at one place of an expression (docs/LANGUAGE.md, "Names in expressions").
#[derive(Debug, Drop)]
pub enum Use {
    /// An operation with its mode and its number.
    Node(Op, Option<Mode>, i64),
    /// A bare symbol that is a constant of an enum, with its value.
    Constant(Text, i64),
    /// A name that isn't defined by its kind.
    Undefined(Text),
    /// A bare symbol that names nothing at all.
    Unknown(Text),
}

/// What stands at one place of an expression, with the place.
#[derive(Debug, Drop)]
pub struct PlacedUse {
    /// The places of elements in their lists, from the outermost list inwards, each counted from 0.
    pub place: List<usize>,
    /// What stands there.
    pub what: Use,
}
