ghost use Rattle.std.specs.Prelude.{◌≡◌};

use cg_base::{List, Mode};
use std::alloc::AllocError;

/// What an RTL expression does with its items (docs/LANGUAGE.md, "RTL"). The variants stand in
/// the order of their tags in a table file.
#[derive(Clone, Copy, Debug, PartialEq, Eq)]
pub enum Op {
    /// A constant.
    Number,
    /// A local of a `sequence`.
    Local,
    /// An operand: a cell, the pc or a slot's value.
    OperandRef,
    /// The rule's own value, in `encode` and `decode`; in `insert` the multi field's.
    Value,
    /// The index of a get or set rule.
    Index,
    /// The new value of a set rule.
    NewVal,
    /// The pc.
    Pc,
    /// The value of a field.
    FieldRef,
    /// The value of a multi field.
    MultiRef,
    /// The index of an operand.
    IndexOf,
    /// An operation with one operand.
    Unary,
    /// An operation with two operands.
    Binary,
    /// An operation with three operands, the third a carry.
    Ternary,
    /// 1 where no item is 0, evaluated up to the first that is.
    AndIf,
    /// 1 where some item isn't 0, evaluated up to the first such.
    OrIf,
    /// Wider, by the item's highest bit.
    Ext,
    /// Wider, with zeros in front.
    Zext,
    /// Narrower.
    Trunc,
    /// One part of a wider value.
    Subword,
    /// Parts side by side, the first the most significant.
    Join,
    /// A test and one or two arms.
    If,
    /// Arms, of which the first is taken whose test isn't 0.
    Cond,
    /// A value and arms, of which the first is taken that names it.
    Case,
    /// An arm: its tests, then its expressions.
    Arm,
    /// Declared locals, then expressions in order.
    Sequence,
    /// A local, or the mode of a `join`'s parts.
    Declare,
    /// Expressions that all read the state before.
    Parallel,
    /// A place and the value that is written to it.
    Set,
    /// A register's cell, by its get and set rules.
    Reg,
    /// A register's cell itself.
    RawReg,
    /// Memory at an address.
    Mem,
    /// Writes that come some bundles later.
    Delay,
    /// Nothing.
    Nop,
    /// A trap with a text.
    Error,
    /// The end of the run, with a code.
    Halt,
}

/// An RTL expression with its names as numbers. What `number` is, and which items stand where,
/// goes by the operation (docs/LANGUAGE.md, "RTL").
#[derive(Drop)]
pub struct Rtl {
    /// What it does.
    pub op: Op,
    /// The mode that was written.
    pub mode: Option<Mode>,
    /// The constant, or the number of what is named, and 0 where neither is meant.
    pub number: i64,
    /// Its items in order.
    pub items: List<Rtl>,
}

impl Clone for Rtl {
    ghost is_clone = { λ v w. w ≡ v };

    fn clone(&self) -> Result<Rtl, AllocError> {
        let mut copies = Vec::new(self.items.allocator());
        for item in self.items.as_slice() {
            copies.push(item.clone()?)?;
        }
        Ok(Rtl {
            op: self.op,
            mode: self.mode,
            number: self.number,
            items: List::from_vec(copies),
        })
    }
}
