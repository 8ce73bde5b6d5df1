//! Which clauses the forms of operands have.

use crate::content::OperandContent;
use cg_attrs::Role::{LeftOut, Optional, Plain, Wanted};
use cg_attrs::{Content, FormKind, Named, Row, Table, kind_among, named, row};

/// The forms of operands.
#[derive(Clone, Copy, Debug, PartialEq, Eq)]
pub(crate) enum OperandKind {
    /// `define-operand`.
    Plain,
    /// `define-derived-operand`.
    Derived,
    /// `define-anyof-operand`.
    Anyof,
}

impl FormKind for OperandKind {
    ghost use Rattle.cg_operand.specs.Tables as tables;

    type Content = OperandContent;

    ghost named = { tables.kind_named };

    ghost table = { tables.table_of };

    fn named(head: &[u8]) -> Option<OperandKind> {
        kind_among(HEADS.as_slice(), head)
    }

    fn table(self) -> Table<OperandContent> {
        match self {
            OperandKind::Plain => Table::Clauses(&PLAIN),
            OperandKind::Derived => Table::Clauses(&DERIVED),
            OperandKind::Anyof => Table::Clauses(&ANYOF),
        }
    }
}

/// The symbols that head the forms.
static HEADS: [Named<OperandKind>; 3] = [
    named!(b"define-operand", OperandKind::Plain),
    named!(b"define-derived-operand", OperandKind::Derived),
    named!(b"define-anyof-operand", OperandKind::Anyof),
];

/// One symbol.
const SYMBOL: OperandContent = OperandContent::Shared(Content::Symbol);

/// Anything.
const ANYTHING: OperandContent = OperandContent::Shared(Content::Anything);

/// The clauses of `define-operand`.
static PLAIN: [Row<OperandContent>; 7] = [
    row!(b"name", Wanted, SYMBOL),
    row!(b"type", Wanted, SYMBOL),
    row!(b"index", Wanted, OperandContent::Index),
    row!(b"mode", Plain, ANYTHING),
    row!(b"handlers", LeftOut, ANYTHING),
    row!(b"getter", LeftOut, ANYTHING),
    row!(b"setter", LeftOut, ANYTHING),
];

/// The clauses of `define-derived-operand`.
static DERIVED: [Row<OperandContent>; 9] = [
    row!(b"name", Wanted, SYMBOL),
    row!(b"args", Wanted, OperandContent::Names),
    row!(b"syntax", Wanted, OperandContent::Syntax),
    row!(b"base-ifield", Wanted, SYMBOL),
    row!(b"encoding", Wanted, OperandContent::Encoding),
    row!(b"getter", Wanted, OperandContent::Expression),
    row!(b"setter", Wanted, OperandContent::Expression),
    row!(b"ifield-assertion", Optional, OperandContent::Expression),
    row!(b"mode", Plain, ANYTHING),
];

/// The clauses of `define-anyof-operand`.
static ANYOF: [Row<OperandContent>; 3] = [
    row!(b"name", Wanted, SYMBOL),
    row!(b"choices", Wanted, OperandContent::Shared(Content::Symbols)),
    row!(b"mode", Plain, ANYTHING),
];
