//! Which clauses the forms of fields have.

use crate::content::FieldContent;
use cg_attrs::Role::{LeftOut, Optional, Wanted, WantedBeside};
use cg_attrs::{Content, FormKind, Named, Row, Table, kind_among, named, row};

/// The forms of fields.
#[derive(Clone, Copy, Debug, PartialEq, Eq)]
pub enum FieldKind {
    /// `define-ifield`.
    Plain,
    /// `define-multi-ifield`.
    Multi,
}

impl FormKind for FieldKind {
    ghost use Rattle.cg_ifield.specs.Tables as tables;

    type Content = FieldContent;

    ghost named = { tables.kind_named };

    ghost table = { tables.table_of };

    fn named(head: &[u8]) -> Option<FieldKind> {
        kind_among(HEADS.as_slice(), head)
    }

    fn table(self) -> Table<FieldContent> {
        match self {
            FieldKind::Plain => Table::Clauses(&PLAIN),
            FieldKind::Multi => Table::Clauses(&MULTI),
        }
    }
}

/// The symbols that head the forms.
static HEADS: [Named<FieldKind>; 2] = [
    named!(b"define-ifield", FieldKind::Plain),
    named!(b"define-multi-ifield", FieldKind::Multi),
];

/// One symbol.
const SYMBOL: FieldContent = FieldContent::Shared(Content::Symbol);

/// Anything.
const ANYTHING: FieldContent = FieldContent::Shared(Content::Anything);

/// The clauses of `define-ifield`.
static PLAIN: [Row<FieldContent>; 9] = [
    row!(b"name", Wanted, SYMBOL),
    row!(b"start", Wanted, FieldContent::Shared(Content::Small)),
    row!(b"length", Wanted, FieldContent::Length),
    row!(b"mode", Optional, FieldContent::Mode),
    row!(
        b"word-offset",
        WantedBeside(b"word-length"),
        FieldContent::WordOffset
    ),
    row!(
        b"word-length",
        WantedBeside(b"word-offset"),
        FieldContent::Shared(Content::BitSize)
    ),
    row!(b"encode", Optional, FieldContent::Rule),
    row!(b"decode", Optional, FieldContent::Rule),
    row!(b"follows", LeftOut, ANYTHING),
];

/// The clauses of `define-multi-ifield`.
static MULTI: [Row<FieldContent>; 7] = [
    row!(b"name", Wanted, SYMBOL),
    row!(b"subfields", Wanted, FieldContent::Shared(Content::Symbols)),
    row!(b"insert", Wanted, FieldContent::Insert),
    row!(b"extract", Wanted, FieldContent::Extract),
    row!(b"mode", Optional, FieldContent::Mode),
    row!(b"encode", LeftOut, ANYTHING),
    row!(b"decode", LeftOut, ANYTHING),
];
