//! Which clauses the forms of instructions have.

use crate::content::InsnContent;
use cg_attrs::Role::{Optional, SpellingOf, Wanted};
use cg_attrs::{Content, FormKind, Named, Row, Table, kind_among, named, row};

/// The forms of instructions.
#[derive(Clone, Copy, Debug, PartialEq, Eq)]
pub(crate) enum InsnKind {
    /// `define-insn`.
    Instruction,
    /// `define-macro-insn`.
    Macro,
}

impl FormKind for InsnKind {
    ghost use Rattle.cg_insn.specs.Tables as tables;

    type Content = InsnContent;

    ghost named = { tables.kind_named };

    ghost table = { tables.table_of };

    fn named(head: &[u8]) -> Option<InsnKind> {
        kind_among(HEADS.as_slice(), head)
    }

    fn table(self) -> Table<InsnContent> {
        match self {
            InsnKind::Instruction => Table::Clauses(&INSTRUCTION),
            InsnKind::Macro => Table::Clauses(&MACRO),
        }
    }
}

/// The symbols that head the forms.
static HEADS: [Named<InsnKind>; 2] = [
    named!(b"define-insn", InsnKind::Instruction),
    named!(b"define-macro-insn", InsnKind::Macro),
];

/// One symbol.
const SYMBOL: InsnContent = InsnContent::Shared(Content::Symbol);

/// The clauses of `define-insn`.
static INSTRUCTION: [Row<InsnContent>; 6] = [
    row!(b"name", Wanted, SYMBOL),
    row!(b"syntax", Wanted, InsnContent::Syntax),
    row!(b"format", Wanted, InsnContent::Format),
    row!(b"semantics", Wanted, InsnContent::Expression),
    row!(b"timing", Optional, InsnContent::Timing),
    row!(b"ifield-assertion", Optional, InsnContent::Expression),
];

/// The clauses of `define-macro-insn`.
static MACRO: [Row<InsnContent>; 4] = [
    row!(b"name", Wanted, SYMBOL),
    row!(b"syntax", Wanted, InsnContent::Syntax),
    row!(b"expansions", Wanted, InsnContent::Expansion),
    row!(
        b"expansion",
        SpellingOf(b"expansions"),
        InsnContent::Expansion
    ),
];
