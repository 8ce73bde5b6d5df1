//! What may stand behind the names of the clauses of hardware.

use crate::keyword::is_keyword;
use crate::kind::{left_out_type, wrong_type};
use crate::rule::{left_out_rule, wrong_get, wrong_set};
use cg_attrs::{Clause, Content, ContentKind, misfit};

/// What has to stand behind the name of a clause of hardware (docs/LANGUAGE.md, "Hardware").
#[derive(Clone, Copy, Debug, PartialEq, Eq)]
pub(crate) enum HardwareContent {
    /// What other forms hold too.
    Shared(Content),
    /// A type.
    Type,
    /// The words of a keyword, or the name of one.
    Keyword,
    /// The formals and the expression of a rule for reading.
    Get,
    /// The formals and the expression of a rule for writing.
    Set,
}

impl ContentKind for HardwareContent {
    ghost use Rattle.cg_hw.specs.Contents as contents;

    ghost wrong = { contents.wrong };

    ghost left_out = { contents.left_out };

    fn first_wrong<'a>(&self, clause: Clause<'a>) -> Option<&'a [u8]> {
        match self {
            HardwareContent::Shared(shared) => shared.first_wrong(clause),
            HardwareContent::Type => wrong_type(clause.name, clause.content),
            HardwareContent::Keyword => misfit(is_keyword(clause.content), clause.name),
            HardwareContent::Get => wrong_get(clause),
            HardwareContent::Set => wrong_set(clause),
        }
    }

    fn first_left_out<'a>(&self, clause: Clause<'a>) -> Option<&'a [u8]> {
        match self {
            HardwareContent::Shared(shared) => shared.first_left_out(clause),
            HardwareContent::Type => left_out_type(clause.content),
            HardwareContent::Keyword => None,
            HardwareContent::Get | HardwareContent::Set => left_out_rule(clause),
        }
    }
}
