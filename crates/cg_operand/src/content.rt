//! What may stand behind the names of the clauses of operands.

ghost use Rattle.std.specs.Prelude.{◌≡◌};
ghost use Rattle.cg_operand.specs.Contents.{is_index, fits_index, are_names};

use cg_attrs::{Clause, Content, ContentKind, misfit, only_elements};
use cg_base::{Form, are_symbols, only};
use cg_insn::{fits_syntax, is_encoding, left_out_expression, wrong_expression};

/// What has to stand behind the name of a clause of an operand (docs/LANGUAGE.md, "Operands").
#[derive(Clone, Copy, Debug, PartialEq, Eq)]
pub(crate) enum OperandContent {
    /// What other forms hold too.
    Shared(Content),
    /// One symbol or number.
    Index,
    /// One list of symbols.
    Names,
    /// One string that is a syntax.
    Syntax,
    /// `(+ part ..)`.
    Encoding,
    /// One expression.
    Expression,
}

impl ContentKind for OperandContent {
    ghost use Rattle.cg_operand.specs.Contents as contents;

    ghost wrong = { contents.wrong };

    ghost left_out = { contents.left_out };

    fn first_wrong<'a>(&self, clause: Clause<'a>) -> Option<&'a [u8]> {
        match self {
            OperandContent::Shared(shared) => shared.first_wrong(clause),
            OperandContent::Index => misfit(fits_index(clause.content), clause.name),
            OperandContent::Names => misfit(are_names(clause.content), clause.name),
            OperandContent::Syntax => misfit(fits_syntax(clause.content), clause.name),
            OperandContent::Encoding => misfit(is_encoding(clause.content), clause.name),
            OperandContent::Expression => wrong_expression(clause),
        }
    }

    fn first_left_out<'a>(&self, clause: Clause<'a>) -> Option<&'a [u8]> {
        match self {
            OperandContent::Shared(shared) => shared.first_left_out(clause),
            OperandContent::Expression => left_out_expression(clause),
            OperandContent::Index
            | OperandContent::Names
            | OperandContent::Syntax
            | OperandContent::Encoding => None,
        }
    }
}

/// Whether the form is a symbol or a number.
fn is_index(form: &Form) -> bool
    ensures { result ≡ is_index form.now }
{
    form.is_symbol() || form.number().is_some()
}

/// Whether the content is one symbol or number.
fn fits_index(forms: &[Form]) -> bool
    ensures { result ≡ fits_index forms.now }
{
    match only(forms) {
        Some(form) => is_index(form),
        None => false,
    }
}

/// Whether the content is one list of symbols.
fn are_names(forms: &[Form]) -> bool
    ensures { result ≡ are_names forms.now }
{
    match only_elements(forms) {
        Some(elements) => are_symbols(elements),
        None => false,
    }
}
