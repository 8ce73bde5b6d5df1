//! What may stand behind the names of the clauses of fields.

ghost use Rattle.std.specs.Prelude.{◌≡◌};
ghost use Rattle.std.specs.Option.{option_copied};
ghost use Rattle.cg_base.specs.Refusing.{first};
ghost use Rattle.cg_attrs.specs.Clauses.{seen_clause};
ghost use Rattle.cg_rtl.specs.Shapes.{wrong_in, left_out_in};
ghost use Rattle.cg_ifield.specs.Contents.{is_field_mode, is_word_offset, is_length, fits_mode, fits_word_offset, are_formals, is_rule_in, is_rule, second, expression, inside, wrong_rule};

use crate::sets::{left_out_sets, wrong_extract, wrong_insert};
use cg_attrs::{Clause, Content, ContentKind, is_named, misfit, only_elements};
use cg_base::{Form, is_value_mode, only_natural, only_number, only_symbol};
use cg_rtl::{first_left_out_in, first_wrong_in};

/// What has to stand behind the name of a clause of a field (docs/LANGUAGE.md, "Fields").
#[derive(Clone, Copy, Debug, PartialEq, Eq)]
pub enum FieldContent {
    /// What other forms hold too.
    Shared(Content),
    /// One number.
    Length,
    /// A mode but `VOID`.
    Mode,
    /// A multiple of 8 from 0 to 65,528.
    WordOffset,
    /// `((value pc) expr)`.
    Rule,
    /// Sets of the subfields, each once.
    Insert,
    /// One set of the field itself.
    Extract,
}

impl ContentKind for FieldContent {
    ghost use Rattle.cg_ifield.specs.Contents as contents;

    ghost wrong = { contents.wrong };

    ghost left_out = { contents.left_out };

    fn first_wrong<'a>(&self, clause: Clause<'a>) -> Option<&'a [u8]> {
        match self {
            FieldContent::Shared(shared) => shared.first_wrong(clause),
            FieldContent::Length => misfit(is_length(clause.content), clause.name),
            FieldContent::Mode => misfit(fits_mode(clause.content), clause.name),
            FieldContent::WordOffset => misfit(fits_word_offset(clause.content), clause.name),
            FieldContent::Rule => wrong_rule(clause),
            FieldContent::Insert => wrong_insert(clause),
            FieldContent::Extract => wrong_extract(clause),
        }
    }

    fn first_left_out<'a>(&self, clause: Clause<'a>) -> Option<&'a [u8]> {
        match self {
            FieldContent::Shared(shared) => shared.first_left_out(clause),
            FieldContent::Rule => left_out_in_rule(clause.content),
            FieldContent::Insert | FieldContent::Extract => left_out_sets(clause),
            FieldContent::Length | FieldContent::Mode | FieldContent::WordOffset => None,
        }
    }
}

/// Whether the text names a mode that a field may have.
fn is_field_mode(text: &[u8]) -> bool
    ensures { result ≡ is_field_mode text.now }
{
    is_value_mode(text) || matches!(text, b"DFLT")
}

/// Whether the number is an offset of a word.
fn is_word_offset(bits: u64) -> bool
    ensures { result ≡ is_word_offset bits }
{
    bits <= 65535 && bits % 8 == 0
}

/// Whether the content is one number.
fn is_length(forms: &[Form]) -> bool
    ensures { result ≡ is_length forms.now }
{
    only_number(forms).is_some()
}

/// Whether the content is one mode that a field may have.
fn fits_mode(forms: &[Form]) -> bool
    ensures { result ≡ fits_mode forms.now }
{
    match only_symbol(forms) {
        Some(text) => is_field_mode(text.as_slice()),
        None => false,
    }
}

/// Whether the content is one offset of a word.
fn fits_word_offset(forms: &[Form]) -> bool
    ensures { result ≡ fits_word_offset forms.now }
{
    match only_natural(forms) {
        Some(bits) => is_word_offset(bits),
        None => false,
    }
}

/// Whether the forms are the formals of a rule.
fn are_formals(forms: &[Form]) -> bool
    ensures { result ≡ are_formals forms.now }
{
    match forms {
        [value, pc] => is_named(value, b"value") && is_named(pc, b"pc"),
        _ => false,
    }
}

/// Whether the elements are formals and an expression.
fn is_rule_in(elements: &[Form]) -> bool
    ensures { result ≡ is_rule_in elements.now }
{
    match elements {
        [formals, _] => match formals.elements() {
            Some(formals) => are_formals(formals),
            None => false,
        },
        _ => false,
    }
}

/// Whether the content is one rule.
fn is_rule(forms: &[Form]) -> bool
    ensures { result ≡ is_rule forms.now }
{
    match only_elements(forms) {
        Some(elements) => is_rule_in(elements),
        None => false,
    }
}

/// The second of two forms.
fn second(forms: &[Form]) -> Option<&Form>
    ensures { option_copied result ≡ second forms.now }
{
    match forms {
        [_, form] => Some(form),
        _ => None,
    }
}

/// The expression of a rule.
#[tactic(auto, unfolding(crate::specs::Contents::expression))]
fn expression(forms: &[Form]) -> Option<&Form>
    ensures { option_copied result ≡ expression forms.now }
{
    second(only_elements(forms)?)
}

/// The first text of E304 inside the expression of a rule.
fn wrong_in_rule(forms: &[Form]) -> Option<&[u8]>
    ensures { option_copied result ≡ first (inside wrong_in (expression forms.now)) }
{
    match expression(forms) {
        Some(expression) => first_wrong_in(expression),
        None => None,
    }
}

/// The first text of E307 inside the expression of a rule.
fn left_out_in_rule(forms: &[Form]) -> Option<&[u8]>
    ensures { option_copied result ≡ first (inside left_out_in (expression forms.now)) }
{
    match expression(forms) {
        Some(expression) => first_left_out_in(expression),
        None => None,
    }
}

/// The first text of E304 of a rule.
fn wrong_rule<'a>(clause: Clause<'a>) -> Option<&'a [u8]>
    ensures { option_copied result ≡ first (wrong_rule (seen_clause clause.entry)) }
{
    if is_rule(clause.content) {
        wrong_in_rule(clause.content)
    } else {
        Some(clause.name)
    }
}
