//! What may stand behind the names of the clauses of instructions.

ghost use Rattle.std.specs.Prelude.{◌≡◌};
ghost use Rattle.std.specs.Option.{option_copied};
ghost use Rattle.std.specs.List.{list_all};
ghost use Rattle.cg_base.specs.Parts.{only};
ghost use Rattle.cg_base.specs.Texts.{passes};
ghost use Rattle.cg_attrs.specs.Contents.{is_small};
ghost use Rattle.cg_insn.specs.Contents.{only_string, fits_syntax, is_note_in, is_note, are_notes, is_unit_in, is_unit, is_model, is_timing, is_given_in, is_item, are_emitted, is_emit, is_expansion};

use crate::expression::{left_out_expression, wrong_expression};
use crate::part::{is_format, only_headed};
use crate::syntax::is_syntax;
use cg_attrs::{Clause, Content, ContentKind, is_small, misfit};
use cg_base::{Form, Text, only};

/// What has to stand behind the name of a clause of an instruction (docs/LANGUAGE.md,
/// "Instructions").
#[derive(Clone, Copy, Debug, PartialEq, Eq)]
pub(crate) enum InsnContent {
    /// What other forms hold too.
    Shared(Content),
    /// One string that is a syntax.
    Syntax,
    /// `(+ part ..)`, or the same without its own list.
    Format,
    /// `(model (unit name ..) ..)` for models.
    Timing,
    /// `(emit insn item ..)`.
    Expansion,
    /// One expression.
    Expression,
}

impl ContentKind for InsnContent {
    ghost use Rattle.cg_insn.specs.Contents as contents;

    ghost wrong = { contents.wrong };

    ghost left_out = { contents.left_out };

    fn first_wrong<'a>(&self, clause: Clause<'a>) -> Option<&'a [u8]> {
        match self {
            InsnContent::Shared(shared) => shared.first_wrong(clause),
            InsnContent::Syntax => misfit(fits_syntax(clause.content), clause.name),
            InsnContent::Format => misfit(is_format(clause.content), clause.name),
            InsnContent::Timing => misfit(is_timing(clause.content), clause.name),
            InsnContent::Expansion => misfit(is_expansion(clause.content), clause.name),
            InsnContent::Expression => wrong_expression(clause),
        }
    }

    fn first_left_out<'a>(&self, clause: Clause<'a>) -> Option<&'a [u8]> {
        match self {
            InsnContent::Shared(shared) => shared.first_left_out(clause),
            InsnContent::Expression => left_out_expression(clause),
            InsnContent::Syntax
            | InsnContent::Format
            | InsnContent::Timing
            | InsnContent::Expansion => None,
        }
    }
}

/// The text of the one element of a list, a string.
#[tactic(auto, unfolding(crate::specs::Contents::only_string))]
fn only_string(forms: &[Form]) -> Option<&Text>
    ensures { option_copied result ≡ only_string forms.now }
{
    only(forms)?.string()
}

/// Whether what stands behind a clause's name is one string that is a syntax.
pub fn fits_syntax(forms: &[Form]) -> bool
    ensures { result ≡ fits_syntax forms.now }
{
    match only_string(forms) {
        Some(text) => is_syntax(text.as_slice()),
        None => false,
    }
}

/// Whether the content is one number from 0 to 65,535.
fn is_count(forms: &[Form]) -> bool
    ensures { result ≡ passes is_small (only forms.now) }
{
    match only(forms) {
        Some(form) => is_small(form),
        None => false,
    }
}

/// Whether a head and the elements behind it are `cycles n`, or begin with `in` or `out`.
fn is_note_in(head: &Text, elements: &[Form]) -> bool
    ensures { result ≡ is_note_in (head.now, elements.now) }
{
    match head.as_slice() {
        b"cycles" => is_count(elements),
        b"in" | b"out" => true,
        _ => false,
    }
}

/// Whether the form may stand behind the name of a unit.
fn is_note(form: &Form) -> bool
    ensures { result ≡ is_note form.now }
{
    match form.headed() {
        Some((head, elements)) => is_note_in(head, elements),
        None => false,
    }
}

/// Whether each of the forms may stand behind the name of a unit.
fn are_all_notes(forms: &[Form]) -> bool
    ensures { result ≡ list_all is_note forms.now }
{
    forms.iter().all(is_note)
}

/// Whether the elements are the name of a unit and what may stand behind it.
fn are_notes(elements: &[Form]) -> bool
    ensures { result ≡ are_notes elements.now }
{
    match elements.split_first() {
        Some((name, notes)) => name.is_symbol() && are_all_notes(notes),
        None => false,
    }
}

/// Whether a head and the elements behind it are `unit name ..`.
fn is_unit_in(head: &Text, elements: &[Form]) -> bool
    ensures { result ≡ is_unit_in (head.now, elements.now) }
{
    matches!(head.as_slice(), b"unit") && are_notes(elements)
}

/// Whether the form is `(unit name ..)`.
fn is_unit(form: &Form) -> bool
    ensures { result ≡ is_unit form.now }
{
    match form.headed() {
        Some((head, elements)) => is_unit_in(head, elements),
        None => false,
    }
}

/// Whether each of the forms is `(unit name ..)`.
fn are_units(forms: &[Form]) -> bool
    ensures { result ≡ list_all is_unit forms.now }
{
    forms.iter().all(is_unit)
}

/// Whether the form is a model with units.
fn is_model(form: &Form) -> bool
    ensures { result ≡ is_model form.now }
{
    match form.headed() {
        Some((_, units)) => are_units(units),
        None => false,
    }
}

/// Whether the content is models with units.
fn is_timing(forms: &[Form]) -> bool
    ensures { result ≡ is_timing forms.now }
{
    forms.iter().all(is_model)
}

/// Whether the elements are an operand and what it is given.
fn is_given_in(elements: &[Form]) -> bool
    ensures { result ≡ is_given_in elements.now }
{
    match elements {
        [operand, given] => {
            operand.is_symbol() && (given.is_symbol() || given.number().is_some())
        }
        _ => false,
    }
}

/// Whether the form is an item of what is emitted.
fn is_item(form: &Form) -> bool
    ensures { result ≡ is_item form.now }
{
    match form.elements() {
        Some(elements) => is_given_in(elements),
        None => form.is_symbol(),
    }
}

/// Whether each of the forms is an item of what is emitted.
fn are_items(forms: &[Form]) -> bool
    ensures { result ≡ list_all is_item forms.now }
{
    forms.iter().all(is_item)
}

/// Whether the elements are the name of an instruction and items.
fn are_emitted(elements: &[Form]) -> bool
    ensures { result ≡ are_emitted elements.now }
{
    match elements.split_first() {
        Some((insn, items)) => insn.is_symbol() && are_items(items),
        None => false,
    }
}

/// Whether a head and the elements behind it are `emit insn item ..`.
fn is_emit(head: &Text, elements: &[Form]) -> bool
    ensures { result ≡ is_emit (head.now, elements.now) }
{
    matches!(head.as_slice(), b"emit") && are_emitted(elements)
}

/// Whether the content is one list `(emit insn item ..)`.
fn is_expansion(forms: &[Form]) -> bool
    ensures { result ≡ is_expansion forms.now }
{
    match only_headed(forms) {
        Some((head, elements)) => is_emit(head, elements),
        None => false,
    }
}
