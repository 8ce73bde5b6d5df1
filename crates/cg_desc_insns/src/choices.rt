//! The anyof operands of a format, and the choices that each has.

ghost use Rattle.std.specs.Prelude.{◌≡◌, [], ◌++◌, map, IfOk, OnOk};
ghost use Rattle.std.specs.List.{filter_map};
ghost use Rattle.cg_base.specs.Texts.{is_among};
ghost use Rattle.cg_desc_names.specs.Table.{known};
ghost use Rattle.cg_desc_insns.specs.Named.{anyof_named};
ghost use Rattle.cg_desc_insns.specs.Choices.{derived_choice, own_pieces, own_parts, plain_choice, choice_of, known_choice, anyof_of, slot_name, distinct, anyofs_of};

use crate::named::{anyof_named, derived_named};
use crate::parts::{is_taken, own_spot, parts_of};
use crate::written::{all_pieces, expression_in, own_expression};
use cg_base::{Form, List, NoMemory, Text};
use cg_desc_choices::{Anyof, Choice, NamedPart, WrittenPart, WrittenPiece};
use cg_desc_elements::Element;
use cg_desc_names::Names;
use cg_desc_references::Place;
use cg_insn::NamedPiece;
use cg_operand::{AnyofOperandForm, DerivedOperandForm};
use std::alloc::Global;

/// What a derived operand puts in place.
#[tactic(auto, unfolding(crate::specs::Choices::derived_choice))]
fn derived_choice(
    alloc: Global,
    names: &Names,
    elements: &[Element],
    derived: &DerivedOperandForm,
) -> Result<Choice, NoMemory>
    ensures { IfOk result (λ choice. choice ≡ derived_choice (known names.now) elements.now derived.now) }
{
    Ok(Choice {
        name: derived.name.clone()?,
        pieces: all_pieces(alloc, &derived.syntax)?,
        parts: parts_of(
            alloc,
            names,
            elements,
            Place::EncodingPart,
            &derived.encoding,
        )?,
        assertion: own_expression(derived.ifield_assertion.as_ref())?,
        getter: expression_in(&derived.getter).clone()?,
        setter: Some(expression_in(&derived.setter).clone()?),
    })
}

/// The one piece that a plain operand is.
fn own_piece(alloc: Global, name: &Text) -> Result<List<WrittenPiece>, NoMemory>
    ensures { IfOk result (λ list. list ≡ own_pieces name.now) }
{
    let mut list = List::new(alloc);
    list.push(WrittenPiece {
        piece: NamedPiece::Slot(name.clone()?),
        spot: own_spot(0),
    })?;
    Ok(list)
}

/// The one part that a plain operand is.
fn own_part(alloc: Global, name: &Text) -> Result<List<WrittenPart>, NoMemory>
    ensures { IfOk result (λ list. list ≡ own_parts name.now) }
{
    let mut list = List::new(alloc);
    list.push(WrittenPart {
        part: NamedPart::Slot(name.clone()?),
        spot: own_spot(0),
    })?;
    Ok(list)
}

/// What a plain operand puts in place: itself.
#[tactic(auto, unfolding(crate::specs::Choices::plain_choice))]
fn plain_choice(alloc: Global, name: &Text) -> Result<Choice, NoMemory>
    ensures { IfOk result (λ choice. choice ≡ plain_choice name.now) }
{
    Ok(Choice {
        name: name.clone()?,
        pieces: own_piece(alloc, name)?,
        parts: own_part(alloc, name)?,
        assertion: None,
        getter: Form::Symbol(name.clone()?),
        setter: None,
    })
}

/// What the operand of this name puts in place.
fn choice_of(
    alloc: Global,
    names: &Names,
    elements: &[Element],
    name: &Text,
) -> Result<Choice, NoMemory>
    ensures { IfOk result (λ choice. choice ≡ choice_of (known names.now) elements.now name.now) }
{
    match derived_named(names, elements, name) {
        Some(derived) => Ok(derived_choice(alloc, names, elements, derived)?),
        None => Ok(plain_choice(alloc, name)?),
    }
}

/// The choices of these names, but for those that are no plain or derived operands.
fn choices_among(
    alloc: Global,
    names: &Names,
    elements: &[Element],
    choices: &[Text],
) -> Result<List<Choice>, NoMemory>
    ensures { IfOk result (λ list. list ≡ filter_map (known_choice (known names.now) elements.now) choices.now) }
{
    let mut list = List::new(alloc);
    for name in choices {
        if is_taken(names, Place::Choice, name) {
            list.push(choice_of(alloc, names, elements, name)?)?;
        }
    }
    Ok(list)
}

/// An anyof operand with its choices.
fn anyof_of(
    alloc: Global,
    names: &Names,
    elements: &[Element],
    anyof: &AnyofOperandForm,
) -> Result<Anyof, NoMemory>
    ensures { IfOk result (λ new. new ≡ anyof_of (known names.now) elements.now anyof.now) }
{
    Ok(Anyof {
        operand: anyof.name.clone()?,
        choices: choices_among(alloc, names, elements, anyof.choices.as_slice())?,
    })
}

/// Whether the name is one of these.
fn stands_among(names: &[Text], name: &Text) -> bool
    ensures { result ≡ is_among names.now name.now }
{
    names.iter().any(|each| each == name)
}

/// The names of a format's slots, each once, where it stands first.
fn slot_names(alloc: Global, parts: &[WrittenPart]) -> Result<List<Text>, NoMemory>
    ensures { IfOk result (λ list. list ≡ distinct (filter_map slot_name parts.now)) }
{
    let mut list = List::new(alloc);
    for part in parts {
        if let NamedPart::Slot(name) = &part.part {
            if !stands_among(list.as_slice(), name) {
                list.push(name.clone()?)?;
            }
        }
    }
    Ok(list)
}

/// The anyof operands among these names, in order, each with its choices.
fn anyofs_among(
    alloc: Global,
    names: &Names,
    elements: &[Element],
    slots: &[Text],
) -> Result<List<Anyof>, NoMemory>
    ensures { IfOk result (λ list. list ≡ map (anyof_of (known names.now) elements.now) (filter_map (anyof_named (known names.now) elements.now) slots.now)) }
{
    let mut list = List::new(alloc);
    for name in slots {
        if let Some(anyof) = anyof_named(names, elements, name) {
            list.push(anyof_of(alloc, names, elements, anyof)?)?;
        }
    }
    Ok(list)
}

/// The anyof operands of a format, in its order, each once and with its choices. A choice that isn't
/// defined, or is no plain or derived operand, is left out (docs/LANGUAGE.md, "Choices"). NoMemory where
/// memory runs out.
pub fn anyofs_of(
    alloc: Global,
    names: &Names,
    elements: &[Element],
    parts: &[WrittenPart],
) -> Result<List<Anyof>, NoMemory>
    ensures { IfOk result (λ list. list ≡ anyofs_of (known names.now) elements.now parts.now) }
{
    let slots = slot_names(alloc, parts)?;
    anyofs_among(alloc, names, elements, slots.as_slice())
}
