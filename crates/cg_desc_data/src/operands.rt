//! The operands of a machine that have forms of their own, and its constants.

ghost use Rattle.std.specs.Prelude.{◌≡◌, ◌++◌, IfOk, OnOk};
ghost use Rattle.std.specs.Option.{option_copied};
ghost use Rattle.cg_desc_data.specs.Seen.{seen, seen_numbers};
ghost use Rattle.cg_desc_data.specs.Operands as spec;

use crate::keywords::wrapped;
use crate::members::operand_member;
use crate::numbering::Numbers;
use crate::selecting::Selection;
use cg_base::{Form, List, NoMemory, Text, only, only_symbol};
use cg_desc_elements::Element;
use cg_desc_names::{Item, constants_in};
use cg_model::{Operand, Source};
use cg_operand::PlainOperandForm;
use std::alloc::Global;

/// The value of a field or a multi field of this name.
pub fn field_source(numbers: &Numbers, name: &Text) -> Source
    ensures { result ≡ spec.field_source (seen_numbers numbers.now) name.now }
{
    match numbers.fields.get(name) {
        Some(number) => Source::Field(number),
        None => match numbers.multis.get(name) {
            Some(number) => Source::Multi(number),
            None => Source::None,
        },
    }
}

/// What a name as an index says.
fn named_source(numbers: &Numbers, name: &Text) -> Source
    ensures { result ≡ spec.named_source (seen_numbers numbers.now) name.now }
{
    if name.as_slice() == b"f-nil".as_slice() {
        Source::None
    } else {
        field_source(numbers, name)
    }
}

/// What an index says.
fn source_in(numbers: &Numbers, form: &Form) -> Source
    ensures { result ≡ spec.source_at (seen_numbers numbers.now) form.now }
{
    match form {
        Form::Number(number) => Source::Fixed(wrapped(*number)),
        Form::Symbol(name) => named_source(numbers, name),
        _ => Source::None,
    }
}

/// Where the value of an operand comes from.
fn source_of(numbers: &Numbers, form: &PlainOperandForm) -> Source
    ensures { result ≡ spec.source_of (seen_numbers numbers.now) form.now }
{
    match form.index.elements() {
        Some(elements) => match only(elements) {
            Some(index) => source_in(numbers, index),
            None => Source::None,
        },
        None => Source::None,
    }
}

/// The number of an operand's hardware, and 0 where that isn't there.
fn on_hardware(numbers: &Numbers, form: &PlainOperandForm) -> u16
    ensures { result ≡ spec.on_hardware (seen_numbers numbers.now) form.now }
{
    match form.kind.elements() {
        Some(elements) => match only_symbol(elements) {
            Some(name) => numbers.hardware.get(name).unwrap_or(0),
            None => 0,
        },
        None => 0,
    }
}

/// The operand of a form (docs/LANGUAGE.md, "Operands"). A number as its index is kept modulo 2^64.
pub fn operand_of(numbers: &Numbers, form: &PlainOperandForm) -> Result<Operand, NoMemory>
    ensures { IfOk result (λ operand. operand ≡ spec.operand_of (seen_numbers numbers.now) form.now) }
{
    Ok(Operand {
        name: form.name.clone()?,
        hardware: on_hardware(numbers, form),
        source: source_of(numbers, form),
    })
}

/// The operands that have forms of their own, in the order of the description.
pub fn operands_of(
    alloc: Global,
    selection: &Selection,
    numbers: &Numbers,
) -> Result<List<Operand>, NoMemory>
    ensures { IfOk result (λ operands. operands ≡ spec.operands_of (seen selection.now) (seen_numbers numbers.now)) }
{
    let mut operands = List::new(alloc);
    for element in selection.elements {
        if let Some(form) = operand_member(selection, element) {
            operands.push(operand_of(numbers, form)?)?;
        }
    }
    Ok(operands)
}

/// Puts items behind others.
fn append(list: &mut List<Item>, items: List<Item>) -> Result<(), NoMemory>
    ensures { OnOk result (list.new ≡ list.old ++ items) }
{
    for item in items.into_vec() {
        list.push(item)?;
    }
    Ok(())
}

/// The constants of an element that takes part.
fn constants_of(
    alloc: Global,
    selection: &Selection,
    element: &Element,
) -> Result<List<Item>, NoMemory>
    ensures { IfOk result (λ items. items ≡ spec.constants_of (seen selection.now) element.now) }
{
    if selection.takes_part(element) {
        constants_in(alloc, element)
    } else {
        Ok(List::new(alloc))
    }
}

/// The constants of all enums that take part, in the order of the description (docs/LANGUAGE.md,
/// "Names").
pub fn constants(alloc: Global, selection: &Selection) -> Result<List<Item>, NoMemory>
    ensures { IfOk result (λ items. items ≡ spec.constants (seen selection.now)) }
{
    let mut list = List::new(alloc);
    for element in selection.elements {
        append(&mut list, constants_of(alloc, selection, element)?)?;
    }
    Ok(list)
}
