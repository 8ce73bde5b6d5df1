//! The elements that take part, kind by kind, and their names.

ghost use Rattle.std.specs.Prelude.{◌≡◌, IfOk};
ghost use Rattle.std.specs.Option.{option_copied};
ghost use Rattle.cg_desc_names.specs.Table.{built_in_hardware};
ghost use Rattle.cg_desc_data.specs.Seen.{seen};
ghost use Rattle.cg_desc_data.specs.Selecting.{member};
ghost use Rattle.cg_desc_data.specs.Numbering as spec;

use crate::selecting::Selection;
use cg_base::{List, NoMemory, Text};
use cg_desc_elements::Element;
use cg_hw::HardwareForm;
use cg_ifield::{FieldForm, MultiForm, PlainForm};
use cg_operand::{OperandForm, PlainOperandForm};
use std::alloc::Global;

/// The form of a field that takes part.
pub fn field_member<'a>(selection: &Selection, element: &'a Element) -> Option<&'a PlainForm>
    ensures { option_copied result ≡ member (seen selection.now) spec.field_in element.now }
{
    match element {
        Element::Field(FieldForm::Plain(form)) if selection.takes_part(element) => Some(form),
        _ => None,
    }
}

/// The form of a multi field that takes part.
pub fn multi_member<'a>(selection: &Selection, element: &'a Element) -> Option<&'a MultiForm>
    ensures { option_copied result ≡ member (seen selection.now) spec.multi_in element.now }
{
    match element {
        Element::Field(FieldForm::Multi(form)) if selection.takes_part(element) => Some(form),
        _ => None,
    }
}

/// The form of hardware that takes part.
pub fn hardware_member<'a>(selection: &Selection, element: &'a Element) -> Option<&'a HardwareForm>
    ensures { option_copied result ≡ member (seen selection.now) spec.hardware_in element.now }
{
    match element {
        Element::Hardware(form) if selection.takes_part(element) => Some(form),
        _ => None,
    }
}

/// The form of a plain operand that takes part.
pub(crate) fn operand_member<'a>(
    selection: &Selection,
    element: &'a Element,
) -> Option<&'a PlainOperandForm>
    ensures { option_copied result ≡ member (seen selection.now) spec.operand_in element.now }
{
    match element {
        Element::Operand(OperandForm::Plain(form)) if selection.takes_part(element) => Some(form),
        _ => None,
    }
}

/// The names of a machine's fields, in the order of their numbers.
pub fn field_names(alloc: Global, selection: &Selection) -> Result<List<Text>, NoMemory>
    ensures { IfOk result (λ names. names ≡ spec.field_names (seen selection.now)) }
{
    let mut names = List::new(alloc);
    for element in selection.elements {
        if let Some(form) = field_member(selection, element) {
            names.push(form.name.clone()?)?;
        }
    }
    Ok(names)
}

/// The names of a machine's multi fields, in the order of their numbers.
pub fn multi_names(alloc: Global, selection: &Selection) -> Result<List<Text>, NoMemory>
    ensures { IfOk result (λ names. names ≡ spec.multi_names (seen selection.now)) }
{
    let mut names = List::new(alloc);
    for element in selection.elements {
        if let Some(form) = multi_member(selection, element) {
            names.push(form.name.clone()?)?;
        }
    }
    Ok(names)
}

/// The names of built-in hardware.
fn built_in_names(alloc: Global) -> Result<List<Text>, NoMemory>
    ensures { IfOk result (λ names. names ≡ built_in_hardware) }
{
    let mut names = List::new(alloc);
    names.push(Text::of(alloc, b"h-memory")?)?;
    names.push(Text::of(alloc, b"h-sint")?)?;
    names.push(Text::of(alloc, b"h-uint")?)?;
    names.push(Text::of(alloc, b"h-addr")?)?;
    names.push(Text::of(alloc, b"h-iaddr")?)?;
    Ok(names)
}

/// The names of a machine's hardware, in the order of their numbers, the built-in ones first.
pub fn hardware_names(alloc: Global, selection: &Selection) -> Result<List<Text>, NoMemory>
    ensures { IfOk result (λ names. names ≡ spec.hardware_names (seen selection.now)) }
{
    let mut names = built_in_names(alloc)?;
    for element in selection.elements {
        if let Some(form) = hardware_member(selection, element) {
            names.push(form.name.clone()?)?;
        }
    }
    Ok(names)
}

/// The names of a machine's operands that have forms of their own, in the order of their numbers.
pub fn operand_names(alloc: Global, selection: &Selection) -> Result<List<Text>, NoMemory>
    ensures { IfOk result (λ names. names ≡ spec.operand_names (seen selection.now)) }
{
    let mut names = List::new(alloc);
    for element in selection.elements {
        if let Some(form) = operand_member(selection, element) {
            names.push(form.name.clone()?)?;
        }
    }
    Ok(names)
}
