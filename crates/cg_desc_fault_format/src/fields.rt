//! E309, and fields by their names.

ghost use Rattle.std.specs.Prelude.{◌≡◌, IfOk};
ghost use Rattle.std.specs.Option.{option_copied};
ghost use Rattle.cg_base.specs.Refusing.{first};
ghost use Rattle.cg_desc_data.specs.Numbering.{field_in};
ghost use Rattle.cg_desc_data.specs.Seen.{seen};
ghost use Rattle.cg_desc_fault_format.specs.E309 as spec;
ghost use Rattle.cg_desc_fault_format.specs.E311.{field_named};
ghost use Rattle.cg_desc_fault_report.specs.Subject.{described_in, element_in};

use cg_base::{NoMemory, Text};
use cg_desc_data::{Framing, Selection, extent_of, has_place};
use cg_desc_elements::{Element, Namespace};
use cg_desc_fault_report::{Saying, Subject, only_text};
use cg_ifield::{FieldForm, PlainForm};
use std::alloc::Global;

/// The form of a field.
fn field_in(element: &Element) -> Option<&PlainForm>
    ensures { option_copied result ≡ field_in element.now }
{
    match element {
        Element::Field(FieldForm::Plain(form)) => Some(form),
        _ => None,
    }
}

/// The field of this name.
pub(crate) fn field_named<'a>(selection: &Selection<'a>, name: &Text) -> Option<&'a PlainForm>
    ensures { option_copied result ≡ field_named (seen selection.now) name.now }
{
    match selection.named(Namespace::Fields, name) {
        Some(element) => field_in(element),
        None => None,
    }
}

/// The E309 of a field.
fn of_field(alloc: Global, framing: &Framing, form: &PlainForm) -> Result<Option<Saying>, NoMemory>
    ensures { IfOk result (λ said. said ≡ first (spec.of_field framing.now form.now)) }
{
    if framing.is_sized && !has_place(&extent_of(framing, form)) {
        Ok(Some(only_text(alloc, form.name.as_slice())?))
    } else {
        Ok(None)
    }
}

/// What is said of E309 of a form: a field leaves its word, is empty, or is longer than its mode. None
/// exactly where there is none, and where the cpu or the instruction set is lacking (docs/REFUSALS.md).
pub fn first_misplaced(alloc: Global, of: &Subject) -> Result<Option<Saying>, NoMemory>
    ensures { IfOk result (λ said. said ≡ first (spec.e309 (described_in of.now) (element_in of.now))) }
{
    match of.element {
        Element::Field(FieldForm::Plain(form)) => of_field(alloc, &of.described.framing, form),
        _ => Ok(None),
    }
}
