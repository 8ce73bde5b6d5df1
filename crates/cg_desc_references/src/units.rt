//! The units of models.

ghost use Rattle.std.specs.Prelude.{◌≡◌};
ghost use Rattle.std.specs.Option.{option_copied};
ghost use Rattle.cg_base.specs.Parts.{is_headed};
ghost use Rattle.cg_desc_references.specs.Units.{model_of, has_unit, model_numbered, lacks_unit};

use cg_attrs::{Frame, ModelForm};
use cg_base::{Form, Text};
use cg_desc_elements::Element;
use cg_desc_names::Standing;

/// The model that an element gives.
fn model_of(element: &Element) -> Option<&ModelForm>
    ensures { option_copied result ≡ model_of element.now }
{
    match element {
        Element::Frame(Frame::Model(form)) => Some(form),
        _ => None,
    }
}

/// Whether what stands behind `unit` names this unit.
fn names_unit(name: &Text, behind: &Form) -> bool
    ensures { result ≡ is_headed name.now behind.now }
{
    match behind.headed() {
        Some((unit, _)) => unit == name,
        None => false,
    }
}

/// Whether the model has a unit of this name.
fn has_unit(model: &ModelForm, name: &Text) -> bool
    ensures { result ≡ has_unit name.now model.now }
{
    for behind in model.unit.as_slice() {
        if names_unit(name, behind) {
            return true;
        }
    }
    false
}

/// The model that the form of this number gives.
fn model_numbered(elements: &[Element], form: usize) -> Option<&ModelForm>
    ensures { option_copied result ≡ model_numbered elements.now form }
{
    match elements.get(form.saturating_sub(1)) {
        Some(element) => model_of(element),
        None => None,
    }
}

/// Whether the model that stands there lacks the unit of this name.
pub(crate) fn lacks_unit(elements: &[Element], name: &Text, model: Option<Standing>) -> bool
    ensures { result ≡ lacks_unit elements.now name.now model }
{
    match model {
        Some(at) => match model_numbered(elements, at.form) {
            Some(model) => !has_unit(model, name),
            None => true,
        },
        None => false,
    }
}
