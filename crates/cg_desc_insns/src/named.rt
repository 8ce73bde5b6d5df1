//! What elements say to which a name leads.

ghost use Rattle.std.specs.Prelude.{◌≡◌};
ghost use Rattle.std.specs.Option.{option_copied, option_map};
ghost use Rattle.cg_desc_names.specs.Table.{known};
ghost use Rattle.cg_desc_insns.specs.Named.{numbered, element_of, derived_in, derived_named, anyof_in, anyof_named, field_in, constant_of, constant_named};

use cg_attrs::Frame;
use cg_base::Text;
use cg_desc_elements::{Element, Namespace};
use cg_desc_names::{Names, Standing};
use cg_operand::{AnyofOperandForm, DerivedOperandForm, OperandForm};

/// The element that the form of this number gives; forms are numbered from 1.
fn numbered(elements: &[Element], form: usize) -> Option<&Element>
    ensures { option_copied result ≡ numbered elements.now form }
{
    if form == 0 {
        None
    } else {
        elements.get(form - 1)
    }
}

/// The element in which a name stands.
fn element_of(elements: &[Element], at: Option<Standing>) -> Option<&Element>
    ensures { option_copied result ≡ element_of elements.now at }
{
    match at {
        Some(at) => numbered(elements, at.form),
        None => None,
    }
}

/// The derived operand that an element is.
fn derived_in(element: &Element) -> Option<&DerivedOperandForm>
    ensures { option_copied result ≡ derived_in element.now }
{
    match element {
        Element::Operand(OperandForm::Derived(form)) => Some(form),
        _ => None,
    }
}

/// The derived operand that a name stands for.
#[tactic(auto, unfolding(crate::specs::Named::derived_named))]
pub(crate) fn derived_named<'a>(
    names: &Names,
    elements: &'a [Element],
    name: &Text,
) -> Option<&'a DerivedOperandForm>
    ensures { option_copied result ≡ derived_named (known names.now) elements.now name.now }
{
    match element_of(elements, names.first(Namespace::Operands, name)) {
        Some(element) => derived_in(element),
        None => None,
    }
}

/// The anyof operand that an element is.
fn anyof_in(element: &Element) -> Option<&AnyofOperandForm>
    ensures { option_copied result ≡ anyof_in element.now }
{
    match element {
        Element::Operand(OperandForm::Anyof(form)) => Some(form),
        _ => None,
    }
}

/// The anyof operand that a name stands for.
#[tactic(auto, unfolding(crate::specs::Named::anyof_named))]
pub(crate) fn anyof_named<'a>(
    names: &Names,
    elements: &'a [Element],
    name: &Text,
) -> Option<&'a AnyofOperandForm>
    ensures { option_copied result ≡ anyof_named (known names.now) elements.now name.now }
{
    match element_of(elements, names.first(Namespace::Operands, name)) {
        Some(element) => anyof_in(element),
        None => None,
    }
}

/// The field whose constants an element defines.
fn field_in(element: &Element) -> Option<&Text>
    ensures { option_copied result ≡ field_in element.now }
{
    match element {
        Element::Frame(Frame::InsnEnum(form)) => Some(&form.field),
        _ => None,
    }
}

/// The field and the value of the constant that stands there.
fn constant_of(elements: &[Element], at: Option<Standing>) -> Option<(&Text, i64)>
    ensures { option_map (λ x. (x.0.now, x.1)) result ≡ constant_of elements.now at }
{
    match at {
        Some(at) => match numbered(elements, at.form) {
            Some(element) => match field_in(element) {
                Some(field) => Some((field, at.value)),
                None => None,
            },
            None => None,
        },
        None => None,
    }
}

/// The field and the value of the constant that a name stands for.
#[tactic(auto, unfolding(crate::specs::Named::constant_named))]
pub(crate) fn constant_named<'a>(
    names: &Names,
    elements: &'a [Element],
    name: &Text,
) -> Option<(&'a Text, i64)>
    ensures { option_map (λ x. (x.0.now, x.1)) result ≡ constant_named (known names.now) elements.now name.now }
{
    constant_of(elements, names.first(Namespace::Constants, name))
}
