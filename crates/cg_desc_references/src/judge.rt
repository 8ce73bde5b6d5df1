//! E304 and E306 of the names in a form.

ghost use Rattle.std.specs.Prelude.{◌≡◌};
ghost use Rattle.std.specs.Option.{option_copied};
ghost use Rattle.cg_base.specs.Refusing.{first};
ghost use Rattle.cg_desc_names.specs.Table.{known};
ghost use Rattle.cg_desc_references.specs.E304.{is_of_another_kind, of_another_kind};
ghost use Rattle.cg_desc_references.specs.E306.{is_undefined, undefined};

use crate::finding::{Finding, found};
use crate::reference::{Place, Reference};
use crate::units::lacks_unit;
use cg_desc_elements::{Element, Namespace};
use cg_desc_names::Names;

/// Whether the name stands for something of another kind than its place takes.
pub fn is_of_another_kind(names: &Names, reference: &Reference) -> bool
    ensures { result ≡ is_of_another_kind (known names.now) reference.now }
{
    found(names, reference.place, &reference.name) == Finding::OfAnotherKind
}

/// Whether the name stands for nothing.
pub fn is_undefined(names: &Names, elements: &[Element], reference: &Reference) -> bool
    ensures { result ≡ is_undefined (known names.now) elements.now reference.now }
{
    match reference.place {
        Place::Unit => {
            let model = names.first(Namespace::Models, &reference.model);
            lacks_unit(elements, &reference.name, model)
        }
        place => found(names, place, &reference.name) == Finding::Undefined,
    }
}

/// The text of the first E304 of these names: one that stands for something of another kind than its
/// place takes. None exactly where there is none (docs/REFUSALS.md).
pub fn first_of_another_kind<'a>(names: &Names, references: &'a [Reference]) -> Option<&'a [u8]>
    ensures { option_copied result ≡ first (of_another_kind (known names.now) references.now) }
{
    for reference in references {
        if is_of_another_kind(names, reference) {
            return Some(reference.name.as_slice());
        }
    }
    None
}

/// The text of the first E306 of these names: one that stands for nothing that the machine has; of a
/// unit, that its model has. The elements are those of the description. None exactly where there is
/// none (docs/REFUSALS.md).
pub fn first_undefined<'a>(
    names: &Names,
    elements: &[Element],
    references: &'a [Reference],
) -> Option<&'a [u8]>
    ensures { option_copied result ≡ first (undefined (known names.now) elements.now references.now) }
{
    for reference in references {
        if is_undefined(names, elements, reference) {
            return Some(reference.name.as_slice());
        }
    }
    None
}
