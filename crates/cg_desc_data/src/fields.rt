//! The fields of a machine.

ghost use Rattle.std.specs.Prelude.{◌≡◌, IfOk};
ghost use Rattle.cg_desc_data.specs.Seen.{seen};
ghost use Rattle.cg_desc_data.specs.Extents as spec;

use crate::extent::field_of;
use crate::framing::Framing;
use crate::members::field_member;
use crate::selecting::Selection;
use cg_base::{List, NoMemory};
use cg_model::Field;
use std::alloc::Global;

/// The fields of a machine without their rules, in the order of the description (docs/LANGUAGE.md,
/// "Machines").
pub fn fields_of(
    alloc: Global,
    selection: &Selection,
    framing: &Framing,
) -> Result<List<Field>, NoMemory>
    ensures { IfOk result (λ fields. fields ≡ spec.fields_of (seen selection.now) framing.now) }
{
    let mut fields = List::new(alloc);
    for element in selection.elements {
        if let Some(form) = field_member(selection, element) {
            fields.push(field_of(framing, form)?)?;
        }
    }
    Ok(fields)
}
