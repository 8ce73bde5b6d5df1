//! The multi fields of a machine.

ghost use Rattle.std.specs.Prelude.{◌≡◌, IfOk};
ghost use Rattle.std.specs.List.{filter_map};
ghost use Rattle.cg_desc_data.specs.Seen.{seen, seen_numbering, seen_numbers};
ghost use Rattle.cg_desc_data.specs.Multis as spec;

use crate::extent::mode_or_uint;
use crate::framing::Framing;
use crate::members::multi_member;
use crate::numbering::{Numbering, Numbers};
use crate::selecting::Selection;
use cg_base::{List, NoMemory, Text};
use cg_ifield::MultiForm;
use cg_model::Multi;
use cg_rtl_resolve::nothing;
use std::alloc::Global;

/// The numbers of those names that have one.
fn numbers_among(
    alloc: Global,
    numbering: &Numbering,
    names: &[Text],
) -> Result<List<u16>, NoMemory>
    ensures { IfOk result (λ numbers. numbers ≡ filter_map (seen_numbering numbering.now) names.now) }
{
    let mut numbers = List::new(alloc);
    for name in names {
        if let Some(number) = numbering.get(name) {
            numbers.push(number)?;
        }
    }
    Ok(numbers)
}

/// The multi field of a form, without its rules: `insert` is empty and `extract` is `(nop)`. Subfields
/// that aren't fields of the machine are left out.
pub fn multi_of(
    alloc: Global,
    framing: &Framing,
    numbers: &Numbers,
    form: &MultiForm,
) -> Result<Multi, NoMemory>
    ensures { IfOk result (λ multi. multi ≡ spec.multi_of framing.now (seen_numbers numbers.now) form.now) }
{
    Ok(Multi {
        name: form.name.clone()?,
        mode: mode_or_uint(framing, form.mode.as_ref()),
        subs: numbers_among(alloc, &numbers.fields, form.subfields.as_slice())?,
        insert: List::new(alloc),
        extract: nothing(alloc),
    })
}

/// The multi fields of a machine without their rules, in the order of the description
/// (docs/LANGUAGE.md, "Machines").
pub fn multis_of(
    alloc: Global,
    selection: &Selection,
    framing: &Framing,
    numbers: &Numbers,
) -> Result<List<Multi>, NoMemory>
    ensures { IfOk result (λ multis. multis ≡ spec.multis_of (seen selection.now) framing.now (seen_numbers numbers.now)) }
{
    let mut multis = List::new(alloc);
    for element in selection.elements {
        if let Some(form) = multi_member(selection, element) {
            multis.push(multi_of(alloc, framing, numbers, form)?)?;
        }
    }
    Ok(multis)
}
