//! E305.

ghost use Rattle.std.specs.Prelude.{◌≡◌, map, take, length, ◌≤◌, IfOk};
ghost use Rattle.std.specs.Option.{option_copied};
ghost use Rattle.cg_base.specs.Refusing.{first};
ghost use Rattle.cg_attrs.specs.Clauses.{seen_clause};
ghost use Rattle.cg_desc_names.specs.Table.{known};
ghost use Rattle.cg_desc_references.specs.E305.{stands_here, own_repeated, items_repeated, constants_repeated, repeated_in, repeated_at, repeated, e305};

use crate::clauses_of;
use crate::repeated_units::{front, unit_repeated};
use cg_attrs::Clause;
use cg_base::{Form, NoMemory, Text};
use cg_desc_elements::{Element, Namespace};
use cg_desc_names::{Item, Names, Standing, constants_in, counted_name};
use std::alloc::Global;

/// Whether the first with a name stands in this form and at this place in it.
fn stands_here(form: usize, item: usize, at: Option<Standing>) -> bool
    ensures { result ≡ stands_here form item at }
{
    match at {
        Some(at) => at.form == form && at.item == item,
        None => false,
    }
}

/// A form's own name, where another has it already.
#[tactic(auto, unfolding(crate::specs::E305::own_repeated))]
fn own_repeated(
    alloc: Global,
    names: &Names,
    form: usize,
    element: &Element,
) -> Result<Option<Text>, NoMemory>
    ensures { IfOk result (λ text. text ≡ first (own_repeated (known names.now) form element.now)) }
{
    let name = counted_name(alloc, element)?;
    if stands_here(form, 0, names.first(element.kind().namespace(), &name)) {
        Ok(None)
    } else {
        Ok(Some(element.name().clone()?))
    }
}

/// The first of a form's constants whose name another has already.
fn first_item_repeated<'a>(names: &Names, form: usize, items: &'a [Item]) -> Option<&'a Text>
    ensures { option_copied result ≡ first (items_repeated (known names.now) form 1 items.now) }
{
    for (place, item) in items.iter().enumerate() {
        if !stands_here(
            form,
            place + 1,
            names.first(Namespace::Constants, &item.name),
        ) {
            return Some(&item.name);
        }
    }
    None
}

/// A text in memory of its own, if there is one.
fn owned(text: Option<&Text>) -> Result<Option<Text>, NoMemory>
    ensures { IfOk result (λ copy. copy ≡ option_copied text.entry) }
{
    match text {
        Some(text) => Ok(Some(text.clone()?)),
        None => Ok(None),
    }
}

/// The same of the constants of an element.
#[tactic(auto, unfolding(crate::specs::E305::constants_repeated))]
fn constants_repeated(
    alloc: Global,
    names: &Names,
    form: usize,
    element: &Element,
) -> Result<Option<Text>, NoMemory>
    ensures { IfOk result (λ text. text ≡ first (constants_repeated (known names.now) form element.now)) }
{
    let items = constants_in(alloc, element)?;
    owned(first_item_repeated(names, form, items.as_slice()))
}

/// The first name in a clause that stands already.
#[tactic(auto, unfolding(crate::specs::E305::repeated_in))]
fn repeated_in(
    alloc: Global,
    names: &Names,
    form: usize,
    element: &Element,
    before: &[Clause<'_>],
    clause: Clause<'_>,
) -> Result<Option<Text>, NoMemory>
    ensures { IfOk result (λ text. text ≡ first (repeated_in (known names.now) form element.now (map seen_clause before.now) (seen_clause clause.entry))) }
{
    match clause.name {
        b"name" => Ok(own_repeated(alloc, names, form, element)?),
        b"values" => Ok(constants_repeated(alloc, names, form, element)?),
        _ => Ok(unit_repeated(before, clause)?),
    }
}

/// The same of the clause at this place among all clauses of a form.
#[tactic(auto, unfolding(crate::specs::E305::repeated_at))]
fn repeated_at(
    alloc: Global,
    names: &Names,
    form: usize,
    element: &Element,
    clauses: &[Clause<'_>],
    count: usize,
    clause: Clause<'_>,
) -> Result<Option<Text>, NoMemory>
    requires { count ≤ length clauses.now }
    ensures { IfOk result (λ text. text ≡ first (repeated_at (known names.now) form element.now (map seen_clause clauses.now) count (seen_clause clause.entry))) }
{
    Ok(repeated_in(alloc, names, form, element, front(clauses, count), clause)?)
}

/// The first name in the clauses of a form that stands already.
#[tactic(auto, using(crate::proofs::Firsts::first_append))]
fn first_in(
    alloc: Global,
    names: &Names,
    form: usize,
    element: &Element,
    clauses: &[Clause<'_>],
) -> Result<Option<Text>, NoMemory>
    ensures { IfOk result (λ text. text ≡ first (repeated (known names.now) form element.now (map seen_clause clauses.now))) }
{
    for (count, clause) in clauses.iter().enumerate() {
        if let Some(text) = repeated_at(alloc, names, form, element, clauses, count, *clause)? {
            return Ok(Some(text));
        }
    }
    Ok(None)
}

/// The text of the first E305 in the form of this number, which gives this element: its name, one of
/// its constants or one of its units, where that stands already among those that share their names;
/// also a second arch. Forms are numbered from 1. None exactly where there is none
/// (docs/REFUSALS.md).
pub fn first_repeated(
    alloc: Global,
    names: &Names,
    form: usize,
    element: &Element,
    written: &Form,
) -> Result<Option<Text>, NoMemory>
    ensures { IfOk result (λ text. text ≡ first (e305 (known names.now) form element.now written.now)) }
{
    let clauses = clauses_of(alloc, element.kind(), written)?;
    first_in(alloc, names, form, element, clauses.as_slice())
}
