//! The parts of a format and of an encoding as they are written.

ghost use Rattle.std.specs.Prelude.{◌≡◌, ◌++◌, [], IfOk, OnOk};
ghost use Rattle.std.specs.Option.{option_copied, option_map, unwrap_or};
ghost use Rattle.cg_base.specs.Parts.{elements_of};
ghost use Rattle.cg_desc_names.specs.Table.{known};
ghost use Rattle.cg_desc_insns.specs.Parts.{is_taken, constant_part, number_part, pair_part, listed_part, value_part, is_constant, taken_part, named_part, part_of, own_spot, part_before, parts_from, parts_behind, parts_of};

use crate::named::constant_named;
use cg_base::{Form, List, NoMemory, Text};
use cg_desc_choices::{NamedPart, Spot, WrittenPart};
use cg_desc_elements::{Element, Kind, Namespace};
use cg_desc_names::Names;
use cg_desc_references::{Finding, Place, found, parts_in};
use std::alloc::Global;

/// Whether the place takes what the name stands for.
pub(crate) fn is_taken(names: &Names, place: Place, name: &Text) -> bool
    ensures { result ≡ is_taken (known names.now) place name.now }
{
    matches!(found(names, place, name), Finding::Fitting)
}

/// A field with a value, where it is a plain one.
fn constant_part(names: &Names, field: &Text, value: i64) -> Result<Option<NamedPart>, NoMemory>
    ensures { IfOk result (λ part. part ≡ constant_part (known names.now) field.now value) }
{
    if is_taken(names, Place::Field, field) {
        Ok(Some(NamedPart::Constant(field.clone()?, value)))
    } else {
        Ok(None)
    }
}

/// What a field and a form behind it are.
fn pair_part(
    names: &Names,
    field: Option<&Text>,
    number: &Form,
) -> Result<Option<NamedPart>, NoMemory>
    ensures { IfOk result (λ part. part ≡ pair_part (known names.now) (option_copied field.entry) number.now) }
{
    match field {
        Some(field) => match number.number() {
            Some(value) => Ok(constant_part(names, field, value)?),
            None => Ok(None),
        },
        None => Ok(None),
    }
}

/// What `(field number)` is.
fn listed_part(names: &Names, forms: &[Form]) -> Result<Option<NamedPart>, NoMemory>
    ensures { IfOk result (λ part. part ≡ listed_part (known names.now) forms.now) }
{
    match forms {
        [field, number] => Ok(pair_part(names, field.symbol(), number)?),
        _ => Ok(None),
    }
}

/// Whether the name is that of a constant of a field, and of no operand.
fn is_constant(names: &Names, name: &Text) -> bool
    ensures { result ≡ is_constant (known names.now) name.now }
{
    match names.first(Namespace::Operands, name) {
        Some(_) => false,
        None => match names.first(Namespace::Constants, name) {
            Some(at) => at.kind == Kind::FieldConstant,
            None => false,
        },
    }
}

/// What a constant of a field is.
fn value_part(names: &Names, constant: Option<(&Text, i64)>) -> Result<Option<NamedPart>, NoMemory>
    ensures { IfOk result (λ part. part ≡ value_part (known names.now) (option_map (λ x. (x.0.now, x.1)) constant.entry)) }
{
    match constant {
        Some((field, value)) => Ok(constant_part(names, field, value)?),
        None => Ok(None),
    }
}

/// What a name is that its place takes.
#[tactic(auto, unfolding(crate::specs::Parts::taken_part))]
fn taken_part(
    names: &Names,
    elements: &[Element],
    name: &Text,
) -> Result<Option<NamedPart>, NoMemory>
    ensures { IfOk result (λ part. part ≡ taken_part (known names.now) elements.now name.now) }
{
    if is_constant(names, name) {
        Ok(value_part(names, constant_named(names, elements, name))?)
    } else {
        Ok(Some(NamedPart::Slot(name.clone()?)))
    }
}

/// What a name alone is.
fn named_part(
    names: &Names,
    elements: &[Element],
    place: Place,
    name: &Text,
) -> Result<Option<NamedPart>, NoMemory>
    ensures { IfOk result (λ part. part ≡ named_part (known names.now) elements.now place name.now) }
{
    if is_taken(names, place, name) {
        Ok(taken_part(names, elements, name)?)
    } else {
        Ok(None)
    }
}

/// What a form is among the parts of a format or an encoding. None where it isn't defined.
#[tactic(auto, unfolding(crate::specs::Parts::part_of))]
fn part_of(
    names: &Names,
    elements: &[Element],
    place: Place,
    form: &Form,
) -> Result<Option<NamedPart>, NoMemory>
    ensures { IfOk result (λ part. part ≡ part_of (known names.now) elements.now place form.now) }
{
    match form {
        Form::Symbol(name) => Ok(named_part(names, elements, place, name)?),
        Form::Items(forms) => Ok(listed_part(names, forms.as_slice())?),
        _ => Ok(None),
    }
}

/// The place of an item of an instruction's own clause, counted from 0 (docs/LANGUAGE.md, "Choices").
pub fn own_spot(item: usize) -> Spot
    ensures { result ≡ own_spot item }
{
    Spot { item, inner: 0 }
}

/// Puts a part at the end, if there is one.
fn put_part(
    list: &mut List<WrittenPart>,
    item: usize,
    part: Option<NamedPart>,
) -> Result<(), NoMemory>
    ensures { OnOk result (list.new ≡ list.old ++ part_before item part []) }
{
    match part {
        Some(part) => list.push(WrittenPart {
            part,
            spot: own_spot(item),
        }),
        None => Ok(()),
    }
}

/// The parts that forms are.
#[tactic(auto, using(crate::proofs::Behind::part_rules))]
fn parts_among(
    alloc: Global,
    names: &Names,
    elements: &[Element],
    place: Place,
    forms: &[Form],
) -> Result<List<WrittenPart>, NoMemory>
    ensures { IfOk result (λ list. list ≡ parts_from (known names.now) elements.now place 0 forms.now) }
{
    let mut list = List::new(alloc);
    for (item, form) in forms.iter().enumerate() {
        put_part(&mut list, item, part_of(names, elements, place, form)?)?;
    }
    Ok(list)
}

/// The elements of a list, and none of what is no list.
fn elements_or_none(form: &Form) -> &[Form]
    ensures { result.now ≡ unwrap_or (elements_of form.now) [] }
{
    match form.elements() {
        Some(elements) => elements,
        None => &[],
    }
}

/// The parts of a format or an encoding, by what stands behind the clause's name, each with its place
/// there. What isn't defined, or can't stand in the place, is left out (docs/LANGUAGE.md,
/// "Instructions").
pub fn parts_of(
    alloc: Global,
    names: &Names,
    elements: &[Element],
    place: Place,
    clause: &Form,
) -> Result<List<WrittenPart>, NoMemory>
    ensures { IfOk result (λ list. list ≡ parts_of (known names.now) elements.now place clause.now) }
{
    parts_among(
        alloc,
        names,
        elements,
        place,
        parts_in(elements_or_none(clause)),
    )
}
