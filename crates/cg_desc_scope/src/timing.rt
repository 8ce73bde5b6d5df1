//! How long instructions take.

ghost use Rattle.std.specs.Prelude.{◌≡◌, ◌++◌, map, Some, IfOk, OnOk};
ghost use Rattle.std.specs.Option.{option_copied, option_map};
ghost use Rattle.std.specs.List.{filter_map, flat_map};
ghost use Rattle.cg_model_faults.specs.E308.{sum_of};
ghost use Rattle.cg_rtl_resolve.specs.Names.{found_under};
ghost use Rattle.cg_desc_data.specs.Seen.{seen};
ghost use Rattle.cg_desc_scope.specs.Timing as spec;
ghost use Rattle.cg_desc_scope.specs.Lent.{seen_unit, seen_units, seen_forms};

use cg_attrs::{Frame, ModelForm};
use cg_base::{Form, NoMemory, Text, only_natural};
use cg_desc_data::Selection;
use cg_desc_elements::Element;
use cg_insn::InstructionForm;
use cg_rtl::first_symbol;
use cg_rtl_resolve::{behind_first, elements_or_none};
use std::alloc::Global;

/// A model of the machine.
fn model_in<'a>(machine: &Text, element: &'a Element) -> Option<&'a ModelForm>
    ensures { option_copied result ≡ spec.model_in machine.now element.now }
{
    match element {
        Element::Frame(Frame::Model(form)) => {
            if form.mach == *machine {
                Some(form)
            } else {
                None
            }
        }
        _ => None,
    }
}

/// The first model of the machine, by whose units its instructions take their time (docs/LANGUAGE.md,
/// "Instructions"). None exactly where it has none.
pub fn first_model<'a>(selection: &Selection<'a>) -> Option<&'a ModelForm>
    ensures { option_copied result ≡ spec.first_model (seen selection.now) }
{
    for element in selection.elements {
        if selection.takes_part(element) {
            if let Some(form) = model_in(selection.machine, element) {
                return Some(form);
            }
        }
    }
    None
}

/// What the place `done` of a unit says.
fn done_in(forms: &[Form]) -> u64
    ensures { result ≡ spec.done_in forms.now }
{
    match forms.get(4) {
        Some(done) => done.natural().unwrap_or(0),
        None => 0,
    }
}

/// A unit of a model: its name, and how long it takes.
fn unit_in(forms: &[Form]) -> Option<(&Text, u64)>
    ensures { option_map seen_unit result ≡ spec.unit_in forms.now }
{
    match first_symbol(forms) {
        Some(name) => Some((name, done_in(forms))),
        None => None,
    }
}

/// The same of what stands behind the name of a clause `unit`.
#[tactic(auto, unfolding(crate::specs::Timing::unit_of))]
fn unit_of(clause: &Form) -> Option<(&Text, u64)>
    ensures { option_map seen_unit result ≡ spec.unit_of clause.now }
{
    match clause.elements() {
        Some(elements) => unit_in(elements),
        None => None,
    }
}

/// The units of a model.
fn units_of(alloc: Global, model: &ModelForm) -> Result<Vec<(&Text, u64)>, NoMemory>
    ensures { IfOk result (λ list. seen_units list.items ≡ spec.units_of model.now) }
{
    let mut list = Vec::new(alloc);
    for clause in model.unit.as_slice() {
        if let Some(unit) = unit_of(clause) {
            list.push(unit)?;
        }
    }
    Ok(list)
}

/// The units that an entry of `timing` names for a model.
fn entries_for<'a>(model: &Text, entry: &'a Form) -> &'a [Form]
    ensures { result.now ≡ spec.entries_for model.now entry.now }
{
    match entry.headed() {
        Some((name, units)) => { if name == model { units } else { &[] } }
        None => &[],
    }
}

/// What a note `(cycles n)` says.
#[tactic(auto, unfolding(crate::specs::Timing::note_cycles))]
fn note_cycles(note: &Form) -> Option<u64>
    ensures { result ≡ spec.note_cycles note.now }
{
    match note.headed() {
        Some((name, forms)) => match name.as_slice() {
            b"cycles" => only_natural(forms),
            _ => None,
        },
        None => None,
    }
}

/// What the last `(cycles n)` among notes says.
#[tactic(auto, using(crate::proofs::Last::last_rules))]
fn last_cycles(notes: &[Form]) -> Option<u64>
    ensures { result ≡ spec.last_cycles notes.now }
{
    let mut last = None;
    for note in notes {
        if let Some(cycles) = note_cycles(note) {
            last = Some(cycles);
        }
    }
    last
}

/// How long the unit of this name takes.
fn unit_under(units: &[(&Text, u64)], name: &Text) -> Option<u64>
    ensures { result ≡ found_under name.now (seen_units units.now) }
{
    for unit in units {
        if unit.0 == name {
            return Some(unit.1);
        }
    }
    None
}

/// How long a unit takes where `timing` names it.
fn unit_cycles(units: &[(&Text, u64)], forms: &[Form]) -> u64
    ensures { result ≡ spec.unit_cycles (seen_units units.now) forms.now }
{
    match last_cycles(behind_first(forms)) {
        Some(cycles) => cycles,
        None => match first_symbol(forms) {
            Some(name) => unit_under(units, name).unwrap_or(0),
            None => 0,
        },
    }
}

/// The same of `(unit name note ..)`.
fn cycles_at(units: &[(&Text, u64)], entry: &Form) -> u64
    ensures { result ≡ spec.cycles_at (seen_units units.now) entry.now }
{
    match entry.headed() {
        Some((_, forms)) => unit_cycles(units, forms),
        None => 0,
    }
}

/// Puts forms that are lent behind others.
fn put_entries<'a>(list: &mut Vec<&'a Form>, entries: &'a [Form]) -> Result<(), NoMemory>
    ensures { OnOk result (seen_forms list.new.items ≡ seen_forms list.old.items ++ entries.now) }
{
    for entry in entries {
        list.push(entry)?;
    }
    Ok(())
}

/// The units that entries of `timing` name for a model.
fn timed_among<'a>(
    alloc: Global,
    model: &Text,
    entries: &'a [Form],
) -> Result<Vec<&'a Form>, NoMemory>
    ensures { IfOk result (λ list. seen_forms list.items ≡ flat_map (spec.entries_for model.now) entries.now) }
{
    let mut list = Vec::new(alloc);
    for entry in entries {
        put_entries(&mut list, entries_for(model, entry))?;
    }
    Ok(list)
}

/// The units that `timing` names for a model.
fn timed_units<'a>(
    alloc: Global,
    model: &Text,
    timing: Option<&'a Form>,
) -> Result<Vec<&'a Form>, NoMemory>
    ensures { IfOk result (λ list. seen_forms list.items ≡ spec.timed_units model.now (option_copied timing.entry)) }
{
    match timing {
        Some(clause) => timed_among(alloc, model, elements_or_none(clause)),
        None => Ok(Vec::new(alloc)),
    }
}

/// How long several take together.
fn sum_for(units: &[(&Text, u64)], entries: &[&Form]) -> u128
    ensures { result ≡ sum_of (map (spec.cycles_at (seen_units units.now)) (seen_forms entries.now)) }
{
    let mut sum: u128 = 0;
    for entry in entries {
        sum += cycles_at(units, *entry) as u128;
    }
    sum
}

/// How long an instruction takes by the units that are named, and 1 where none is.
fn cycles_by(units: &[(&Text, u64)], entries: &[&Form]) -> u128
    ensures { result ≡ spec.cycles_by (seen_units units.now) (seen_forms entries.now) }
{
    if entries.is_empty() {
        return 1;
    }
    sum_for(units, entries)
}

/// How long an instruction takes by a model.
fn cycles_for(alloc: Global, model: &ModelForm, timing: Option<&Form>) -> Result<u128, NoMemory>
    ensures { IfOk result (λ cycles. cycles ≡ spec.cycles_for (Some model.now) (option_copied timing.entry)) }
{
    let units = units_of(alloc, model)?;
    let entries = timed_units(alloc, &model.name, timing)?;
    Ok(cycles_by(&units, &entries))
}

/// How long an instruction takes by a machine's first model: the sum over the units that `timing` names for
/// it, and 1 where it names none or there is no model (docs/LANGUAGE.md, "Instructions").
pub fn cycles_of(
    alloc: Global,
    model: Option<&ModelForm>,
    form: &InstructionForm,
) -> Result<u128, NoMemory>
    ensures { IfOk result (λ cycles. cycles ≡ spec.cycles_of (option_copied model.entry) form.now) }
{
    match model {
        Some(model) => cycles_for(alloc, model, form.timing.as_ref()),
        None => Ok(1),
    }
}
