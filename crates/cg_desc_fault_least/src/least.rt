//! The least refusal of a description, but for instructions that clash.

ghost use Rattle.std.specs.Prelude.{◌≡◌, IfOk, OnOk};
ghost use Rattle.cg_desc_fault_count.specs.Counts.{seen_before, behind};
ghost use Rattle.cg_desc_scope.specs.ByForm.{seen_by_form};
ghost use Rattle.cg_desc_scope.specs.Texts.{by_form};
ghost use Rattle.cg_desc_scope.specs.Seen.{seen_described};
ghost use Rattle.cg_desc_fault_report.specs.Subject.{described_in, machine_in, element_in, form_in, insns_in};
ghost use Rattle.cg_desc_machine.specs.Seen.{base};
ghost use Rattle.cg_desc_fault_least.specs.Least as spec;

use crate::data::least_at;
use crate::modes::modes_at;
use cg_base::{NoMemory, Refusal, Top};
use cg_desc_elements::Element;
use cg_desc_fault_count::Before;
use cg_desc_fault_report::{Saying, Subject, refusal_of};
use cg_desc_scope::{ByForm, Described};
use cg_model::Machine;
use cg_rtl_resolve::Scope;
use std::alloc::Global;

/// What a description is refused for, or want of memory.
pub(crate) type Answer = Result<Option<Refusal>, NoMemory>;

/// The refusal of a form for what was found, if anything was.
fn refused(top: &Top, found: Option<(u16, Saying)>) -> Option<Refusal>
    ensures { result ≡ spec.refusal_at top.now found }
{
    match found {
        Some((number, said)) => Some(refusal_of(top, number, said)),
        None => None,
    }
}

/// The refusal of a form by its data, behind what stands before it. It stands before the next one from then
/// on.
#[tactic(auto, unfolding(crate::specs::Least::by_data_at))]
fn by_data_at(alloc: Global, scope: &mut Scope, of: &Subject, before: &mut Before) -> Answer
    ensures value { IfOk result (λ found. found ≡ spec.by_data_at (described_in of.now) (base scope.old) (machine_in of.now) (seen_before before.old) of.now.number (element_in of.now) of.now.top.now (insns_in of.now)) }
    ensures now { OnOk result (seen_before before.new ≡ behind (described_in of.now) (base scope.old) (seen_before before.old) of.now.number (element_in of.now) (form_in of.now) (insns_in of.now)) }
    ensures kept { base scope.new ≡ base scope.old }
{
    let own = before.count(alloc, scope, of)?;
    let found = least_at(alloc, scope, of, &before.counts, &own)?;
    before.add(&own)?;
    Ok(refused(of.top, found))
}

/// The same of the form of this number, which gives this element.
#[tactic(auto, using(cg_desc_scope::proofs::ByForms::insns_of))]
fn by_data_of<'a>(
    alloc: Global,
    scope: &mut Scope,
    described: &'a Described<'a>,
    insns: &'a ByForm<'a>,
    machine: &'a Machine,
    before: &mut Before,
    number: usize,
    element: &'a Element,
    top: &'a Top,
) -> Answer
    requires { seen_by_form insns.now ≡ by_form described.now.written }
    ensures value { IfOk result (λ found. found ≡ spec.data_of (seen_described described.now) (base scope.old) machine.now (seen_before before.old) number element.now top.now) }
    ensures now { OnOk result (seen_before before.new ≡ spec.behind_of (seen_described described.now) (base scope.old) (seen_before before.old) number element.now top.now) }
    ensures kept { base scope.new ≡ base scope.old }
{
    let of = Subject {
        described,
        machine,
        number,
        element,
        top,
        insns: insns.get_or(number, &[]),
    };
    by_data_at(alloc, scope, &of, before)
}

/// The refusal of the first form that has one by its data.
fn first_by_data(
    alloc: Global,
    scope: &mut Scope,
    described: &Described,
    insns: &ByForm,
    machine: &Machine,
    tops: &[Top],
) -> Answer
    requires { seen_by_form insns.now ≡ by_form described.now.written }
    ensures value { IfOk result (λ found. found ≡ spec.by_data (seen_described described.now) (base scope.old) machine.now tops.now) }
    ensures kept { base scope.new ≡ base scope.old }
{
    let mut before = Before::first(alloc);
    let elements = described.selection.elements;
    let mut rest = tops;
    for (place, element) in elements.iter().enumerate() {
        match rest {
            [top, more @ ..] => {
                let number = place + 1;
                let found = by_data_of(
                    alloc,
                    scope,
                    &*described,
                    &*insns,
                    &*machine,
                    &mut before,
                    number,
                    element,
                    top,
                )?;
                if let Some(refusal) = found {
                    return Ok(Some(refusal));
                }
                rest = more;
            }
            _ => return Ok(None),
        }
    }
    Ok(None)
}

/// The refusal of the form of this number by its modes.
#[tactic(auto, using(cg_desc_scope::proofs::ByForms::insns_of), unfolding(crate::specs::Least::by_modes_at))]
fn by_modes_of<'a>(
    alloc: Global,
    scope: &mut Scope,
    described: &'a Described<'a>,
    insns: &'a ByForm<'a>,
    machine: &'a Machine,
    number: usize,
    element: &'a Element,
    top: &'a Top,
) -> Answer
    requires { seen_by_form insns.now ≡ by_form described.now.written }
    ensures value { IfOk result (λ found. found ≡ spec.modes_of (seen_described described.now) (base scope.old) machine.now number element.now top.now) }
    ensures kept { base scope.new ≡ base scope.old }
{
    let of = Subject {
        described,
        machine,
        number,
        element,
        top,
        insns: insns.get_or(number, &[]),
    };
    let found = modes_at(alloc, scope, &of)?;
    Ok(refused(top, found))
}

/// The refusal of the first form that has one by its modes.
fn first_by_modes(
    alloc: Global,
    scope: &mut Scope,
    described: &Described,
    insns: &ByForm,
    machine: &Machine,
    tops: &[Top],
) -> Answer
    requires { seen_by_form insns.now ≡ by_form described.now.written }
    ensures value { IfOk result (λ found. found ≡ spec.by_modes (seen_described described.now) (base scope.old) machine.now tops.now) }
    ensures kept { base scope.new ≡ base scope.old }
{
    let elements = described.selection.elements;
    let mut rest = tops;
    for (place, element) in elements.iter().enumerate() {
        match rest {
            [top, more @ ..] => {
                let number = place + 1;
                let found = by_modes_of(
                    alloc,
                    scope,
                    &*described,
                    &*insns,
                    &*machine,
                    number,
                    element,
                    top,
                )?;
                if let Some(refusal) = found {
                    return Ok(Some(refusal));
                }
                rest = more;
            }
            _ => return Ok(None),
        }
    }
    Ok(None)
}

/// The least refusal of a description, but for instructions that clash, in the scope of its names and by its
/// machine: the first form that has a fault by its data, in that form the least number, and under that
/// number the earliest place; else the first that has one by the modes of its expressions. The elements of
/// the description have these forms, an element for each. None exactly where there is none
/// (docs/REFUSALS.md).
pub fn first_by_elements(
    alloc: Global,
    scope: &mut Scope,
    described: &Described,
    machine: &Machine,
    tops: &[Top],
) -> Answer
    ensures value { IfOk result (λ found. found ≡ spec.by_elements (seen_described described.now) (base scope.old) machine.now tops.now) }
    ensures kept { base scope.new ≡ base scope.old }
{
    let insns = ByForm::of(alloc, described.written.as_slice())?;
    if let Some(refusal) = first_by_data(alloc, scope, described, &insns, machine, tops)? {
        return Ok(Some(refusal));
    }
    first_by_modes(alloc, scope, described, &insns, machine, tops)
}
