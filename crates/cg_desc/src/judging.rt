//! What is at fault in a description that has a machine.

ghost use Rattle.std.specs.Prelude.{◌≡◌, None, ⊤};
ghost use Rattle.std.specs.List.{filter_map};
ghost use Rattle.cg_base.specs.Answering.{Answered};
ghost use Rattle.cg_desc_laws.specs.InHand.{IsChosen};
ghost use Rattle.cg_desc_data.specs.Seen.{seen};
ghost use Rattle.cg_desc_scope.specs.Described as description;
ghost use Rattle.cg_desc_scope.specs.Seen.{forms_of, seen_described};
ghost use Rattle.cg_desc_elements.specs.Reading as reading;
ghost use Rattle.cg_desc.specs.Answering as spec;
ghost use Rattle.cg_model.specs.Formed.{IsFormed};
ghost use Rattle.cg_model_faults.specs.Accepted.{IsAccepted};
ghost use Rattle.cg_model_faults.specs.Refusing as refusing;
ghost use Rattle.cg_desc_fault_least.specs.Least.{by_elements};
ghost use Rattle.cg_desc_machine.specs.Machines.{machine_of};
ghost use Rattle.cg_desc_machine.specs.Seen.{base};

use crate::clash::clash_of;
use cg_ambig::first_clash;
use cg_base::{Stop, Top};
use cg_desc_data::Selection;
use cg_desc_fault_least::first_by_elements;
use cg_desc_laws::machine_is_faultless;
use cg_desc_machine::machine_of;
use cg_desc_scope::{Described, describe, scope_of};
use cg_model::Machine;
use cg_model_laws::faultless_is_sound;
use cg_rtl_resolve::Scope;
use std::alloc::Global;

/// What is answered of a description of which nothing but a clash may be at fault, and whose machine is
/// clear in hand.
#[tactic(auto, using(crate::proofs::Answers::answering))]
fn judge_clash(
    alloc: Global,
    described: &Described,
    scope: &Scope,
    machine: &Machine,
    tops: &[Top],
) -> Result<(), Stop>
    requires formed { IsFormed machine.now }
    requires clear { refusing.first_refusal machine.now ≡ None }
    requires elements { by_elements (seen_described described.now) (base scope.now) machine.now tops.now ≡ None }
    ensures answer { Answered (λ _. spec.IsFaultless (seen_described described.now) (base scope.now) machine.now tops.now) (spec.Refuses (seen_described described.now) (base scope.now) machine.now tops.now) result }
    ensures accepted { Answered (λ _. IsAccepted machine.now) (λ _. ⊤) result }
{
    faultless_is_sound(machine);
    match first_clash(machine) {
        Some(clash) => {
            let refusal = clash_of(alloc, described, tops, machine, &clash)?;
            Err(Stop::Refused(refusal))
        }
        None => Ok(()),
    }
}

/// What is answered of a description by its machine. Where no form is at fault, the machine is formed and has
/// no fault in hand but a clash.
#[tactic(auto, using(crate::proofs::Answers::answering))]
fn judge(
    alloc: Global,
    selection: &Selection,
    described: &Described,
    scope: &mut Scope,
    machine: &Machine,
    tops: &[Top],
) -> Result<(), Stop>
    requires described { seen_described described.now ≡ description.described (seen selection.now) }
    requires alone { reading.first_refusal tops.now ≡ None }
    requires elements { (seen selection.now).elements ≡ filter_map reading.element_at tops.now }
    requires chosen { IsChosen (seen selection.now) }
    requires scope { base scope.old ≡ description.whole_scope (seen selection.now) (forms_of tops.now) }
    requires machine { machine.now ≡ machine_of (seen_described described.now) (base scope.old) }
    ensures answer { Answered (λ _. spec.IsFaultless (seen_described described.now) (base scope.old) machine.now tops.now) (spec.Refuses (seen_described described.now) (base scope.old) machine.now tops.now) result }
    ensures accepted { Answered (λ _. IsAccepted machine.now) (λ _. ⊤) result }
{
    match first_by_elements(alloc, scope, described, machine, tops)? {
        Some(refusal) => Err(Stop::Refused(refusal)),
        None => {
            machine_is_faultless(selection, described, scope, machine, tops);
            judge_clash(alloc, described, scope, machine, tops)
        }
    }
}

/// What is answered of a description in the scope of its names.
#[tactic(auto, using(crate::proofs::Answers::answering))]
fn machine_by(
    alloc: Global,
    selection: &Selection,
    described: &Described,
    scope: &mut Scope,
    tops: &[Top],
) -> Result<Machine, Stop>
    requires scope { base scope.old ≡ description.whole_scope (seen selection.now) (forms_of tops.now) }
    requires described { seen_described described.now ≡ description.described (seen selection.now) }
    requires alone { reading.first_refusal tops.now ≡ None }
    requires elements { (seen selection.now).elements ≡ filter_map reading.element_at tops.now }
    requires chosen { IsChosen (seen selection.now) }
    ensures answer { spec.GivesOf (seen_described described.now) (base scope.old) tops.now result }
    ensures accepted { Answered (λ machine. IsAccepted machine) (λ _. ⊤) result }
{
    let machine = machine_of(alloc, described, scope)?;
    judge(alloc, selection, described, scope, &machine, tops)?;
    Ok(machine)
}

/// What is answered of what a selection's elements say.
#[tactic(auto, using(crate::proofs::Answers::answering))]
fn described_machine(
    alloc: Global,
    selection: &Selection,
    described: &Described,
    tops: &[Top],
) -> Result<Machine, Stop>
    requires described { seen_described described.now ≡ description.described (seen selection.now) }
    requires alone { reading.first_refusal tops.now ≡ None }
    requires elements { (seen selection.now).elements ≡ filter_map reading.element_at tops.now }
    requires chosen { IsChosen (seen selection.now) }
    ensures answer { spec.GivesSelection (seen selection.now) tops.now result }
    ensures accepted { Answered (λ machine. IsAccepted machine) (λ _. ⊤) result }
{
    let written = described.written.as_slice();
    let mut scope = scope_of(alloc, selection, tops, &described.framing, written)?;
    machine_by(alloc, selection, described, &mut scope, tops)
}

/// What is answered of the forms of a selection's elements.
#[tactic(auto, using(crate::proofs::Answers::answering))]
pub(crate) fn selected_machine(
    alloc: Global,
    selection: &Selection,
    tops: &[Top],
) -> Result<Machine, Stop>
    requires alone { reading.first_refusal tops.now ≡ None }
    requires elements { (seen selection.now).elements ≡ filter_map reading.element_at tops.now }
    requires chosen { IsChosen (seen selection.now) }
    ensures answer { spec.GivesSelection (seen selection.now) tops.now result }
    ensures accepted { Answered (λ machine. IsAccepted machine) (λ _. ⊤) result }
{
    let described = describe(alloc, *selection)?;
    described_machine(alloc, selection, &described, tops)
}
