ghost use Rattle.std.specs.Prelude.{◌≡◌, IfOk};
ghost use Rattle.cg_model_faults.specs.Refusing as spec;

use crate::fold::Answer;
use crate::said::refusal_for;
use cg_desc_check_element::{
    first_of_field_modes, first_of_hardware_modes, first_of_insn_modes, first_of_multi_modes,
};
use cg_model::Machine;
use std::alloc::Global;

/// For the modes of which field a machine is refused, if for those of one.
#[tactic(auto, using(crate::proofs::Folds::fold_rules))]
pub(crate) fn by_field_modes(alloc: Global, machine: &Machine) -> Answer
    ensures { IfOk result (λ found. found ≡ spec.first_found machine.now (spec.of_field_modes machine.now machine.now.fields)) }
{
    for field in machine.fields.as_slice() {
        if let Some(fault) = first_of_field_modes(machine, field) {
            return Ok(Some(refusal_for(alloc, machine, field.name.as_slice(), fault)?));
        }
    }
    Ok(None)
}

/// For those of which multi field.
#[tactic(auto, using(crate::proofs::Folds::fold_rules))]
pub(crate) fn by_multi_modes(alloc: Global, machine: &Machine) -> Answer
    ensures { IfOk result (λ found. found ≡ spec.first_found machine.now (spec.of_multi_modes machine.now machine.now.multis)) }
{
    for multi in machine.multis.as_slice() {
        if let Some(fault) = first_of_multi_modes(machine, multi) {
            return Ok(Some(refusal_for(alloc, machine, multi.name.as_slice(), fault)?));
        }
    }
    Ok(None)
}

/// For those of which hardware.
#[tactic(auto, using(crate::proofs::Folds::fold_rules))]
pub(crate) fn by_hardware_modes(alloc: Global, machine: &Machine) -> Answer
    ensures { IfOk result (λ found. found ≡ spec.first_found machine.now (spec.of_hardware_modes machine.now machine.now.hardware)) }
{
    for each in machine.hardware.as_slice() {
        if let Some(fault) = first_of_hardware_modes(machine, each) {
            return Ok(Some(refusal_for(alloc, machine, each.name.as_slice(), fault)?));
        }
    }
    Ok(None)
}

/// For those of which instruction.
#[tactic(auto, using(crate::proofs::Folds::fold_rules))]
pub(crate) fn by_insn_modes(alloc: Global, machine: &Machine) -> Answer
    ensures { IfOk result (λ found. found ≡ spec.first_found machine.now (spec.of_insn_modes machine.now machine.now.insns)) }
{
    for insn in machine.insns.as_slice() {
        if let Some(fault) = first_of_insn_modes(machine, insn) {
            return Ok(Some(refusal_for(alloc, machine, insn.name.as_slice(), fault)?));
        }
    }
    Ok(None)
}
