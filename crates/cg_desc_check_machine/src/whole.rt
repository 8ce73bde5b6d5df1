ghost use Rattle.std.specs.Prelude.{◌≡◌, [], IfOk};
ghost use Rattle.std.specs.Option.{option_map};
ghost use Rattle.cg_desc_check_machine.specs.Later.{later_data, from_hardware, from_multis};
ghost use Rattle.cg_model_faults.specs.Refusing as spec;

use crate::fold::{
    Answer, all_field_nodes, all_hardware_nodes, all_multi_nodes, by_fields, by_hardware, by_insns,
    by_macros, by_multis, by_operands,
};
use crate::modes::{by_field_modes, by_hardware_modes, by_insn_modes, by_multi_modes};
use crate::said::refusal_for;
use cg_desc_check_element::{add, first_of_bundle, first_of_texts};
use cg_model::Machine;
use cg_model_faults::MachineFault;
use std::alloc::Global;

/// The refusal for a fault that has no name of an element, where there is one.
fn unnamed(alloc: Global, machine: &Machine, fault: Option<MachineFault>) -> Answer
    ensures { IfOk result (λ found. found ≡ option_map (spec.refused_for machine.now []) fault) }
{
    match fault {
        Some(fault) => Ok(Some(refusal_for(alloc, machine, &[], fault)?)),
        None => Ok(None),
    }
}

/// For what a machine is refused by the data of its elements from its instructions on.
#[tactic(auto, using(crate::proofs::Folds::whole_rules))]
fn by_later(alloc: Global, machine: &Machine, nodes: u64) -> Answer
    ensures { IfOk result (λ found. found ≡ spec.first_found machine.now (later_data machine.now nodes)) }
{
    if let Some(refusal) = by_operands(alloc, machine)? {
        return Ok(Some(refusal));
    }
    if let Some(refusal) = by_insns(alloc, machine, nodes)? {
        return Ok(Some(refusal));
    }
    if let Some(refusal) = by_macros(alloc, machine)? {
        return Ok(Some(refusal));
    }
    Ok(unnamed(alloc, machine, first_of_texts(machine))?)
}

/// The same from hardware on.
#[tactic(auto, using(crate::proofs::Folds::whole_rules))]
fn from_hardware(alloc: Global, machine: &Machine, nodes: u64) -> Answer
    ensures { IfOk result (λ found. found ≡ spec.first_found machine.now (from_hardware machine.now nodes)) }
{
    if let Some(refusal) = by_hardware(alloc, machine, nodes)? {
        return Ok(Some(refusal));
    }
    let own = all_hardware_nodes(machine.hardware.as_slice())?;
    Ok(by_later(alloc, machine, add(nodes, own)?)?)
}

/// The same from multi fields on.
#[tactic(auto, using(crate::proofs::Folds::whole_rules))]
fn from_multis(alloc: Global, machine: &Machine, nodes: u64) -> Answer
    ensures { IfOk result (λ found. found ≡ spec.first_found machine.now (from_multis machine.now nodes)) }
{
    if let Some(refusal) = by_multis(alloc, machine, nodes)? {
        return Ok(Some(refusal));
    }
    let own = all_multi_nodes(machine.multis.as_slice())?;
    Ok(from_hardware(alloc, machine, add(nodes, own)?)?)
}

/// For what it is refused by the data of its elements.
#[tactic(auto, using(crate::proofs::Folds::data_rules))]
fn by_data(alloc: Global, machine: &Machine) -> Answer
    ensures { IfOk result (λ found. found ≡ spec.first_found machine.now (spec.by_data machine.now)) }
{
    if let Some(refusal) = unnamed(alloc, machine, first_of_bundle(machine))? {
        return Ok(Some(refusal));
    }
    if let Some(refusal) = by_fields(alloc, machine)? {
        return Ok(Some(refusal));
    }
    let own = all_field_nodes(machine.fields.as_slice())?;
    Ok(from_multis(alloc, machine, own)?)
}

/// For what it is refused by the modes of its expressions.
#[tactic(auto, using(crate::proofs::Folds::whole_rules))]
fn by_modes(alloc: Global, machine: &Machine) -> Answer
    ensures { IfOk result (λ found. found ≡ spec.first_found machine.now (spec.by_modes machine.now)) }
{
    if let Some(refusal) = by_field_modes(alloc, machine)? {
        return Ok(Some(refusal));
    }
    if let Some(refusal) = by_multi_modes(alloc, machine)? {
        return Ok(Some(refusal));
    }
    if let Some(refusal) = by_hardware_modes(alloc, machine)? {
        return Ok(Some(refusal));
    }
    Ok(by_insn_modes(alloc, machine)?)
}

/// What a machine in hand is refused for by the data of its elements and the modes of their expressions,
/// and None exactly where nothing is wrong with these (docs/REFUSALS.md, "Faults of a machine"). That two
/// of its instructions clash is not asked here.
#[tactic(auto, using(crate::proofs::Folds::whole_rules))]
pub fn first_refusal(alloc: Global, machine: &Machine) -> Answer
    ensures { IfOk result (λ found. found ≡ spec.first_refusal machine.now) }
{
    if let Some(refusal) = by_data(alloc, machine)? {
        return Ok(Some(refusal));
    }
    Ok(by_modes(alloc, machine)?)
}
