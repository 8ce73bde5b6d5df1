ghost use Rattle.std.specs.Prelude.{◌≡◌, IfOk};
ghost use Rattle.cg_model_faults.specs.E308 as e308;
ghost use Rattle.cg_model_faults.specs.Refusing as spec;

use crate::said::refusal_for;
use cg_base::{NoMemory, Refusal};
use cg_desc_check_element::{
    add, field_nodes, first_of_field, first_of_hardware, first_of_insn, first_of_macro,
    first_of_multi, first_of_operand, hardware_nodes, insn_nodes, multi_nodes,
};
use cg_model::{Field, Hardware, Machine, Multi};
use std::alloc::Global;

/// What a machine is refused for, or want of memory.
pub(crate) type Answer = Result<Option<Refusal>, NoMemory>;

/// The nodes of the expressions of all fields.
#[tactic(auto, using(crate::proofs::Folds::fold_rules))]
pub(crate) fn all_field_nodes(fields: &[Field]) -> Result<u64, NoMemory>
    ensures { IfOk result (λ count. count ≡ e308.all_field_nodes fields.now) }
{
    let mut count = 0;
    for field in fields {
        count = add(count, field_nodes(field)?)?;
    }
    Ok(count)
}

/// Those of all multi fields.
#[tactic(auto, using(crate::proofs::Folds::fold_rules))]
pub(crate) fn all_multi_nodes(multis: &[Multi]) -> Result<u64, NoMemory>
    ensures { IfOk result (λ count. count ≡ e308.all_multi_nodes multis.now) }
{
    let mut count = 0;
    for multi in multis {
        count = add(count, multi_nodes(multi)?)?;
    }
    Ok(count)
}

/// Those of all hardware.
#[tactic(auto, using(crate::proofs::Folds::fold_rules))]
pub(crate) fn all_hardware_nodes(hardware: &[Hardware]) -> Result<u64, NoMemory>
    ensures { IfOk result (λ count. count ≡ e308.all_hardware_nodes hardware.now) }
{
    let mut count = 0;
    for each in hardware {
        count = add(count, hardware_nodes(each)?)?;
    }
    Ok(count)
}

/// For which field a machine is refused, if for one.
#[tactic(auto, using(crate::proofs::Folds::fold_rules))]
pub(crate) fn by_fields(alloc: Global, machine: &Machine) -> Answer
    ensures { IfOk result (λ found. found ≡ spec.first_found machine.now (spec.of_fields machine.now 0 0 machine.now.fields)) }
{
    let mut before = 0;
    let mut spent = 0;
    for field in machine.fields.as_slice() {
        if let Some(fault) = first_of_field(machine, before, spent, field)? {
            return Ok(Some(refusal_for(alloc, machine, field.name.as_slice(), fault)?));
        }
        before = add(before, 1)?;
        spent = add(spent, field_nodes(field)?)?;
    }
    Ok(None)
}

/// For which multi field, with so many nodes before.
#[tactic(auto, using(crate::proofs::Folds::fold_rules))]
pub(crate) fn by_multis(alloc: Global, machine: &Machine, nodes: u64) -> Answer
    ensures { IfOk result (λ found. found ≡ spec.first_found machine.now (spec.of_multis machine.now 0 nodes machine.now.multis)) }
{
    let mut before = 0;
    let mut spent = nodes;
    for multi in machine.multis.as_slice() {
        if let Some(fault) = first_of_multi(machine, before, spent, multi)? {
            return Ok(Some(refusal_for(alloc, machine, multi.name.as_slice(), fault)?));
        }
        before = add(before, 1)?;
        spent = add(spent, multi_nodes(multi)?)?;
    }
    Ok(None)
}

/// For which hardware.
#[tactic(auto, using(crate::proofs::Folds::fold_rules))]
pub(crate) fn by_hardware(alloc: Global, machine: &Machine, nodes: u64) -> Answer
    ensures { IfOk result (λ found. found ≡ spec.first_found machine.now (spec.of_all_hardware machine.now 0 0 nodes machine.now.hardware)) }
{
    let mut cells = 0;
    let mut spent = nodes;
    let hardware = machine.hardware.as_slice();
    for k in 0..hardware.len() {
        let each = &hardware[k];
        if let Some(fault) = first_of_hardware(alloc, machine, k, cells, spent, each)? {
            return Ok(Some(refusal_for(alloc, machine, each.name.as_slice(), fault)?));
        }
        cells = add(cells, each.count as u64)?;
        spent = add(spent, hardware_nodes(each)?)?;
    }
    Ok(None)
}

/// For which operand.
#[tactic(auto, using(crate::proofs::Folds::fold_rules))]
pub(crate) fn by_operands(alloc: Global, machine: &Machine) -> Answer
    ensures { IfOk result (λ found. found ≡ spec.first_found machine.now (spec.of_operands machine.now 0 machine.now.operands)) }
{
    let mut before = 0;
    for operand in machine.operands.as_slice() {
        if let Some(fault) = first_of_operand(machine, before, operand)? {
            return Ok(Some(refusal_for(alloc, machine, operand.name.as_slice(), fault)?));
        }
        before = add(before, 1)?;
    }
    Ok(None)
}

/// For which instruction.
#[tactic(auto, using(crate::proofs::Folds::fold_rules))]
pub(crate) fn by_insns(alloc: Global, machine: &Machine, nodes: u64) -> Answer
    ensures { IfOk result (λ found. found ≡ spec.first_found machine.now (spec.of_insns machine.now 0 nodes machine.now.insns)) }
{
    let mut spent = nodes;
    let insns = machine.insns.as_slice();
    for k in 0..insns.len() {
        let insn = &insns[k];
        if let Some(fault) = first_of_insn(alloc, machine, k, spent, insn)? {
            return Ok(Some(refusal_for(alloc, machine, insn.name.as_slice(), fault)?));
        }
        spent = add(spent, insn_nodes(insn)?)?;
    }
    Ok(None)
}

/// For which macro instruction.
#[tactic(auto, using(crate::proofs::Folds::fold_rules))]
pub(crate) fn by_macros(alloc: Global, machine: &Machine) -> Answer
    ensures { IfOk result (λ found. found ≡ spec.first_found machine.now (spec.of_macros machine.now 0 machine.now.macros)) }
{
    let mut before = 0;
    for insn in machine.macros.as_slice() {
        if let Some(fault) = first_of_macro(alloc, machine, before, insn)? {
            return Ok(Some(refusal_for(alloc, machine, insn.name.as_slice(), fault)?));
        }
        before = add(before, 1)?;
    }
    Ok(None)
}
