ghost use Rattle.std.specs.Prelude.{◌≡◌, ◌<◌, ◌≤◌, length, IfOk};
ghost use Rattle.cg_ambig.specs.Patterns.{HasPatterns};
ghost use Rattle.cg_tree.specs.Candidates as spec;

use crate::bits::is_set;
use cg_base::{List, NoMemory};
use cg_code_mask::{Constants, constants_of};
use cg_model::Machine;
use std::alloc::Global;

/// What the constants of each instruction say of the bits.
#[tactic(auto, using(crate::proofs::Tables::tables))]
pub(crate) fn table_of(alloc: Global, machine: &Machine) -> Result<List<Constants>, NoMemory>
    requires { HasPatterns machine.now }
    ensures { IfOk result (λ table. table ≡ spec.table_of machine.now) }
{
    let mut table = List::new(alloc);
    for insn in machine.insns.as_slice() {
        table.push(constants_of(machine, insn))?;
    }
    Ok(table)
}

/// The numbers of the instructions that bytes are decoded to, in order.
#[tactic(auto, using(crate::proofs::Tables::listing))]
pub(crate) fn decodables(alloc: Global, machine: &Machine) -> Result<List<u16>, NoMemory>
    requires few { length machine.now.insns ≤ 4096 }
    ensures { IfOk result (λ list. list ≡ spec.decodables machine.now) }
{
    let mut list = List::new(alloc);
    for (k, insn) in machine.insns.as_slice().iter().enumerate() {
        if insn.decodable {
            list.push(k as u16)?;
        }
    }
    Ok(list)
}

/// Whether a constant bit is 1. None where no constant covers the bit.
fn constant_in(constants: &Constants, bit: u8) -> Option<bool>
    ensures { result ≡ spec.constant_in (Some constants.now) bit }
{
    if is_set(constants.cover, bit) {
        Some(is_set(constants.value, bit))
    } else {
        None
    }
}

/// The same of the instruction of a number.
pub(crate) fn constant_at(table: &[Constants], k: u16, bit: u8) -> Option<bool>
    ensures { result ≡ spec.constant_at table.now k bit }
{
    match table.get(k as usize) {
        Some(constants) => constant_in(constants, bit),
        None => None,
    }
}

/// Whether a constant bit, or none, doesn't contradict an answer.
pub(crate) fn agrees(constant: Option<bool>, answer: bool) -> bool
    ensures { result ≡ spec.agrees constant answer }
{
    match constant {
        Some(true) => answer,
        Some(false) => !answer,
        None => true,
    }
}
