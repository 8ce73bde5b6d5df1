//! Numbers for the slots of an instruction.

ghost use Rattle.std.specs.Prelude.{◌≡◌, ◌<◌, true, length, take, slice_get};
ghost use Rattle.cg_base.specs.Modes.{bits_of};
ghost use Rattle.cg_code.specs.Coding.{AreValues};
ghost use Rattle.cg_model.specs.Encoding.{AreFor};
ghost use Rattle.cg_model.specs.Slots as slots;

use cg_base::bits;
use cg_model::{HwKind, Machine, Operand, Part};

/// How many bits the mode of an operand's value has.
fn slot_bits(machine: &Machine, operand: &Operand) -> u8
    ensures { result ≡ bits_of (slots.slot_mode machine.now operand.now) }
{
    match machine.hardware.get(operand.hardware as usize) {
        Some(hardware) => {
            if hardware.kind == HwKind::Register {
                32
            } else {
                bits(hardware.mode)
            }
        }
        None => 0,
    }
}

/// Whether there is just one number for each slot of some parts, which its mode's bits can hold.
#[tactic(auto, using(crate::proofs::SlotLaws::slot_laws))]
fn are_for(machine: &Machine, parts: &[Part], numbers: &[u64]) -> bool
    ensures { result ≡ true → AreFor machine.now (slots.slots_of machine.now parts.now) numbers.now }
{
    let mut next = 0;
    for k in 0..parts.len() {
        if let Part::Slot { operand } = parts[k] {
            if let Some(operand) = machine.operands.get(operand as usize) {
                if next >= numbers.len()
                    || (numbers[next] as u128) >= 1 << slot_bits(machine, operand)
                {
                    return false;
                }
                next += 1;
            }
        }
    }
    next == numbers.len()
}

/// Whether numbers are values of the slots of the instruction of a number.
#[tactic(auto, using(crate::proofs::SlotLaws::value_laws))]
pub(crate) fn are_values(machine: &Machine, i: u16, numbers: &[u64]) -> bool
    ensures { result ≡ true → AreValues machine.now i numbers.now }
{
    match machine.insns.get(i as usize) {
        Some(insn) => are_for(machine, insn.parts.as_slice(), numbers),
        None => false,
    }
}
