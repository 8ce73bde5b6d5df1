//! The values of slots for their numbers.

ghost use Rattle.std.specs.Prelude.{◌≡◌, ◌<◌, ◌≤◌, length, slice_get, Some, IfOk};
ghost use Rattle.cg_base.specs.Operations.{wrapped};
ghost use Rattle.cg_syntax_fit.specs.Slots.{AreThere, operands_of};
ghost use Rattle.cg_model_source.specs.Choosing as spec;
ghost use Rattle.cg_model.specs.Slots.{slot_mode};
ghost use Rattle.cg_model.specs.Sound.{IsSound, SoundOperand};

use cg_base::{NoMemory, bits};
use cg_code::slot_mode;
use cg_model::{Machine, Operand};
use std::alloc::Global;

/// A number modulo 2^bits.
#[tactic(auto, using(crate::proofs::Values::wrapping))]
pub fn wrapped(bits: u8, number: i128) -> u64
    requires { bits ≤ 64 }
    ensures value { result ≡ wrapped bits number }
{
    number.rem_euclid(1 << bits) as u64
}

/// The value of a slot for its number. One that isn't known stands for 0.
#[tactic(auto, using(crate::proofs::Values::bits))]
pub(crate) fn value_for(machine: &Machine, operand: &Operand, number: Option<i128>) -> u64
    requires sound { IsSound machine.now }
    requires operand { SoundOperand machine.now operand.now }
    ensures { result ≡ spec.value_for machine.now operand.now number }
{
    match number {
        Some(number) => wrapped(bits(slot_mode(machine, operand)), number),
        None => 0,
    }
}

/// The operand of a number that one has.
fn operand_there(machine: &Machine, k: u16) -> &Operand
    requires sound { IsSound machine.now }
    requires within { k < length machine.now.operands }
    ensures at { slice_get machine.now.operands k ≡ Some result.now }
    ensures sound { SoundOperand machine.now result.now }
{
    &machine.operands.as_slice()[k as usize]
}

/// The values of slots of these operands for their numbers.
#[tactic(auto, using(crate::proofs::Values::valuing))]
pub(crate) fn values_for(
    alloc: Global,
    machine: &Machine,
    operands: &[u16],
    numbers: &[Option<i128>],
) -> Result<Vec<u64>, NoMemory>
    requires sound { IsSound machine.now }
    requires there { AreThere machine.now operands.now }
    requires as_many { length numbers.now ≡ length operands.now }
    ensures { IfOk result (λ values. values.items ≡ spec.values_for machine.now (operands_of machine.now operands.now) numbers.now) }
{
    let mut values = Vec::new(alloc);
    for k in 0..operands.len() {
        let operand = operand_there(machine, operands[k]);
        values.push(value_for(machine, operand, numbers[k]))?;
    }
    Ok(values)
}
