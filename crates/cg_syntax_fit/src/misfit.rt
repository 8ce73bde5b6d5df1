//! What keeps an instruction from standing for numbers.

ghost use Rattle.std.specs.Prelude.{◌≡◌, ◌≤◌, ◌^◌, ◌≤ℤ◌, pos, length, IfOk};
ghost use Rattle.cg_syntax_fit.specs.Misfits.{misfit_at, first_misfit, said, operand_name, refused_for};
ghost use Rattle.cg_model_source.specs.Choosing as spec;
ghost use Rattle.cg_model.specs.Sound.{IsSound, SoundOperand};

use crate::value::value_for;
use cg_base::{NoMemory, Refusal, Text, bits, decimal};
use cg_code::{operand_at, slot_mode};
use cg_model::{Machine, Operand};
use std::alloc::Global;

/// What keeps an instruction from standing for numbers.
#[derive(Clone, Copy)]
pub enum Misfit {
    /// The number of a slot is out of range.
    OutOfRange {
        /// The slot's operand, by its number.
        operand: u16,
        /// The number.
        number: i128,
    },
    /// All numbers are known, and the assertion fails.
    Assertion,
}

/// 2^exponent.
#[tactic(auto, using(crate::proofs::Values::power_few))]
fn power(exponent: u8) -> i128
    requires { exponent ≤ 64 }
    ensures value { result ≡ pos (2 ^ exponent) }
    ensures small { result ≤ℤ pos (2 ^ 64) }
{
    1 << exponent
}

/// Whether a number lies from -2^(bits - 1) to 2^bits - 1.
pub fn is_within(bits: u8, number: i128) -> bool
    requires some { 1 ≤ bits }
    requires few { bits ≤ 64 }
    ensures { result ≡ spec.is_within bits number }
{
    -power(bits - 1) <= number && number < power(bits)
}

/// Whether a number is in range, where the value of its slot came back so from the bytes.
#[tactic(auto, using(crate::proofs::Values::bits))]
fn is_in_range(machine: &Machine, operand: &Operand, number: i128, back: u64) -> bool
    requires sound { IsSound machine.now }
    requires operand { SoundOperand machine.now operand.now }
    ensures { result ≡ spec.is_in_range machine.now operand.now number back }
{
    is_within(bits(slot_mode(machine, operand)), number)
        && value_for(machine, operand, Some(number)) == back
}

/// What is wrong with one slot.
fn misfit_at(machine: &Machine, k: u16, number: Option<i128>, back: u64) -> Option<Misfit>
    requires { IsSound machine.now }
    ensures { result ≡ misfit_at machine.now k number back }
{
    match (operand_at(machine, k), number) {
        (Some(operand), Some(number)) if !is_in_range(machine, operand, number, back) => {
            Some(Misfit::OutOfRange { operand: k, number })
        }
        _ => None,
    }
}

/// The first slot whose number is out of range, of those whose numbers are known.
#[tactic(auto, using(crate::proofs::Misfits::finding))]
pub(crate) fn first_misfit(
    machine: &Machine,
    operands: &[u16],
    numbers: &[Option<i128>],
    backs: &[u64],
) -> Option<Misfit>
    requires sound { IsSound machine.now }
    requires as_many { length numbers.now ≡ length operands.now }
    requires backs { length backs.now ≡ length operands.now }
    ensures { result ≡ first_misfit machine.now operands.now numbers.now backs.now }
{
    for k in 0..operands.len() {
        if let Some(misfit) = misfit_at(machine, operands[k], numbers[k], backs[k]) {
            return Some(misfit);
        }
    }
    None
}

/// The name of an operand.
fn operand_name(machine: &Machine, k: u16) -> &[u8]
    ensures { result.now ≡ operand_name machine.now k }
{
    match machine.operands.get(k as usize) {
        Some(operand) => operand.name.as_slice(),
        None => &[],
    }
}

/// The refusal of this number for a misfit: its text is the operand and its other the number, or
/// `ifield-assertion` and nothing. File and line are 0.
pub fn misfit_refusal(
    alloc: Global,
    machine: &Machine,
    number: u16,
    misfit: Misfit,
) -> Result<Refusal, NoMemory>
    ensures { IfOk result (λ refusal. refusal ≡ refused_for number (said machine.now misfit)) }
{
    match misfit {
        Misfit::OutOfRange {
            operand,
            number: value,
        } => Ok(Refusal {
            number,
            file: 0,
            line: 0,
            text: Text::of(alloc, operand_name(machine, operand))?,
            other: decimal(alloc, value)?,
        }),
        Misfit::Assertion => Ok(Refusal {
            number,
            file: 0,
            line: 0,
            text: Text::of(alloc, b"ifield-assertion")?,
            other: Text::new(alloc),
        }),
    }
}
