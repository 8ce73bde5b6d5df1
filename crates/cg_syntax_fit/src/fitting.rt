//! The bytes of an instruction for the numbers of its slots.

ghost use Rattle.std.specs.Prelude.{◌≡◌, ◌≤◌, ◌<◌, ◌^◌, length, take, is_some, IfOk};
ghost use Rattle.std.specs.List.{list_all};
ghost use Rattle.std.specs.Option.{option_map};
ghost use Rattle.cg_syntax_fit.specs.Misfits.{said, fits_in};
ghost use Rattle.cg_model_source.specs.Choosing as spec;
ghost use Rattle.cg_model.specs.Matching.{length_of};
ghost use Rattle.cg_model.specs.Sound.{IsSound, SoundInsn};
ghost use Rattle.cg_model_faults.specs.E313.{slot_operands};

use crate::misfit::{Misfit, first_misfit};
use crate::value::values_for;
use cg_base::NoMemory;
use cg_code::{asserted, in_place, insn_length, values_of, word_pc};
use cg_model::{Insn, Machine};
use std::alloc::Global;

/// The bytes of an instruction for numbers of its slots, and whether it may stand for them.
#[derive(Clone, Copy)]
pub struct Fitted {
    /// What keeps it from standing for them, where something does.
    pub misfit: Option<Misfit>,
    /// How many bytes it has.
    pub len: u8,
    /// The bytes, with others behind.
    pub bytes: [u8; 16],
}

/// Whether all numbers are known.
fn all_known(numbers: &[Option<i128>]) -> bool
    ensures { result ≡ list_all is_some numbers.now }
{
    numbers.iter().all(Option::is_some)
}

/// What keeps an instruction with these bytes from standing for numbers.
#[tactic(auto, using(crate::proofs::Fits::misfits))]
fn misfit_in(
    machine: &Machine,
    insn: &Insn,
    operands: &[u16],
    numbers: &[Option<i128>],
    bytes: &[u8],
    pc: u64,
) -> Option<Misfit>
    requires sound { IsSound machine.now }
    requires insn { SoundInsn machine.now insn.now }
    requires operands { operands.now ≡ slot_operands insn.now.parts }
    requires as_many { length numbers.now ≡ length operands.now }
    requires long { length_of machine.now insn.now ≤ length bytes.now }
    requires word { pc < 2 ^ machine.now.word_bits }
    ensures { option_map (said machine.now) result ≡ fits_in machine.now insn.now numbers.now pc bytes.now }
{
    let backs = values_of(machine, insn, bytes, pc);
    let backs = &backs.numbers[..backs.count as usize];
    if let Some(misfit) = first_misfit(machine, operands, numbers, backs) {
        return Some(misfit);
    }
    if all_known(numbers) && !asserted(machine, insn, bytes) {
        return Some(Misfit::Assertion);
    }
    None
}

/// The bytes of an instruction that stands at `pc`, with these numbers in its slots, and what keeps it from
/// standing for them (docs/ASSEMBLY.md, "Choice"). A number that isn't known stands for 0, and isn't judged.
/// `pc` counts modulo 2^bits of the cpu's word. The slots are given by their operands.
#[tactic(auto, using(crate::proofs::Fits::fitting))]
pub fn fit(
    alloc: Global,
    machine: &Machine,
    insn: &Insn,
    operands: &[u16],
    numbers: &[Option<i128>],
    pc: u64,
) -> Result<Fitted, NoMemory>
    requires sound { IsSound machine.now }
    requires insn { SoundInsn machine.now insn.now }
    requires operands { operands.now ≡ slot_operands insn.now.parts }
    requires as_many { length numbers.now ≡ length operands.now }
    ensures misfit { IfOk result (λ fitted. option_map (said machine.now) fitted.misfit ≡ spec.objection machine.now insn.now numbers.now pc) }
    ensures length { IfOk result (λ fitted. fitted.len ≡ length_of machine.now insn.now) }
    ensures bytes { IfOk result (λ fitted. take fitted.len fitted.bytes ≡ spec.bytes_for machine.now insn.now numbers.now pc) }
{
    let pc = word_pc(machine, pc);
    let values = values_for(alloc, machine, operands, numbers)?;
    let bytes = in_place(machine, insn, values.as_slice(), pc);
    let len = insn_length(machine, insn);
    let misfit = misfit_in(machine, insn, operands, numbers, &bytes[..len as usize], pc);
    Ok(Fitted { misfit, len, bytes })
}
