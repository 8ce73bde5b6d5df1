ghost use Rattle.std.specs.Prelude.{◌≡◌, ◌-◌, ◌<◌, ◌≤◌, ◌^◌, ◌++◌, length, take, replicate, MatchResult};
ghost use Rattle.cg_code.specs.Coding.{IsEncoded, IsNotInRange, IsEncodedAt, IsNotInRangeAt, AreValues};
ghost use Rattle.cg_model.specs.Encoding as spec;
ghost use Rattle.cg_model.specs.Encoding.{own_pc};
ghost use Rattle.cg_model.specs.Slots as slots;
ghost use Rattle.cg_model.specs.Sound.{IsSound, SoundInsn};

use crate::extracting::{values_of, word_pc};
use crate::lengths::insn_length;
use crate::lookups::insn_at;
use crate::matching::asserted;
use crate::putting::in_place;
use cg_model::{Insn, Machine, Values};

/// Values that no bytes are an encoding of.
#[derive(Clone, Copy)]
pub struct NotInRange {
    /// The first slot whose value does not come back. Where all do and only the assertion fails,
    /// the count of slots.
    pub operand: u8,
    /// Its value, or 0 where only the assertion fails.
    pub value: u64,
}

/// The first of some values that did not come back, or the count of them and 0.
#[tactic(auto, using(crate::proofs::Encoded::losing))]
fn first_lost(numbers: &[u64], backs: &[u64]) -> NotInRange
    requires as_many { length numbers.now ≡ length backs.now }
    requires few { length numbers.now ≤ 16 }
    ensures operand { result.operand ≡ (spec.first_lost 0 numbers.now backs.now).operand }
    ensures value { result.value ≡ (spec.first_lost 0 numbers.now backs.now).value }
{
    for k in 0..numbers.len() {
        if numbers[k] != backs[k] {
            return NotInRange {
                operand: k as u8,
                value: numbers[k],
            };
        }
    }
    NotInRange {
        operand: numbers.len() as u8,
        value: 0,
    }
}

/// The encoding of values by an instruction, in front of 16 bytes with zeros behind.
#[tactic(auto, using(crate::proofs::Encoded::losing))]
fn encoded(
    machine: &Machine,
    insn: &Insn,
    numbers: &[u64],
    pc: u64,
    out: &mut [u8; 16],
) -> Result<u8, NotInRange>
    requires sound { IsSound machine.now }
    requires insn { SoundInsn machine.now insn.now }
    requires values { spec.AreFor machine.now (slots.slots_of machine.now insn.now.parts) numbers.now }
    requires word { pc < 2 ^ machine.now.word_bits }
    ensures { MatchResult result
        (λ len. IsEncoded machine.now insn.now numbers.now pc len out.new)
        (λ e. IsNotInRange machine.now insn.now numbers.now pc e out.old out.new) }
{
    let bytes = in_place(machine, insn, numbers, pc);
    let len = insn_length(machine, insn);
    let front = &bytes[..len as usize];
    let back = values_of(machine, insn, front, pc);
    let lost = first_lost(numbers, &back.numbers[..back.count as usize]);
    if (lost.operand as usize) < numbers.len() {
        return Err(lost);
    }
    if !asserted(machine, insn, front) {
        return Err(lost);
    }
    *out = front_alone(&bytes, len);
    Ok(len)
}

/// Some bytes in front, and zeros behind.
#[tactic(auto, using(crate::proofs::Encoded::losing))]
fn front_alone(bytes: &[u8; 16], len: u8) -> [u8; 16]
    requires { len ≤ 16 }
    ensures { result ≡ take len bytes.now ++ replicate (16 - len) 0 }
{
    let mut alone = [0; 16];
    alone[..len as usize].copy_from_slice(&bytes[..len as usize]);
    alone
}

/// Encodes values by the instruction of a number that stands at `pc` (docs/LANGUAGE.md, "Encoding
/// and matching"): answers how many bytes there are, and puts them in front of `out`, with zeros
/// behind. `pc` counts modulo 2^bits of the cpu's word. NotInRange comes exactly where no bytes are
/// an encoding of the values, and leaves `out`. It takes no memory.
#[tactic(auto, using(crate::proofs::Encoded::losing))]
pub fn encode(
    machine: &Machine,
    i: u16,
    values: &Values,
    pc: u64,
    out: &mut [u8; 16],
) -> Result<u8, NotInRange>
    requires sound { IsSound machine.now }
    requires within { i < length machine.now.insns }
    requires count { values.now.count ≤ 16 }
    requires values { AreValues machine.now i (take values.now.count values.now.numbers) }
    ensures { MatchResult result
        (λ len. IsEncodedAt machine.now i (take values.now.count values.now.numbers) (own_pc machine.now pc) len out.new)
        (λ e. IsNotInRangeAt machine.now i (take values.now.count values.now.numbers) (own_pc machine.now pc) e out.old out.new) }
{
    let insn = insn_at(machine, i);
    let numbers = &values.numbers[..values.count as usize];
    encoded(machine, insn, numbers, word_pc(machine, pc), out)
}
