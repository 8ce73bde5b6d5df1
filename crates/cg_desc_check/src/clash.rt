ghost use Rattle.std.specs.Prelude.{◌≡◌, ◌<◌, take, IfOk};
ghost use Rattle.std.specs.Char.{digit_char};
ghost use Rattle.cg_model_faults.specs.Refusing as spec;

use cg_base::{NoMemory, Refusal, Text, refusals};
use cg_desc_check_machine::spaced;
use cg_model::{Clash, Machine};
use std::alloc::Global;

/// The name of the instruction of a number, and no bytes where there is none.
fn insn_name(machine: &Machine, k: usize) -> &[u8]
    ensures { result.now ≡ spec.insn_name machine.now k }
{
    match machine.insns.get(k) {
        Some(insn) => insn.name.as_slice(),
        None => &[],
    }
}

/// A hexadecimal digit, in lower case.
fn digit(value: u8) -> u8
    requires { value < 16 }
    ensures { result ≡ digit_char value }
{
    if value < 10 {
        b'0' + value
    } else {
        b'a' + (value - 10)
    }
}

/// Bytes in two such digits each.
#[tactic(auto, using(crate::proofs::Digits::digit_rules))]
fn hex_bytes(alloc: Global, bytes: &[u8]) -> Result<Text, NoMemory>
    ensures { IfOk result (λ text. text ≡ spec.hex_bytes bytes.now) }
{
    let mut text = Text::new(alloc);
    for byte in bytes {
        text.append(&[digit(*byte / 16), digit(*byte % 16)])?;
    }
    Ok(text)
}

/// The refusal of a machine of which two instructions clash on these bytes. File and line are 0.
#[tactic(auto, using(crate::proofs::Digits::take_some))]
pub fn clash_refusal(alloc: Global, machine: &Machine, clash: &Clash) -> Result<Refusal, NoMemory>
    ensures { IfOk result (λ refusal. refusal ≡ spec.clash_refusal machine.now clash.now.first clash.now.second (take clash.now.len clash.now.bytes)) }
{
    let len = usize::from(clash.len).min(clash.bytes.len());
    let bytes = hex_bytes(alloc, &clash.bytes[..len])?;
    let first = insn_name(machine, usize::from(clash.first));
    let second = insn_name(machine, usize::from(clash.second));
    Ok(Refusal {
        number: refusals::CLASH,
        file: 0,
        line: 0,
        text: Text::of(alloc, first)?,
        other: spaced(alloc, second, bytes.as_slice())?,
    })
}
