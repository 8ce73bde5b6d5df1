//! The bytes of instructions.

ghost use Rattle.std.specs.Prelude.{◌≡◌, ◌<◌, ◌++◌, length, if◌then◌else◌, OnOk, IfOk};
ghost use Rattle.std.specs.Option.{option_map};
ghost use Rattle.cg_syntax_choose.specs.Indexing.{IsIndex};
ghost use Rattle.cg_syntax_choose.specs.Trying.{operands_at};
ghost use Rattle.cg_syntax_fit.specs.Misfits.{said};
ghost use Rattle.cg_model_source.specs.Bundling as spec;
ghost use Rattle.cg_model.specs.Sound.{IsSound};
ghost use Rattle.cg_syntax.specs.Laying.{HasBundleBit, objection_at, bytes_at};

use crate::bundle::Part;
use cg_base::NoMemory;
use cg_code::{insn_at, put_bits};
use cg_model::Machine;
use cg_syntax_choose::{Choice, Index};
use cg_syntax_fit::{Fitted, Misfit, fit};
use std::alloc::Global;

/// Sets the bundle's bit, where the machine has one.
#[tactic(auto, using(crate::proofs::ByteLemmas::setting))]
pub fn set_bundle_bit(machine: &Machine, bytes: &mut [u8; 16])
    requires sound { IsSound machine.now }
    requires bundle { HasBundleBit machine.now }
    ensures { bytes.new ≡ spec.with_bundle_bit machine.now machine.now.bundle bytes.old }
{
    let Some(k) = machine.bundle else {
        return;
    };
    if let Some(field) = machine.fields.get(k as usize) {
        put_bits(machine, field, 1, bytes);
    }
}

/// The bytes of an instruction, with the bundle's bit where another one follows.
fn with_bit(machine: &Machine, more: bool, fitted: &Fitted) -> [u8; 16]
    requires sound { IsSound machine.now }
    requires bundle { HasBundleBit machine.now }
    ensures { result ≡ (if more then spec.with_bundle_bit machine.now machine.now.bundle fitted.now.bytes else fitted.now.bytes) }
{
    let mut bytes = fitted.bytes;
    if more {
        set_bundle_bit(machine, &mut bytes);
    }
    bytes
}

/// Puts the bytes of what is chosen behind others, with these numbers in its slots, where it stands at an
/// address, and answers what keeps it from standing for them. Another instruction of its bundle follows or
/// not. Where there is no memory, the others stay as they were.
#[tactic(auto, using(crate::proofs::ByteLemmas::laying))]
pub fn put_instruction(
    alloc: Global,
    machine: &Machine,
    index: &Index,
    choice: &Choice,
    numbers: &[Option<i128>],
    address: u64,
    more: bool,
    out: &mut Vec<u8>,
) -> Result<Option<Misfit>, NoMemory>
    requires sound { IsSound machine.now }
    requires bundle { HasBundleBit machine.now }
    requires index { IsIndex machine.now index.now }
    requires within { choice.now.insn < length machine.now.insns }
    requires as_many { length numbers.now ≡ length (operands_at machine.now choice.now.insn) }
    ensures misfit { IfOk result (λ misfit. option_map (said machine.now) misfit ≡ objection_at machine.now choice.now numbers.now address) }
    ensures bytes { OnOk result (out.new.items ≡ out.old.items ++ bytes_at machine.now choice.now numbers.now address more) }
{
    let insn = insn_at(machine, choice.insn);
    let pattern = &index.insns.as_slice()[choice.insn as usize];
    let operands = pattern.operands.as_slice();
    let fitted = fit(alloc, machine, insn, operands, numbers, address)?;
    let bytes = with_bit(machine, more, &fitted);
    out.extend_from_slice(&bytes[..fitted.len as usize])?;
    Ok(fitted.misfit)
}
