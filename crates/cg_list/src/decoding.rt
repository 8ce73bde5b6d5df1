ghost use Rattle.std.specs.Prelude.{◌≡◌, ◌++◌, ◌∷◌, [], ◌<◌, ◌≤◌, true, drop, length, IfOk, OnOk};
ghost use Rattle.std.specs.Fmt.{signed_decimal};
ghost use Rattle.cg_base.specs.Operations.{as_signed};
ghost use Rattle.cg_code.specs.Coded.{matches_at};
ghost use Rattle.cg_list.specs.Decoding as spec;
ghost use Rattle.cg_model.specs.Slots.{slots_of};
ghost use Rattle.cg_model.specs.Sound.{IsSound, SoundOperand};
ghost use Rattle.cg_tree.specs.Finding.{found, IsTight};

use cg_base::{Mode, NoMemory, Text, bits, decimal, signed};
use cg_code::{extract, insn_at, operand_at, slot_mode};
use cg_model::{Machine, Operand, Part};
use cg_tree::{Steps, Tree};
use std::alloc::Global;

/// The number that the lowest bits stand for, where the highest of them is a sign.
fn with_sign(bits: u8, value: u64) -> i128
    requires some { 1 ≤ bits }
    requires few { bits ≤ 64 }
    ensures { result ≡ as_signed bits value }
{
    if bits == 1 || value < 1 << (bits - 1) {
        value as i128
    } else {
        value as i128 - (1 << bits)
    }
}

/// A value with the sign of its mode.
#[tactic(auto, using(crate::proofs::Decoded::widths))]
fn number_of(mode: Mode, value: u64) -> i128
    ensures { result ≡ spec.number_of mode value }
{
    if signed(mode) {
        with_sign(bits(mode), value)
    } else {
        value as i128
    }
}

/// Puts the decimal digits of a number at the end.
fn append_number(alloc: Global, text: &mut Text, number: i128) -> Result<(), NoMemory>
    ensures { OnOk result (text.new ≡ text.old ++ signed_decimal number) }
{
    let digits = decimal(alloc, number)?;
    text.append(digits.as_slice())?;
    Ok(())
}

/// Puts ` OPERAND=VALUE` at the end.
fn append_slot(
    alloc: Global,
    text: &mut Text,
    machine: &Machine,
    operand: &Operand,
    value: u64,
) -> Result<(), NoMemory>
    requires sound { IsSound machine.now }
    requires operand { SoundOperand machine.now operand.now }
    ensures { OnOk result (text.new ≡ text.old ++ spec.slot_text machine.now operand.now value) }
{
    text.push(b' ')?;
    text.append(operand.name.as_slice())?;
    text.push(b'=')?;
    append_number(alloc, text, number_of(slot_mode(machine, operand), value))
}

/// Puts at the end what a part's slot says, where it is one, and gives the values behind its own.
#[tactic(auto, using(crate::proofs::Decoded::slots))]
fn append_part<'a>(
    alloc: Global,
    text: &mut Text,
    machine: &Machine,
    part: Part,
    values: &'a [u64],
) -> Result<&'a [u64], NoMemory>
    requires { IsSound machine.now }
    ensures text { OnOk result (text.new ≡ text.old ++ spec.slots_text machine.now (slots_of machine.now (part ∷ [])) values.now) }
    ensures rest { IfOk result (λ rest. rest.now ≡ drop (length (slots_of machine.now (part ∷ []))) values.now) }
{
    let Part::Slot { operand } = part else {
        return Ok(values);
    };
    let Some(operand) = operand_at(machine, operand) else {
        return Ok(values);
    };
    let Some((value, rest)) = values.split_first() else {
        return Ok(values);
    };
    append_slot(alloc, text, machine, operand, *value)?;
    Ok(rest)
}

/// Puts at the end what the slots of a format say, with these values in order.
#[tactic(auto, using(crate::proofs::Decoded::slots))]
fn append_slots(
    alloc: Global,
    text: &mut Text,
    machine: &Machine,
    parts: &[Part],
    values: &[u64],
) -> Result<(), NoMemory>
    requires { IsSound machine.now }
    ensures { OnOk result (text.new ≡ text.old ++ spec.slots_text machine.now (slots_of machine.now parts.now) values.now) }
{
    let mut rest = values;
    for part in parts {
        rest = append_part(alloc, text, machine, *part, rest)?;
    }
    Ok(())
}

/// The line of the instruction of a number, which matches the bytes.
#[tactic(auto, using(crate::proofs::Decoded::lines))]
fn line_at(alloc: Global, machine: &Machine, k: u16, bytes: &[u8]) -> Result<Text, NoMemory>
    requires sound { IsSound machine.now }
    requires within { k < length machine.now.insns }
    requires matching { matches_at machine.now k bytes.now ≡ true }
    ensures { IfOk result (λ line. line ≡ spec.line_at machine.now bytes.now k) }
{
    let insn = insn_at(machine, k);
    let values = extract(machine, k, bytes, 0);
    let numbers = &values.numbers[..usize::from(values.count)];
    let mut text = insn.name.clone()?;
    append_slots(alloc, &mut text, machine, insn.parts.as_slice(), numbers)?;
    text.push(b'\n')?;
    Ok(text)
}

/// The line that says what bytes are decoded to by a tree (docs/RUNNING.md, "Commands"): the instruction's
/// name and, for each slot in the format's order, a blank, the operand's name, `=` and its value in decimal
/// digits, with the sign of the slot's mode, where the instruction stands at 0; and `none` where there is
/// none. It ends with byte 10. The tree may be another machine's. An error is want of memory.
#[tactic(auto, using(crate::proofs::Decoded::lines))]
pub fn decode(alloc: Global, machine: &Machine, tree: &Tree, bytes: &[u8]) -> Result<Text, NoMemory>
    requires { IsSound machine.now }
    ensures found { IfOk result (λ line. line ≡ spec.line_where machine.now bytes.now (found tree.now machine.now bytes.now)) }
    ensures decoded { IsTight tree.now machine.now → IfOk result (λ line. line ≡ spec.decoded_line machine.now bytes.now) }
{
    let mut steps = Steps::new();
    match tree.find(machine, bytes, &mut steps) {
        Some(k) => Ok(line_at(alloc, machine, k, bytes)?),
        None => Ok(Text::of(alloc, b"none\n".as_slice())?),
    }
}
