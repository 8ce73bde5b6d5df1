//! How instructions are shown.

ghost use Rattle.std.specs.Prelude.{◌≡◌, ◌<◌, ◌≤◌, ◌++◌, length, take, pos, if◌then◌else◌, Some, None, IfOk};
ghost use Rattle.std.specs.Option.{option_copied, option_map};
ghost use Rattle.cg_base.specs.Modes.{bits_of, is_signed};
ghost use Rattle.cg_base.specs.Operations.{as_signed};
ghost use Rattle.cg_code.specs.Coding.{AreValues};
ghost use Rattle.cg_model_faults.specs.E313.{slot_operands};
ghost use Rattle.cg_model_source.specs.Listing as spec;
ghost use Rattle.cg_model.specs.Sound.{IsSound, SoundOperand};
ghost use Rattle.cg_syntax.specs.Showing.{shown_at, slot_shown, marks_shown, mark_shown};

use cg_base::{Mode, NoMemory, Text, bits, decimal, hex, signed};
use cg_code::{insn_at, operand_at, slot_mode};
use cg_model::{Hardware, HwKind, Machine, NamedValue, Operand, Part, Values};
use cg_model_source::Mark;
use cg_syntax_split::squeezed_syntax;
use std::alloc::Global;

/// The first word whose own value is this, modulo 2^bits.
#[tactic(auto, using(crate::proofs::ShowingLemmas::wording))]
fn word_for(bits: u8, words: &[NamedValue], value: u64) -> Option<&Text>
    requires { bits ≤ 64 }
    ensures { option_copied result ≡ spec.word_for bits words.now value }
{
    for each in words {
        if (each.value as u128) % (1 << bits) == value as u128 {
            return Some(&each.word);
        }
    }
    None
}

/// The number that a value stands for, with the sign of its mode.
#[tactic(auto, using(crate::proofs::ShowingLemmas::signing))]
fn number_of(mode: Mode, value: u64) -> i128
    ensures { result ≡ (if is_signed mode then as_signed (bits_of mode) value else pos value) }
{
    let bits = bits(mode);
    if !signed(mode) || bits == 1 || (value as u128) < 1 << (bits - 1) {
        value as i128
    } else {
        value as i128 - (1 << bits)
    }
}

/// A value without words: an address in hexadecimal digits, and all else in decimal ones.
fn shown_number(
    alloc: Global,
    machine: &Machine,
    operand: &Operand,
    hardware: &Hardware,
    value: u64,
) -> Result<Text, NoMemory>
    requires sound { IsSound machine.now }
    requires operand { SoundOperand machine.now operand.now }
    ensures { IfOk result (λ text. text ≡ spec.shown_number machine.now operand.now hardware.now value) }
{
    match hardware.kind {
        HwKind::Address => Ok(hex(alloc, value)?),
        _ => Ok(decimal(alloc, number_of(slot_mode(machine, operand), value))?),
    }
}

/// How the value of an operand of this hardware is shown.
fn shown_by(
    alloc: Global,
    machine: &Machine,
    operand: &Operand,
    hardware: &Hardware,
    value: u64,
) -> Result<Option<Text>, NoMemory>
    requires sound { IsSound machine.now }
    requires operand { SoundOperand machine.now operand.now }
    ensures { IfOk result (λ text. text ≡ spec.shown_by machine.now operand.now hardware.now hardware.now.keyword value) }
{
    match &hardware.keyword {
        Some(keyword) => {
            let bits = bits(slot_mode(machine, operand));
            match word_for(bits, keyword.words.as_slice(), value) {
                Some(word) => Ok(Some(word.clone()?)),
                None => Ok(None),
            }
        }
        None => Ok(Some(shown_number(alloc, machine, operand, hardware, value)?)),
    }
}

/// How the value of an operand is shown.
#[tactic(auto, unfolding(cg_model_source::specs::Listing::shown_value))]
fn shown_value(
    alloc: Global,
    machine: &Machine,
    operand: &Operand,
    value: u64,
) -> Result<Option<Text>, NoMemory>
    requires sound { IsSound machine.now }
    requires operand { SoundOperand machine.now operand.now }
    ensures { IfOk result (λ text. text ≡ spec.shown_value machine.now operand.now value) }
{
    match machine.hardware.get(operand.hardware as usize) {
        Some(hardware) => Ok(shown_by(alloc, machine, operand, hardware, value)?),
        None => Ok(None),
    }
}

/// How a slot is shown, by the number of its operand.
fn slot_shown(
    alloc: Global,
    machine: &Machine,
    operand: Option<&u16>,
    value: Option<&u64>,
) -> Result<Option<Text>, NoMemory>
    requires { IsSound machine.now }
    ensures { IfOk result (λ text. text ≡ slot_shown machine.now (option_copied operand.entry) (option_copied value.entry)) }
{
    match (operand, value) {
        (Some(operand), Some(value)) => match operand_at(machine, *operand) {
            Some(operand) => Ok(shown_value(alloc, machine, operand, *value)?),
            None => Ok(None),
        },
        _ => Ok(None),
    }
}

/// Puts a mark as it is shown behind a text, where it can be shown: whether it can.
fn put_mark(
    alloc: Global,
    machine: &Machine,
    operands: &[u16],
    values: &[u64],
    mark: Mark,
    text: &mut Text,
) -> Result<bool, NoMemory>
    requires { IsSound machine.now }
    ensures { IfOk result (λ can. option_map (λ t. text.old ++ t) (mark_shown machine.now operands.now values.now mark) ≡ (if can then Some text.new else None)) }
{
    match mark {
        Mark::Byte(byte) => {
            text.push(byte)?;
            Ok(true)
        }
        Mark::Slot(slot) => {
            let k = slot as usize;
            match slot_shown(alloc, machine, operands.get(k), values.get(k))? {
                Some(shown) => {
                    text.append(shown.as_slice())?;
                    Ok(true)
                }
                None => Ok(false),
            }
        }
    }
}

/// Marks as they are shown.
#[tactic(auto, using(crate::proofs::ShowingLemmas::marking))]
fn marks_shown(
    alloc: Global,
    machine: &Machine,
    operands: &[u16],
    values: &[u64],
    marks: &[Mark],
) -> Result<Option<Text>, NoMemory>
    requires { IsSound machine.now }
    ensures { IfOk result (λ text. text ≡ marks_shown machine.now operands.now values.now marks.now) }
{
    let mut text = Text::new(alloc);
    for mark in marks {
        if !put_mark(alloc, machine, operands, values, *mark, &mut text)? {
            return Ok(None);
        }
    }
    Ok(Some(text))
}

/// The operands of the slots of a format, by their numbers.
fn slot_operands(alloc: Global, parts: &[Part]) -> Result<Vec<u16>, NoMemory>
    ensures { IfOk result (λ operands. operands.items ≡ slot_operands parts.now) }
{
    let mut operands = Vec::new(alloc);
    for part in parts {
        if let Part::Slot { operand } = *part {
            operands.push(operand)?;
        }
    }
    Ok(operands)
}

/// How the instruction of a number is shown with these values in its slots (docs/ASSEMBLY.md, "Listings"):
/// its squeezed syntax, with the first word that has a value where the hardware has words, an address in
/// hexadecimal digits, and all else in decimal ones. None exactly where a slot's hardware has words and
/// none has the value.
#[tactic(auto, using(crate::proofs::ShowingLemmas::showing))]
pub fn show(
    alloc: Global,
    machine: &Machine,
    i: u16,
    values: &Values,
) -> Result<Option<Text>, NoMemory>
    requires sound { IsSound machine.now }
    requires within { i < length machine.now.insns }
    requires count { values.now.count ≤ 16 }
    requires values { AreValues machine.now i (take values.now.count values.now.numbers) }
    ensures { IfOk result (λ text. text ≡ shown_at machine.now i (take values.now.count values.now.numbers)) }
{
    let insn = insn_at(machine, i);
    let operands = slot_operands(alloc, insn.parts.as_slice())?;
    let marks = squeezed_syntax(alloc, insn.pieces.as_slice())?;
    let numbers = &values.numbers[..values.count as usize];
    marks_shown(
        alloc,
        machine,
        operands.as_slice(),
        numbers,
        marks.as_slice(),
    )
}
