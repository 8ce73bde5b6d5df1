//! What a slot is written by.

ghost use Rattle.std.specs.Prelude.{◌≡◌, ◌%◌, ◌^◌, IfOk};
ghost use Rattle.cg_base.specs.Modes.{bits_of};
ghost use Rattle.cg_model.specs.Slots as slots;
ghost use Rattle.cg_model.specs.Words.{same_word, word_value};
ghost use Rattle.cg_model_source.specs.Spelling as spec;

use crate::character::lower;
use crate::keyword::Keywords;
use crate::sum::sum_of;
use cg_base::{List, Mode, NoMemory, convert};
use cg_model::{HwKind, Keyword, Machine, NamedValue, Operand};
use cg_model_source::Sum;
use std::alloc::Global;

/// Whether two texts are the same, letter case aside.
fn same_word(one: &[u8], other: &[u8]) -> bool
    ensures { result ≡ same_word one.now other.now }
{
    if one.len() != other.len() {
        return false;
    }
    for i in 0..one.len() {
        if lower(one[i]) != lower(other[i]) {
            return false;
        }
    }
    true
}

/// The value of the first word that a text is, letter case aside. None exactly where it is none of them
/// (docs/ASSEMBLY.md, "Statements").
pub fn word_value(words: &[NamedValue], text: &[u8]) -> Option<u64>
    ensures { result ≡ word_value words.now text.now }
{
    for each in words {
        if same_word(each.word.as_slice(), text) {
            return Some(each.value);
        }
    }
    None
}

/// The mode of an operand's value.
fn slot_mode(machine: &Machine, operand: &Operand) -> Mode
    ensures { result ≡ slots.slot_mode machine.now operand.now }
{
    match machine.hardware.get(operand.hardware as usize) {
        Some(hardware) if hardware.kind == HwKind::Register => Mode::Usi,
        Some(hardware) => hardware.mode,
        None => Mode::Void,
    }
}

/// A number modulo 2^bits of a mode; 0 in VOID.
pub fn cut(mode: Mode, number: u64) -> u64
    ensures { result ≡ number % 2 ^ bits_of mode }
{
    match mode {
        Mode::Void => 0,
        mode => convert(Mode::Udi, mode, number),
    }
}

/// The sum that is one number, in the mode of an operand.
fn in_mode(alloc: Global, machine: &Machine, operand: &Operand, number: u64) -> Sum
    ensures { result ≡ spec.in_mode machine.now operand.now number }
{
    Sum {
        number: cut(slot_mode(machine, operand), number) as i128,
        terms: List::new(alloc),
    }
}

/// What a text stands for in the slot of an operand whose hardware may have words.
fn spelled_by(
    alloc: Global,
    machine: &Machine,
    keywords: &Keywords,
    operand: &Operand,
    keyword: &Option<Keyword>,
    text: &[u8],
) -> Result<Option<Sum>, NoMemory>
    ensures { IfOk result (λ sum. sum ≡ spec.spelled_by machine.now keywords.now operand.now keyword.now text.now) }
{
    match keyword {
        Some(keyword) => Ok(word_value(keyword.words.as_slice(), text).map(|number| in_mode(
            alloc, machine, operand, number,
        ))),
        None => Ok(sum_of(alloc, keywords, text)?),
    }
}

/// What a text that is written for an operand stands for (docs/ASSEMBLY.md, "Statements"): the value of a
/// word modulo 2^bits of its mode where the hardware has words, and else what the sum gives. None exactly
/// where it is neither.
#[tactic(auto, unfolding(cg_model_source::specs::Spelling::spelled))]
pub fn spelled(
    alloc: Global,
    machine: &Machine,
    keywords: &Keywords,
    operand: &Operand,
    text: &[u8],
) -> Result<Option<Sum>, NoMemory>
    ensures { IfOk result (λ sum. sum ≡ spec.spelled machine.now keywords.now operand.now text.now) }
{
    match machine.hardware.get(operand.hardware as usize) {
        Some(hardware) => Ok(spelled_by(
            alloc,
            machine,
            keywords,
            operand,
            &hardware.keyword,
            text,
        )?),
        None => Ok(None),
    }
}
