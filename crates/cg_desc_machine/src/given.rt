//! What macro instructions give the instructions that they emit.

ghost use Rattle.std.specs.Prelude.{◌≡◌};
ghost use Rattle.std.specs.Option.{option_copied};
ghost use Rattle.cg_base.specs.declared.form.Form.{out-Form};
ghost use Rattle.cg_base.specs.Operations.{as_signed};
ghost use Rattle.cg_desc_data.specs.Seen.{seen_numbering};
ghost use Rattle.cg_desc_scope.specs.Seen.{seen_described};
ghost use Rattle.cg_desc_machine.specs.Macros as spec;
ghost use Rattle.cg_desc_machine.specs.Seen.{seen_items};

use crate::slots::slot_number;
use cg_base::{Form, Mode, Text};
use cg_desc_scope::Described;
use cg_model::{Given, Hardware, HwKind};
use cg_syntax_spelling::{cut, word_value};

/// The number with a sign that 64 bits stand for.
fn with_sign(number: u64) -> i64
    ensures { result ≡ as_signed 64 number }
{
    if number < 9223372036854775808 {
        number as i64
    } else {
        (number as i128 - 18446744073709551616) as i64
    }
}

/// The mode of a slot on hardware.
fn mode_of_slot(hardware: &Hardware) -> Mode
    ensures { result ≡ spec.mode_of_slot hardware.now }
{
    match hardware.kind {
        HwKind::Register => Mode::Usi,
        _ => hardware.mode,
    }
}

/// The value of a keyword, in the mode of a slot on its hardware.
fn kept_value(hardware: &Hardware, number: u64) -> i64
    ensures { result ≡ spec.kept_value hardware.now number }
{
    with_sign(cut(mode_of_slot(hardware), number))
}

/// The value of a keyword of hardware.
fn keyword_number(hardware: &Hardware, word: &[u8]) -> Option<i64>
    ensures { result ≡ spec.keyword_number hardware.now word.now }
{
    match &hardware.keyword {
        Some(keyword) => match word_value(keyword.words.as_slice(), word) {
            Some(value) => Some(kept_value(hardware, value)),
            None => None,
        },
        None => None,
    }
}

/// The hardware of an operand.
#[tactic(auto, unfolding(crate::specs::Macros::operand_hardware))]
fn operand_hardware<'a>(described: &'a Described, operand: &Text) -> Option<&'a Hardware>
    ensures { option_copied result ≡ spec.operand_hardware described.now.operands described.now.hardware (seen_numbering described.now.operand_numbers) operand.now }
{
    match described.operand_numbers.get(operand) {
        Some(number) => match described.operands.as_slice().get(number as usize) {
            Some(operand) => described.hardware.as_slice().get(operand.hardware as usize),
            None => None,
        },
        None => None,
    }
}

/// The value of a keyword of an operand.
fn keyword_of(described: &Described, operand: &Text, word: &Text) -> Option<i64>
    ensures { result ≡ spec.keyword_of (seen_described described.now) operand.now word.now }
{
    match operand_hardware(described, operand) {
        Some(hardware) => keyword_number(hardware, word.as_slice()),
        None => None,
    }
}

/// The slot, or else the keyword of an operand, that a word stands for. None exactly where it is neither
/// (docs/LANGUAGE.md, "Instructions"). A slot is numbered by its first place among the slots.
pub fn slot_or_keyword(
    described: &Described,
    slots: &[Text],
    operand: &Text,
    word: &Text,
) -> Option<Given>
    ensures { result ≡ spec.slot_or_keyword (seen_described described.now) slots.now operand.now word.now }
{
    match slot_number(slots, word) {
        Some(number) => Some(Given::Slot(number)),
        None => match keyword_of(described, operand, word) {
            Some(value) => Some(Given::Number(value)),
            None => None,
        },
    }
}

/// What an operand is given by a form.
fn given_as(described: &Described, slots: &[Text], operand: &Text, form: &Form) -> Option<Given>
    ensures { result ≡ spec.given_as (seen_described described.now) slots.now operand.now (out-Form form.now) }
{
    match form {
        Form::Number(number) => Some(Given::Number(*number)),
        Form::Symbol(word) => slot_or_keyword(described, slots, operand, word),
        _ => None,
    }
}

/// What an operand is given by an item: its own slot where nothing stands behind its name. None exactly where
/// what stands there is no number, no slot and no keyword of the operand (docs/LANGUAGE.md, "Instructions").
pub fn given_by(
    described: &Described,
    slots: &[Text],
    operand: &Text,
    form: Option<&Form>,
) -> Option<Given>
    ensures { result ≡ spec.given_by (seen_described described.now) slots.now operand.now (option_copied form.entry) }
{
    match form {
        Some(form) => given_as(described, slots, operand, form),
        None => match slot_number(slots, operand) {
            Some(number) => Some(Given::Slot(number)),
            None => None,
        },
    }
}

/// What an operand is given by the first of its items.
fn given_in(
    described: &Described,
    slots: &[Text],
    items: &[(&Text, Option<&Form>)],
    operand: &Text,
) -> Option<Given>
    ensures { result ≡ spec.given_in (seen_described described.now) slots.now (seen_items items.now) operand.now }
{
    for item in items {
        if item.0 == operand {
            return given_by(described, slots, operand, item.1);
        }
    }
    None
}

/// The same, and 0 where it is given nothing.
pub(crate) fn given_or_zero(
    described: &Described,
    slots: &[Text],
    items: &[(&Text, Option<&Form>)],
    operand: &Text,
) -> Given
    ensures { result ≡ spec.given_or_zero (seen_described described.now) slots.now (seen_items items.now) operand.now }
{
    match given_in(described, slots, items, operand) {
        Some(given) => given,
        None => Given::Number(0),
    }
}
