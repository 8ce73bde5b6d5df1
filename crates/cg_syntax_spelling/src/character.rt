//! The characters of words, sums and labels.

ghost use Rattle.std.specs.Prelude.{◌≡◌, ◌&&◌, not};
ghost use Rattle.std.specs.List.{list_all};
ghost use Rattle.cg_model.specs.Words.{lower};
ghost use Rattle.cg_model_source.specs.Spelling as spec;
ghost use Rattle.cg_model_faults.specs.E312 as runs;

use cg_base::{is_in_sum, is_in_word};
use cg_model::{Machine, Operand};

/// The small letter of a letter. All else stays.
pub fn lower(byte: u8) -> u8
    ensures { result ≡ lower byte }
{
    match byte {
        b'A'..=b'Z' => byte + 32,
        _ => byte,
    }
}

/// Whether the hardware of an operand has words.
pub fn has_words(machine: &Machine, operand: &Operand) -> bool
    ensures { result ≡ runs.has_words machine.now operand.now }
{
    match machine.hardware.get(operand.hardware as usize) {
        Some(hardware) => hardware.keyword.is_some(),
        None => false,
    }
}

/// Whether the text of an operand may have a character (docs/ASSEMBLY.md, "Statements").
pub fn may_have(machine: &Machine, operand: &Operand, byte: u8) -> bool
    ensures { result ≡ runs.may_have machine.now operand.now byte }
{
    if has_words(machine, operand) {
        return is_in_word(byte);
    }
    is_in_sum(byte)
}

/// Whether a label may have a character: letters, digits and `_ . $`.
pub fn is_in_label(byte: u8) -> bool
    ensures { result ≡ spec.is_in_label byte }
{
    byte.is_ascii_alphanumeric() || byte == b'_' || byte == b'.' || byte == b'$'
}

/// Whether a label may begin with a character.
fn begins_label(byte: u8) -> bool
    ensures { result ≡ (spec.is_in_label byte && not (spec.is_digit byte)) }
{
    is_in_label(byte) && !byte.is_ascii_digit()
}

/// Whether a label may go on with a text.
fn are_in_label(text: &[u8]) -> bool
    ensures { result ≡ list_all spec.is_in_label text.now }
{
    text.iter().all(|byte| is_in_label(*byte))
}

/// Whether a text may be a label (docs/ASSEMBLY.md, "Sources"): a letter, `_`, `.` or `$`, and then such
/// and digits.
pub fn is_label(text: &[u8]) -> bool
    ensures { result ≡ spec.is_label text.now }
{
    match text {
        [] => false,
        [first, rest @ ..] => begins_label(*first) && are_in_label(rest),
    }
}
