ghost use Rattle.std.specs.Prelude.{◌≡◌, ◌+◌, ◌/◌, ◌≤◌, ◌<◌, ◌^◌, length};
ghost use Rattle.cg_model.specs.Covers.{IsInWord};
ghost use Rattle.cg_base.specs.Modes.{bits_of};
ghost use Rattle.cg_model.specs.Fields as spec;

use crate::{Field, Machine};
use cg_base::{bits, number_at, signed};

/// The bits of a field, as a number, in bytes that hold the field's word (docs/LANGUAGE.md,
/// "Fields").
#[tactic(auto, using(crate::proofs::FieldBits::reading))]
pub fn field_bits(machine: &Machine, field: &Field, bytes: &[u8]) -> u64
    requires placed { IsInWord field.now }
    requires inside { field.now.word_offset / 8 + field.now.word_bits / 8 ≤ length bytes.now }
    ensures value { result ≡ spec.bits_at machine.now field.now bytes.now }
    ensures fits { result < 2 ^ field.now.length }
{
    let offset = (field.word_offset / 8) as usize;
    let word = number_at(bytes, offset, field.word_bits / 8, machine.insn_endian) as u128;
    ((word >> field.shift) % (1 << field.length)) as u64
}

/// The number of a field's bits extended to the field's mode, by the mode's sign.
#[tactic(auto, using(crate::proofs::FieldBits::extending))]
pub fn extended(field: &Field, number: u64) -> u64
    requires some { 1 ≤ field.now.length }
    requires fits { number < 2 ^ field.now.length }
    requires within { field.now.length ≤ bits_of field.now.mode }
    ensures value { result ≡ spec.extended field.now number }
    ensures fits { result < 2 ^ bits_of field.now.mode }
{
    if !signed(field.mode) {
        return number;
    }
    if number >> (field.length - 1) == 1 {
        let highest = (1u128 << bits(field.mode)) - (1 << field.length);
        return (highest + number as u128) as u64;
    }
    number
}
