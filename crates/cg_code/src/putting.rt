ghost use Rattle.std.specs.Prelude.{◌≡◌, ◌≢◌, ◌+◌, ◌/◌, ◌^◌, ◌<◌, ◌≤◌, [], ◌∷◌, length, take, drop, slice_get, OnSome};
ghost use Rattle.cg_base.specs.declared.Mode.{Mode};
ghost use Rattle.cg_base.specs.declared.Mode.TheVariants.{Void};
ghost use Rattle.cg_base.specs.Modes.{bits_of};
ghost use Rattle.cg_base.specs.Operations.{converted};
ghost use Rattle.cg_code.specs.Coded.{encoded};
ghost use Rattle.cg_model.specs.Covers.{IsInWord};
ghost use Rattle.cg_model.specs.Encoding as spec;
ghost use Rattle.cg_model.specs.Slots as slots;
ghost use Rattle.cg_model.specs.declared.insn.Part.{Part};
ghost use Rattle.cg_model.specs.Sound.{IsSound, IsRule, SoundField, SoundMulti, SoundOperand, SoundInsn, PartFits, of_value};

use crate::extracting::slot_mode;
use crate::lookups::{field_at, multi_at, operand_at};
use cg_base::{Mode, convert, number_at, put_number};
use cg_code_mask::lies_near;
use cg_model::{Field, Insn, Machine, Multi, Operand, Part, Rtl, Source};
use cg_model_pure::pure_eval;

/// A word in which a field's bits are `number`. All other bits stay.
#[tactic(auto, using(crate::proofs::Words::words))]
fn word_with(field: &Field, number: u64, word: u64) -> u64
    requires placed { IsInWord field.now }
    requires number { number < 2 ^ field.now.length }
    requires word { word < 256 ^ (field.now.word_bits / 8) }
    ensures value { result ≡ spec.word_with field.now number word }
    ensures fits { result < 256 ^ (field.now.word_bits / 8) }
{
    let word = word as u128;
    let top = field.shift + field.length;
    let above = (word >> top) << top;
    let own = (number as u128) << field.shift;
    (above + own + word % (1 << field.shift)) as u64
}

/// Sets the bits of a field that lies within the 16 bytes.
fn put_near(machine: &Machine, field: &Field, number: u64, bytes: &mut [u8; 16])
    requires placed { IsInWord field.now }
    requires near { field.now.word_offset + field.now.word_bits ≤ 128 }
    requires number { number < 2 ^ field.now.length }
    ensures { bytes.new ≡ spec.with_word machine.now field.now number bytes.old }
{
    let offset = (field.word_offset / 8) as usize;
    let len = field.word_bits / 8;
    let word = number_at(bytes, offset, len, machine.insn_endian);
    put_number(
        bytes,
        offset,
        len,
        machine.insn_endian,
        word_with(field, number, word),
    );
}

/// Sets the bits of a field to a number; all others stay. One past the 16 bytes, which no instruction has,
/// is not set (docs/LANGUAGE.md, "Fields").
#[tactic(auto, using(crate::proofs::Soundness::setting))]
pub fn put_bits(machine: &Machine, field: &Field, number: u64, bytes: &mut [u8; 16])
    requires placed { IsInWord field.now }
    requires number { number < 2 ^ field.now.length }
    ensures { bytes.new ≡ spec.with_bits machine.now field.now number bytes.old }
{
    if lies_near(field) {
        put_near(machine, field, number, bytes);
    }
}

/// What a field's rule `encode` gives for a value, or the value itself.
#[tactic(auto, using(crate::proofs::Settings::coding))]
fn encoded_as(machine: &Machine, field: &Field, value: u64, pc: u64) -> u64
    requires sound { IsSound machine.now }
    requires field { SoundField machine.now field.now }
    requires word { pc < 2 ^ machine.now.word_bits }
    requires small { value < 2 ^ bits_of field.now.mode }
    ensures { result ≡ encoded machine.now pc value field.now }
{
    match &field.encode {
        Some(rule) => pure_eval(machine, rule, Some(field.mode), value, pc, &[]),
        None => value,
    }
}

/// Sets a field to a value.
#[tactic(auto, using(crate::proofs::Settings::cutting))]
fn put_value(machine: &Machine, field: &Field, value: u64, pc: u64, bytes: &mut [u8; 16])
    requires sound { IsSound machine.now }
    requires field { SoundField machine.now field.now }
    requires word { pc < 2 ^ machine.now.word_bits }
    requires small { value < 2 ^ bits_of field.now.mode }
    ensures { bytes.new ≡ spec.with_all machine.now (spec.setting_of machine.now pc field.now value ∷ []) bytes.old }
{
    let number = encoded_as(machine, field, value, pc) as u128 % (1 << field.length);
    put_bits(machine, field, number as u64, bytes);
}

/// Sets a constant.
fn put_constant(machine: &Machine, k: u16, value: u64, bytes: &mut [u8; 16])
    requires sound { IsSound machine.now }
    requires fits { PartFits machine.now (Part.Constant k value) }
    ensures { bytes.new ≡ spec.with_all machine.now (spec.constant_setting (slice_get machine.now.fields k) value) bytes.old }
{
    if let Some(field) = field_at(machine, k) {
        put_bits(machine, field, value, bytes);
    }
}

/// Sets the field of a slot to the slot's value.
#[tactic(auto, using(crate::proofs::Extracted::fields))]
fn put_field(machine: &Machine, k: u16, mode: Mode, value: u64, pc: u64, bytes: &mut [u8; 16])
    requires sound { IsSound machine.now }
    requires mode { mode ≢ Void }
    requires fits { value < 2 ^ bits_of mode }
    requires word { pc < 2 ^ machine.now.word_bits }
    ensures { bytes.new ≡ spec.with_all machine.now (spec.field_setting machine.now pc mode value (slice_get machine.now.fields k)) bytes.old }
{
    if let Some(field) = field_at(machine, k) {
        put_value(machine, field, convert(mode, field.mode, value), pc, bytes);
    }
}

/// Sets a field of a multi field to what its rule `insert` gives.
#[tactic(auto, using(crate::proofs::Settings::coding))]
fn put_inserted(
    machine: &Machine,
    multi: &Multi,
    n: usize,
    value: u64,
    pc: u64,
    bytes: &mut [u8; 16],
)
    requires sound { IsSound machine.now }
    requires multi { SoundMulti machine.now multi.now }
    requires sub { n < length multi.now.subs }
    requires rule { n < length multi.now.insert }
    requires word { pc < 2 ^ machine.now.word_bits }
    requires small { value < 2 ^ bits_of multi.now.mode }
    ensures { bytes.new ≡ spec.with_all machine.now (spec.inserted machine.now pc value (take 1 (drop n multi.now.subs)) (take 1 (drop n multi.now.insert))) bytes.old }
{
    if let Some(field) = field_at(machine, multi.subs.as_slice()[n]) {
        let rule = &multi.insert.as_slice()[n];
        let own = pure_eval(machine, rule, Some(field.mode), value, pc, &[]);
        put_value(machine, field, own, pc, bytes);
    }
}

/// Sets the fields of a multi field.
#[tactic(auto, using(crate::proofs::Settings::inserting))]
fn put_subs(machine: &Machine, multi: &Multi, value: u64, pc: u64, bytes: &mut [u8; 16])
    requires sound { IsSound machine.now }
    requires multi { SoundMulti machine.now multi.now }
    requires word { pc < 2 ^ machine.now.word_bits }
    requires small { value < 2 ^ bits_of multi.now.mode }
    ensures { bytes.new ≡ spec.with_all machine.now (spec.inserted machine.now pc value multi.now.subs multi.now.insert) bytes.old }
{
    for n in 0..multi.subs.len() {
        put_inserted(machine, multi, n, value, pc, bytes);
    }
}

/// Sets the fields of a slot's multi field to the slot's value.
#[tactic(auto, using(crate::proofs::Extracted::fields))]
fn put_multi(machine: &Machine, k: u16, mode: Mode, value: u64, pc: u64, bytes: &mut [u8; 16])
    requires sound { IsSound machine.now }
    requires mode { mode ≢ Void }
    requires fits { value < 2 ^ bits_of mode }
    requires word { pc < 2 ^ machine.now.word_bits }
    ensures { bytes.new ≡ spec.with_all machine.now (spec.multi_settings machine.now pc mode value (slice_get machine.now.multis k)) bytes.old }
{
    if let Some(multi) = multi_at(machine, k) {
        put_subs(machine, multi, convert(mode, multi.mode, value), pc, bytes);
    }
}

/// Sets the fields of a slot to the slot's value.
fn put_slot(machine: &Machine, operand: &Operand, value: u64, pc: u64, bytes: &mut [u8; 16])
    requires sound { IsSound machine.now }
    requires operand { SoundOperand machine.now operand.now }
    requires fits { value < 2 ^ bits_of (slots.slot_mode machine.now operand.now) }
    requires word { pc < 2 ^ machine.now.word_bits }
    ensures { bytes.new ≡ spec.with_all machine.now (spec.slot_settings machine.now pc operand.now value) bytes.old }
{
    let mode = slot_mode(machine, operand);
    match operand.source {
        Source::Field(k) => put_field(machine, k, mode, value, pc, bytes),
        Source::Multi(k) => put_multi(machine, k, mode, value, pc, bytes),
        _ => {}
    }
}

/// Sets the fields of a part, with the value at place `slot` where the part is a slot, and
/// answers the place of the next slot's value.
#[tactic(auto, using(crate::proofs::Filled::parts))]
fn put_part(
    machine: &Machine,
    part: Part,
    numbers: &[u64],
    slot: usize,
    pc: u64,
    bytes: &mut [u8; 16],
) -> usize
    requires sound { IsSound machine.now }
    requires fits { PartFits machine.now part }
    requires values { spec.AreFor machine.now (slots.slots_of machine.now (part ∷ [])) (take (length (slots.slots_of machine.now (part ∷ []))) (drop slot numbers.now)) }
    requires word { pc < 2 ^ machine.now.word_bits }
    ensures next { result ≡ slot + length (slots.slots_of machine.now (part ∷ [])) }
    ensures put { bytes.new ≡ spec.with_all machine.now (spec.settings machine.now pc (part ∷ []) (drop slot numbers.now)) bytes.old }
{
    match part {
        Part::Constant { field, value } => {
            put_constant(machine, field, value, bytes);
            slot
        }
        Part::Slot { operand } => {
            if let Some(operand) = operand_at(machine, operand) {
                put_slot(machine, operand, numbers[slot], pc, bytes);
            }
            slot + 1
        }
    }
}

/// The constants and the slots' fields in place, and 0 in all other bits.
#[tactic(auto, using(crate::proofs::Filled::parts))]
pub fn in_place(machine: &Machine, insn: &Insn, numbers: &[u64], pc: u64) -> [u8; 16]
    requires sound { IsSound machine.now }
    requires insn { SoundInsn machine.now insn.now }
    requires values { spec.AreFor machine.now (slots.slots_of machine.now insn.now.parts) numbers.now }
    requires word { pc < 2 ^ machine.now.word_bits }
    ensures { result ≡ spec.in_place machine.now insn.now numbers.now pc }
{
    let mut bytes = [0; 16];
    let mut slot = 0;
    for part in insn.parts.as_slice() {
        slot = put_part(machine, *part, numbers, slot, pc, &mut bytes);
    }
    bytes
}
