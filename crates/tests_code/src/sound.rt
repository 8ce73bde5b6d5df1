//! Whether a machine is sound.

ghost use Rattle.std.specs.Prelude.{◌≡◌, true, ◌+◌, ◌≤◌, bit_and, Some, length, MatchOption, ⊤, slice_get};
ghost use Rattle.cg_model.specs.Covers as covers;
ghost use Rattle.cg_model.specs.Covers.{IsInWord, IsPlaced, AreInWords};
ghost use Rattle.cg_model.specs.Matching as matching;
ghost use Rattle.cg_model.specs.Slots as slots;
ghost use Rattle.cg_model.specs.Sound as spec;
ghost use Rattle.cg_model.specs.Sound.{IsSound, SoundField, SoundMulti, SoundHardware, SoundOperand, SoundInsn, SoundBase, PartFits, AreApart, AreInserts, IsAssertion, IsRule};
ghost use Rattle.cg_model.specs.declared.field.Field.{Field as FieldValue};
ghost use Rattle.cg_model.specs.declared.rtl.Rtl.{Rtl as RtlValue};
ghost use Rattle.tests_code.specs.Judged.{Each, MayAssert, HasSoundElements};

use crate::allowed::{OfFields, OfFormat, OfValue, all_allowed};
use crate::rules::{is_rule, is_rule_where, pure_mode};
use cg_base::{Mode, bits};
use cg_code_mask::{cover, lies_near, named};
use cg_desc_check_format::{bytes_of, fields_of_part, slot_count};
use cg_model::{Field, Hardware, Insn, Machine, Multi, Operand, Part, Rtl, Source};

/// Whether a field lies in its word.
#[tactic(auto, using(crate::proofs::FieldLaws::in_word))]
fn is_in_word(field: &Field) -> bool
    ensures { result ≡ true → IsInWord field.now }
{
    let end = field.shift as u16 + field.length as u16;
    field.word_bits % 8 == 0
        && field.word_offset % 8 == 0
        && field.word_bits >= 8
        && field.word_bits <= 64
        && field.length >= 1
        && end <= field.word_bits as u16
}

/// Whether a field is sound.
fn is_sound_field(machine: &Machine, field: &Field) -> bool
    ensures { result ≡ true → SoundField machine.now field.now }
{
    if !is_in_word(field) {
        return false;
    }
    if field.length > bits(field.mode) {
        return false;
    }
    if !is_rule_where(machine, field.mode, &field.encode) {
        return false;
    }
    is_rule_where(machine, field.mode, &field.decode)
}

/// Whether all fields are sound.
fn are_fields_sound(machine: &Machine) -> bool
    ensures { result ≡ true → Each (SoundField machine.now) machine.now.fields }
{
    for field in machine.fields.as_slice() {
        if !is_sound_field(machine, field) {
            return false;
        }
    }
    true
}

/// Whether a rule gives the value of the field of a number by a multi field's value of a mode.
fn is_insert(machine: &Machine, own: Mode, k: u16, rtl: &Rtl) -> bool
    ensures { result ≡ true → (f : FieldValue) → slice_get machine.now.fields k ≡ Some f → IsRule machine.now f.mode (spec.of_value own) rtl.now }
{
    match machine.fields.get(k as usize) {
        Some(field) => is_rule(machine, field.mode, &OfValue { own }, rtl),
        None => true,
    }
}

/// Whether there is a field of a number.
fn has_field(machine: &Machine, k: u16) -> bool
    ensures { result ≡ spec.is_there (slice_get machine.now.fields k) }
{
    match machine.fields.get(k as usize) {
        Some(_) => true,
        None => false,
    }
}

/// Whether there is a multi field of a number.
fn has_multi(machine: &Machine, k: u16) -> bool
    ensures { result ≡ spec.is_there (slice_get machine.now.multis k) }
{
    match machine.multis.get(k as usize) {
        Some(_) => true,
        None => false,
    }
}

/// Whether there is hardware of a number.
fn has_hardware(machine: &Machine, k: u16) -> bool
    ensures { result ≡ spec.is_there (slice_get machine.now.hardware k) }
{
    match machine.hardware.get(k as usize) {
        Some(_) => true,
        None => false,
    }
}

/// Whether there is an operand of a number.
fn has_operand(machine: &Machine, k: u16) -> bool
    ensures { result ≡ spec.is_there (slice_get machine.now.operands k) }
{
    match machine.operands.get(k as usize) {
        Some(_) => true,
        None => false,
    }
}

/// Whether there are fields of some numbers.
fn are_fields(machine: &Machine, subs: &[u16]) -> bool
    ensures { result ≡ spec.are_fields machine.now subs.now }
{
    for k in subs {
        if !has_field(machine, *k) {
            return false;
        }
    }
    true
}

/// Whether rules give the values of a multi field's fields, each by its own.
fn are_inserts(machine: &Machine, own: Mode, subs: &[u16], rules: &[Rtl]) -> bool
    ensures { result ≡ true → AreInserts machine.now own subs.now rules.now }
{
    if subs.len() != rules.len() {
        return false;
    }
    for k in 0..subs.len() {
        if !is_insert(machine, own, subs[k], &rules[k]) {
            return false;
        }
    }
    true
}

/// Whether a multi field is sound.
fn is_sound_multi(machine: &Machine, multi: &Multi) -> bool
    ensures { result ≡ true → SoundMulti machine.now multi.now }
{
    let subs = multi.subs.as_slice();
    if bits(multi.mode) < 1 {
        return false;
    }
    if !are_fields(machine, subs) {
        return false;
    }
    if !are_inserts(machine, multi.mode, subs, multi.insert.as_slice()) {
        return false;
    }
    is_rule(
        machine,
        multi.mode,
        &OfFields { fields: subs },
        &multi.extract,
    )
}

/// Whether all multi fields are sound.
fn are_multis_sound(machine: &Machine) -> bool
    ensures { result ≡ true → Each (SoundMulti machine.now) machine.now.multis }
{
    for multi in machine.multis.as_slice() {
        if !is_sound_multi(machine, multi) {
            return false;
        }
    }
    true
}

/// Whether the values of hardware have bits.
#[tactic(auto, using(crate::proofs::FieldLaws::hardware_laws))]
fn is_sound_hardware(hardware: &Hardware) -> bool
    ensures { result ≡ true → SoundHardware hardware.now }
{
    bits(hardware.mode) >= 1
}

/// Whether all hardware is sound.
fn is_hardware_sound(machine: &Machine) -> bool
    ensures { result ≡ true → Each SoundHardware machine.now.hardware }
{
    for hardware in machine.hardware.as_slice() {
        if !is_sound_hardware(hardware) {
            return false;
        }
    }
    true
}

/// Whether a source's field or multi field is there.
fn has_source(machine: &Machine, source: Source) -> bool
    ensures { result ≡ spec.has_source machine.now source }
{
    match source {
        Source::Field(k) => has_field(machine, k),
        Source::Multi(k) => has_multi(machine, k),
        _ => true,
    }
}

/// Whether an operand is sound.
#[tactic(auto, using(crate::proofs::FieldLaws::operand_laws))]
fn is_sound_operand(machine: &Machine, operand: &Operand) -> bool
    ensures { result ≡ true → SoundOperand machine.now operand.now }
{
    has_hardware(machine, operand.hardware) && has_source(machine, operand.source)
}

/// Whether all operands are sound.
fn are_operands_sound(machine: &Machine) -> bool
    ensures { result ≡ true → Each (SoundOperand machine.now) machine.now.operands }
{
    for operand in machine.operands.as_slice() {
        if !is_sound_operand(machine, operand) {
            return false;
        }
    }
    true
}

/// The bits that the field of a number covers. None where it does not lie within 16 bytes.
#[tactic(auto, using(crate::proofs::PartLaws::placing))]
fn field_cover(machine: &Machine, k: u16) -> Option<u128>
    ensures { MatchOption result ⊤ (λ c. c ≡ covers.field_cover machine.now (slice_get machine.now.fields k)) }
{
    match machine.fields.get(k as usize) {
        Some(field) => {
            if is_in_word(field) && lies_near(field) {
                Some(cover(machine, field))
            } else {
                None
            }
        }
        None => Some(0),
    }
}

/// The bits that some fields cover.
#[tactic(auto, using(crate::proofs::PartLaws::cover_rules))]
fn fields_cover(machine: &Machine, fields: &[u16]) -> Option<u128>
    ensures { MatchOption result ⊤ (λ c. c ≡ covers.fields_cover machine.now fields.now) }
{
    let mut all = 0;
    for k in fields {
        match field_cover(machine, *k) {
            Some(own) => all |= own,
            None => return None,
        }
    }
    Some(all)
}

/// The bits that some parts cover.
#[tactic(auto, using(crate::proofs::PartLaws::cover_rules))]
fn parts_cover(machine: &Machine, parts: &[Part]) -> Option<u128>
    ensures { MatchOption result ⊤ (λ c. c ≡ covers.covered_by_all machine.now parts.now) }
{
    let mut all = 0;
    for part in parts {
        match fields_cover(machine, fields_of_part(machine, part)) {
            Some(own) => all |= own,
            None => return None,
        }
    }
    Some(all)
}

/// Whether a number fits the field that always holds it.
#[tactic(auto, using(crate::proofs::PartLaws::constant_fits))]
fn constant_fits(machine: &Machine, k: u16, value: u64) -> bool
    ensures { result ≡ true → PartFits machine.now (Part.Constant k value) }
{
    match machine.fields.get(k as usize) {
        Some(field) => field.length <= 64 && (value as u128) < 1 << field.length,
        None => false,
    }
}

/// Whether a part is of what the machine has.
fn part_fits(machine: &Machine, part: Part) -> bool
    ensures { result ≡ true → PartFits machine.now part }
{
    match part {
        Part::Constant { field, value } => constant_fits(machine, field, value),
        Part::Slot { operand } => has_operand(machine, operand),
    }
}

/// Whether a part covers no bit that those behind it do.
#[tactic(auto, using(crate::proofs::PartLaws::apart_laws))]
fn is_apart(machine: &Machine, part: &Part, behind: &[Part]) -> bool
    ensures { result ≡ true → bit_and (covers.covered_by machine.now part.now) (covers.covered_by_all machine.now behind.now) ≡ 0 }
{
    let own = fields_cover(machine, fields_of_part(machine, part));
    let others = parts_cover(machine, behind);
    match (own, others) {
        (Some(own), Some(others)) => own & others == 0,
        _ => false,
    }
}

/// Whether parts fit, and no two of them cover one bit.
#[tactic(auto, using(crate::proofs::PartLaws::apart_steps))]
fn are_apart(machine: &Machine, parts: &[Part]) -> bool
    ensures { result ≡ true → AreApart machine.now parts.now }
{
    for k in 0..parts.len() {
        if !part_fits(machine, parts[k]) {
            return false;
        }
        if !is_apart(machine, &parts[k], &parts[k + 1..]) {
            return false;
        }
    }
    true
}

/// Whether an expression may be the assertion of a format.
#[tactic(auto, using(crate::proofs::PartLaws::assertion_laws))]
fn may_assert(machine: &Machine, parts: &[Part], rtl: &Rtl) -> bool
    requires { AreInWords machine.now }
    ensures { result ≡ true → MayAssert machine.now parts.now rtl.now }
{
    pure_mode(machine, None, rtl).is_some()
        && all_allowed(&OfFormat { machine, parts }, rtl)
        && named(machine, rtl).count_ones() <= 8
}

/// Whether the assertion of an instruction is one, where there is one.
#[tactic(auto, using(crate::proofs::PartLaws::assertion_there))]
fn is_assertion_where(machine: &Machine, insn: &Insn) -> bool
    requires { AreInWords machine.now }
    ensures { result ≡ true → (r : RtlValue) → insn.now.assertion ≡ Some r → IsAssertion machine.now insn.now r }
{
    match &insn.assertion {
        Some(rtl) => may_assert(machine, insn.parts.as_slice(), rtl),
        None => true,
    }
}

/// Whether an instruction is sound.
fn is_sound_insn(machine: &Machine, insn: &Insn) -> bool
    requires { AreInWords machine.now }
    ensures { result ≡ true → SoundInsn machine.now insn.now }
{
    let parts = insn.parts.as_slice();
    if bytes_of(machine, insn) > 16 {
        return false;
    }
    if !are_apart(machine, parts) {
        return false;
    }
    if slot_count(parts) > 16 {
        return false;
    }
    is_assertion_where(machine, insn)
}

/// Whether all instructions are sound.
fn are_insns_sound(machine: &Machine) -> bool
    requires { AreInWords machine.now }
    ensures { result ≡ true → Each (SoundInsn machine.now) machine.now.insns }
{
    for insn in machine.insns.as_slice() {
        if !is_sound_insn(machine, insn) {
            return false;
        }
    }
    true
}

/// Whether the bits of the shortest instruction are whole bytes, of which there are 1 to 8.
#[tactic(auto, using(crate::proofs::FieldLaws::base_laws))]
fn is_base(bits: u8) -> bool
    ensures { result ≡ true → SoundBase bits }
{
    bits % 8 == 0 && bits >= 8 && bits <= 64
}

/// Whether the cpu's word has 8, 16, 32 or 64 bits.
fn is_word(bits: u8) -> bool
    ensures { result ≡ spec.is_word bits }
{
    bits == 8 || bits == 16 || bits == 32 || bits == 64
}

/// Whether fields and what is made of them are sound.
fn are_elements_sound(machine: &Machine) -> bool
    ensures { result ≡ true → HasSoundElements machine.now }
{
    are_fields_sound(machine)
        && are_multis_sound(machine)
        && is_hardware_sound(machine)
        && are_operands_sound(machine)
}

/// Whether a machine is sound: where it answers so, its instructions may be matched and encoded.
#[tactic(auto, using(crate::proofs::PartLaws::sound_laws))]
pub(crate) fn is_sound(machine: &Machine) -> bool
    ensures { result ≡ true → IsSound machine.now }
{
    if !are_elements_sound(machine) {
        return false;
    }
    is_word(machine.word_bits)
        && is_base(machine.base_bits)
        && machine.insns.len() <= 4096
        && are_insns_sound(machine)
}
