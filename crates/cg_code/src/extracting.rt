ghost use Rattle.std.specs.Prelude.{◌≡◌, ◌≢◌, if◌then◌else◌, ◌%◌, ◌+◌, ◌*◌, ◌≤◌, ◌<◌, ◌^◌, ◌++◌, [], ◌∷◌, ℕ, List, length, map, pos, true};
ghost use Rattle.cg_base.specs.declared.Mode.{Mode};
ghost use Rattle.cg_base.specs.declared.Mode.TheVariants.{Void, Usi};
ghost use Rattle.cg_base.specs.Modes.{bits_of};
ghost use Rattle.cg_code.specs.Coded.{Holds, values_at, matches_at};
ghost use Rattle.cg_model.specs.Placed.{is_register};
ghost use Rattle.cg_model.specs.Encoding.{own_pc};
ghost use Rattle.cg_model.specs.Fields.{field_value, multi_value, around_fields};
ghost use Rattle.cg_model.specs.Pure.{pure_value};
ghost use Rattle.cg_model.specs.Matching.{last_end, fields_of_source, fields_of_parts, fields_of_part, length_of};
ghost use Rattle.cg_model.specs.Slots as spec;
ghost use Rattle.cg_model.specs.Sound.{IsSound, SoundField, SoundMulti, SoundOperand, SoundInsn};

use crate::lookups::{field_at, multi_at, operand_at};
use cg_base::{Mode, bits, convert};
use cg_model::{Hardware, HwKind, Insn, Machine, Multi, Operand, Part, Source, Values, field_bits};
use cg_model_pure::{decoded, pure_eval};

/// A pc modulo 2^bits of the cpu's word.
#[tactic(auto, using(crate::proofs::Extracted::word))]
pub fn word_pc(machine: &Machine, pc: u64) -> u64
    requires { IsSound machine.now }
    ensures value { result ≡ own_pc machine.now pc }
    ensures fits { result < 2 ^ machine.now.word_bits }
{
    ((pc as u128) % (1 << machine.word_bits)) as u64
}

/// The mode of a value for hardware: on a register it is an index.
fn value_mode(hardware: &Hardware) -> Mode
    ensures { result ≡ (if is_register hardware.now.kind then Usi else hardware.now.mode) }
{
    if hardware.kind == HwKind::Register {
        Mode::Usi
    } else {
        hardware.mode
    }
}

/// The mode of an operand's value.
#[tactic(auto, using(crate::proofs::Extracted::slot))]
pub fn slot_mode(machine: &Machine, operand: &Operand) -> Mode
    requires sound { IsSound machine.now }
    requires operand { SoundOperand machine.now operand.now }
    ensures value { result ≡ spec.slot_mode machine.now operand.now }
    ensures some { result ≢ Void }
{
    match machine.hardware.get(operand.hardware as usize) {
        Some(hardware) => value_mode(hardware),
        None => Mode::Void,
    }
}

/// The value of an operand's field in some mode.
#[tactic(auto, using(crate::proofs::Extracted::fields))]
fn field_as(machine: &Machine, mode: Mode, k: u16, bytes: &[u8], pc: u64) -> u64
    requires sound { IsSound machine.now }
    requires mode { mode ≢ Void }
    requires inside { last_end machine.now (k ∷ []) ≤ 8 * length bytes.now }
    requires word { pc < 2 ^ machine.now.word_bits }
    ensures value { result ≡ spec.field_as machine.now mode k (field_value machine.now bytes.now pc (pos k)) }
    ensures small { result < 2 ^ bits_of mode }
{
    match field_at(machine, k) {
        Some(field) => {
            let value = decoded(machine, field, pc, field_bits(machine, field, bytes));
            convert(field.mode, mode, value)
        }
        None => 0,
    }
}

/// The value of an operand's multi field in some mode.
#[tactic(auto, using(crate::proofs::Extracted::fields))]
fn multi_as(machine: &Machine, mode: Mode, k: u16, bytes: &[u8], pc: u64) -> u64
    requires sound { IsSound machine.now }
    requires mode { mode ≢ Void }
    requires word { pc < 2 ^ machine.now.word_bits }
    requires inside { last_end machine.now (fields_of_source machine.now (Source.Multi k)) ≤ 8 * length bytes.now }
    ensures value { result ≡ spec.multi_as machine.now mode k (multi_value machine.now bytes.now pc (pos k)) }
    ensures small { result < 2 ^ bits_of mode }
{
    match multi_at(machine, k) {
        Some(multi) => convert(multi.mode, mode, extracted(machine, multi, bytes, pc)),
        None => 0,
    }
}

/// What a multi field's rule gives.
#[tactic(auto, using(crate::proofs::Extracted::decoding))]
fn extracted(machine: &Machine, multi: &Multi, bytes: &[u8], pc: u64) -> u64
    requires sound { IsSound machine.now }
    requires multi { SoundMulti machine.now multi.now }
    requires word { pc < 2 ^ machine.now.word_bits }
    requires inside { last_end machine.now multi.now.subs ≤ 8 * length bytes.now }
    ensures value { result ≡ pure_value machine.now (around_fields machine.now bytes.now pc) multi.now.extract (Some multi.now.mode) }
    ensures small { result < 2 ^ bits_of multi.now.mode }
{
    pure_eval(machine, &multi.extract, Some(multi.mode), 0, pc, bytes)
}

/// The value of an operand in bytes.
#[tactic(auto, using(crate::proofs::Extracted::slot))]
fn source_value(machine: &Machine, operand: &Operand, bytes: &[u8], pc: u64) -> u64
    requires sound { IsSound machine.now }
    requires operand { SoundOperand machine.now operand.now }
    requires inside { last_end machine.now (fields_of_source machine.now operand.now.source) ≤ 8 * length bytes.now }
    requires word { pc < 2 ^ machine.now.word_bits }
    ensures { result ≡ spec.source_value machine.now bytes.now pc operand.now }
{
    let mode = slot_mode(machine, operand);
    match operand.source {
        Source::Field(k) => field_as(machine, mode, k, bytes, pc),
        Source::Multi(k) => multi_as(machine, mode, k, bytes, pc),
        Source::Fixed(number) => cut(mode, number),
        Source::None => 0,
    }
}

/// A number modulo 2^bits of a mode.
#[tactic(auto, using(crate::proofs::Extracted::word))]
fn cut(mode: Mode, number: u64) -> u64
    ensures { result ≡ number % 2 ^ bits_of mode }
{
    ((number as u128) % (1 << bits(mode))) as u64
}

/// One number more.
#[tactic(auto, using(crate::proofs::Holding::holding))]
fn with_number(all: Values, number: u64) -> Values
    requires { all.count < 16 }
    ensures { (vs : List ℕ) → Holds all vs → Holds result (vs ++ number ∷ []) }
{
    let mut more = all;
    more.numbers[all.count as usize] = number;
    more.count += 1;
    more
}

/// The value of a part's slot more, where the part is one.
#[tactic(auto, using(crate::proofs::Holding::holding))]
fn with_part(machine: &Machine, part: Part, bytes: &[u8], pc: u64, all: Values) -> Values
    requires sound { IsSound machine.now }
    requires inside { last_end machine.now (fields_of_part machine.now part) ≤ 8 * length bytes.now }
    requires room { all.count + length (spec.slots_of machine.now (part ∷ [])) ≤ 16 }
    requires word { pc < 2 ^ machine.now.word_bits }
    ensures { (vs : List ℕ) → Holds all vs → Holds result (vs ++ map (spec.source_value machine.now bytes.now pc) (spec.slots_of machine.now (part ∷ []))) }
{
    if let Part::Slot { operand } = part {
        return match operand_at(machine, operand) {
            Some(operand) => with_number(all, source_value(machine, operand, bytes, pc)),
            None => all,
        };
    }
    all
}

/// The values of an instruction's slots in bytes that are at least as long as it. It takes no memory.
#[tactic(auto, using(crate::proofs::Holding::filling))]
pub fn values_of(machine: &Machine, insn: &Insn, bytes: &[u8], pc: u64) -> Values
    requires sound { IsSound machine.now }
    requires insn { SoundInsn machine.now insn.now }
    requires long { length_of machine.now insn.now ≤ length bytes.now }
    requires word { pc < 2 ^ machine.now.word_bits }
    ensures { Holds result (spec.values machine.now insn.now bytes.now pc) }
{
    let mut all = Values {
        count: 0,
        numbers: [0; 16],
    };
    for part in insn.parts.as_slice() {
        all = with_part(machine, *part, bytes, pc, all);
    }
    all
}

/// The values of the slots of the instruction of a number, in bytes that it matches, where the
/// instruction stands at `pc` (docs/LANGUAGE.md, "Encoding and matching"). `pc` counts modulo
/// 2^bits of the cpu's word. It takes no memory.
#[tactic(auto, using(crate::proofs::Matched::matching))]
pub fn extract(machine: &Machine, i: u16, bytes: &[u8], pc: u64) -> Values
    requires sound { IsSound machine.now }
    requires within { i < length machine.now.insns }
    requires matching { matches_at machine.now i bytes.now ≡ true }
    ensures { Holds result (values_at machine.now i bytes.now (own_pc machine.now pc)) }
{
    let insn = &machine.insns.as_slice()[i as usize];
    values_of(machine, insn, bytes, word_pc(machine, pc))
}
