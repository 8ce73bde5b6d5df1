//! The values of fields and multi fields, and of any pure expression among them.

ghost use Rattle.std.specs.Prelude.{◌≡◌, ◌<◌, ◌≤◌, ◌^◌, true, Some, MatchOption, ⊤};
ghost use Rattle.std.specs.Option.{option_copied};
ghost use Rattle.cg_base.specs.Modes.{bits_of};
ghost use Rattle.cg_base.specs.declared.Mode.{Mode as ModeValue};
ghost use Rattle.cg_model.specs.Checked.{mode_of, field_mode, multi_mode};
ghost use Rattle.cg_model.specs.Fields as fields;
ghost use Rattle.cg_model.specs.Operators.{at_number};
ghost use Rattle.cg_model.specs.Pure.{pure_value};
ghost use Rattle.cg_model.specs.Sound.{IsSound, Gives, SoundField, SoundMulti};
ghost use Rattle.cg_model.specs.Values.{mode_or_void};
ghost use Rattle.cg_model_pure_eval.specs.Seen.{all_had};
ghost use Rattle.cg_model_pure.specs.Evaluable.{holds_field, holds_multi, all_held};
ghost use Rattle.cg_model_pure.specs.Surroundings.{seen_value, seen_fields, seen_all, IsReadable};

use cg_base::Mode;
use cg_model::{Field, Machine, Multi, Rtl, extended, field_bits};
use cg_model_pure_eval::around::Around;
use cg_model_pure_eval::eval;

/// The value of a pure expression, by what stands around it.
#[tactic(auto, using(crate::proofs::ValueLaws::value_rules))]
fn valued<A: Around>(rtl: &Rtl, machine: &Machine, around: &A, want: Option<Mode>) -> u64
    requires ready { A.ready around.now machine.now }
    requires gives { Gives machine.now want rtl.now }
    requires had { all_had machine.now (A.seen around.now machine.now) rtl.now ≡ true }
    ensures value { result ≡ pure_value machine.now (A.seen around.now machine.now).around rtl.now want }
    ensures fits { (k : ModeValue) → mode_of machine.now rtl.now want ≡ Ok k → result < 2 ^ bits_of k }
{
    match eval(rtl, machine, around, want) {
        Ok(typed) => typed.value,
        Err(_) => 0,
    }
}

/// Around the rules of a field: the rule's own value, and the pc.
#[derive(Clone, Copy)]
struct OfValue {
    value: u64,
    pc: u64,
}

impl Around for OfValue {
    ghost seen = { λ s m. seen_value s.value s.pc };

    ghost ready = { λ s m. Unit {0} };

    fn value(&self, _machine: &Machine) -> u64 {
        self.value
    }

    fn pc(&self, _machine: &Machine) -> u64 {
        self.pc
    }

    fn field(&self, _machine: &Machine, _number: i64) -> u64 {
        0
    }

    fn multi(&self, _machine: &Machine, _number: i64) -> u64 {
        0
    }
}

/// The value of a field whose bits are a number, where the instruction stands at `pc`
/// (docs/LANGUAGE.md, "Fields"): what the field's rule `decode` gives, where it has one.
#[tactic(auto, using(crate::proofs::FieldLaws::decode_rules))]
pub fn decoded(machine: &Machine, field: &Field, pc: u64, number: u64) -> u64
    requires sound { IsSound machine.now }
    requires field { SoundField machine.now field.now }
    requires bits { number < 2 ^ field.now.length }
    requires word { pc < 2 ^ machine.now.word_bits }
    ensures value { result ≡ fields.decoded machine.now field.now pc number }
    ensures fits { result < 2 ^ bits_of field.now.mode }
{
    let value = extended(field, number);
    match &field.decode {
        Some(rule) => valued(rule, machine, &OfValue { value, pc }, Some(field.mode)),
        None => value,
    }
}

/// The field of a number.
#[tactic(auto, using(crate::proofs::FieldLaws::sound_rules))]
fn field_at(machine: &Machine, number: i64) -> Option<&Field>
    requires { IsSound machine.now }
    ensures value { option_copied result ≡ at_number machine.now.fields number }
    ensures sound { MatchOption result ⊤ (λ f. SoundField machine.now f.now) }
{
    if number < 0 {
        return None;
    }
    machine.fields.get(number as usize)
}

/// The multi field of a number.
#[tactic(auto, using(crate::proofs::FieldLaws::sound_rules))]
fn multi_at(machine: &Machine, number: i64) -> Option<&Multi>
    requires { IsSound machine.now }
    ensures value { option_copied result ≡ at_number machine.now.multis number }
    ensures sound { MatchOption result ⊤ (λ x. SoundMulti machine.now x.now) }
{
    if number < 0 {
        return None;
    }
    machine.multis.get(number as usize)
}

/// The value of the field of a number in bytes that hold its word, and 0 where there is none.
#[tactic(auto, using(crate::proofs::FieldLaws::field_rules))]
pub fn field_value(machine: &Machine, number: i64, bytes: &[u8], pc: u64) -> u64
    requires sound { IsSound machine.now }
    requires held { holds_field machine.now bytes.now number ≡ true }
    requires word { pc < 2 ^ machine.now.word_bits }
    ensures value { result ≡ fields.field_value machine.now bytes.now pc number }
    ensures fits { result < 2 ^ bits_of (mode_or_void (field_mode machine.now number)) }
{
    match field_at(machine, number) {
        Some(field) => decoded(machine, field, pc, field_bits(machine, field, bytes)),
        None => 0,
    }
}

/// Around the rules of a multi field: the fields of bytes, and the pc.
#[derive(Clone, Copy)]
struct OfFields<'a> {
    bytes: &'a [u8],
    pc: u64,
}

impl<'a> Around for OfFields<'a> {
    ghost seen = { λ s m. seen_fields m s.bytes.now s.pc };

    ghost ready = { λ s m. IsReadable m s.pc };

    fn value(&self, _machine: &Machine) -> u64 {
        0
    }

    fn pc(&self, _machine: &Machine) -> u64 {
        self.pc
    }

    fn field(&self, machine: &Machine, number: i64) -> u64 {
        field_value(machine, number, self.bytes, self.pc)
    }

    fn multi(&self, _machine: &Machine, _number: i64) -> u64 {
        0
    }
}

/// The value of the multi field of a number in bytes that hold the words of its fields, and 0 where
/// there is none.
#[tactic(auto, using(crate::proofs::FieldLaws::multi_rules))]
pub fn multi_value(machine: &Machine, number: i64, bytes: &[u8], pc: u64) -> u64
    requires sound { IsSound machine.now }
    requires held { holds_multi machine.now bytes.now number ≡ true }
    requires word { pc < 2 ^ machine.now.word_bits }
    ensures value { result ≡ fields.multi_value machine.now bytes.now pc number }
    ensures fits { result < 2 ^ bits_of (mode_or_void (multi_mode machine.now number)) }
{
    match multi_at(machine, number) {
        Some(multi) => valued(
            &multi.extract,
            machine,
            &OfFields { bytes, pc },
            Some(multi.mode),
        ),
        None => 0,
    }
}

/// Around any pure expression: the rule's own value, the pc, and the fields and multi fields of
/// bytes.
#[derive(Clone, Copy)]
struct OfBytes<'a> {
    value: u64,
    pc: u64,
    bytes: &'a [u8],
}

impl<'a> Around for OfBytes<'a> {
    ghost seen = { λ s m. seen_all m s.value s.pc s.bytes.now };

    ghost ready = { λ s m. IsReadable m s.pc };

    fn value(&self, _machine: &Machine) -> u64 {
        self.value
    }

    fn pc(&self, _machine: &Machine) -> u64 {
        self.pc
    }

    fn field(&self, machine: &Machine, number: i64) -> u64 {
        field_value(machine, number, self.bytes, self.pc)
    }

    fn multi(&self, machine: &Machine, number: i64) -> u64 {
        multi_value(machine, number, self.bytes, self.pc)
    }
}

/// The value of a pure expression of which a mode may be wanted, modulo 2^bits of its mode
/// (docs/LANGUAGE.md, "Values"). `value` is the rule's own value, `pc` the instruction's address, and
/// `bytes` are the instruction's, in which fields and multi fields are decoded. It takes no memory.
#[tactic(auto, using(crate::proofs::FieldLaws::held_rules))]
pub fn pure_eval(
    machine: &Machine,
    rtl: &Rtl,
    want: Option<Mode>,
    value: u64,
    pc: u64,
    bytes: &[u8],
) -> u64
    requires sound { IsSound machine.now }
    requires gives { Gives machine.now want rtl.now }
    requires pc { pc < 2 ^ machine.now.word_bits }
    requires held { all_held machine.now value bytes.now rtl.now ≡ true }
    ensures value { result ≡ pure_value machine.now (fields.around machine.now value pc bytes.now) rtl.now want }
    ensures fits { (k : ModeValue) → mode_of machine.now rtl.now want ≡ Ok k → result < 2 ^ bits_of k }
{
    valued(rtl, machine, &OfBytes { value, pc, bytes }, want)
}
