ghost use Rattle.std.specs.Prelude.{◌≡◌, ◌≤◌, ◌<◌, length, slice_get};
ghost use Rattle.cg_model.specs.Clashing.{length_at};
ghost use Rattle.cg_model.specs.Matching as spec;
ghost use Rattle.cg_model.specs.Sound.{IsSound, SoundInsn};

use crate::lookups::{field_at, insn_at, multi_at, operand_at};
use cg_model::{Insn, Machine, Part, Source};

/// The end of a field's word, in bits.
fn end_at(machine: &Machine, k: u16) -> u32
    requires { IsSound machine.now }
    ensures value { result ≡ spec.end_of (slice_get machine.now.fields k) }
    ensures few { result ≤ 131072 }
{
    match field_at(machine, k) {
        Some(field) => field.word_offset as u32 + field.word_bits as u32,
        None => 0,
    }
}

/// The end of the last word of some fields.
#[tactic(auto, using(crate::proofs::Ends::ends))]
fn last_end(machine: &Machine, fields: &[u16]) -> u32
    requires { IsSound machine.now }
    ensures value { result ≡ spec.last_end machine.now fields.now }
    ensures few { result ≤ 131072 }
{
    let mut end = 0;
    for k in fields {
        end = end_at(machine, *k).max(end);
    }
    end
}

/// The end of the last word that holds an operand's value.
fn source_end(machine: &Machine, source: Source) -> u32
    requires { IsSound machine.now }
    ensures value { result ≡ spec.last_end machine.now (spec.fields_of_source machine.now source) }
    ensures few { result ≤ 131072 }
{
    match source {
        Source::Field(k) => end_at(machine, k),
        Source::Multi(k) => match multi_at(machine, k) {
            Some(multi) => last_end(machine, multi.subs.as_slice()),
            None => 0,
        },
        _ => 0,
    }
}

/// The end of the last word that a part of a format covers.
fn part_end(machine: &Machine, part: Part) -> u32
    requires { IsSound machine.now }
    ensures value { result ≡ spec.last_end machine.now (spec.fields_of_part machine.now part) }
    ensures few { result ≤ 131072 }
{
    match part {
        Part::Constant { field, .. } => end_at(machine, field),
        Part::Slot { operand } => match operand_at(machine, operand) {
            Some(operand) => source_end(machine, operand.source),
            None => 0,
        },
    }
}

/// The end of the last word of a format.
#[tactic(auto, using(crate::proofs::Ends::ends))]
fn parts_end(machine: &Machine, parts: &[Part]) -> u32
    requires { IsSound machine.now }
    ensures value { result ≡ spec.last_end machine.now (spec.fields_of_parts machine.now parts.now) }
    ensures few { result ≤ 131072 }
{
    let mut end = 0;
    for part in parts {
        end = part_end(machine, *part).max(end);
    }
    end
}

/// How many bytes an instruction has (docs/LANGUAGE.md, "Encoding and matching"): 16 at most.
pub fn insn_length(machine: &Machine, insn: &Insn) -> u8
    requires sound { IsSound machine.now }
    requires insn { SoundInsn machine.now insn.now }
    ensures value { result ≡ spec.length_of machine.now insn.now }
    ensures few { result ≤ 16 }
{
    let end = parts_end(machine, insn.parts.as_slice());
    (end.max(machine.base_bits as u32) / 8) as u8
}

/// How many bytes the instruction of a number has.
#[tactic(auto, using(crate::proofs::Matched::numbered))]
pub fn length(machine: &Machine, i: u16) -> u8
    requires sound { IsSound machine.now }
    requires within { i < length machine.now.insns }
    ensures { result ≡ length_at machine.now i }
{
    insn_length(machine, insn_at(machine, i))
}
