ghost use Rattle.std.specs.Prelude.{◌≡◌, ◌≤◌, length, true, nat_eq};
ghost use Rattle.cg_base.specs.Refusing.{first};
ghost use Rattle.cg_model.specs.Covers.{IsPlaced};
ghost use Rattle.cg_model.specs.Matching as matching;
ghost use Rattle.cg_model_faults.specs.E310 as spec;
ghost use Rattle.cg_model_faults.specs.E316.{bundled_from, bundled};
ghost use Rattle.cg_desc_check_format.specs.Two.{seen_two};

use cg_base::refusals;
use cg_code_mask::cover;
use cg_model::{Field, Machine, Part, Source};
use cg_model_faults::{MachineFault, Said};
use std::slice::from_ref;

/// Whether a field has its place in an instruction.
#[tactic(auto, using(crate::proofs::Placing::placed))]
fn is_placed(field: &Field) -> bool
    ensures value { result ≡ spec.is_placed field.now }
    ensures placed { result ≡ true → IsPlaced field.now }
{
    let length = field.length;
    let end = field.shift as u16 + length as u16;
    let word_end = field.word_offset as u32 + field.word_bits as u32;
    field.word_bits % 8 == 0
        && field.word_offset % 8 == 0
        && field.word_bits >= 8
        && field.word_bits <= 64
        && word_end <= 128
        && length >= 1
        && end <= field.word_bits as u16
}

/// The bits that the field of a number covers, as one number of 128 bits, the first byte the highest: none
/// where the field leaves its word, or its word the 16 bytes that an instruction may have.
pub fn bits_covered(machine: &Machine, k: usize) -> u128
    ensures { result ≡ spec.bits_covered machine.now k }
{
    match machine.fields.get(k) {
        Some(field) if is_placed(field) => cover(machine, field),
        _ => 0,
    }
}

/// Whether two sets of bits have one in common.
fn meets(a: u128, b: u128) -> bool
    ensures { result ≡ spec.meets a b }
{
    a & b != 0
}

/// The first of some fields that covers one of some bits.
#[tactic(auto, using(crate::proofs::Walks::first_rules))]
fn first_meeting(machine: &Machine, bits: u128, fields: &[u16]) -> Option<u16>
    ensures { result ≡ spec.first_meeting machine.now bits fields.now }
{
    for k in fields {
        if meets(bits, bits_covered(machine, *k as usize)) {
            return Some(*k);
        }
    }
    None
}

/// The fields of an operand.
fn fields_of_source<'a>(machine: &'a Machine, source: &'a Source) -> &'a [u16]
    ensures { result.now ≡ matching.fields_of_source machine.now source.now }
{
    match source {
        Source::Field(k) => from_ref(k),
        Source::Multi(k) => match machine.multis.get(*k as usize) {
            Some(multi) => multi.subs.as_slice(),
            None => &[],
        },
        _ => &[],
    }
}

/// The fields that a part of a format covers, by their numbers.
pub fn fields_of_part<'a>(machine: &'a Machine, part: &'a Part) -> &'a [u16]
    ensures { result.now ≡ matching.fields_of_part machine.now part.now }
{
    match part {
        Part::Constant { field, .. } => from_ref(field),
        Part::Slot { operand } => match machine.operands.get(*operand as usize) {
            Some(operand) => fields_of_source(machine, &operand.source),
            None => &[],
        },
    }
}

/// Two fields, one of each of two parts.
#[derive(Clone, Copy)]
struct Two {
    first: u16,
    second: u16,
}

/// The first two fields, one of each list, that cover one bit.
#[tactic(auto, using(crate::proofs::Walks::first_rules))]
fn first_two(machine: &Machine, firsts: &[u16], seconds: &[u16]) -> Option<Two>
    ensures { seen_two result ≡ spec.first_two machine.now firsts.now seconds.now }
{
    for first in firsts {
        let bits = bits_covered(machine, *first as usize);
        if let Some(second) = first_meeting(machine, bits, seconds) {
            return Some(Two {
                first: *first,
                second,
            });
        }
    }
    None
}

/// The fault of the part at a place that has these fields, by the first part behind it, from another
/// place on, that it meets.
#[tactic(auto, using(crate::proofs::Walks::first_rules))]
fn overlap_with(
    machine: &Machine,
    place: usize,
    fields: &[u16],
    behind: &[Part],
) -> Option<MachineFault>
    ensures { result ≡ first (spec.overlaps_with machine.now place fields.now behind.now) }
{
    for part in behind {
        if let Some(two) = first_two(machine, fields, fields_of_part(machine, part)) {
            return Some(MachineFault {
                number: refusals::OVERLAP,
                place,
                text: Said::Own,
                other: Said::Fields(two.first as usize, two.second as usize),
            });
        }
    }
    None
}

/// E310: two parts of a format cover one bit. The place is that of the first of them.
#[tactic(auto, using(crate::proofs::Walks::first_rules))]
pub fn first_overlap(machine: &Machine, parts: &[Part]) -> Option<MachineFault>
    ensures { result ≡ first (spec.overlaps machine.now parts.now) }
{
    for place in 0..parts.len() {
        let fields = fields_of_part(machine, &parts[place]);
        if let Some(fault) = overlap_with(machine, place, fields, &parts[place + 1..]) {
            return Some(fault);
        }
    }
    None
}

/// The fault of the first part that covers the bit of the bundle field.
#[tactic(auto, using(crate::proofs::Walks::first_rules))]
fn bundled(machine: &Machine, k: u16, parts: &[Part]) -> Option<MachineFault>
    ensures { result ≡ first (bundled_from machine.now k 0 parts.now) }
{
    let bits = bits_covered(machine, k as usize);
    for place in 0..parts.len() {
        if first_meeting(machine, bits, fields_of_part(machine, &parts[place])).is_some() {
            return Some(MachineFault {
                number: refusals::BUNDLE_FIELD,
                place,
                text: Said::Field(k as usize),
                other: Said::Own,
            });
        }
    }
    None
}

/// E316: the bundle field overlaps a format. The place is that of the first part that it meets.
pub fn first_bundled(machine: &Machine, parts: &[Part]) -> Option<MachineFault>
    ensures { result ≡ first (bundled machine.now parts.now) }
{
    bundled(machine, machine.bundle?, parts)
}
