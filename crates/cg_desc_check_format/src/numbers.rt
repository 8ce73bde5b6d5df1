ghost use Rattle.std.specs.Prelude.{◌≡◌, length};
ghost use Rattle.cg_base.specs.Refusing.{first};
ghost use Rattle.cg_model_faults.specs.E306 as spec;
ghost use Rattle.cg_model_faults.specs.E313.{slot_operands};

use cg_base::refusals;
use cg_model::{Given, Machine, MacroInsn, Operand, Part, Piece, Source};
use cg_model_faults::{MachineFault, Said};

/// The fault of a number of something of which there are so many, at a place.
fn beyond(count: usize, place: usize, number: usize) -> Option<MachineFault>
    ensures { result ≡ first (spec.beyond count place number) }
{
    if number < count {
        return None;
    }
    Some(MachineFault {
        number: refusals::UNDEFINED_NAME,
        place,
        text: Said::Count(number as u64),
        other: Said::Nothing,
    })
}

/// The first of some numbers.
#[tactic(auto, using(crate::proofs::Walks::first_rules))]
fn first_beyond(count: usize, numbers: &[u16]) -> Option<MachineFault>
    ensures { result ≡ first (spec.beyond_from count 0 numbers.now) }
{
    for place in 0..numbers.len() {
        if let Some(fault) = beyond(count, place, numbers[place] as usize) {
            return Some(fault);
        }
    }
    None
}

/// E306: the machine's bundle field is none of its fields.
pub fn first_no_bundle(machine: &Machine) -> Option<MachineFault>
    ensures { result ≡ first (spec.no_bundle machine.now) }
{
    beyond(machine.fields.len(), 0, machine.bundle? as usize)
}

/// E306: a field of a multi field is none of the machine's. The place is that of the number.
pub fn first_no_sub(machine: &Machine, subs: &[u16]) -> Option<MachineFault>
    ensures { result ≡ first (spec.no_subs machine.now subs.now) }
{
    first_beyond(machine.fields.len(), subs)
}

/// The fault of the source of an operand.
fn no_source(machine: &Machine, source: Source) -> Option<MachineFault>
    ensures { result ≡ first (spec.no_source machine.now source) }
{
    match source {
        Source::Field(k) => beyond(machine.fields.len(), 0, k as usize),
        Source::Multi(k) => beyond(machine.multis.len(), 0, k as usize),
        _ => None,
    }
}

/// E306: the hardware of an operand, or its field or multi field, is none of the machine's.
#[tactic(auto, using(crate::proofs::Walks::first_rules))]
pub fn first_unsourced(machine: &Machine, operand: &Operand) -> Option<MachineFault>
    ensures { result ≡ first (spec.of_operand machine.now operand.now) }
{
    if let Some(fault) = beyond(machine.hardware.len(), 0, operand.hardware as usize) {
        return Some(fault);
    }
    no_source(machine, operand.source)
}

/// The fault of one piece of a syntax that has so many slots.
fn no_slot(slots: usize, place: usize, piece: &Piece) -> Option<MachineFault>
    ensures { result ≡ first (spec.no_slot slots place piece.now) }
{
    match piece {
        Piece::Literal(_) => None,
        Piece::Slot(slot) => beyond(slots, place, *slot as usize),
    }
}

/// The first of a syntax that has so many slots.
#[tactic(auto, using(crate::proofs::Walks::first_rules))]
fn first_no_slot(slots: usize, pieces: &[Piece]) -> Option<MachineFault>
    ensures { result ≡ first (spec.no_slots slots 0 pieces.now) }
{
    for place in 0..pieces.len() {
        if let Some(fault) = no_slot(slots, place, &pieces[place]) {
            return Some(fault);
        }
    }
    None
}

/// The fault of one part of a format.
fn no_part(machine: &Machine, place: usize, part: Part) -> Option<MachineFault>
    ensures { result ≡ first (spec.no_part machine.now place part) }
{
    match part {
        Part::Constant { field, .. } => beyond(machine.fields.len(), place, field as usize),
        Part::Slot { operand } => beyond(machine.operands.len(), place, operand as usize),
    }
}

/// The first of a format.
#[tactic(auto, using(crate::proofs::Walks::first_rules))]
fn first_no_part(machine: &Machine, parts: &[Part]) -> Option<MachineFault>
    ensures { result ≡ first (spec.no_parts machine.now 0 parts.now) }
{
    for place in 0..parts.len() {
        if let Some(fault) = no_part(machine, place, parts[place]) {
            return Some(fault);
        }
    }
    None
}

/// How many slots a format has.
#[tactic(auto, using(crate::proofs::Walks::count_rules))]
pub fn slot_count(parts: &[Part]) -> usize
    ensures { result ≡ length (slot_operands parts.now) }
{
    let mut count = 0;
    for part in parts {
        if let Part::Slot { operand: _ } = part {
            count += 1;
        }
    }
    count
}

/// E306: a slot of an instruction's syntax is none of its format's, or a part of the format names no
/// field or operand. The place is that of the piece or of the part.
#[tactic(auto, using(crate::proofs::Walks::first_rules))]
pub fn first_shapeless(machine: &Machine, pieces: &[Piece], parts: &[Part]) -> Option<MachineFault>
    ensures { result ≡ first (spec.of_shape machine.now pieces.now parts.now) }
{
    if let Some(fault) = first_no_slot(slot_count(parts), pieces) {
        return Some(fault);
    }
    first_no_part(machine, parts)
}

/// The fault of what one slot is given.
fn no_given(slots: usize, place: usize, given: Given) -> Option<MachineFault>
    ensures { result ≡ first (spec.no_given slots place given) }
{
    match given {
        Given::Number(_) => None,
        Given::Slot(slot) => beyond(slots, place, slot as usize),
    }
}

/// The first of what is given.
#[tactic(auto, using(crate::proofs::Walks::first_rules))]
fn first_no_given(slots: usize, given: &[Given]) -> Option<MachineFault>
    ensures { result ≡ first (spec.no_givens slots 0 given.now) }
{
    for place in 0..given.len() {
        if let Some(fault) = no_given(slots, place, given[place]) {
            return Some(fault);
        }
    }
    None
}

/// E306: a macro instruction has a slot in its syntax or in what it gives that is none of its own, or
/// names no operand or no instruction.
#[tactic(auto, using(crate::proofs::Walks::first_rules))]
pub fn first_no_emitted(machine: &Machine, insn: &MacroInsn) -> Option<MachineFault>
    ensures { result ≡ first (spec.of_macro machine.now insn.now) }
{
    let slots = insn.operands.len();
    if let Some(fault) = first_no_slot(slots, insn.pieces.as_slice()) {
        return Some(fault);
    }
    if let Some(fault) = first_beyond(machine.operands.len(), insn.operands.as_slice()) {
        return Some(fault);
    }
    if let Some(fault) = beyond(machine.insns.len(), 0, insn.target as usize) {
        return Some(fault);
    }
    first_no_given(slots, insn.given.as_slice())
}
