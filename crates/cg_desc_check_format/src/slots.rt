ghost use Rattle.std.specs.Prelude.{◌≡◌, slice_get};
ghost use Rattle.cg_base.specs.Refusing.{first};
ghost use Rattle.cg_model_faults.specs.E313 as spec;
ghost use Rattle.cg_model_faults.specs.Finding.{at_place, stands_in};
ghost use Rattle.cg_model_faults.specs.declared.fault.Said.TheVariants.{Own};

use cg_base::refusals;
use cg_model::{Given, Piece};
use cg_model_faults::{MachineFault, Said};

/// The fault of what stands at a place.
fn fault(place: usize, other: Said) -> MachineFault
    ensures { result ≡ at_place 313 place Own other }
{
    MachineFault {
        number: refusals::SLOTS_DIFFER,
        place,
        text: Said::Own,
        other,
    }
}

/// Whether a piece is a slot.
fn is_slot(slot: usize, piece: &Piece) -> bool
    ensures { result ≡ spec.is_slot slot piece.now }
{
    match piece {
        Piece::Literal(_) => false,
        Piece::Slot(k) => *k as usize == slot,
    }
}

/// Whether a slot stands among some pieces.
#[tactic(auto, using(crate::proofs::Walks::first_rules))]
fn is_written(slot: usize, pieces: &[Piece]) -> bool
    ensures { result ≡ spec.is_written slot pieces.now }
{
    for piece in pieces {
        if is_slot(slot, piece) {
            return true;
        }
    }
    false
}

/// What is said of the operand of a slot.
fn operand_said(operands: &[u16], slot: u8) -> Said
    ensures { result ≡ spec.operand_said (slice_get operands.now slot) }
{
    match operands.get(slot as usize) {
        Some(operand) => Said::Operand(*operand as usize),
        None => Said::Nothing,
    }
}

/// The fault of one piece at its place, behind others.
fn twice(operands: &[u16], place: usize, before: &[Piece], piece: &Piece) -> Option<MachineFault>
    ensures { result ≡ first (spec.twice_at operands.now place before.now piece.now) }
{
    let Piece::Slot(slot) = piece else {
        return None;
    };
    if !is_written(*slot as usize, before) {
        return None;
    }
    Some(fault(place, operand_said(operands, *slot)))
}

/// E313: a slot stands twice in one syntax. The place is that of the second piece.
#[tactic(auto, using(crate::proofs::Walks::before_rules))]
pub fn first_written_twice(operands: &[u16], pieces: &[Piece]) -> Option<MachineFault>
    ensures { result ≡ first (spec.written_twice operands.now pieces.now) }
{
    for place in 0..pieces.len() {
        if let Some(fault) = twice(operands, place, &pieces[..place], &pieces[place]) {
            return Some(fault);
        }
    }
    None
}

/// Whether a number stands among others.
#[tactic(auto, using(crate::proofs::Walks::first_rules))]
fn stands_in(numbers: &[u16], number: u16) -> bool
    ensures { result ≡ stands_in numbers.now number }
{
    for each in numbers {
        if *each == number {
            return true;
        }
    }
    false
}

/// The fault of one operand at its place, behind others.
fn unmatched(pieces: &[Piece], place: usize, before: &[u16], operand: u16) -> Option<MachineFault>
    ensures { result ≡ first (spec.unmatched_at pieces.now place before.now operand) }
{
    if stands_in(before, operand) || !is_written(place, pieces) {
        return Some(fault(place, Said::Operand(operand as usize)));
    }
    None
}

/// E313: an operand stands twice in one format, or its slot isn't in the syntax. The place is that of
/// the operand among the format's slots.
#[tactic(auto, using(crate::proofs::Walks::before_rules))]
pub fn first_unmatched(pieces: &[Piece], operands: &[u16]) -> Option<MachineFault>
    ensures { result ≡ first (spec.unmatched pieces.now operands.now) }
{
    for place in 0..operands.len() {
        if let Some(fault) = unmatched(pieces, place, &operands[..place], operands[place]) {
            return Some(fault);
        }
    }
    None
}

/// E313: a macro instruction gives a slot of the instruction that it emits nothing, or gives more than
/// there are slots. The place is that of the slot.
#[tactic(auto, using(crate::proofs::Walks::first_rules))]
pub fn first_ungiven(given: &[Given], slots: &[u16]) -> Option<MachineFault>
    ensures { result ≡ first (spec.ungiven given.now slots.now) }
{
    match slots.get(given.len()) {
        Some(operand) => Some(fault(given.len(), Said::Operand(*operand as usize))),
        None if slots.len() < given.len() => Some(fault(slots.len(), Said::Nothing)),
        None => None,
    }
}

/// Whether a slot of a macro instruction is given.
fn is_giving(slot: usize, given: Given) -> bool
    ensures { result ≡ spec.is_giving slot given }
{
    match given {
        Given::Number(_) => false,
        Given::Slot(k) => k as usize == slot,
    }
}

/// Whether a slot of a macro instruction is given to some slot.
#[tactic(auto, using(crate::proofs::Walks::first_rules))]
fn is_given(slot: usize, given: &[Given]) -> bool
    ensures { result ≡ spec.is_given slot given.now }
{
    for each in given {
        if is_giving(slot, *each) {
            return true;
        }
    }
    false
}

/// The fault of one slot of a macro instruction, at its place.
fn unused(given: &[Given], place: usize, operand: u16) -> Option<MachineFault>
    ensures { result ≡ first (spec.unused_at given.now place operand) }
{
    if is_given(place, given) {
        return None;
    }
    Some(fault(place, Said::Operand(operand as usize)))
}

/// E313: a macro instruction gives one of its slots to none. The place is that of the slot.
#[tactic(auto, using(crate::proofs::Walks::first_rules))]
pub fn first_unused(given: &[Given], operands: &[u16]) -> Option<MachineFault>
    ensures { result ≡ first (spec.unused given.now operands.now) }
{
    for place in 0..operands.len() {
        if let Some(fault) = unused(given, place, operands[place]) {
            return Some(fault);
        }
    }
    None
}
