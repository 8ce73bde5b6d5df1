ghost use Rattle.std.specs.Prelude.{◌≡◌};
ghost use Rattle.cg_base.specs.Refusing.{first};
ghost use Rattle.cg_base.specs.Characters.{is_in_word, is_in_sum};
ghost use Rattle.cg_model_faults.specs.E312 as spec;

use cg_base::{is_in_sum, is_in_word, refusals};
use cg_model::{Machine, Operand, Piece};
use cg_model_faults::{MachineFault, Said};

/// Whether the hardware of an operand has words.
fn has_words(machine: &Machine, operand: &Operand) -> bool
    ensures { result ≡ spec.has_words machine.now operand.now }
{
    match machine.hardware.get(operand.hardware as usize) {
        Some(hardware) => hardware.keyword.is_some(),
        None => false,
    }
}

/// Whether the text of an operand may have a character.
fn may_have(machine: &Machine, operand: &Operand, byte: u8) -> bool
    ensures { result ≡ spec.may_have machine.now operand.now byte }
{
    if has_words(machine, operand) {
        return is_in_word(byte);
    }
    is_in_sum(byte)
}

/// Whether pieces go on with a slot, or with a character that the text of an operand may have.
#[tactic(auto, using(crate::proofs::Walks::first_rules))]
fn goes_on(machine: &Machine, operand: &Operand, behind: &[Piece]) -> bool
    ensures { result ≡ spec.goes_on (spec.may_have machine.now operand.now) behind.now }
{
    for piece in behind {
        match piece {
            Piece::Slot(_) => return true,
            Piece::Literal(text) => {
                if let Some(byte) = text.as_slice().first() {
                    return may_have(machine, operand, *byte);
                }
            }
        }
    }
    false
}

/// The fault of a slot of an operand, at its place.
fn undelimited_at(
    machine: &Machine,
    place: usize,
    operand: u16,
    behind: &[Piece],
) -> Option<MachineFault>
    ensures { result ≡ first (spec.undelimited_at machine.now place operand behind.now) }
{
    let k = operand as usize;
    if !goes_on(machine, machine.operands.get(k)?, behind) {
        return None;
    }
    Some(MachineFault {
        number: refusals::UNDELIMITED_SLOT,
        place,
        text: Said::Own,
        other: Said::Operand(k),
    })
}

/// The fault of one piece, at its place in front of others.
fn undelimited(
    machine: &Machine,
    operands: &[u16],
    place: usize,
    piece: &Piece,
    behind: &[Piece],
) -> Option<MachineFault>
    ensures { result ≡ first (spec.undelimited_piece machine.now operands.now place piece.now behind.now) }
{
    let Piece::Slot(slot) = piece else {
        return None;
    };
    undelimited_at(machine, place, *operands.get(*slot as usize)?, behind)
}

/// E312: a slot stands neither at the end of its syntax nor in front of a character that its text can't
/// have. The slots are numbered by their operands. The place is that of the piece.
#[tactic(auto, using(crate::proofs::Walks::first_rules))]
pub fn first_undelimited(
    machine: &Machine,
    operands: &[u16],
    pieces: &[Piece],
) -> Option<MachineFault>
    ensures { result ≡ first (spec.undelimited machine.now operands.now pieces.now) }
{
    for place in 0..pieces.len() {
        let behind = &pieces[place + 1..];
        if let Some(fault) = undelimited(machine, operands, place, &pieces[place], behind) {
            return Some(fault);
        }
    }
    None
}
