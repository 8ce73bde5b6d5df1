//! Literals that meet.

ghost use Rattle.std.specs.Prelude.{◌≡◌, [], ◌++◌, OnOk, IfOk};
ghost use Rattle.cg_desc_choices.specs.Choices.{joined};
ghost use Rattle.cg_desc_choices.specs.Holding.{longer, behind_held};

use crate::written::{Spot, WrittenPiece};
use cg_base::{List, NoMemory, Text};
use cg_insn::NamedPiece;
use std::alloc::Global;

/// A literal that is held back until it is known what it meets.
#[derive(Drop)]
struct Held {
    text: Text,
    spot: Spot,
}

/// A literal behind one that may be held back.
fn longer(before: Option<Held>, spot: Spot, text: &Text) -> Result<Held, NoMemory>
    ensures { IfOk result (λ new. new ≡ longer before spot text.now) }
{
    match before {
        Some(held) => {
            let Held {
                text: mut whole,
                spot,
            } = held;
            whole.append(text.as_slice())?;
            Ok(Held { text: whole, spot })
        }
        None => Ok(Held {
            text: text.clone()?,
            spot,
        }),
    }
}

/// Puts a literal that is held back at the end, if there is one.
fn put_held(list: &mut List<WrittenPiece>, held: Option<Held>) -> Result<(), NoMemory>
    ensures { OnOk result (list.new ≡ list.old ++ behind_held held []) }
{
    match held {
        Some(held) => list.push(WrittenPiece {
            piece: NamedPiece::Literal(held.text),
            spot: held.spot,
        }),
        None => Ok(()),
    }
}

/// A piece in memory of its own.
pub(crate) fn copy(piece: &WrittenPiece) -> Result<WrittenPiece, NoMemory>
    ensures { IfOk result (λ new. new ≡ piece.now) }
{
    Ok(WrittenPiece {
        piece: piece.piece.clone()?,
        spot: piece.spot,
    })
}

/// The pieces, where literals that meet are one.
#[tactic(auto, using(crate::proofs::Meeting::meeting_rules))]
pub(crate) fn joined(alloc: Global, pieces: &[WrittenPiece]) -> Result<List<WrittenPiece>, NoMemory>
    ensures { IfOk result (λ list. list ≡ joined pieces.now) }
{
    let mut list = List::new(alloc);
    let mut before = None;
    for piece in pieces {
        before = match &piece.piece {
            NamedPiece::Literal(text) => Some(longer(before, piece.spot, text)?),
            NamedPiece::Slot(_) => {
                put_held(&mut list, before)?;
                list.push(copy(piece)?)?;
                None
            }
        };
    }
    put_held(&mut list, before)?;
    Ok(list)
}
