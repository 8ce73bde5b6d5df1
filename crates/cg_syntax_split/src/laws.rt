ghost use Rattle.cg_syntax_split.specs.Laws.{SplitLaws};

use cg_model::{Machine, Piece};

/// Laws of the definitions (docs/ASSEMBLY.md, "Statements"): where each slot of a syntax stands at its
/// end or in front of a character that the slot's text can't have, a text has one split by the syntax at
/// most. It is the one in which each slot holds all characters from there on that it may have; and what
/// is found so is always a split. The slots are numbered by their operands.
#[tactic(auto, using(crate::proofs::OneSplit::split_laws))]
pub fn texts_split_once(machine: &Machine, operands: &[u16], pieces: &[Piece])
    ensures { SplitLaws machine.now operands.now pieces.now }
{}
