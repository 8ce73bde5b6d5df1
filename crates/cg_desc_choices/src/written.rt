//! Instructions and choices as they are written.

use cg_base::{Form, List, Text};
use cg_insn::NamedPiece;

/// Where a piece of a syntax or a part of a format stands in the form of its instruction. What is left out
/// of a clause is counted too.
#[derive(Debug, Clone, Copy, PartialEq, Eq)]
pub struct Spot {
    /// Its place in the instruction's own clause, counted from 0; of what a choice puts in, that of the
    /// anyof operand.
    pub item: usize,
    /// Its place in the clause of the choice that puts it in, counted from 0; 0 of all else.
    pub inner: usize,
}

/// A piece of a syntax, with its spot.
#[derive(Debug, Drop)]
pub struct WrittenPiece {
    /// The piece.
    pub piece: NamedPiece,
    /// Where it stands. Of literals that meet it is that of the first.
    pub spot: Spot,
}

/// A part of a format or an encoding (docs/LANGUAGE.md, "Instructions").
#[derive(Debug, Drop, Clone, PartialEq, Eq)]
pub enum NamedPart {
    /// The name of a plain field, and its value.
    Constant(Text, i64),
    /// The name of an operand, or of a field that stands for an operand of its name.
    Slot(Text),
}

/// A part of a format or an encoding, with its spot.
#[derive(Debug, Drop)]
pub struct WrittenPart {
    /// The part.
    pub part: NamedPart,
    /// Where it stands.
    pub spot: Spot,
}

/// An assertion that a choice puts in, with its spot.
#[derive(Debug, Drop)]
pub struct WrittenAssertion {
    /// One expression.
    pub form: Form,
    /// Where the choice's operand first stands in the format.
    pub spot: Spot,
}

/// An instruction as it is written: with the names of fields and operands, and not their numbers.
#[derive(Debug, Drop)]
pub struct Written {
    /// The number of its form, counted from 1.
    pub form: usize,
    /// Its name.
    pub name: Text,
    /// The pieces of its syntax.
    pub pieces: List<WrittenPiece>,
    /// The parts of its format.
    pub parts: List<WrittenPart>,
    /// Its own assertion, if it has one: one expression.
    pub assertion: Option<Form>,
    /// The assertions of its choices, in the order of the operands in the format. All assertions have to
    /// hold.
    pub choice_assertions: List<WrittenAssertion>,
    /// What it does: one expression.
    pub semantics: Form,
}

/// What a choice puts in the place of an anyof operand. A plain operand stands for itself.
#[derive(Debug, Drop)]
pub struct Choice {
    /// Its name.
    pub name: Text,
    /// The pieces of its syntax, each with its place there.
    pub pieces: List<WrittenPiece>,
    /// The parts of its encoding, each with its place there.
    pub parts: List<WrittenPart>,
    /// Its assertion.
    pub assertion: Option<Form>,
    /// What is read where the operand stands.
    pub getter: Form,
    /// What is done where it is set; None for a plain operand.
    pub setter: Option<Form>,
}

/// An anyof operand with the choices that it has.
#[derive(Debug, Drop)]
pub struct Anyof {
    /// Its name.
    pub operand: Text,
    /// What it may be, in order.
    pub choices: List<Choice>,
}

/// The choice that is made for an anyof operand.
#[derive(Clone, Copy)]
pub struct Chosen<'a> {
    /// The anyof operand's name.
    pub operand: &'a Text,
    /// Its choice.
    pub choice: &'a Choice,
}
