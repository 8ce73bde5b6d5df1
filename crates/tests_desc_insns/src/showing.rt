//! Instructions as they are written, shown.

use cg_base::{Form, NoMemory, Text, decimal};
use cg_desc_choices::{NamedPart, Spot, Written, WrittenPart, WrittenPiece};
use cg_insn::NamedPiece;
use cg_sexp::print;
use std::alloc::Global;

/// Puts a number at the end.
fn put_number(alloc: Global, number: i128, printed: &mut Text) -> Result<(), NoMemory> {
    printed.append(decimal(alloc, number)?.as_slice())
}

/// Puts `@ITEM.INNER` at the end.
fn put_spot(alloc: Global, spot: Spot, printed: &mut Text) -> Result<(), NoMemory> {
    printed.append(b"@")?;
    put_number(alloc, spot.item as i128, printed)?;
    printed.append(b".")?;
    put_number(alloc, spot.inner as i128, printed)
}

/// Puts a piece at the end: a literal as it is between bars, a slot by its name.
fn put_piece(alloc: Global, piece: &WrittenPiece, printed: &mut Text) -> Result<(), NoMemory> {
    match &piece.piece {
        NamedPiece::Literal(text) => {
            printed.append(b" |")?;
            printed.append(text.as_slice())?;
            printed.append(b"|")?;
        }
        NamedPiece::Slot(name) => {
            printed.append(b" $")?;
            printed.append(name.as_slice())?;
        }
    }
    put_spot(alloc, piece.spot, printed)
}

/// Puts a part at the end.
fn put_part(alloc: Global, part: &WrittenPart, printed: &mut Text) -> Result<(), NoMemory> {
    match &part.part {
        NamedPart::Constant(field, value) => {
            printed.append(b" (")?;
            printed.append(field.as_slice())?;
            printed.append(b" ")?;
            put_number(alloc, i128::from(*value), printed)?;
            printed.append(b")")?;
        }
        NamedPart::Slot(name) => {
            printed.append(b" ")?;
            printed.append(name.as_slice())?;
        }
    }
    put_spot(alloc, part.spot, printed)
}

/// Puts a form behind a blank at the end.
fn put_form(alloc: Global, form: &Form, printed: &mut Text) -> Result<(), NoMemory> {
    printed.append(b" ")?;
    printed.append(print(alloc, form)?.as_slice())
}

/// Puts the pieces and the parts of an instruction at the end.
fn put_shape(alloc: Global, written: &Written, printed: &mut Text) -> Result<(), NoMemory> {
    for piece in written.pieces.as_slice() {
        put_piece(alloc, piece, printed)?;
    }
    printed.append(b" ;")?;
    for part in written.parts.as_slice() {
        put_part(alloc, part, printed)?;
    }
    printed.append(b" ;")
}

/// Puts the assertions of an instruction at the end: its own, then those of its choices with their spots.
fn put_assertions(alloc: Global, written: &Written, printed: &mut Text) -> Result<(), NoMemory> {
    if let Some(assertion) = &written.assertion {
        put_form(alloc, assertion, printed)?;
    }
    for assertion in written.choice_assertions.as_slice() {
        put_form(alloc, &assertion.form, printed)?;
        put_spot(alloc, assertion.spot, printed)?;
    }
    printed.append(b" ;")
}

/// Puts an instruction on a line at the end: the number of its form, its name, its pieces, its parts, its
/// assertions and its semantics.
pub fn put_written(alloc: Global, written: &Written, printed: &mut Text) -> Result<(), NoMemory> {
    printed.append(b"  ")?;
    put_number(alloc, written.form as i128, printed)?;
    printed.append(b" ")?;
    printed.append(written.name.as_slice())?;
    put_shape(alloc, written, printed)?;
    put_assertions(alloc, written, printed)?;
    put_form(alloc, &written.semantics, printed)?;
    printed.append(b"\n")
}
