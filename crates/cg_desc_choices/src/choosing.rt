//! An instruction whose anyof operands are replaced by choices.

ghost use Rattle.std.specs.Prelude.{◌≡◌, ◌++◌, map, OnOk, IfOk};
ghost use Rattle.std.specs.Option.{option_copied, option_map};
ghost use Rattle.cg_desc_choices.specs.Putting as spec;
ghost use Rattle.cg_desc_choices.specs.Choices.{seen_chosen, choice_for, within_spot, piece_within, part_within, choice_of_piece, choice_of_part, pieces_for, parts_for, parts_with, stand, read_only, own_assertion, is_slot_of, spot_of, assertions_of, behind_dash, name_with, pieces_with, with_choices};

use crate::joining::{copy, joined};
use crate::putting::put;
use crate::stand::{Stand, owned};
use crate::written::{
    Choice, Chosen, NamedPart, Spot, Written, WrittenAssertion, WrittenPart, WrittenPiece,
};
use cg_base::{Form, List, NoMemory, Text};
use cg_insn::NamedPiece;
use std::alloc::Global;

/// The choice for an operand, where one is made.
fn choice_for<'a>(name: &Text, chosen: &[Chosen<'a>]) -> Option<&'a Choice>
    ensures { option_copied result ≡ choice_for name.now (map seen_chosen chosen.now) }
{
    for each in chosen {
        if each.operand == name {
            return Some(each.choice);
        }
    }
    None
}

/// The place of what a choice puts in.
fn within_spot(operand: Spot, own: Spot) -> Spot
    ensures { result ≡ within_spot operand own }
{
    Spot {
        item: operand.item,
        inner: own.item,
    }
}

/// Puts the pieces of a choice at the end.
fn put_pieces(
    list: &mut List<WrittenPiece>,
    operand: Spot,
    pieces: &[WrittenPiece],
) -> Result<(), NoMemory>
    ensures { OnOk result (list.new ≡ list.old ++ map (piece_within operand) pieces.now) }
{
    for piece in pieces {
        list.push(WrittenPiece {
            piece: piece.piece.clone()?,
            spot: within_spot(operand, piece.spot),
        })?;
    }
    Ok(())
}

/// The choice for the operand that a piece is.
fn choice_of_piece<'a>(piece: &NamedPiece, chosen: &[Chosen<'a>]) -> Option<&'a Choice>
    ensures { option_copied result ≡ choice_of_piece (map seen_chosen chosen.now) piece.now }
{
    match piece {
        NamedPiece::Slot(name) => choice_for(name, chosen),
        NamedPiece::Literal(_) => None,
    }
}

/// Puts a piece at the end, or the pieces of the choice for its operand.
fn put_piece(
    list: &mut List<WrittenPiece>,
    chosen: &[Chosen<'_>],
    piece: &WrittenPiece,
) -> Result<(), NoMemory>
    ensures { OnOk result (list.new ≡ list.old ++ pieces_for (map seen_chosen chosen.now) piece.now) }
{
    match choice_of_piece(&piece.piece, chosen) {
        Some(choice) => put_pieces(list, piece.spot, choice.pieces.as_slice()),
        None => list.push(copy(piece)?),
    }
}

/// The pieces of a syntax with those of choices.
fn pieces_with(
    alloc: Global,
    chosen: &[Chosen<'_>],
    pieces: &[WrittenPiece],
) -> Result<List<WrittenPiece>, NoMemory>
    ensures { IfOk result (λ list. list ≡ pieces_with (map seen_chosen chosen.now) pieces.now) }
{
    let mut list = List::new(alloc);
    for piece in pieces {
        put_piece(&mut list, chosen, piece)?;
    }
    joined(alloc, list.as_slice())
}

/// Puts the parts of a choice at the end.
fn put_parts(
    list: &mut List<WrittenPart>,
    operand: Spot,
    parts: &[WrittenPart],
) -> Result<(), NoMemory>
    ensures { OnOk result (list.new ≡ list.old ++ map (part_within operand) parts.now) }
{
    for part in parts {
        list.push(WrittenPart {
            part: part.part.clone()?,
            spot: within_spot(operand, part.spot),
        })?;
    }
    Ok(())
}

/// The choice for the operand that a part is.
fn choice_of_part<'a>(part: &NamedPart, chosen: &[Chosen<'a>]) -> Option<&'a Choice>
    ensures { option_copied result ≡ choice_of_part (map seen_chosen chosen.now) part.now }
{
    match part {
        NamedPart::Slot(name) => choice_for(name, chosen),
        NamedPart::Constant(_, _) => None,
    }
}

/// Puts a part at the end, or the parts of the choice for its operand.
fn put_part(
    list: &mut List<WrittenPart>,
    chosen: &[Chosen<'_>],
    part: &WrittenPart,
) -> Result<(), NoMemory>
    ensures { OnOk result (list.new ≡ list.old ++ parts_for (map seen_chosen chosen.now) part.now) }
{
    match choice_of_part(&part.part, chosen) {
        Some(choice) => put_parts(list, part.spot, choice.parts.as_slice()),
        None => list.push(WrittenPart {
            part: part.part.clone()?,
            spot: part.spot,
        }),
    }
}

/// The parts of a format with those of choices.
fn parts_with(
    alloc: Global,
    chosen: &[Chosen<'_>],
    parts: &[WrittenPart],
) -> Result<List<WrittenPart>, NoMemory>
    ensures { IfOk result (λ list. list ≡ parts_with (map seen_chosen chosen.now) parts.now) }
{
    let mut list = List::new(alloc);
    for part in parts {
        put_part(&mut list, chosen, part)?;
    }
    Ok(list)
}

/// A name, and behind a `-` each the names of choices.
fn name_with(name: &Text, chosen: &[Chosen<'_>]) -> Result<Text, NoMemory>
    ensures { IfOk result (λ new. new ≡ name_with (map seen_chosen chosen.now) name.now) }
{
    let mut new = name.clone()?;
    for each in chosen {
        new.append(b"-")?;
        new.append(each.choice.name.as_slice())?;
    }
    Ok(new)
}

/// What stands for an operand in semantics.
fn stand_of(chosen: &Chosen<'_>) -> Result<Stand, NoMemory>
    ensures { IfOk result (λ new. new ≡ stand (seen_chosen chosen.now)) }
{
    Ok(Stand {
        name: chosen.operand.clone()?,
        getter: chosen.choice.getter.clone()?,
        setter: owned(chosen.choice.setter.as_ref())?,
    })
}

/// What stands for operands in semantics.
fn stands_of(alloc: Global, chosen: &[Chosen<'_>]) -> Result<List<Stand>, NoMemory>
    ensures { IfOk result (λ list. list ≡ map stand (map seen_chosen chosen.now)) }
{
    let mut list = List::new(alloc);
    for each in chosen {
        list.push(stand_of(each)?)?;
    }
    Ok(list)
}

/// What stands for an operand in an assertion.
fn read_only(chosen: &Chosen<'_>) -> Result<Stand, NoMemory>
    ensures { IfOk result (λ new. new ≡ read_only (seen_chosen chosen.now)) }
{
    Ok(Stand {
        name: chosen.operand.clone()?,
        getter: chosen.choice.getter.clone()?,
        setter: None,
    })
}

/// What stands for operands in an assertion.
fn all_read_only(alloc: Global, chosen: &[Chosen<'_>]) -> Result<List<Stand>, NoMemory>
    ensures { IfOk result (λ list. list ≡ map read_only (map seen_chosen chosen.now)) }
{
    let mut list = List::new(alloc);
    for each in chosen {
        list.push(read_only(each)?)?;
    }
    Ok(list)
}

/// The instruction's own assertion, with what is read for operands put in.
fn own_assertion(
    alloc: Global,
    chosen: &[Chosen<'_>],
    assertion: Option<&Form>,
) -> Result<Option<Form>, NoMemory>
    ensures { IfOk result (λ new. new ≡ option_map (own_assertion (map seen_chosen chosen.now)) (option_copied assertion.entry)) }
{
    match assertion {
        Some(assertion) => {
            let stands = all_read_only(alloc, chosen)?;
            Ok(Some(put(alloc, stands.as_slice(), assertion)?))
        }
        None => Ok(None),
    }
}

/// Whether a part is the operand of this name.
fn is_slot_of(part: &NamedPart, name: &Text) -> bool
    ensures { result ≡ is_slot_of name.now part.now }
{
    match part {
        NamedPart::Slot(slot) => slot == name,
        NamedPart::Constant(_, _) => false,
    }
}

/// Where an operand first stands in a format.
fn spot_of(parts: &[WrittenPart], name: &Text) -> Spot
    ensures { result ≡ spot_of name.now parts.now }
{
    for part in parts {
        if is_slot_of(&part.part, name) {
            return part.spot;
        }
    }
    Spot { item: 0, inner: 0 }
}

/// Puts the assertions of an instruction's choices at the end.
fn put_assertions(
    list: &mut List<WrittenAssertion>,
    assertions: &[WrittenAssertion],
) -> Result<(), NoMemory>
    ensures { OnOk result (list.new ≡ list.old ++ assertions.now) }
{
    for assertion in assertions {
        list.push(WrittenAssertion {
            form: assertion.form.clone()?,
            spot: assertion.spot,
        })?;
    }
    Ok(())
}

/// Puts the assertions of choices at the end.
fn put_chosen(
    list: &mut List<WrittenAssertion>,
    parts: &[WrittenPart],
    chosen: &[Chosen<'_>],
) -> Result<(), NoMemory>
    ensures { OnOk result (list.new ≡ list.old ++ assertions_of parts.now (map seen_chosen chosen.now)) }
{
    for each in chosen {
        if let Some(assertion) = &each.choice.assertion {
            list.push(WrittenAssertion {
                form: assertion.clone()?,
                spot: spot_of(parts, each.operand),
            })?;
        }
    }
    Ok(())
}

/// The assertions of choices, behind those that the instruction has already.
fn assertions_with(
    alloc: Global,
    chosen: &[Chosen<'_>],
    instruction: &Written,
) -> Result<List<WrittenAssertion>, NoMemory>
    ensures { IfOk result (λ list. list ≡ instruction.now.choice_assertions ++ assertions_of instruction.now.parts (map seen_chosen chosen.now)) }
{
    let mut list = List::new(alloc);
    put_assertions(&mut list, instruction.choice_assertions.as_slice())?;
    put_chosen(&mut list, instruction.parts.as_slice(), chosen)?;
    Ok(list)
}

/// Semantics with the getters and setters of choices.
fn semantics_with(alloc: Global, chosen: &[Chosen<'_>], semantics: &Form) -> Result<Form, NoMemory>
    ensures { IfOk result (λ new. new ≡ spec.put (map stand (map seen_chosen chosen.now)) semantics.now) }
{
    let stands = stands_of(alloc, chosen)?;
    put(alloc, stands.as_slice(), semantics)
}

/// The instruction with these choices, one for each anyof operand of its format, in their order
/// (docs/LANGUAGE.md, "Choices").
#[tactic(auto, unfolding(crate::specs::Choices::with_choices))]
pub fn with_choices(
    alloc: Global,
    chosen: &[Chosen<'_>],
    instruction: &Written,
) -> Result<Written, NoMemory>
    ensures { IfOk result (λ new. new ≡ with_choices (map seen_chosen chosen.now) instruction.now) }
{
    Ok(Written {
        form: instruction.form,
        name: name_with(&instruction.name, chosen)?,
        pieces: pieces_with(alloc, chosen, instruction.pieces.as_slice())?,
        parts: parts_with(alloc, chosen, instruction.parts.as_slice())?,
        assertion: own_assertion(alloc, chosen, instruction.assertion.as_ref())?,
        choice_assertions: assertions_with(alloc, chosen, instruction)?,
        semantics: semantics_with(alloc, chosen, &instruction.semantics)?,
    })
}
