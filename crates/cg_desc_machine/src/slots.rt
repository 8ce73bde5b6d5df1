//! The slots of instructions.

ghost use Rattle.std.specs.Prelude.{◌≡◌, ◌++◌, filter, slice_get, IfOk, OnOk};
ghost use Rattle.std.specs.Option.{option_copied};
ghost use Rattle.std.specs.List.{filter_map};
ghost use Rattle.cg_base.specs.Texts.{is_among};
ghost use Rattle.cg_model_faults.specs.E306.{lies_in_fields};
ghost use Rattle.cg_desc_insns.specs.Choices.{slot_name};
ghost use Rattle.cg_rtl_resolve.specs.Names.{place_of};
ghost use Rattle.cg_desc_data.specs.Seen.{seen_numbering};
ghost use Rattle.cg_desc_scope.specs.Seen.{seen_described};
ghost use Rattle.cg_desc_machine.specs.Instructions as spec;

use cg_base::{List, NoMemory, Text};
use cg_desc_choices::{NamedPart, Written, WrittenPart, WrittenPiece};
use cg_desc_data::Numbering;
use cg_desc_scope::{Described, append, distinct};
use cg_insn::NamedPiece;
use cg_model::{Operand, Source};
use std::alloc::Global;

/// Whether a text is one of these.
pub fn is_among(texts: &[Text], text: &Text) -> bool
    ensures { result ≡ is_among texts.now text.now }
{
    texts.iter().any(|each| each == text)
}

/// Whether an operand has a field or a multi field.
fn lies_in_fields(operand: Option<&Operand>) -> bool
    ensures { result ≡ lies_in_fields (option_copied operand.entry) }
{
    match operand {
        Some(operand) => matches!(operand.source, Source::Field(_) | Source::Multi(_)),
        None => false,
    }
}

/// Whether an operand of this name has no field.
fn has_no_field(numbers: &Numbering, operands: &[Operand], name: &Text) -> bool
    ensures { result ≡ spec.has_no_field (seen_numbering numbers.now) operands.now name.now }
{
    match numbers.get(name) {
        Some(number) => !lies_in_fields(operands.get(number as usize)),
        None => false,
    }
}

/// Whether a name is that of a slot among parts.
fn is_slot(parts: &[WrittenPart], name: &Text) -> bool
    ensures { result ≡ is_among (filter_map slot_name parts.now) name.now }
{
    for part in parts {
        if let NamedPart::Slot(slot) = &part.part {
            if slot == name {
                return true;
            }
        }
    }
    false
}

/// Whether a slot of the syntax is one of the format behind those among these parts.
fn is_behind(numbers: &Numbering, operands: &[Operand], parts: &[WrittenPart], name: &Text) -> bool
    ensures { result ≡ spec.is_behind (seen_numbering numbers.now) operands.now (filter_map slot_name parts.now) name.now }
{
    !is_slot(parts, name) && has_no_field(numbers, operands, name)
}

/// The names of the slots among parts.
fn format_slots(alloc: Global, written: &Written) -> Result<List<Text>, NoMemory>
    ensures { IfOk result (λ list. list ≡ spec.format_slots written.now) }
{
    let mut list = List::new(alloc);
    for part in written.parts.as_slice() {
        if let NamedPart::Slot(name) = &part.part {
            list.push(name.clone()?)?;
        }
    }
    Ok(list)
}

/// The names of the slots of a syntax that go behind those of the format, as often as they stand.
fn all_behind(
    alloc: Global,
    numbers: &Numbering,
    operands: &[Operand],
    parts: &[WrittenPart],
    pieces: &[WrittenPiece],
) -> Result<List<Text>, NoMemory>
    ensures { IfOk result (λ list. list ≡ filter (spec.is_behind (seen_numbering numbers.now) operands.now (filter_map slot_name parts.now)) (filter_map spec.slot_of pieces.now)) }
{
    let mut list = List::new(alloc);
    for piece in pieces {
        if let NamedPiece::Slot(name) = &piece.piece {
            if is_behind(numbers, operands, parts, name) {
                list.push(name.clone()?)?;
            }
        }
    }
    Ok(list)
}

/// The names of the slots that go behind those of the format.
pub(crate) fn slots_behind(
    alloc: Global,
    described: &Described,
    written: &Written,
) -> Result<List<Text>, NoMemory>
    ensures { IfOk result (λ list. list ≡ spec.behind_format (seen_described described.now) written.now) }
{
    let all = all_behind(
        alloc,
        &described.operand_numbers,
        described.operands.as_slice(),
        written.parts.as_slice(),
        written.pieces.as_slice(),
    )?;
    distinct(alloc, all.as_slice())
}

/// The names of an instruction's slots, in the order of its format: an operand of the syntax that has no
/// field and isn't in the format goes behind the others (docs/LANGUAGE.md, "Instructions").
pub fn slot_names(
    alloc: Global,
    described: &Described,
    written: &Written,
) -> Result<List<Text>, NoMemory>
    ensures { IfOk result (λ list. list ≡ spec.slot_names (seen_described described.now) written.now) }
{
    let mut slots = format_slots(alloc, written)?;
    let behind = slots_behind(alloc, described, written)?;
    append(&mut slots, behind.as_slice())?;
    Ok(slots)
}

/// The first place of a name, from 0. None exactly where it isn't there.
#[tactic(auto, using(crate::proofs::Places::place_rules))]
pub fn place_of(names: &[Text], name: &Text) -> Option<usize>
    ensures { result ≡ place_of name.now names.now }
{
    for (place, each) in names.iter().enumerate() {
        if each == name {
            return Some(place);
        }
    }
    None
}

/// The number of a slot: its first place, and 255 where that is above.
pub(crate) fn slot_number(slots: &[Text], name: &Text) -> Option<u8>
    ensures { result ≡ spec.slot_number slots.now name.now }
{
    match place_of(slots, name) {
        Some(place) => Some(if place < 255 { place as u8 } else { 255 }),
        None => None,
    }
}
