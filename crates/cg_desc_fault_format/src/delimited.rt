//! E312.

ghost use Rattle.std.specs.Prelude.{◌≡◌, ◌++◌, IfOk, OnOk};
ghost use Rattle.std.specs.List.{flat_map};
ghost use Rattle.cg_base.specs.Refusing.{first};
ghost use Rattle.cg_desc_fault_format.specs.E312 as spec;
ghost use Rattle.cg_desc_fault_report.specs.Spots.{is_kept, kept_spots};
ghost use Rattle.cg_desc_fault_report.specs.Subject.{described_in, machine_in, element_in, insns_in};
ghost use Rattle.cg_desc_machine.specs.Macros.{macro_in};

use cg_base::{List, NoMemory, Text};
use cg_desc_check_format::first_undelimited as undelimited;
use cg_desc_choices::{Spot, Written, WrittenPiece};
use cg_desc_elements::Element;
use cg_desc_fault_report::{Placed, Saying, Subject, earliest_said, put_at_piece};
use cg_desc_insns::all_pieces;
use cg_desc_machine::{macro_slots, numbers_of, pieces_of, place_of, slot_names};
use cg_insn::{InsnForm, MacroForm, NamedPiece};
use std::alloc::Global;

/// Whether a machine keeps a piece of a syntax with these slots.
fn is_kept(slots: &[Text], piece: &WrittenPiece) -> bool
    ensures { result ≡ is_kept slots.now piece.now }
{
    match &piece.piece {
        NamedPiece::Literal(_) => true,
        NamedPiece::Slot(name) => place_of(slots, name).is_some(),
    }
}

/// The spots of the pieces that a machine keeps of a syntax with these slots.
fn kept_spots(
    alloc: Global,
    slots: &[Text],
    pieces: &[WrittenPiece],
) -> Result<List<Spot>, NoMemory>
    ensures { IfOk result (λ spots. spots ≡ kept_spots slots.now pieces.now) }
{
    let mut spots = List::new(alloc);
    for piece in pieces {
        if is_kept(slots, piece) {
            spots.push(piece.spot)?;
        }
    }
    Ok(spots)
}

/// Puts the first slot of a syntax at the end that isn't delimited, of an element of this name. The slots
/// of the syntax have these names.
fn put_of_syntax(
    alloc: Global,
    list: &mut List<Placed>,
    of: &Subject,
    own: &[u8],
    slots: &[Text],
    written: &[WrittenPiece],
) -> Result<(), NoMemory>
    ensures { OnOk result (list.new ≡ list.old ++ spec.of_syntax (described_in of.now) (machine_in of.now) own.now slots.now written.now) }
{
    let operands = numbers_of(alloc, &of.described.operand_numbers, slots)?;
    let pieces = pieces_of(alloc, slots, written)?;
    let spots = kept_spots(alloc, slots, written)?;
    let fault = undelimited(of.machine, operands.as_slice(), pieces.as_slice());
    put_at_piece(alloc, list, of.machine, own, spots.as_slice(), fault)
}

/// The same of an instruction.
fn put_of_written(
    alloc: Global,
    list: &mut List<Placed>,
    of: &Subject,
    written: &Written,
) -> Result<(), NoMemory>
    ensures { OnOk result (list.new ≡ list.old ++ spec.of_written (described_in of.now) (machine_in of.now) written.now) }
{
    let slots = slot_names(alloc, of.described, written)?;
    let own = written.name.as_slice();
    put_of_syntax(
        alloc,
        list,
        of,
        own,
        slots.as_slice(),
        written.pieces.as_slice(),
    )
}

/// The same of all of a form's instructions.
fn put_of_insns(alloc: Global, list: &mut List<Placed>, of: &Subject) -> Result<(), NoMemory>
    ensures { OnOk result (list.new ≡ list.old ++ flat_map (spec.of_written (described_in of.now) (machine_in of.now)) (insns_in of.now)) }
{
    for written in of.insns {
        put_of_written(alloc, list, of, written)?;
    }
    Ok(())
}

/// The same of a macro instruction.
fn put_of_macro_form(
    alloc: Global,
    list: &mut List<Placed>,
    of: &Subject,
    form: &MacroForm,
) -> Result<(), NoMemory>
    ensures { OnOk result (list.new ≡ list.old ++ spec.of_macro_form (described_in of.now) (machine_in of.now) form.now) }
{
    let slots = macro_slots(alloc, &of.described.operand_numbers, form)?;
    let pieces = all_pieces(alloc, &form.syntax)?;
    put_of_syntax(
        alloc,
        list,
        of,
        form.name.as_slice(),
        slots.as_slice(),
        pieces.as_slice(),
    )
}

/// The same of a form, where it is that of a macro instruction.
fn put_of_macro(alloc: Global, list: &mut List<Placed>, of: &Subject) -> Result<(), NoMemory>
    ensures { OnOk result (list.new ≡ list.old ++ spec.of_macro (described_in of.now) (machine_in of.now) (macro_in (element_in of.now))) }
{
    match of.element {
        Element::Insn(InsnForm::Macro(form)) => put_of_macro_form(alloc, list, of, form),
        _ => Ok(()),
    }
}

/// What is said of the earliest E312 of a form: a slot of a syntax isn't delimited. None exactly where
/// there is none, and where the cpu or the instruction set is lacking (docs/REFUSALS.md).
pub fn first_undelimited(alloc: Global, of: &Subject) -> Result<Option<Saying>, NoMemory>
    ensures { IfOk result (λ said. said ≡ first (spec.e312 (described_in of.now) (machine_in of.now) (element_in of.now) (insns_in of.now))) }
{
    if !of.described.framing.is_sized {
        return Ok(None);
    }
    let mut list = List::new(alloc);
    put_of_insns(alloc, &mut list, of)?;
    put_of_macro(alloc, &mut list, of)?;
    earliest_said(&list)
}
