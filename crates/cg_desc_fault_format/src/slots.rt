//! E313.

ghost use Rattle.std.specs.Prelude.{◌≡◌, ◌++◌, [], map, IfOk, OnOk};
ghost use Rattle.std.specs.List.{filter_map, flat_map};
ghost use Rattle.cg_attrs.specs.Clauses.{seen_clause};
ghost use Rattle.cg_base.specs.Refusing.{first};
ghost use Rattle.cg_desc_scope.specs.Seen.{seen_described};
ghost use Rattle.cg_desc_fault_format.specs.E313 as spec;
ghost use Rattle.cg_desc_fault_report.specs.Subject.{described_in, element_in, form_in, insns_in};
ghost use Rattle.cg_desc_machine.specs.Instructions.{slot_of};

use crate::emitted::first_in_macro;
use cg_attrs::Clause;
use cg_base::{List, NoMemory, Text};
use cg_desc_choices::{NamedPart, Spot, Written, WrittenPart, WrittenPiece};
use cg_desc_elements::Element;
use cg_desc_fault_report::{Placed, Saying, Subject, earliest_said, put_at_spot, texts_said};
use cg_desc_machine::{is_among, slot_names};
use cg_desc_references::clauses_of;
use cg_desc_scope::Described;
use cg_insn::{InsnForm, NamedPiece};
use std::alloc::Global;

/// A test of a syntax's slots.
pub(crate) trait SlotTest {
    ghost use Rattle.std.specs.Prelude.{ℕ, List, Bool};

    /// The names of the slots that fail it.
    ghost failing: { Self → List ℕ → Bool };

    /// Whether a slot of this name fails it.
    fn fails(&self, name: &Text) -> bool
        ensures { result ≡ failing self.now name.now };
}

/// The test that a slot is one of a format's.
#[derive(Drop)]
struct Lacking<'a> {
    slots: &'a [Text],
}

impl SlotTest for Lacking<'_> {
    ghost failing = { λ t. spec.is_lacking t.slots.now };

    fn fails(&self, name: &Text) -> bool {
        !is_among(self.slots, name)
    }
}

/// Puts a slot at the end, which stands there, where it is among those before it or fails a test.
fn put_slot<T: SlotTest>(
    alloc: Global,
    list: &mut List<Placed>,
    test: &T,
    own: &[u8],
    before: &[Text],
    piece: &WrittenPiece,
    name: &Text,
) -> Result<(), NoMemory>
    ensures { OnOk result (list.new ≡ list.old ++ spec.piece_at (T.failing test.now) own.now before.now piece.now name.now) }
{
    if is_among(before, name) || test.fails(name) {
        put_at_spot(
            alloc,
            list,
            piece.spot,
            texts_said(alloc, own, name.as_slice())?,
        )
    } else {
        Ok(())
    }
}

/// Puts those slots of a syntax at the end that stand again or fail a test, of an element of this name.
pub(crate) fn put_pieces<T: SlotTest>(
    alloc: Global,
    list: &mut List<Placed>,
    test: &T,
    own: &[u8],
    pieces: &[WrittenPiece],
) -> Result<(), NoMemory>
    ensures { OnOk result (list.new ≡ list.old ++ spec.pieces_behind (T.failing test.now) own.now [] pieces.now) }
{
    let mut before: List<Text> = List::new(alloc);
    for piece in pieces {
        if let NamedPiece::Slot(name) = &piece.piece {
            put_slot(alloc, list, test, own, before.as_slice(), piece, name)?;
            before.push(name.clone()?)?;
        }
    }
    Ok(())
}

/// Puts those slots of an instruction's syntax at the end that stand again, or that its format lacks.
fn put_in_syntax(
    alloc: Global,
    list: &mut List<Placed>,
    described: &Described,
    written: &Written,
) -> Result<(), NoMemory>
    ensures { OnOk result (list.new ≡ list.old ++ spec.in_syntax (seen_described described.now) written.now) }
{
    let slots = slot_names(alloc, described, written)?;
    let test = Lacking {
        slots: slots.as_slice(),
    };
    put_pieces(
        alloc,
        list,
        &test,
        written.name.as_slice(),
        written.pieces.as_slice(),
    )
}

/// The slots of a syntax, as often as they stand.
fn written_slots(alloc: Global, pieces: &[WrittenPiece]) -> Result<List<Text>, NoMemory>
    ensures { IfOk result (λ list. list ≡ filter_map slot_of pieces.now) }
{
    let mut list = List::new(alloc);
    for piece in pieces {
        if let NamedPiece::Slot(name) = &piece.piece {
            list.push(name.clone()?)?;
        }
    }
    Ok(list)
}

/// Puts a slot of a format at the end, where it is among those before it or the syntax lacks it.
fn put_part(
    alloc: Global,
    list: &mut List<Placed>,
    own: &[u8],
    written: &[Text],
    before: &[Text],
    spot: Spot,
    name: &Text,
) -> Result<(), NoMemory>
    ensures { OnOk result (list.new ≡ list.old ++ spec.slot_at own.now written.now before.now spot name.now) }
{
    if is_among(before, name) || !is_among(written, name) {
        put_at_spot(alloc, list, spot, texts_said(alloc, own, name.as_slice())?)
    } else {
        Ok(())
    }
}

/// Puts those slots of a format at the end that stand again, or that are none of these of the syntax.
fn put_parts(
    alloc: Global,
    list: &mut List<Placed>,
    own: &[u8],
    written: &[Text],
    parts: &[WrittenPart],
) -> Result<(), NoMemory>
    ensures { OnOk result (list.new ≡ list.old ++ spec.parts_behind own.now written.now [] parts.now) }
{
    let mut before: List<Text> = List::new(alloc);
    for part in parts {
        if let NamedPart::Slot(name) = &part.part {
            put_part(
                alloc,
                list,
                own,
                written,
                before.as_slice(),
                part.spot,
                name,
            )?;
            before.push(name.clone()?)?;
        }
    }
    Ok(())
}

/// Puts those slots of an instruction's format at the end that stand again, or that its syntax lacks.
fn put_in_format(alloc: Global, list: &mut List<Placed>, written: &Written) -> Result<(), NoMemory>
    ensures { OnOk result (list.new ≡ list.old ++ spec.in_format written.now) }
{
    let slots = written_slots(alloc, written.pieces.as_slice())?;
    let own = written.name.as_slice();
    put_parts(alloc, list, own, slots.as_slice(), written.parts.as_slice())
}

/// The same of the syntaxes of all of a form's instructions.
fn put_syntaxes(alloc: Global, list: &mut List<Placed>, of: &Subject) -> Result<(), NoMemory>
    ensures { OnOk result (list.new ≡ list.old ++ flat_map (spec.in_syntax (described_in of.now)) (insns_in of.now)) }
{
    for written in of.insns {
        put_in_syntax(alloc, list, of.described, written)?;
    }
    Ok(())
}

/// The same of their formats.
fn put_formats(alloc: Global, list: &mut List<Placed>, of: &Subject) -> Result<(), NoMemory>
    ensures { OnOk result (list.new ≡ list.old ++ flat_map spec.in_format (insns_in of.now)) }
{
    for written in of.insns {
        put_in_format(alloc, list, written)?;
    }
    Ok(())
}

/// What is said of the syntaxes of a form's instructions.
fn first_in_syntaxes(alloc: Global, of: &Subject) -> Result<Option<Saying>, NoMemory>
    ensures { IfOk result (λ said. said ≡ first (spec.of_syntaxes (described_in of.now) (insns_in of.now))) }
{
    let mut list = List::new(alloc);
    put_syntaxes(alloc, &mut list, of)?;
    earliest_said(&list)
}

/// What is said of their formats.
fn first_in_formats(alloc: Global, of: &Subject) -> Result<Option<Saying>, NoMemory>
    ensures { IfOk result (λ said. said ≡ first (spec.of_formats (insns_in of.now))) }
{
    let mut list = List::new(alloc);
    put_formats(alloc, &mut list, of)?;
    earliest_said(&list)
}

/// What is said of the clause of this name of an instruction.
fn first_of_insn(alloc: Global, of: &Subject, name: &[u8]) -> Result<Option<Saying>, NoMemory>
    ensures { IfOk result (λ said. said ≡ first (spec.of_insn (described_in of.now) (insns_in of.now) name.now)) }
{
    match name {
        b"syntax" => first_in_syntaxes(alloc, of),
        b"format" => first_in_formats(alloc, of),
        _ => Ok(None),
    }
}

/// What is said of a clause.
fn first_in_clause(
    alloc: Global,
    of: &Subject,
    clause: Clause<'_>,
) -> Result<Option<Saying>, NoMemory>
    ensures { IfOk result (λ said. said ≡ first (spec.in_clause (described_in of.now) (element_in of.now) (insns_in of.now) (seen_clause clause.entry))) }
{
    match of.element {
        Element::Insn(InsnForm::Instruction(_)) => first_of_insn(alloc, of, clause.name),
        Element::Insn(InsnForm::Macro(form)) => {
            first_in_macro(alloc, of.described, form, clause.name)
        }
        _ => Ok(None),
    }
}

/// What is said of the first of some clauses of which anything is said.
#[tactic(auto, using(cg_desc_fault_report::proofs::Firsts::first_rules))]
fn first_in_clauses(
    alloc: Global,
    of: &Subject,
    clauses: &[Clause<'_>],
) -> Result<Option<Saying>, NoMemory>
    ensures { IfOk result (λ said. said ≡ first (flat_map (spec.in_clause (described_in of.now) (element_in of.now) (insns_in of.now)) (map seen_clause clauses.now))) }
{
    for clause in clauses {
        if let Some(said) = first_in_clause(alloc, of, *clause)? {
            return Ok(Some(said));
        }
    }
    Ok(None)
}

/// What is said of the first E313 of a form: the slots of syntax and format, or of what a macro instruction
/// emits, differ, or a slot stands twice. Of a clause of an instruction it is the earliest. None exactly
/// where there is none (docs/REFUSALS.md).
pub fn first_unmatched(alloc: Global, of: &Subject) -> Result<Option<Saying>, NoMemory>
    ensures { IfOk result (λ said. said ≡ first (spec.e313 (described_in of.now) (element_in of.now) (form_in of.now) (insns_in of.now))) }
{
    let clauses = clauses_of(alloc, of.element.kind(), &of.top.form)?;
    first_in_clauses(alloc, of, &clauses)
}
