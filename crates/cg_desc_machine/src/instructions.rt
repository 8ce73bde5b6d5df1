//! The instructions of a machine.

ghost use Rattle.std.specs.Prelude.{◌≡◌, [], ◌++◌, map, IfOk, OnOk};
ghost use Rattle.std.specs.Option.{option_copied};
ghost use Rattle.std.specs.List.{filter_map, list_any};
ghost use Rattle.cg_desc_choices.specs.Choices.{with_own, all_assertions, form_of as form_of_assertion};
ghost use Rattle.cg_rtl_resolve.specs.Names.{rtl_of};
ghost use Rattle.cg_rtl_resolve.specs.declared.scope.Rule.TheVariants as rule;
ghost use Rattle.cg_desc_data.specs.Seen.{seen, seen_numbering};
ghost use Rattle.cg_desc_scope.specs.Described.{scope_in};
ghost use Rattle.cg_desc_scope.specs.Seen.{seen_described};
ghost use Rattle.cg_desc_machine.specs.Instructions as spec;
ghost use Rattle.cg_desc_machine.specs.Seen.{base};

use crate::rules::set_rule;
use crate::slots::{slot_names, slot_number, slots_behind};
use cg_attrs::{Attr, AttrValue};
use cg_base::{Form, List, NoMemory, Text};
use cg_desc_choices::{NamedPart, Written, WrittenAssertion, WrittenPart, WrittenPiece};
use cg_desc_data::{Numbering, Selection, wrapped};
use cg_desc_elements::Element;
use cg_desc_scope::{Described, cycles_of};
use cg_insn::{InsnForm, InstructionForm, NamedPiece};
use cg_model::{Insn, Op, Part, Piece, Rtl};
use cg_rtl_resolve::{Rule, Scope, built};
use std::alloc::Global;

/// The number of a name, from 0 to 65,535, and 0 where it has none.
pub fn number_or_none(numbers: &Numbering, name: &Text) -> u16
    ensures { result ≡ spec.number_or_none (seen_numbering numbers.now) name.now }
{
    numbers.get(name).unwrap_or(0)
}

/// A part with numbers for its names.
fn part_of(described: &Described, part: &NamedPart) -> Part
    ensures { result ≡ spec.part_of (seen_described described.now) part.now }
{
    match part {
        NamedPart::Constant(field, value) => Part::Constant {
            field: number_or_none(&described.numbers.fields, field),
            value: wrapped(*value),
        },
        NamedPart::Slot(name) => slot_part(described, name),
    }
}

/// The part that is a slot of this name.
fn slot_part(described: &Described, name: &Text) -> Part
    ensures { result ≡ spec.slot_part (seen_described described.now) name.now }
{
    Part::Slot {
        operand: number_or_none(&described.operand_numbers, name),
    }
}

/// The parts of a format.
fn written_parts(
    alloc: Global,
    described: &Described,
    parts: &[WrittenPart],
) -> Result<List<Part>, NoMemory>
    ensures { IfOk result (λ list. list ≡ map (spec.part_in (seen_described described.now)) parts.now) }
{
    let mut list = List::new(alloc);
    for part in parts {
        list.push(part_of(described, &part.part))?;
    }
    Ok(list)
}

/// Puts slots of these names at the end.
fn put_slots(list: &mut List<Part>, described: &Described, names: &[Text]) -> Result<(), NoMemory>
    ensures { OnOk result (list.new ≡ list.old ++ map (spec.slot_part (seen_described described.now)) names.now) }
{
    for name in names {
        list.push(slot_part(described, name))?;
    }
    Ok(())
}

/// The parts of a format, with the slots that go behind them: numbers for names, 0 for a name that has none.
/// A constant is kept modulo 2^64 (docs/LANGUAGE.md, "Instructions").
pub fn parts_of(
    alloc: Global,
    described: &Described,
    written: &Written,
) -> Result<List<Part>, NoMemory>
    ensures { IfOk result (λ list. list ≡ spec.parts_of (seen_described described.now) written.now) }
{
    let mut list = written_parts(alloc, described, written.parts.as_slice())?;
    let behind = slots_behind(alloc, described, written)?;
    put_slots(&mut list, described, behind.as_slice())?;
    Ok(list)
}

/// A piece with a number for its slot. None where the slot isn't among these.
fn piece_of(slots: &[Text], piece: &NamedPiece) -> Result<Option<Piece>, NoMemory>
    ensures { IfOk result (λ new. new ≡ spec.piece_of slots.now piece.now) }
{
    match piece {
        NamedPiece::Literal(text) => Ok(Some(Piece::Literal(text.clone()?))),
        NamedPiece::Slot(name) => match slot_number(slots, name) {
            Some(number) => Ok(Some(Piece::Slot(number))),
            None => Ok(None),
        },
    }
}

/// The pieces of a syntax, with numbers for slots. A slot that isn't among these is left out
/// (docs/LANGUAGE.md, "Instructions").
pub fn pieces_of(
    alloc: Global,
    slots: &[Text],
    pieces: &[WrittenPiece],
) -> Result<List<Piece>, NoMemory>
    ensures { IfOk result (λ list. list ≡ spec.pieces_of slots.now pieces.now) }
{
    let mut list = List::new(alloc);
    for piece in pieces {
        if let Some(piece) = piece_of(slots, &piece.piece)? {
            list.push(piece)?;
        }
    }
    Ok(list)
}

/// What several assertions are together.
#[tactic(auto, using(crate::proofs::Joined::joined_few, crate::proofs::Joined::joined_many))]
fn joined_assertions(assertions: List<Rtl>) -> Option<Rtl>
    ensures { result ≡ spec.joined_assertions assertions }
{
    let mut items = assertions.into_vec();
    if items.len() < 2 {
        return items.pop();
    }
    Some(Rtl {
        op: Op::AndIf,
        mode: None,
        number: 0,
        items: List::from_vec(items),
    })
}

/// What an own assertion stands for, where there is one.
fn own_built(alloc: Global, scope: &Scope, form: Option<&Form>) -> Result<List<Rtl>, NoMemory>
    ensures { IfOk result (λ list. list ≡ map (rtl_of scope.now) (with_own (option_copied form.entry) [])) }
{
    let mut list = List::new(alloc);
    if let Some(form) = form {
        list.push(built(alloc, form, scope)?)?;
    }
    Ok(list)
}

/// Puts what the assertions of choices stand for behind others.
fn put_built(
    alloc: Global,
    list: &mut List<Rtl>,
    scope: &Scope,
    assertions: &[WrittenAssertion],
) -> Result<(), NoMemory>
    ensures { OnOk result (list.new ≡ list.old ++ map (rtl_of scope.now) (map form_of_assertion assertions.now)) }
{
    for assertion in assertions {
        list.push(built(alloc, &assertion.form, scope)?)?;
    }
    Ok(())
}

/// What the assertions of an instruction stand for together: its own, and those of its choices. None exactly
/// where it has none (docs/LANGUAGE.md, "Choices"). Of the scope only the rule changes, and its own mode.
pub fn assertion_of(
    alloc: Global,
    scope: &mut Scope,
    written: &Written,
) -> Result<Option<Rtl>, NoMemory>
    ensures value { IfOk result (λ rtl. rtl ≡ spec.assertion_of (base scope.old) (all_assertions written.now)) }
    ensures kept { base scope.new ≡ base scope.old }
{
    set_rule(scope, Rule::Assertion, None);
    let mut assertions = own_built(alloc, scope, written.assertion.as_ref())?;
    put_built(
        alloc,
        &mut assertions,
        scope,
        written.choice_assertions.as_slice(),
    )?;
    Ok(joined_assertions(assertions))
}

/// What an instruction does. Of the scope only the rule changes, and its own mode.
pub fn semantics_of(alloc: Global, scope: &mut Scope, form: &Form) -> Result<Rtl, NoMemory>
    ensures value { IfOk result (λ rtl. rtl ≡ rtl_of (base scope.old) form.now) }
    ensures kept { base scope.new ≡ base scope.old }
{
    set_rule(scope, Rule::Semantics, None);
    built(alloc, form, scope)
}

/// Whether an attribute keeps bytes from being decoded to its instruction.
fn hides(attr: &Attr) -> bool
    ensures { result ≡ spec.hides attr.now }
{
    let name = attr.name.as_slice();
    (name == b"ALIAS".as_slice() || name == b"NO-DIS".as_slice()) && is_set(&attr.value)
}

/// Whether a flag is set.
fn is_set(value: &AttrValue) -> bool
    ensures { result ≡ spec.is_set value.now }
{
    match value {
        AttrValue::Flag(flag) => *flag,
        _ => false,
    }
}

/// Whether one of these attributes does.
fn any_hides(attrs: &[Attr]) -> bool
    ensures { result ≡ list_any spec.hides attrs.now }
{
    attrs.iter().any(|attr| hides(attr))
}

/// Whether bytes are decoded to an instruction.
fn is_decodable(form: &InstructionForm) -> bool
    ensures { result ≡ spec.is_decodable form.now }
{
    !any_hides(form.attrs.as_slice())
}

/// Cycles as a machine keeps them: 2^32 - 1 at most.
fn counted(cycles: u128) -> u32
    ensures { result ≡ spec.kept_cycles cycles }
{
    if cycles < 4294967295 {
        cycles as u32
    } else {
        4294967295
    }
}

/// The instruction that is written so, of this form (docs/LANGUAGE.md, "Instructions"). Cycles over 2^32 - 1 are
/// kept as that. Of the scope only the rule changes, and its own mode.
pub fn insn_by(
    alloc: Global,
    scope: &mut Scope,
    described: &Described,
    written: &Written,
    form: &InstructionForm,
) -> Result<Insn, NoMemory>
    ensures value { IfOk result (λ insn. insn ≡ spec.insn_by (seen_described described.now) (base scope.old) written.now form.now) }
    ensures kept { base scope.new ≡ base scope.old }
{
    let slots = slot_names(alloc, described, written)?;
    let assertion = assertion_of(alloc, scope, written)?;
    let semantics = semantics_of(alloc, scope, &written.semantics)?;
    Ok(Insn {
        name: written.name.clone()?,
        pieces: pieces_of(alloc, slots.as_slice(), written.pieces.as_slice())?,
        parts: parts_of(alloc, described, written)?,
        assertion,
        decodable: is_decodable(form),
        cycles: counted(cycles_of(alloc, described.model, form)?),
        semantics,
    })
}

/// The form of an instruction.
fn instruction_in(element: &Element) -> Option<&InstructionForm>
    ensures { option_copied result ≡ spec.instruction_in element.now }
{
    match element {
        Element::Insn(InsnForm::Instruction(form)) => Some(form),
        _ => None,
    }
}

/// The form from which an instruction was written.
fn form_of<'a>(selection: &Selection<'a>, written: &Written) -> Option<&'a InstructionForm>
    ensures { option_copied result ≡ spec.form_of (seen selection.now) written.now }
{
    match selection.element_at(written.form) {
        Some(element) => instruction_in(element),
        None => None,
    }
}

/// The instruction that is written so. None exactly where the element of its form is no instruction. Of the
/// scope only the rule changes, and its own mode.
pub fn insn_of(
    alloc: Global,
    scope: &mut Scope,
    described: &Described,
    written: &Written,
) -> Result<Option<Insn>, NoMemory>
    ensures value { IfOk result (λ insn. insn ≡ spec.insn_of (seen_described described.now) (base scope.old) written.now) }
    ensures kept { base scope.new ≡ base scope.old }
{
    match form_of(&described.selection, written) {
        Some(form) => Ok(Some(insn_by(alloc, scope, described, written, form)?)),
        None => Ok(None),
    }
}

/// The instructions of a machine, in the order of the description.
pub(crate) fn insns_of(
    alloc: Global,
    scope: &mut Scope,
    described: &Described,
) -> Result<List<Insn>, NoMemory>
    ensures value { IfOk result (λ list. list ≡ spec.insns_of (seen_described described.now) (base scope.old)) }
    ensures kept { base scope.new ≡ base scope.old }
{
    let mut list = List::new(alloc);
    for written in described.written.as_slice() {
        if let Some(insn) = insn_of(alloc, scope, described, written)? {
            list.push(insn)?;
        }
    }
    Ok(list)
}
