//! The macro instructions of a machine.

ghost use Rattle.std.specs.Prelude.{◌≡◌, map, IfOk};
ghost use Rattle.std.specs.Option.{option_copied, option_map};
ghost use Rattle.std.specs.List.{filter_map};
ghost use Rattle.cg_desc_data.specs.Seen.{seen, seen_numbering};
ghost use Rattle.cg_desc_data.specs.Selecting.{member};
ghost use Rattle.cg_desc_scope.specs.Seen.{seen_described};
ghost use Rattle.cg_rtl_resolve.specs.Names.{place_of};
ghost use Rattle.cg_desc_machine.specs.Instructions as insns;
ghost use Rattle.cg_desc_machine.specs.Macros as spec;
ghost use Rattle.cg_desc_machine.specs.Seen.{seen_item, seen_items};

use crate::given::given_or_zero;
use crate::instructions::{number_or_none, pieces_of};
use crate::slots::slot_names;
use cg_base::{Form, List, NoMemory, Text};
use cg_desc_choices::{Written, WrittenPiece};
use cg_desc_data::{Numbering, Selection, short};
use cg_desc_elements::Element;
use cg_desc_insns::{all_pieces, only_in};
use cg_desc_scope::{Described, distinct};
use cg_insn::{InsnForm, MacroForm, NamedPiece};
use cg_model::{Given, MacroInsn};
use cg_rtl::first_symbol;
use cg_rtl_resolve::behind_first;
use std::alloc::Global;

/// The form of a macro instruction that takes part.
fn macro_member<'a>(selection: &Selection, element: &'a Element) -> Option<&'a MacroForm>
    ensures { option_copied result ≡ member (seen selection.now) spec.macro_in element.now }
{
    match element {
        Element::Insn(InsnForm::Macro(form)) if selection.takes_part(element) => Some(form),
        _ => None,
    }
}

/// The slots among pieces that are operands, as often as they stand.
fn all_slots(
    alloc: Global,
    operands: &Numbering,
    pieces: &[WrittenPiece],
) -> Result<List<Text>, NoMemory>
    ensures { IfOk result (λ list. list ≡ filter_map (spec.known_operand (seen_numbering operands.now)) (filter_map insns.slot_of pieces.now)) }
{
    let mut list = List::new(alloc);
    for piece in pieces {
        if let NamedPiece::Slot(name) = &piece.piece {
            if operands.get(name).is_some() {
                list.push(name.clone()?)?;
            }
        }
    }
    Ok(list)
}

/// The slots of the syntax of a macro instruction, each once: the names there that operands have
/// (docs/LANGUAGE.md, "Instructions").
pub fn macro_slots(
    alloc: Global,
    operands: &Numbering,
    form: &MacroForm,
) -> Result<List<Text>, NoMemory>
    ensures { IfOk result (λ list. list ≡ spec.macro_slots (seen_numbering operands.now) form.now) }
{
    let pieces = all_pieces(alloc, &form.syntax)?;
    let all = all_slots(alloc, operands, pieces.as_slice())?;
    distinct(alloc, all.as_slice())
}

/// What stands behind `emit`.
#[tactic(auto, unfolding(crate::specs::Macros::emitted_in))]
fn emitted(form: &MacroForm) -> &[Form]
    ensures { result.now ≡ spec.emitted form.now }
{
    match only_in(&form.expansions) {
        Some(only) => match only.headed() {
            Some((_, behind)) => behind,
            None => &[],
        },
        None => &[],
    }
}

/// The name of the emitted instruction, and no bytes where none is named (docs/LANGUAGE.md, "Instructions").
pub fn emitted_name(form: &MacroForm) -> &[u8]
    ensures { result.now ≡ spec.emitted_name form.now }
{
    match first_symbol(emitted(form)) {
        Some(name) => name.as_slice(),
        None => &[],
    }
}

/// The place of the first instruction of a name.
#[tactic(auto, using(crate::proofs::Places::place_rules))]
fn place_under(written: &[Written], name: &[u8]) -> Option<usize>
    ensures { result ≡ place_of name.now (map spec.written_name written.now) }
{
    for (place, each) in written.iter().enumerate() {
        if each.name.as_slice() == name {
            return Some(place);
        }
    }
    None
}

/// The place of the instruction that a macro instruction emits: the first of its name, from 0. None exactly
/// where there is none (docs/LANGUAGE.md, "Instructions").
pub fn target_of(written: &[Written], form: &MacroForm) -> Option<usize>
    ensures { result ≡ spec.target_of written.now form.now }
{
    place_under(written, emitted_name(form))
}

/// An item: the name of an operand, and what stands behind it.
fn item_of(form: &Form) -> Option<(&Text, Option<&Form>)>
    ensures { option_map seen_item result ≡ spec.item_of form.now }
{
    match form {
        Form::Symbol(name) => Some((name, None)),
        Form::Items(forms) => match forms.as_slice() {
            [operand, value] => match operand.symbol() {
                Some(name) => Some((name, Some(value))),
                None => None,
            },
            _ => None,
        },
        _ => None,
    }
}

/// Items among forms.
fn items_among(alloc: Global, forms: &[Form]) -> Result<Vec<(&Text, Option<&Form>)>, NoMemory>
    ensures { IfOk result (λ list. seen_items list.items ≡ filter_map spec.item_of forms.now) }
{
    let mut list = Vec::new(alloc);
    for form in forms {
        if let Some(item) = item_of(form) {
            list.push(item)?;
        }
    }
    Ok(list)
}

/// The items of a macro instruction: the name of an operand each, and what stands behind it
/// (docs/LANGUAGE.md, "Instructions"). What is no item is left out.
pub fn items_of(alloc: Global, form: &MacroForm) -> Result<Vec<(&Text, Option<&Form>)>, NoMemory>
    ensures { IfOk result (λ list. seen_items list.items ≡ spec.items_of form.now) }
{
    items_among(alloc, behind_first(emitted(form)))
}

/// What operands of these names are given.
fn all_given(
    alloc: Global,
    described: &Described,
    slots: &[Text],
    items: &[(&Text, Option<&Form>)],
    operands: &[Text],
) -> Result<List<Given>, NoMemory>
    ensures { IfOk result (λ list. list ≡ map (spec.given_or_zero (seen_described described.now) slots.now (seen_items items.now)) operands.now) }
{
    let mut list = List::new(alloc);
    for operand in operands {
        list.push(given_or_zero(described, slots, items, operand))?;
    }
    Ok(list)
}

/// What the slots of the emitted instruction are given.
fn givens(
    alloc: Global,
    described: &Described,
    slots: &[Text],
    form: &MacroForm,
    target: Option<&Written>,
) -> Result<List<Given>, NoMemory>
    ensures { IfOk result (λ list. list ≡ spec.givens (seen_described described.now) slots.now form.now (option_copied target.entry)) }
{
    match target {
        Some(written) => {
            let operands = slot_names(alloc, described, written)?;
            let items = items_of(alloc, form)?;
            all_given(alloc, described, slots, &items, operands.as_slice())
        }
        None => Ok(List::new(alloc)),
    }
}

/// The numbers of operands of these names, 0 for a name that none has.
pub fn numbers_of(
    alloc: Global,
    operands: &Numbering,
    names: &[Text],
) -> Result<List<u16>, NoMemory>
    ensures { IfOk result (λ list. list ≡ map (insns.number_or_none (seen_numbering operands.now)) names.now) }
{
    let mut list = List::new(alloc);
    for name in names {
        list.push(number_or_none(operands, name))?;
    }
    Ok(list)
}

/// The macro instruction of a form, which emits the instruction at this place.
fn macro_by(
    alloc: Global,
    described: &Described,
    form: &MacroForm,
    target: usize,
) -> Result<MacroInsn, NoMemory>
    ensures { IfOk result (λ macro. macro ≡ spec.macro_by (seen_described described.now) form.now (spec.macro_slots (seen_numbering described.now.operand_numbers) form.now) target) }
{
    let operands = &described.operand_numbers;
    let slots = macro_slots(alloc, operands, form)?;
    let pieces = all_pieces(alloc, &form.syntax)?;
    let written = described.written.as_slice().get(target);
    Ok(MacroInsn {
        name: form.name.clone()?,
        pieces: pieces_of(alloc, slots.as_slice(), pieces.as_slice())?,
        operands: numbers_of(alloc, operands, slots.as_slice())?,
        target: short(target),
        given: givens(alloc, described, slots.as_slice(), form, written)?,
    })
}

/// The macro instruction of a form. None where there is no instruction that it emits.
fn macro_of(
    alloc: Global,
    described: &Described,
    form: &MacroForm,
) -> Result<Option<MacroInsn>, NoMemory>
    ensures { IfOk result (λ macro. macro ≡ spec.macro_of (seen_described described.now) form.now) }
{
    match target_of(described.written.as_slice(), form) {
        Some(target) => Ok(Some(macro_by(alloc, described, form, target)?)),
        None => Ok(None),
    }
}

/// The macro instructions of a machine, in the order of the description.
pub(crate) fn macros_of(alloc: Global, described: &Described) -> Result<List<MacroInsn>, NoMemory>
    ensures { IfOk result (λ list. list ≡ spec.macros_of (seen_described described.now)) }
{
    let mut list = List::new(alloc);
    for element in described.selection.elements {
        if let Some(form) = macro_member(&described.selection, element) {
            if let Some(new) = macro_of(alloc, described, form)? {
                list.push(new)?;
            }
        }
    }
    Ok(list)
}
