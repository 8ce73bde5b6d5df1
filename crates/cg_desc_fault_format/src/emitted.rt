//! What macro instructions give the slots of the instructions that they emit.

ghost use Rattle.std.specs.Prelude.{◌≡◌, [], map, filter, IfOk};
ghost use Rattle.std.specs.List.{filter_map, flat_map};
ghost use Rattle.cg_base.specs.Refusing.{first};
ghost use Rattle.cg_base.specs.Texts.{is_among};
ghost use Rattle.cg_desc_scope.specs.Seen.{seen_described};
ghost use Rattle.cg_desc_fault_format.specs.E313 as spec;
ghost use Rattle.cg_desc_machine.specs.Seen.{seen_item, seen_items};

use crate::slots::{SlotTest, put_pieces};
use cg_base::{Form, List, NoMemory, Text};
use cg_desc_fault_report::{Saying, earliest_said, texts_said};
use cg_desc_insns::all_pieces;
use cg_desc_machine::{
    given_by, is_among as is_text_among, items_of, macro_slots, place_of, slot_names, target_of,
};
use cg_desc_scope::Described;
use cg_insn::MacroForm;
use cg_model::Given;
use std::alloc::Global;

/// An item: an operand, and what it is given, if not its own slot.
type Item<'a> = (&'a Text, Option<&'a Form>);

/// The items of operands that the machine has.
fn known_among<'a>(
    alloc: Global,
    described: &Described,
    items: &[Item<'a>],
) -> Result<Vec<Item<'a>>, NoMemory>
    ensures { IfOk result (λ list. seen_items list.items ≡ filter (spec.is_known (seen_described described.now)) (seen_items items.now)) }
{
    let mut list = Vec::new(alloc);
    for item in items {
        if described.operand_numbers.get(item.0).is_some() {
            list.push(*item)?;
        }
    }
    Ok(list)
}

/// The items of a macro instruction, of operands that the machine has.
fn known_items<'a>(
    alloc: Global,
    described: &Described,
    form: &'a MacroForm,
) -> Result<Vec<Item<'a>>, NoMemory>
    ensures { IfOk result (λ list. seen_items list.items ≡ spec.known_items (seen_described described.now) form.now) }
{
    let items = items_of(alloc, form)?;
    known_among(alloc, described, &items)
}

/// The number of a slot that is given.
fn slot_given(given: Option<Given>) -> Option<u8>
    ensures { result ≡ spec.slot_given given }
{
    match given {
        Some(Given::Slot(number)) => Some(number),
        _ => None,
    }
}

/// The numbers of the slots that items are given.
fn used_among(
    alloc: Global,
    described: &Described,
    slots: &[Text],
    items: &[Item<'_>],
) -> Result<List<u8>, NoMemory>
    ensures { IfOk result (λ used. used ≡ filter_map (spec.slot_used (seen_described described.now) slots.now) (seen_items items.now)) }
{
    let mut used = List::new(alloc);
    for item in items {
        if let Some(number) = slot_given(given_by(described, slots, item.0, item.1)) {
            used.push(number)?;
        }
    }
    Ok(used)
}

/// The test that a slot of a macro instruction is given to an item. Names that are no slots pass it.
#[derive(Drop)]
struct Unused<'a> {
    slots: &'a [Text],
    used: &'a [u8],
}

/// Whether a place is one of these numbers.
fn has_number(used: &[u8], place: usize) -> bool
    ensures { result ≡ spec.has_number used.now place }
{
    for number in used {
        if *number as usize == place {
            return true;
        }
    }
    false
}

/// Whether the slot at a place is given to an item.
fn is_used(used: &[u8], place: Option<usize>) -> bool
    ensures { result ≡ spec.is_used used.now place }
{
    match place {
        Some(place) => has_number(used, place),
        None => false,
    }
}

impl SlotTest for Unused<'_> {
    ghost failing = { λ t. spec.is_unused t.slots.now t.used.now };

    fn fails(&self, name: &Text) -> bool {
        is_text_among(self.slots, name) && !is_used(self.used, place_of(self.slots, name))
    }
}

/// What is said of the syntax of a macro instruction with these slots.
fn first_in_syntax(
    alloc: Global,
    described: &Described,
    form: &MacroForm,
    slots: &[Text],
) -> Result<Option<Saying>, NoMemory>
    ensures { IfOk result (λ said. said ≡ first (spec.of_macro_syntax (seen_described described.now) form.now slots.now)) }
{
    let items = known_items(alloc, described, form)?;
    let used = used_among(alloc, described, slots, &items)?;
    let test = Unused {
        slots,
        used: used.as_slice(),
    };
    let pieces = all_pieces(alloc, &form.syntax)?;
    let mut list = List::new(alloc);
    put_pieces(
        alloc,
        &mut list,
        &test,
        form.name.as_slice(),
        pieces.as_slice(),
    )?;
    earliest_said(&list)
}

/// Whether an item is one of this operand.
fn is_given(items: &[Item<'_>], name: &Text) -> bool
    ensures { result ≡ is_among (map spec.first_name (seen_items items.now)) name.now }
{
    for item in items {
        if item.0 == name {
            return true;
        }
    }
    false
}

/// The first of the emitted instruction's slots that no item gives.
#[tactic(auto, using(cg_desc_fault_report::proofs::Firsts::first_rules))]
fn first_not_given(
    alloc: Global,
    own: &[u8],
    items: &[Item<'_>],
    wanted: &[Text],
) -> Result<Option<Saying>, NoMemory>
    ensures { IfOk result (λ said. said ≡ first (flat_map (spec.not_given own.now (seen_items items.now)) wanted.now)) }
{
    for name in wanted {
        if !is_given(items, name) {
            return Ok(Some(texts_said(alloc, own, name.as_slice())?));
        }
    }
    Ok(None)
}

/// Whether an item is an operand alone that is no slot of the syntax.
fn is_alone(slots: &[Text], item: Item<'_>) -> bool
    ensures { result ≡ spec.is_alone slots.now (seen_item item.entry) }
{
    match item.1 {
        Some(_) => false,
        None => !is_text_among(slots, item.0),
    }
}

/// Whether an item is of another operand than the emitted instruction's, stands again, or is an operand
/// alone that is no slot.
fn is_wrong(slots: &[Text], wanted: &[Text], before: &[Text], item: Item<'_>) -> bool
    ensures { result ≡ spec.is_wrong slots.now wanted.now before.now (seen_item item.entry) }
{
    !is_text_among(wanted, item.0) || is_text_among(before, item.0) || is_alone(slots, item)
}

/// The first item that is wrong.
#[tactic(auto, using(cg_desc_fault_report::proofs::Firsts::first_rules))]
fn first_wrong(
    alloc: Global,
    own: &[u8],
    slots: &[Text],
    wanted: &[Text],
    items: &[Item<'_>],
) -> Result<Option<Saying>, NoMemory>
    ensures { IfOk result (λ said. said ≡ first (spec.items_behind own.now slots.now wanted.now [] (seen_items items.now))) }
{
    let mut before: List<Text> = List::new(alloc);
    for item in items {
        if is_wrong(slots, wanted, before.as_slice(), *item) {
            return Ok(Some(texts_said(alloc, own, item.0.as_slice())?));
        }
        before.push(item.0.clone()?)?;
    }
    Ok(None)
}

/// What is said of what a macro instruction emits.
#[tactic(auto, using(cg_desc_fault_report::proofs::Firsts::first_rules))]
fn first_in_emit(
    alloc: Global,
    described: &Described,
    form: &MacroForm,
    slots: &[Text],
    wanted: &[Text],
) -> Result<Option<Saying>, NoMemory>
    ensures { IfOk result (λ said. said ≡ first (spec.in_emit (seen_described described.now) form.now slots.now wanted.now)) }
{
    let own = form.name.as_slice();
    let items = known_items(alloc, described, form)?;
    if let Some(said) = first_not_given(alloc, own, &items, wanted)? {
        return Ok(Some(said));
    }
    first_wrong(alloc, own, slots, wanted, &items)
}

/// Whether the clause of this name gives what is emitted.
fn gives_emitted(name: &[u8]) -> bool
    ensures { result ≡ spec.gives_emitted name.now }
{
    b"expansions".as_slice() == name || b"expansion".as_slice() == name
}

/// What is said of the clause of this name, where the emitted instruction has these slots.
fn first_by_clause(
    alloc: Global,
    described: &Described,
    form: &MacroForm,
    wanted: &[Text],
    name: &[u8],
) -> Result<Option<Saying>, NoMemory>
    ensures { IfOk result (λ said. said ≡ first (spec.by_wanted (seen_described described.now) form.now wanted.now name.now)) }
{
    let slots = macro_slots(alloc, &described.operand_numbers, form)?;
    if b"syntax".as_slice() == name {
        first_in_syntax(alloc, described, form, slots.as_slice())
    } else if gives_emitted(name) {
        first_in_emit(alloc, described, form, slots.as_slice(), wanted)
    } else {
        Ok(None)
    }
}

/// The slots of the instruction at a place.
fn slots_at(
    alloc: Global,
    described: &Described,
    target: Option<usize>,
) -> Result<Option<List<Text>>, NoMemory>
    ensures { IfOk result (λ slots. slots ≡ spec.slots_at (seen_described described.now) target) }
{
    match target {
        Some(place) => match described.written.get(place) {
            Some(written) => Ok(Some(slot_names(alloc, described, written)?)),
            None => Ok(None),
        },
        None => Ok(None),
    }
}

/// What is said of the clause of this name of a macro instruction. None where the instruction that it emits
/// isn't there.
pub(crate) fn first_in_macro(
    alloc: Global,
    described: &Described,
    form: &MacroForm,
    name: &[u8],
) -> Result<Option<Saying>, NoMemory>
    ensures { IfOk result (λ said. said ≡ first (spec.macro_clause (seen_described described.now) form.now (spec.emitted_slots (seen_described described.now) form.now) name.now)) }
{
    let target = target_of(described.written.as_slice(), form);
    match slots_at(alloc, described, target)? {
        Some(wanted) => first_by_clause(alloc, described, form, wanted.as_slice(), name),
        None => Ok(None),
    }
}
