//! The names in the form of a macro instruction.

ghost use Rattle.std.specs.Prelude.{◌≡◌, ◌++◌, ◌∷◌, [], map, IfOk, OnOk};
ghost use Rattle.std.specs.List.{filter_map};
ghost use Rattle.std.specs.Option.{option_copied};
ghost use Rattle.cg_base.specs.declared.form.Form.{out-Form};
ghost use Rattle.cg_desc_scope.specs.Seen.{seen_described};
ghost use Rattle.cg_desc_names.specs.Table.{known};
ghost use Rattle.cg_desc_fault_name.specs.MacroNames as spec;
ghost use Rattle.cg_desc_machine.specs.Instructions.{slot_of};
ghost use Rattle.cg_desc_machine.specs.Seen.{seen_items};

use crate::names::NameRule;
use cg_base::{Form, List, NoMemory, Text};
use cg_desc_choices::WrittenPiece;
use cg_desc_elements::{Element, Namespace};
use cg_desc_fault_report::{Placed, only_text, put_at};
use cg_desc_insns::all_pieces;
use cg_desc_machine::{emitted_name, items_of, macro_slots, slot_or_keyword, target_of};
use cg_desc_names::Names;
use cg_desc_references::{Finding, Place, found, is_defined};
use cg_desc_scope::Described;
use cg_insn::{InsnForm, MacroForm, NamedPiece};
use std::alloc::Global;

/// A name in the form of a macro instruction, and what it stands for there.
#[derive(Drop)]
pub(crate) struct Judged {
    /// What it stands for.
    pub(crate) finding: Finding,
    /// The name.
    pub(crate) name: Text,
}

/// What the name of an operand stands for.
fn operand_finding(described: &Described, name: &Text) -> Finding
    ensures { result ≡ spec.operand_finding (seen_described described.now) name.now }
{
    if described.operand_numbers.get(name).is_some() {
        Finding::Fitting
    } else {
        found(described.selection.names, Place::Argument, name)
    }
}

/// Puts the name of an operand at the end.
fn put_operand(list: &mut List<Judged>, described: &Described, name: &Text) -> Result<(), NoMemory>
    ensures { OnOk result (list.new ≡ list.old ++ spec.operand_judged (seen_described described.now) name.now ∷ []) }
{
    list.push(Judged {
        finding: operand_finding(described, name),
        name: name.clone()?,
    })
}

/// What the name of an emitted instruction stands for that isn't there.
fn gone_or_other(names: &Names, name: &Text) -> Finding
    ensures { result ≡ spec.gone_or_other (known names.now) name.now }
{
    if names.first(Namespace::Insns, name).is_some() {
        return Finding::Undefined;
    }
    if is_defined(names, name) {
        Finding::OfAnotherKind
    } else {
        Finding::Undefined
    }
}

/// The name of the emitted instruction, and what it stands for.
fn target_judged(alloc: Global, described: &Described, form: &MacroForm) -> Result<Judged, NoMemory>
    ensures { IfOk result (λ new. new ≡ spec.target_judged (seen_described described.now) form.now) }
{
    let name = Text::of(alloc, emitted_name(form))?;
    let finding = if target_of(described.written.as_slice(), form).is_some() {
        Finding::Fitting
    } else {
        gone_or_other(described.selection.names, &name)
    };
    Ok(Judged { finding, name })
}

/// What a word stands for that an operand is given.
fn value_finding(described: &Described, slots: &[Text], operand: &Text, word: &Text) -> Finding
    ensures { result ≡ spec.value_finding (seen_described described.now) slots.now operand.now word.now }
{
    if slot_or_keyword(described, slots, operand, word).is_some() {
        Finding::Fitting
    } else {
        Finding::Undefined
    }
}

/// Puts a word that an operand is given at the end.
fn put_word(
    list: &mut List<Judged>,
    described: &Described,
    slots: &[Text],
    operand: &Text,
    form: &Form,
) -> Result<(), NoMemory>
    ensures { OnOk result (list.new ≡ list.old ++ spec.value_in (seen_described described.now) slots.now operand.now (out-Form form.now)) }
{
    match form {
        Form::Symbol(word) => list.push(Judged {
            finding: value_finding(described, slots, operand, word),
            name: word.clone()?,
        }),
        _ => Ok(()),
    }
}

/// The same where the operand is the machine's and is given a form.
fn put_value(
    list: &mut List<Judged>,
    described: &Described,
    slots: &[Text],
    operand: &Text,
    form: Option<&Form>,
) -> Result<(), NoMemory>
    ensures { OnOk result (list.new ≡ list.old ++ spec.value_judged (seen_described described.now) slots.now operand.now (option_copied form.entry)) }
{
    match form {
        Some(form) => {
            if described.operand_numbers.get(operand).is_some() {
                put_word(list, described, slots, operand, form)
            } else {
                Ok(())
            }
        }
        None => Ok(()),
    }
}

/// Puts the names in items at the end.
#[tactic(auto, using(crate::proofs::Behind::behind_rules))]
fn put_items(
    list: &mut List<Judged>,
    described: &Described,
    slots: &[Text],
    items: &[(&Text, Option<&Form>)],
) -> Result<(), NoMemory>
    ensures { OnOk result (list.new ≡ list.old ++ spec.items_judged (seen_described described.now) slots.now (seen_items items.now)) }
{
    for item in items {
        put_operand(list, described, item.0)?;
        put_value(list, described, slots, item.0, item.1)?;
    }
    Ok(())
}

/// Puts the names in what a macro instruction emits at the end.
#[tactic(auto, using(crate::proofs::Behind::behind_rules))]
fn put_emit(
    alloc: Global,
    list: &mut List<Judged>,
    described: &Described,
    form: &MacroForm,
) -> Result<(), NoMemory>
    ensures { OnOk result (list.new ≡ list.old ++ spec.emit_judged (seen_described described.now) form.now) }
{
    let slots = macro_slots(alloc, &described.operand_numbers, form)?;
    let items = items_of(alloc, form)?;
    list.push(target_judged(alloc, described, form)?)?;
    put_items(list, described, slots.as_slice(), &items)
}

/// Puts the slots among pieces at the end.
fn put_pieces(
    list: &mut List<Judged>,
    described: &Described,
    pieces: &[WrittenPiece],
) -> Result<(), NoMemory>
    ensures { OnOk result (list.new ≡ list.old ++ map (spec.operand_judged (seen_described described.now)) (filter_map slot_of pieces.now)) }
{
    for piece in pieces {
        if let NamedPiece::Slot(name) = &piece.piece {
            put_operand(list, described, name)?;
        }
    }
    Ok(())
}

/// Puts the slots of the syntax of a macro instruction at the end.
fn put_syntax(
    alloc: Global,
    list: &mut List<Judged>,
    described: &Described,
    form: &MacroForm,
) -> Result<(), NoMemory>
    ensures { OnOk result (list.new ≡ list.old ++ spec.syntax_judged (seen_described described.now) form.now) }
{
    let pieces = all_pieces(alloc, &form.syntax)?;
    put_pieces(list, described, pieces.as_slice())
}

/// Puts the names in the clause of this name of a macro instruction at the end.
fn put_clause(
    alloc: Global,
    list: &mut List<Judged>,
    described: &Described,
    form: &MacroForm,
    name: &[u8],
) -> Result<(), NoMemory>
    ensures { OnOk result (list.new ≡ list.old ++ spec.names_of_macro (seen_described described.now) form.now name.now) }
{
    match name {
        b"syntax" => put_syntax(alloc, list, described, form),
        b"expansions" => put_emit(alloc, list, described, form),
        b"expansion" => put_emit(alloc, list, described, form),
        _ => Ok(()),
    }
}

/// The names in the clause of this name of a form, where it is that of a macro instruction, from left to
/// right.
fn macro_names(
    alloc: Global,
    described: &Described,
    element: &Element,
    name: &[u8],
) -> Result<List<Judged>, NoMemory>
    ensures { IfOk result (λ list. list ≡ spec.macro_names (seen_described described.now) element.now name.now) }
{
    let mut list = List::new(alloc);
    if let Element::Insn(InsnForm::Macro(form)) = element {
        put_clause(alloc, &mut list, described, form, name)?;
    }
    Ok(list)
}

/// Puts a name at the end, where it is at fault.
fn put_judged<R: NameRule>(
    alloc: Global,
    rule: &R,
    list: &mut List<Placed>,
    judged: &Judged,
) -> Result<(), NoMemory>
    ensures { OnOk result (list.new ≡ list.old ++ spec.of_macro_name (R.fault rule.now) judged.now) }
{
    if rule.is_fault(judged.finding) {
        put_at(
            list,
            List::new(alloc),
            only_text(alloc, judged.name.as_slice())?,
        )
    } else {
        Ok(())
    }
}

/// Puts those of some names at the end that are at fault.
fn put_all_judged<R: NameRule>(
    alloc: Global,
    rule: &R,
    list: &mut List<Placed>,
    names: &[Judged],
) -> Result<(), NoMemory>
    ensures { OnOk result (list.new ≡ list.old ++ spec.of_macro (R.fault rule.now) names.now) }
{
    for judged in names {
        put_judged(alloc, rule, list, judged)?;
    }
    Ok(())
}

/// Puts those names in the clause of this name of a form at the end that are at fault, where the form is
/// that of a macro instruction.
pub(crate) fn put_of_macro<R: NameRule>(
    alloc: Global,
    rule: &R,
    list: &mut List<Placed>,
    described: &Described,
    element: &Element,
    name: &[u8],
) -> Result<(), NoMemory>
    ensures { OnOk result (list.new ≡ list.old ++ spec.of_macro (R.fault rule.now) (spec.macro_names (seen_described described.now) element.now name.now)) }
{
    let names = macro_names(alloc, described, element, name)?;
    put_all_judged(alloc, rule, list, names.as_slice())
}
