//! The texts of a machine's `error` traps.

ghost use Rattle.std.specs.Prelude.{◌≡◌, [], ◌++◌, map, drop, IfOk, OnOk};
ghost use Rattle.std.specs.Option.{option_copied};
ghost use Rattle.std.specs.List.{flat_map};
ghost use Rattle.cg_attrs.specs.Clauses.{seen_clause};
ghost use Rattle.cg_desc_data.specs.Seen.{seen};
ghost use Rattle.cg_desc_elements.specs.declared.kind.Kind.TheVariants as kind;
ghost use Rattle.cg_desc_scope.specs.Texts as spec;
ghost use Rattle.cg_desc_scope.specs.ByForm.{seen_by_form};
ghost use Rattle.cg_desc_scope.specs.Seen.{all_lent, forms_of};

use crate::by_form::ByForm;
use crate::once::distinct;
use cg_attrs::Clause;
use cg_base::{Form, List, NoMemory, Text, Top};
use cg_desc_choices::Written;
use cg_desc_data::Selection;
use cg_desc_elements::{Element, Kind};
use cg_desc_references::clauses_of;
use cg_rtl::behind_mode;
use cg_rtl_resolve::{behind_first, elements_or_none};
use std::alloc::Global;

/// The text of `(error "text")`.
fn error_text(form: &Form) -> Option<&Text>
    ensures { option_copied result ≡ spec.text_of_error form.now }
{
    match form.headed() {
        Some((name, behind)) => match name.as_slice() {
            b"error" => match behind_mode(behind).first() {
                Some(text) => text.string(),
                None => None,
            },
            _ => None,
        },
        None => None,
    }
}

/// Puts the texts in an expression at the end, so many lists inwards.
#[cycle(telling)]
#[tactic(auto, using(crate::proofs::Within::text_rules))]
fn put_to(list: &mut List<Text>, form: &Form, depth: u64) -> Result<(), NoMemory>
    ensures { OnOk result (list.new ≡ list.old ++ spec.texts_to depth form.now) }
{
    if depth == 0 {
        return Ok(());
    }
    match error_text(form) {
        Some(text) => list.push(text.clone()?),
        None => put_each_to(list, elements_or_none(form), depth - 1),
    }
}

/// Puts the texts in expressions at the end, so many lists inwards.
#[cycle(telling)]
#[tactic(auto, using(crate::proofs::Within::text_rules))]
fn put_each_to(list: &mut List<Text>, forms: &[Form], depth: u64) -> Result<(), NoMemory>
    ensures { OnOk result (list.new ≡ list.old ++ flat_map (spec.texts_to depth) forms.now) }
{
    for form in forms {
        put_to(list, form, depth)?;
    }
    Ok(())
}

/// Puts the texts in an expression at the end.
#[tactic(auto, unfolding(crate::specs::Texts::texts_in))]
fn put(list: &mut List<Text>, form: &Form) -> Result<(), NoMemory>
    ensures { OnOk result (list.new ≡ list.old ++ spec.texts_in form.now) }
{
    put_to(list, form, u64::MAX)
}

/// Puts the texts in expressions at the end.
fn put_each(list: &mut List<Text>, forms: &[Form]) -> Result<(), NoMemory>
    ensures { OnOk result (list.new ≡ list.old ++ flat_map spec.texts_in forms.now) }
{
    for form in forms {
        put(list, form)?;
    }
    Ok(())
}

/// Puts the texts of a rule of hardware at the end.
fn put_clause(list: &mut List<Text>, clause: Clause<'_>) -> Result<(), NoMemory>
    ensures { OnOk result (list.new ≡ list.old ++ spec.texts_of_clause (seen_clause clause.entry)) }
{
    match clause.name {
        b"get" | b"set" => put_each(list, behind_first(clause.content)),
        _ => Ok(()),
    }
}

/// Puts the texts of the rules among clauses at the end.
fn put_clauses(list: &mut List<Text>, clauses: &[Clause]) -> Result<(), NoMemory>
    ensures { OnOk result (list.new ≡ list.old ++ flat_map spec.texts_of_clause (map seen_clause clauses.now)) }
{
    for clause in clauses {
        put_clause(list, *clause)?;
    }
    Ok(())
}

/// Puts the texts of a form of hardware at the end.
fn put_hardware(alloc: Global, list: &mut List<Text>, form: &Form) -> Result<(), NoMemory>
    ensures { OnOk result (list.new ≡ list.old ++ spec.texts_by_kind kind.Hardware form.now []) }
{
    let clauses = clauses_of(alloc, Kind::Hardware, form)?;
    put_clauses(list, &clauses)
}

/// Puts the texts of what instructions do at the end.
fn put_insns(list: &mut List<Text>, insns: &[&Written]) -> Result<(), NoMemory>
    ensures { OnOk result (list.new ≡ list.old ++ flat_map spec.texts_of_insn (all_lent insns.now)) }
{
    for written in insns {
        put(list, &written.semantics)?;
    }
    Ok(())
}

/// Puts the texts of a form at the end, which gives an element of this kind and becomes these instructions.
fn put_by_kind(
    alloc: Global,
    list: &mut List<Text>,
    of: Kind,
    form: &Form,
    insns: &[&Written],
) -> Result<(), NoMemory>
    ensures { OnOk result (list.new ≡ list.old ++ spec.texts_by_kind of form.now (all_lent insns.now)) }
{
    match of {
        Kind::Hardware => put_hardware(alloc, list, form),
        Kind::Insn => put_insns(list, insns),
        _ => Ok(()),
    }
}

/// Puts the texts of a form at the end, where its element takes part.
#[tactic(auto, unfolding(crate::specs::Texts::texts_with))]
fn put_with(
    alloc: Global,
    list: &mut List<Text>,
    selection: &Selection,
    element: &Element,
    form: &Form,
    insns: &[&Written],
) -> Result<(), NoMemory>
    ensures { OnOk result (list.new ≡ list.old ++ spec.texts_with (seen selection.now) element.now form.now (all_lent insns.now)) }
{
    if selection.takes_part(element) {
        put_by_kind(alloc, list, element.kind(), form, insns)
    } else {
        Ok(())
    }
}

/// The texts of a form that gives this element and becomes these instructions: those of get and set rules,
/// and of what the instructions do. None where the element doesn't take part.
pub fn texts_with(
    alloc: Global,
    selection: &Selection,
    element: &Element,
    form: &Form,
    insns: &[&Written],
) -> Result<List<Text>, NoMemory>
    ensures { IfOk result (λ list. list ≡ spec.texts_with (seen selection.now) element.now form.now (all_lent insns.now)) }
{
    let mut list = List::new(alloc);
    put_with(alloc, &mut list, selection, element, form, insns)?;
    Ok(list)
}

/// Puts the texts of the form of this number at the end.
fn put_at(
    alloc: Global,
    list: &mut List<Text>,
    selection: &Selection,
    by_form: &ByForm,
    number: usize,
    element: &Element,
    form: &Form,
) -> Result<(), NoMemory>
    ensures { OnOk result (list.new ≡ list.old ++ spec.texts_with (seen selection.now) element.now form.now (seen_by_form by_form.now number)) }
{
    put_with(
        alloc,
        list,
        selection,
        element,
        form,
        by_form.get_or(number, &[]),
    )
}

/// The texts of all forms, in order.
fn texts_of_all(
    alloc: Global,
    selection: &Selection,
    elements: &[Element],
    tops: &[Top],
    by_form: &ByForm,
) -> Result<List<Text>, NoMemory>
    ensures { IfOk result (λ list. list ≡ spec.texts_from (seen selection.now) (seen_by_form by_form.now) 1 elements.now (forms_of tops.now)) }
{
    let mut list = List::new(alloc);
    let mut rest = tops;
    for (place, element) in elements.iter().enumerate() {
        match rest {
            [top, more @ ..] => {
                let form = &top.form;
                put_at(
                    alloc,
                    &mut list,
                    selection,
                    by_form,
                    place + 1,
                    element,
                    form,
                )?;
                rest = more;
            }
            _ => return Ok(list),
        }
    }
    Ok(list)
}

/// The texts of a machine's `error` traps, each once, in the order of the description (docs/LANGUAGE.md,
/// "Machines").
pub fn error_texts(
    alloc: Global,
    selection: &Selection,
    tops: &[Top],
    written: &[Written],
) -> Result<List<Text>, NoMemory>
    ensures { IfOk result (λ list. list ≡ spec.all_texts (seen selection.now) (forms_of tops.now) written.now) }
{
    let by_form = ByForm::of(alloc, written)?;
    let all = texts_of_all(alloc, selection, selection.elements, tops, &by_form)?;
    distinct(alloc, all.as_slice())
}
