//! What `insert` and `extract` of a multi field set.

ghost use Rattle.std.specs.Prelude.{◌≡◌, ◌==◌};
ghost use Rattle.std.specs.Option.{option_copied, option_map};
ghost use Rattle.std.specs.List.{list_all, list_any, count_by, flat_map};
ghost use Rattle.cg_base.specs.Parts.{symbol_of};
ghost use Rattle.cg_base.specs.Texts.{passes, is_named};
ghost use Rattle.cg_base.specs.Refusing.{first};
ghost use Rattle.cg_attrs.specs.Clauses.{seen_clause};
ghost use Rattle.cg_rtl.specs.Shapes.{wrong_in, left_out_in};
ghost use Rattle.cg_ifield.specs.Sets.{behind, elements_behind, field_of, set_in, set_of, is_empty, steps_in, steps, is_set, all_sets, sets_of, sets_field, is_set_once, sets_one_of, set_just, set_just_in, all_symbols, subfields_at, one_symbol, itself_at, inside_one, inside, wrong_sets, left_out_sets};

use cg_attrs::{Clause, content_at, is_named};
use cg_base::{Form, Text, are_symbols, only, only_symbol};
use cg_rtl::{first_left_out_in, first_wrong_in};

/// The elements, where this is the head in front of them.
fn behind<'a>(head: &Text, elements: &'a [Form], name: &[u8]) -> Option<&'a [Form]>
    ensures { option_copied result ≡ behind name.now (head.now, elements.now) }
{
    if head.as_slice() == name {
        Some(elements)
    } else {
        None
    }
}

/// The elements behind this head.
#[tactic(auto, unfolding(crate::specs::Sets::elements_behind))]
fn elements_behind<'a>(form: &'a Form, name: &[u8]) -> Option<&'a [Form]>
    ensures { option_copied result ≡ elements_behind name.now form.now }
{
    let (head, elements) = form.headed()?;
    behind(head, elements, name)
}

/// The field of `(ifield f)`.
#[tactic(auto, unfolding(crate::specs::Sets::field_of))]
fn field(form: &Form) -> Option<&Text>
    ensures { option_copied result ≡ field_of form.now }
{
    only_symbol(elements_behind(form, b"ifield")?)
}

/// The field that is set, and the expression.
#[tactic(auto, unfolding(crate::specs::Sets::set_in))]
fn set_in(elements: &[Form]) -> Option<(&Text, &Form)>
    ensures { option_map (λ x. (x.0.now, x.1.now)) result ≡ set_in elements.now }
{
    match elements {
        [place, expression] => Some((field(place)?, expression)),
        _ => None,
    }
}

/// The field that `(set (ifield f) e)` sets, and the expression. None exactly where the form is no such
/// list (docs/LANGUAGE.md, "Fields").
#[tactic(auto, unfolding(crate::specs::Sets::set_of))]
pub fn field_set(form: &Form) -> Option<(&Text, &Form)>
    ensures { option_map (λ x. (x.0.now, x.1.now)) result ≡ set_of form.now }
{
    set_in(elements_behind(form, b"set")?)
}

/// Whether the form is an empty list.
fn is_empty(form: &Form) -> bool
    ensures { result ≡ is_empty form.now }
{
    match form.elements() {
        Some(elements) => elements.is_empty(),
        None => false,
    }
}

/// The forms behind an empty list of locals, one at least.
fn steps_in(elements: &[Form]) -> Option<&[Form]>
    ensures { option_copied result ≡ steps_in elements.now }
{
    match elements.split_first() {
        Some((locals, steps)) => {
            if is_empty(locals) && !steps.is_empty() {
                Some(steps)
            } else {
                None
            }
        }
        None => None,
    }
}

/// The forms of a sequence, or the one form.
fn steps(form: &Form) -> Option<&[Form]>
    ensures { option_copied result ≡ steps form.now }
{
    match elements_behind(form, b"sequence") {
        Some(elements) => steps_in(elements),
        None => Some(std::slice::from_ref(form)),
    }
}

/// Whether the form is a set of a field.
fn is_set(form: &Form) -> bool
    ensures { result ≡ is_set form.now }
{
    field_set(form).is_some()
}

/// Whether each of the forms is a set of a field.
fn are_sets(forms: &[Form]) -> bool
    ensures { result ≡ list_all is_set forms.now }
{
    forms.iter().all(is_set)
}

/// The forms, where each is a set of a field.
fn all_sets(forms: &[Form]) -> Option<&[Form]>
    ensures { option_copied result ≡ all_sets forms.now }
{
    if are_sets(forms) { Some(forms) } else { None }
}

/// The sets that stand behind the name of `insert` or `extract`: one, or those of a `sequence`. None
/// exactly where anything else stands there (docs/LANGUAGE.md, "Fields").
#[tactic(auto, unfolding(crate::specs::Sets::sets_of))]
pub fn sets_behind(forms: &[Form]) -> Option<&[Form]>
    ensures { option_copied result ≡ sets_of forms.now }
{
    all_sets(steps(only(forms)?)?)
}

/// Whether the form sets the field of this name.
fn sets_field(form: &Form, name: &[u8]) -> bool
    ensures { result ≡ sets_field name.now form.now }
{
    match field_set(form) {
        Some((field, _)) => field.as_slice() == name,
        None => false,
    }
}

/// How many of the sets set this field.
fn times(sets: &[Form], name: &[u8]) -> usize
    ensures { result ≡ count_by (sets_field name.now) sets.now }
{
    sets.iter().filter(|set| sets_field(set, name)).count()
}

/// Whether one of the sets alone sets this field.
fn is_set_once(sets: &[Form], field: &Form) -> bool
    ensures { result ≡ is_set_once sets.now field.now }
{
    match field.symbol() {
        Some(name) => times(sets, name.as_slice()) == 1,
        None => false,
    }
}

/// Whether one of the fields has this name.
fn is_one_of(fields: &[Form], name: &[u8]) -> bool
    ensures { result ≡ list_any (λ field. is_named name.now (symbol_of field)) fields.now }
{
    fields.iter().any(|field| is_named(field, name))
}

/// Whether the form sets one of these fields.
fn sets_one_of(fields: &[Form], form: &Form) -> bool
    ensures { result ≡ sets_one_of fields.now form.now }
{
    match field_set(form) {
        Some((field, _)) => is_one_of(fields, field.as_slice()),
        None => false,
    }
}

/// Whether each of these fields is set once.
fn are_set_once(fields: &[Form], sets: &[Form]) -> bool
    ensures { result ≡ list_all (is_set_once sets.now) fields.now }
{
    fields.iter().all(|field| is_set_once(sets, field))
}

/// Whether each of the sets sets one of these fields.
fn set_some_of(fields: &[Form], sets: &[Form]) -> bool
    ensures { result ≡ list_all (sets_one_of fields.now) sets.now }
{
    sets.iter().all(|set| sets_one_of(fields, set))
}

/// Whether each of these fields is set once, and no other is, where the fields are known.
fn set_just(fields: Option<&[Form]>, sets: &[Form]) -> bool
    ensures { result ≡ set_just_in (option_copied fields.entry) sets.now }
{
    match fields {
        Some(fields) => are_set_once(fields, sets) && set_some_of(fields, sets),
        None => true,
    }
}

/// The forms, where each is a symbol.
fn all_symbols(forms: &[Form]) -> Option<&[Form]>
    ensures { option_copied result ≡ all_symbols forms.now }
{
    if are_symbols(forms) {
        Some(forms)
    } else {
        None
    }
}

/// The fields that `insert` sets.
#[tactic(auto, unfolding(crate::specs::Sets::subfields_at))]
fn subfields_at(elements: &[Form]) -> Option<&[Form]>
    ensures { option_copied result ≡ subfields_at elements.now }
{
    all_symbols(content_at(elements, b"subfields")?)
}

/// The one form, where it is a symbol.
fn one_symbol(forms: &[Form]) -> Option<&[Form]>
    ensures { option_copied result ≡ one_symbol forms.now }
{
    if only_symbol(forms).is_some() {
        Some(forms)
    } else {
        None
    }
}

/// The field that `extract` sets, alone.
#[tactic(auto, unfolding(crate::specs::Sets::itself_at))]
fn itself_at(elements: &[Form]) -> Option<&[Form]>
    ensures { option_copied result ≡ itself_at elements.now }
{
    one_symbol(content_at(elements, b"name")?)
}

/// The first text of E304 inside the expression of a set.
fn wrong_in_one(form: &Form) -> Option<&[u8]>
    ensures { option_copied result ≡ first (inside_one wrong_in (set_of form.now)) }
{
    match field_set(form) {
        Some((_, expression)) => first_wrong_in(expression),
        None => None,
    }
}

/// The first text of E304 inside the expressions of sets.
#[tactic(auto, using(crate::proofs::Firsts::first_append))]
fn wrong_in_sets(sets: &[Form]) -> Option<&[u8]>
    ensures { option_copied result ≡ first (flat_map (λ f. inside_one wrong_in (set_of f)) sets.now) }
{
    for set in sets {
        if let Some(text) = wrong_in_one(set) {
            return Some(text);
        }
    }
    None
}

/// The first text of E307 inside the expression of a set.
fn left_out_in_one(form: &Form) -> Option<&[u8]>
    ensures { option_copied result ≡ first (inside_one left_out_in (set_of form.now)) }
{
    match field_set(form) {
        Some((_, expression)) => first_left_out_in(expression),
        None => None,
    }
}

/// The first text of E307 inside the expressions of sets.
#[tactic(auto, using(crate::proofs::Firsts::first_append))]
fn left_out_in_sets(sets: &[Form]) -> Option<&[u8]>
    ensures { option_copied result ≡ first (flat_map (λ f. inside_one left_out_in (set_of f)) sets.now) }
{
    for set in sets {
        if let Some(text) = left_out_in_one(set) {
            return Some(text);
        }
    }
    None
}

/// The first text of E304 of a clause that sets these fields.
fn wrong_sets<'a>(fields: Option<&[Form]>, clause: Clause<'a>) -> Option<&'a [u8]>
    ensures { option_copied result ≡ first (wrong_sets (λ elements. option_copied fields.entry) (seen_clause clause.entry)) }
{
    match sets_behind(clause.content) {
        Some(sets) => {
            if set_just(fields, sets) {
                wrong_in_sets(sets)
            } else {
                Some(clause.name)
            }
        }
        None => Some(clause.name),
    }
}

/// The first text of E304 of a clause `insert`.
pub(crate) fn wrong_insert<'a>(clause: Clause<'a>) -> Option<&'a [u8]>
    ensures { option_copied result ≡ first (wrong_sets subfields_at (seen_clause clause.entry)) }
{
    wrong_sets(subfields_at(clause.elements), clause)
}

/// The first text of E304 of a clause `extract`.
pub(crate) fn wrong_extract<'a>(clause: Clause<'a>) -> Option<&'a [u8]>
    ensures { option_copied result ≡ first (wrong_sets itself_at (seen_clause clause.entry)) }
{
    wrong_sets(itself_at(clause.elements), clause)
}

/// The first text of E307 of a clause `insert` or `extract`.
pub(crate) fn left_out_sets<'a>(clause: Clause<'a>) -> Option<&'a [u8]>
    ensures { option_copied result ≡ first (left_out_sets (seen_clause clause.entry)) }
{
    match sets_behind(clause.content) {
        Some(sets) => left_out_in_sets(sets),
        None => None,
    }
}
