//! What the clauses of a form say, in memory of its own. A form is read once it has no fault, so
//! each wanted clause stands; of one that doesn't the answer would be empty.

ghost use Rattle.std.specs.Prelude.{◌≡◌, pos, [], ◌++◌, map, slice_get, IfOk};
ghost use Rattle.std.specs.Option.{option_copied, option_map, unwrap_or};
ghost use Rattle.std.specs.List.{filter_map};
ghost use Rattle.cg_base.specs.declared.form.Form.TheVariants.{Items};
ghost use Rattle.cg_base.specs.Texts.{is_named};
ghost use Rattle.cg_base.specs.Parts.{symbol_of};
ghost use Rattle.cg_attrs.specs.Lookups.{symbol_at, word_at, flag_at, number_at, content_or_none, wanted_symbol, wanted_word, wanted_number, wanted_symbols, optional_symbols, wanted_form, optional_form, attrs_at, unit_of, units};

use crate::attr::{Attr, attrs_among};
use crate::clauses::{content, content_at, stands_as};
use cg_base::{Form, List, NoMemory, Text, only_flag, only_number, only_symbol, only_word};
use std::alloc::Global;

/// A text in memory of its own, empty for none.
pub(crate) fn text_or_none(alloc: Global, text: Option<&Text>) -> Result<Text, NoMemory>
    ensures { IfOk result (λ copy. copy ≡ unwrap_or (option_copied text.entry) []) }
{
    match text {
        Some(text) => Ok(text.clone()?),
        None => Ok(Text::new(alloc)),
    }
}

/// A text in memory of its own, if there is one.
fn optional_text(text: Option<&Text>) -> Result<Option<Text>, NoMemory>
    ensures { IfOk result (λ copy. copy ≡ option_copied text.entry) }
{
    match text {
        Some(text) => Ok(Some(text.clone()?)),
        None => Ok(None),
    }
}

/// Whether the form is the symbol of this name.
pub fn is_named(form: &Form, name: &[u8]) -> bool
    ensures { result ≡ is_named name.now (symbol_of form.now) }
{
    match form.symbol() {
        Some(text) => text.as_slice() == name,
        None => false,
    }
}

/// The symbol of a clause.
#[tactic(auto, unfolding(crate::specs::Lookups::symbol_at))]
fn symbol_at<'a>(elements: &'a [Form], name: &[u8]) -> Option<&'a Text>
    ensures { option_copied result ≡ symbol_at name.now elements.now }
{
    only_symbol(content_at(elements, name)?)
}

/// The symbol or the string of a clause.
#[tactic(auto, unfolding(crate::specs::Lookups::word_at))]
fn word_at<'a>(elements: &'a [Form], name: &[u8]) -> Option<&'a Text>
    ensures { option_copied result ≡ word_at name.now elements.now }
{
    only_word(content_at(elements, name)?)
}

/// The flag of a clause that may be absent.
#[tactic(auto, unfolding(crate::specs::Lookups::flag_at))]
pub fn optional_flag(elements: &[Form], name: &[u8]) -> Option<bool>
    ensures { result ≡ flag_at name.now elements.now }
{
    only_flag(content_at(elements, name)?)
}

/// The number of a clause that may be absent.
#[tactic(auto, unfolding(crate::specs::Lookups::number_at))]
pub fn optional_number(elements: &[Form], name: &[u8]) -> Option<i64>
    ensures { result ≡ number_at name.now elements.now }
{
    only_number(content_at(elements, name)?)
}

/// The symbol of a clause that stands.
pub fn wanted_symbol(alloc: Global, elements: &[Form], name: &[u8]) -> Result<Text, NoMemory>
    ensures { IfOk result (λ text. text ≡ wanted_symbol name.now elements.now) }
{
    text_or_none(alloc, symbol_at(elements, name))
}

/// The symbol or string of a clause that stands.
pub fn wanted_word(alloc: Global, elements: &[Form], name: &[u8]) -> Result<Text, NoMemory>
    ensures { IfOk result (λ text. text ≡ wanted_word name.now elements.now) }
{
    text_or_none(alloc, word_at(elements, name))
}

/// The symbol of a clause that may be absent.
pub fn optional_symbol(elements: &[Form], name: &[u8]) -> Result<Option<Text>, NoMemory>
    ensures { IfOk result (λ text. text ≡ symbol_at name.now elements.now) }
{
    optional_text(symbol_at(elements, name))
}

/// The symbol or string of a clause that may be absent.
pub fn optional_word(elements: &[Form], name: &[u8]) -> Result<Option<Text>, NoMemory>
    ensures { IfOk result (λ text. text ≡ word_at name.now elements.now) }
{
    optional_text(word_at(elements, name))
}

/// The number of a clause that stands.
pub fn wanted_number(elements: &[Form], name: &[u8]) -> i64
    ensures { result ≡ wanted_number name.now elements.now }
{
    optional_number(elements, name).unwrap_or(0)
}

/// What stands behind the name of a clause that stands.
fn content_or_none<'a>(elements: &'a [Form], name: &[u8]) -> &'a [Form]
    ensures { result.now ≡ content_or_none name.now elements.now }
{
    match content_at(elements, name) {
        Some(content) => content,
        None => &[],
    }
}

/// The texts of the symbols among the forms.
fn texts(alloc: Global, forms: &[Form]) -> Result<List<Text>, NoMemory>
    ensures { IfOk result (λ copies. copies ≡ filter_map symbol_of forms.now) }
{
    let mut texts = List::new(alloc);
    for form in forms {
        if let Some(text) = form.symbol() {
            texts.push(text.clone()?)?;
        }
    }
    Ok(texts)
}

/// The symbols of a clause that stands.
pub fn wanted_symbols(alloc: Global, elements: &[Form], name: &[u8]) -> Result<List<Text>, NoMemory>
    ensures { IfOk result (λ texts. texts ≡ wanted_symbols name.now elements.now) }
{
    texts(alloc, content_or_none(elements, name))
}

/// The symbols of a clause that may be absent.
pub fn optional_symbols(
    alloc: Global,
    elements: &[Form],
    name: &[u8],
) -> Result<Option<List<Text>>, NoMemory>
    ensures { IfOk result (λ texts. texts ≡ optional_symbols name.now elements.now) }
{
    match content_at(elements, name) {
        Some(content) => Ok(Some(texts(alloc, content)?)),
        None => Ok(None),
    }
}

/// The forms as a list of their own.
pub fn list_of(alloc: Global, forms: &[Form]) -> Result<Form, NoMemory>
    ensures { IfOk result (λ list. list ≡ Items forms.now) }
{
    let mut copies = List::new(alloc);
    for form in forms {
        copies.push(form.clone()?)?;
    }
    Ok(Form::Items(copies))
}

/// What stands behind the name of a clause that stands.
pub fn wanted_form(alloc: Global, elements: &[Form], name: &[u8]) -> Result<Form, NoMemory>
    ensures { IfOk result (λ form. form ≡ wanted_form name.now elements.now) }
{
    list_of(alloc, content_or_none(elements, name))
}

/// What stands behind the name of a clause that may be absent.
pub fn optional_form(
    alloc: Global,
    elements: &[Form],
    name: &[u8],
) -> Result<Option<Form>, NoMemory>
    ensures { IfOk result (λ form. form ≡ optional_form name.now elements.now) }
{
    match content_at(elements, name) {
        Some(content) => Ok(Some(list_of(alloc, content)?)),
        None => Ok(None),
    }
}

/// What the clause `attrs` among the elements behind a form's head says: attributes, and none
/// where it is absent. An element of the clause that is no attribute is left out, which is E304
/// of the form.
pub fn attrs_at(alloc: Global, elements: &[Form]) -> Result<List<Attr>, NoMemory>
    ensures { IfOk result (λ attrs. attrs ≡ attrs_at elements.now) }
{
    attrs_among(alloc, content_or_none(elements, b"attrs"))
}

/// What stands behind the name of a clause `unit`.
fn unit(form: &Form) -> Option<&[Form]>
    ensures { option_copied result ≡ unit_of form.now }
{
    if stands_as(form, b"unit") {
        content(form)
    } else {
        None
    }
}

/// What stands behind the name of each clause `unit`.
pub(crate) fn units(alloc: Global, elements: &[Form]) -> Result<List<Form>, NoMemory>
    ensures { IfOk result (λ forms. forms ≡ units elements.now) }
{
    let mut units = List::new(alloc);
    for element in elements {
        if let Some(content) = unit(element) {
            units.push(list_of(alloc, content)?)?;
        }
    }
    Ok(units)
}
