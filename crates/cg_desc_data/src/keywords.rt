//! The words of hardware.

ghost use Rattle.std.specs.Prelude.{◌≡◌, [], map, codes, IfOk};
ghost use Rattle.std.specs.Option.{option_copied, unwrap_or};
ghost use Rattle.cg_base.specs.Parts.{word_of};
ghost use Rattle.cg_base.specs.Operations.{wrapped};
ghost use Rattle.cg_base.specs.Texts.{same_text};
ghost use Rattle.cg_desc_data.specs.Seen.{seen};
ghost use Rattle.cg_desc_data.specs.Hardware as spec;

use crate::selecting::Selection;
use cg_attrs::{Frame, KeywordForm};
use cg_base::{Form, List, NoMemory, Text, only_symbol};
use cg_desc_elements::{Element, Namespace};
use cg_desc_names::{Item, items_of};
use cg_hw::HardwareForm;
use cg_model::{Keyword, NamedValue};
use cg_rtl_resolve::elements_or_none;
use std::alloc::Global;

/// A number modulo 2^64.
pub fn wrapped(number: i64) -> u64
    ensures { result ≡ wrapped 64 number }
{
    (number as i128).rem_euclid(18446744073709551616) as u64
}

/// A word and its value.
fn word_in(item: &Item) -> Result<NamedValue, NoMemory>
    ensures { IfOk result (λ word. word ≡ spec.word_in item.now) }
{
    Ok(NamedValue {
        word: item.name.clone()?,
        value: wrapped(item.value),
    })
}

/// The words of items.
fn words_in(alloc: Global, items: &[Item]) -> Result<List<NamedValue>, NoMemory>
    ensures { IfOk result (λ words. words ≡ map spec.word_in items.now) }
{
    let mut words = List::new(alloc);
    for item in items {
        words.push(word_in(item)?)?;
    }
    Ok(words)
}

/// The words of items behind a prefix.
fn keyword_of(alloc: Global, prefix: &[u8], forms: &[Form]) -> Result<Keyword, NoMemory>
    ensures { IfOk result (λ keyword. keyword ≡ spec.keyword_of prefix.now forms.now) }
{
    let items = items_of(alloc, prefix, forms)?;
    Ok(Keyword {
        words: words_in(alloc, items.as_slice())?,
    })
}

/// The text of a symbol or a string, and no bytes of what is neither.
fn word_or_none(form: &Form) -> &[u8]
    ensures { result.now ≡ unwrap_or (word_of form.now) [] }
{
    match form.word() {
        Some(word) => word.as_slice(),
        None => &[],
    }
}

/// The words of `prefix ((name value) ..)`.
#[tactic(auto, unfolding(crate::specs::Hardware::own_words))]
fn own_words(alloc: Global, forms: &[Form]) -> Result<Option<Keyword>, NoMemory>
    ensures { IfOk result (λ keyword. keyword ≡ spec.own_words forms.now) }
{
    match forms {
        [prefix, items] => Ok(Some(keyword_of(
            alloc,
            word_or_none(prefix),
            elements_or_none(items),
        )?)),
        _ => Ok(None),
    }
}

/// The form of a keyword.
fn keyword_in(element: &Element) -> Option<&KeywordForm>
    ensures { option_copied result ≡ spec.keyword_in element.now }
{
    match element {
        Element::Frame(Frame::Keyword(form)) => Some(form),
        _ => None,
    }
}

/// The keyword of this name that takes part. None exactly where there is none (docs/LANGUAGE.md, "Hardware").
pub fn keyword_named<'a>(selection: &Selection<'a>, name: &Text) -> Option<&'a KeywordForm>
    ensures { option_copied result ≡ spec.keyword_named (seen selection.now) name.now }
{
    match selection.named(Namespace::Keywords, name) {
        Some(element) => keyword_in(element),
        None => None,
    }
}

/// The words of a keyword's form, with their values modulo 2^64 (docs/LANGUAGE.md, "Hardware").
pub fn words_of(alloc: Global, form: &KeywordForm) -> Result<Keyword, NoMemory>
    ensures { IfOk result (λ keyword. keyword ≡ spec.words_of form.now) }
{
    let items = elements_or_none(&form.values);
    match &form.prefix {
        Some(prefix) => keyword_of(alloc, prefix.as_slice(), items),
        None => keyword_of(alloc, &[], items),
    }
}

/// The words of the keyword of this name.
fn words_named(
    alloc: Global,
    selection: &Selection,
    name: &Text,
) -> Result<Option<Keyword>, NoMemory>
    ensures { IfOk result (λ keyword. keyword ≡ spec.words_named (seen selection.now) name.now) }
{
    match keyword_named(selection, name) {
        Some(form) => Ok(Some(words_of(alloc, form)?)),
        None => Ok(None),
    }
}

/// The words of the keyword that is named there.
fn extern_words(
    alloc: Global,
    selection: &Selection,
    forms: &[Form],
) -> Result<Option<Keyword>, NoMemory>
    ensures { IfOk result (λ keyword. keyword ≡ spec.extern_words (seen selection.now) forms.now) }
{
    match only_symbol(forms) {
        Some(name) => words_named(alloc, selection, name),
        None => Ok(None),
    }
}

/// Whether a head says that a keyword is named behind it.
fn is_extern(head: &[u8]) -> bool
    ensures { result ≡ same_text (codes "extern-keyword") head.now }
{
    b"extern-keyword".as_slice() == head
}

/// The words of `keyword ..` or `extern-keyword ..`.
fn words_behind(
    alloc: Global,
    selection: &Selection,
    head: &[u8],
    forms: &[Form],
) -> Result<Option<Keyword>, NoMemory>
    ensures { IfOk result (λ keyword. keyword ≡ spec.words_behind (seen selection.now) (head.now, forms.now)) }
{
    if is_extern(head) {
        extern_words(alloc, selection, forms)
    } else {
        own_words(alloc, forms)
    }
}

/// The words that a clause says.
fn words_said(
    alloc: Global,
    selection: &Selection,
    form: &Form,
) -> Result<Option<Keyword>, NoMemory>
    ensures { IfOk result (λ keyword. keyword ≡ spec.words_in (seen selection.now) form.now) }
{
    match form.headed() {
        Some((head, forms)) => words_behind(alloc, selection, head.as_slice(), forms),
        None => Ok(None),
    }
}

/// The words of hardware: those of its indices, else of its values. None where it has neither, and where
/// they name a keyword that isn't there (docs/LANGUAGE.md, "Hardware").
pub fn words(
    alloc: Global,
    selection: &Selection,
    form: &HardwareForm,
) -> Result<Option<Keyword>, NoMemory>
    ensures { IfOk result (λ keyword. keyword ≡ spec.words (seen selection.now) form.now) }
{
    match &form.indices {
        Some(indices) => words_said(alloc, selection, indices),
        None => match &form.values {
            Some(values) => words_said(alloc, selection, values),
            None => Ok(None),
        },
    }
}
