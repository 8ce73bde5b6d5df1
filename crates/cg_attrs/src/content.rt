//! What may stand behind the name of a clause.

ghost use Rattle.std.specs.Prelude.{◌≡◌, nat_le, pos, Some};
ghost use Rattle.std.specs.Option.{option_copied};
ghost use Rattle.cg_base.specs.Parts.{only, only_symbol, only_natural};
ghost use Rattle.cg_base.specs.Texts.{passes};
ghost use Rattle.std.specs.List.{list_all};
ghost use Rattle.cg_base.specs.Refusing.{first};
ghost use Rattle.cg_attrs.specs.Attrs.{is_attr};
ghost use Rattle.cg_attrs.specs.Contents.{is_alignment, is_endian, is_bit_size, is_word_size, is_small, is_unit, is_item_name, valued, item_value, next_value, are_items, only_elements, fits, misfit, either, left_out_of};

use crate::attr::are_attrs;
use crate::clauses::{Clause, ContentKind};
use cg_base::{Form, are_symbols, only, only_flag, only_natural, only_symbol, only_word};

/// What has to stand behind a clause's name (docs/LANGUAGE.md, "Forms and clauses").
#[derive(Clone, Copy, Debug, PartialEq, Eq)]
pub enum Content {
    /// One symbol.
    Symbol,
    /// Symbols.
    Symbols,
    /// One symbol or string.
    Word,
    /// `#t` or `#f`.
    Flag,
    /// `aligned`, `unaligned` or `forced`.
    Alignment,
    /// `big` or `little`; `either` is left out.
    Endian,
    /// A multiple of 8 from 8 to 64.
    BitSize,
    /// 8, 16, 32 or 64.
    WordSize,
    /// A number from 1.
    Positive,
    /// A number from 0 to 65,535.
    Small,
    /// `name comment attrs issue done state inputs outputs profile`, with a symbol `name` and
    /// `done` from 0 to 65,535.
    Unit,
    /// Items of an enum or a keyword: a name, which is a symbol, a string or a number, or
    /// `(name value ..)`. A name alone has the value before it plus 1, the first 0, and that value
    /// has 64 bits.
    Items,
    /// One list of attributes.
    AttributeList,
    /// One list of items.
    ItemList,
    /// Anything.
    Anything,
}

impl ContentKind for Content {
    ghost use Rattle.cg_attrs.specs.Contents as contents;

    ghost wrong = { contents.wrong };

    ghost left_out = { contents.left_out };

    fn first_wrong<'a>(&self, clause: Clause<'a>) -> Option<&'a [u8]> {
        misfit(fits(*self, clause.content), clause.name)
    }

    fn first_left_out<'a>(&self, clause: Clause<'a>) -> Option<&'a [u8]> {
        first_left_out(*self, clause.content)
    }
}

/// The text of E304 of a clause that is no more than of its kind or not: its name where it isn't.
pub fn misfit(of_its_kind: bool, name: &[u8]) -> Option<&[u8]>
    ensures { option_copied result ≡ first (misfit of_its_kind name.now) }
{
    if of_its_kind { None } else { Some(name) }
}

/// Whether the text names what happens to accesses that are not aligned.
fn is_alignment(text: &[u8]) -> bool
    ensures { result ≡ is_alignment text.now }
{
    matches!(text, b"aligned" | b"unaligned" | b"forced")
}

/// Whether the text names an order of bytes, `either` among them.
fn is_endian(text: &[u8]) -> bool
    ensures { result ≡ is_endian text.now }
{
    matches!(text, b"big" | b"little" | b"either")
}

/// Whether the content is one symbol that names what happens to accesses that are not aligned.
fn fits_alignment(forms: &[Form]) -> bool
    ensures { result ≡ passes is_alignment (only_symbol forms.now) }
{
    match only_symbol(forms) {
        Some(text) => is_alignment(text.as_slice()),
        None => false,
    }
}

/// Whether the content is one symbol that names an order of bytes.
fn fits_endian(forms: &[Form]) -> bool
    ensures { result ≡ passes is_endian (only_symbol forms.now) }
{
    match only_symbol(forms) {
        Some(text) => is_endian(text.as_slice()),
        None => false,
    }
}

/// Whether the content is a multiple of 8 from 8 to 64.
fn fits_bit_size(forms: &[Form]) -> bool
    ensures { result ≡ passes is_bit_size (only_natural forms.now) }
{
    match only_natural(forms) {
        Some(size) => (8..=64).contains(&size) && size % 8 == 0,
        None => false,
    }
}

/// Whether the content is 8, 16, 32 or 64.
fn fits_word_size(forms: &[Form]) -> bool
    ensures { result ≡ passes is_word_size (only_natural forms.now) }
{
    match only_natural(forms) {
        Some(size) => matches!(size, 8 | 16 | 32 | 64),
        None => false,
    }
}

/// Whether the content is a number from 1.
fn fits_positive(forms: &[Form]) -> bool
    ensures { result ≡ passes (λ n. nat_le 1 n) (only_natural forms.now) }
{
    match only_natural(forms) {
        Some(count) => count >= 1,
        None => false,
    }
}

/// Whether the form is a number from 0 to 65,535.
pub fn is_small(form: &Form) -> bool
    ensures { result ≡ is_small form.now }
{
    match form.natural() {
        Some(number) => number <= 65535,
        None => false,
    }
}

/// Whether the content is a number from 0 to 65,535.
fn fits_small(forms: &[Form]) -> bool
    ensures { result ≡ passes is_small (only forms.now) }
{
    match only(forms) {
        Some(form) => is_small(form),
        None => false,
    }
}

/// Whether the content is a unit of a model.
fn is_unit(forms: &[Form]) -> bool
    ensures { result ≡ is_unit forms.now }
{
    match forms {
        [name, _, _, _, done, _, _, _, _] => name.is_symbol() && is_small(done),
        _ => false,
    }
}

/// Whether the form is the name of an item of an enum or a keyword: a symbol, a string or a number.
pub fn is_item_name(form: &Form) -> bool
    ensures { result ≡ is_item_name form.now }
{
    form.word().is_some() || form.number().is_some()
}

/// The value of an item `(name value ..)`.
fn valued(forms: &[Form]) -> Option<i64>
    ensures { result ≡ valued forms.now }
{
    match forms {
        [name, value, ..] if is_item_name(name) => value.number(),
        _ => None,
    }
}

/// The value of an item of an enum or a keyword, where a name alone has the value `plain`. None
/// exactly where the form is no item, or has no value of 64 bits.
pub fn item_value(plain: Option<i64>, form: &Form) -> Option<i64>
    ensures { result ≡ item_value plain form.now }
{
    match form {
        Form::Items(items) => valued(items.as_slice()),
        Form::Symbol(_) | Form::Str(_) | Form::Number(_) => plain,
        Form::Flag(_) => None,
    }
}

/// The value of a name alone behind an item of this value. None exactly where it has no 64 bits.
pub fn next_value(value: i64) -> Option<i64>
    ensures { result ≡ next_value value }
{
    if value < i64::MAX {
        Some(value + 1)
    } else {
        None
    }
}

/// Whether the forms are items of an enum or a keyword, each with a value of 64 bits.
pub fn are_items(forms: &[Form]) -> bool
    ensures { result ≡ are_items (Some (pos 0)) forms.now }
{
    let mut plain = Some(0);
    for form in forms {
        match item_value(plain, form) {
            Some(value) => plain = next_value(value),
            None => return false,
        }
    }
    true
}

/// Whether what stands behind a clause's name is of its kind. `either` of an endian is, and is
/// left out.
fn fits(content: Content, forms: &[Form]) -> bool
    ensures { result ≡ fits content forms.now }
{
    match content {
        Content::Symbol => only_symbol(forms).is_some(),
        Content::Symbols => are_symbols(forms),
        Content::Word => only_word(forms).is_some(),
        Content::Flag => only_flag(forms).is_some(),
        Content::Alignment => fits_alignment(forms),
        Content::Endian => fits_endian(forms),
        Content::BitSize => fits_bit_size(forms),
        Content::WordSize => fits_word_size(forms),
        Content::Positive => fits_positive(forms),
        Content::Small => fits_small(forms),
        Content::Unit => is_unit(forms),
        Content::Items => are_items(forms),
        Content::AttributeList => is_attribute_list(forms),
        Content::ItemList => is_item_list(forms),
        Content::Anything => true,
    }
}

/// The elements of the one list that a content is. None exactly where it is something else.
#[tactic(auto, unfolding(crate::specs::Contents::only_elements))]
pub fn only_elements(forms: &[Form]) -> Option<&[Form]>
    ensures { option_copied result ≡ only_elements forms.now }
{
    only(forms)?.elements()
}

/// Whether the content is one list of attributes.
fn is_attribute_list(forms: &[Form]) -> bool
    ensures { result ≡ passes (list_all is_attr) (only_elements forms.now) }
{
    match only_elements(forms) {
        Some(elements) => are_attrs(elements),
        None => false,
    }
}

/// Whether the content is one list of items.
fn is_item_list(forms: &[Form]) -> bool
    ensures { result ≡ passes (are_items (Some (pos 0))) (only_elements forms.now) }
{
    match only_elements(forms) {
        Some(elements) => are_items(elements),
        None => false,
    }
}

/// What is left out of what stands behind a clause's name: `either` of an endian.
fn first_left_out(content: Content, forms: &[Form]) -> Option<&'static [u8]>
    ensures { option_copied result ≡ first (left_out_of content forms.now) }
{
    match content {
        Content::Endian => either(forms),
        _ => None,
    }
}

/// `either`, where the content is that symbol.
fn either(forms: &[Form]) -> Option<&'static [u8]>
    ensures { option_copied result ≡ first (either forms.now) }
{
    match only_symbol(forms) {
        Some(text) => match text.as_slice() {
            b"either" => Some(b"either"),
            _ => None,
        },
        None => None,
    }
}
