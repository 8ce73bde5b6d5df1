ghost use Rattle.std.specs.Prelude.{◌≡◌, ◌++◌, codes, OnOk, IfOk};
ghost use Rattle.std.specs.Option.{option_map};
ghost use Rattle.std.specs.List.{list_any, list_all, filter_map};
ghost use Rattle.cg_attrs.specs.Attrs.{is_bitset, is_known_flag, as_attr, flag_named, bare, single, given, given_in, attr_of, is_attr, attrs_of, attrs_faults, words_of, words, value_by_words};
ghost use Rattle.cg_base.specs.Texts.{same_text};
ghost use Rattle.cg_base.specs.Refusing.{refusal_at, least};
ghost use Rattle.cg_base.specs.Answering.{Stops, GivesForm};

use cg_base::{
    Fault, Form, List, NoMemory, Stop, Text, are_symbols, is_among, only, refusals, stop_at,
};
use std::alloc::Global;

/// An attribute of a form (docs/LANGUAGE.md, "Attributes").
#[derive(Debug, Drop, Clone, PartialEq, Eq)]
pub struct Attr {
    /// Its name, without the `!` in front.
    pub name: Text,
    /// What it says.
    pub value: AttrValue,
}

/// What an attribute says.
#[derive(Debug, Drop, Clone, PartialEq, Eq)]
pub enum AttrValue {
    /// `NAME` and `(NAME #t)` are true, `!NAME` and `(NAME #f)` are false.
    Flag(bool),
    /// `(NAME 5)`.
    Number(i64),
    /// `(NAME word)`, but for `MACH` and `ISA`.
    Name(Text),
    /// `(NAME word ..)` and `(NAME word,word)`, and each value of `MACH` and `ISA`: the words in
    /// order.
    Names(List<Text>),
}

/// What an attribute says, as it stands in its form.
#[derive(Clone, Copy)]
pub(crate) enum Said<'a> {
    /// A flag.
    Flag(bool),
    /// A number.
    Number(i64),
    /// Symbols, each of them names with commas between.
    Names(&'a [Form]),
}

/// Whether the attribute of this name is a set of words: `MACH` or `ISA`.
pub fn is_bitset(name: &[u8]) -> bool
    ensures { result ≡ is_bitset name.now }
{
    matches!(name, b"MACH" | b"ISA")
}

/// Whether the attribute of this name is known as a flag, without a definition (docs/LANGUAGE.md,
/// "Attributes").
pub fn is_known_flag(name: &[u8]) -> bool
    ensures { result ≡ is_known_flag name.now }
{
    is_among(KNOWN_FLAGS.as_slice(), name)
}

/// The attributes that are known as flags.
const KNOWN_FLAGS: [&[u8]; 22] = [
    b"ALIAS",
    b"NO-DIS",
    b"VIRTUAL",
    b"META",
    b"PROFILE",
    b"CACHE-ADDR",
    b"PC",
    b"PCREL-ADDR",
    b"ABS-ADDR",
    b"RESERVED",
    b"SIGN-OPT",
    b"SIGNED",
    b"NEGATIVE",
    b"RELAX",
    b"SEM-ONLY",
    b"UNCOND-CTI",
    b"COND-CTI",
    b"SKIP-CTI",
    b"DELAY-SLOT",
    b"RELAXABLE",
    b"RELAXED",
    b"PBB",
];

/// A flag, where its name may have one.
fn flag_named(name: &[u8], value: bool) -> Option<(&[u8], Said<'_>)>
    ensures { option_map as_attr result ≡ flag_named name.now value }
{
    if name.is_empty() || is_bitset(name) {
        None
    } else {
        Some((name, Said::Flag(value)))
    }
}

/// `NAME` or `!NAME`.
fn bare(text: &[u8]) -> Option<(&[u8], Said<'_>)>
    ensures { option_map as_attr result ≡ bare text.now }
{
    match text.split_first() {
        Some((b'!', name)) => flag_named(name, false),
        _ => flag_named(text, true),
    }
}

/// `(NAME value)`, the value a number or a flag.
fn single<'a>(name: &'a [u8], value: &Form) -> Option<(&'a [u8], Said<'a>)>
    ensures { option_map as_attr result ≡ single name.now value.now }
{
    match value {
        Form::Number(number) => {
            if is_bitset(name) || is_known_flag(name) {
                None
            } else {
                Some((name, Said::Number(*number)))
            }
        }
        Form::Flag(flag) => {
            if is_bitset(name) {
                None
            } else {
                Some((name, Said::Flag(*flag)))
            }
        }
        _ => None,
    }
}

/// `(NAME value ..)`.
#[tactic(auto, unfolding(crate::specs::Attrs::given))]
fn given<'a>(name: &'a [u8], values: &'a [Form]) -> Option<(&'a [u8], Said<'a>)>
    ensures { option_map as_attr result ≡ given name.now values.now }
{
    if values.is_empty() {
        return None;
    }
    if !are_symbols(values) {
        return single(name, only(values)?);
    }
    if is_known_flag(name) {
        None
    } else {
        Some((name, Said::Names(values)))
    }
}

/// The form `(NAME value ..)`.
#[tactic(auto, unfolding(crate::specs::Attrs::given_in))]
fn given_in(form: &Form) -> Option<(&[u8], Said<'_>)>
    ensures { option_map as_attr result ≡ given_in form.now }
{
    let (name, values) = form.headed()?;
    given(name.as_slice(), values)
}

/// An attribute, as it stands in its form.
fn attribute(form: &Form) -> Option<(&[u8], Said<'_>)>
    ensures { option_map as_attr result ≡ attr_of form.now }
{
    match form.symbol() {
        Some(text) => bare(text.as_slice()),
        None => given_in(form),
    }
}

/// Whether the form is an attribute.
pub(crate) fn is_attr(form: &Form) -> bool
    ensures { result ≡ is_attr form.now }
{
    attribute(form).is_some()
}

/// Whether each of the forms is an attribute.
pub(crate) fn are_attrs(forms: &[Form]) -> bool
    ensures { result ≡ list_all is_attr forms.now }
{
    forms.iter().all(is_attr)
}

/// Puts the words between the commas of a text at the end.
fn push_words(alloc: Global, names: &mut List<Text>, text: &[u8]) -> Result<(), NoMemory>
    ensures { OnOk result (names.new ≡ names.old ++ words_of text.now) }
{
    let mut word = Text::new(alloc);
    for byte in text {
        if *byte == b',' {
            names.push(word)?;
            word = Text::new(alloc);
        } else {
            word.push(*byte)?;
        }
    }
    names.push(word)
}

/// The words of symbols.
fn words(alloc: Global, symbols: &[Form]) -> Result<List<Text>, NoMemory>
    ensures { IfOk result (λ names. names ≡ words symbols.now) }
{
    let mut names = List::new(alloc);
    for form in symbols {
        if let Some(text) = form.symbol() {
            push_words(alloc, &mut names, text.as_slice())?;
        }
    }
    Ok(names)
}

/// What an attribute says by its names.
fn value_by_words(alloc: Global, name: &[u8], symbols: &[Form]) -> Result<AttrValue, NoMemory>
    ensures { IfOk result (λ value. value ≡ value_by_words name.now (words symbols.now)) }
{
    let names = words(alloc, symbols)?;
    if is_bitset(name) {
        return Ok(AttrValue::Names(names));
    }
    match names.as_slice() {
        [only] => Ok(AttrValue::Name(only.clone()?)),
        _ => Ok(AttrValue::Names(names)),
    }
}

/// An attribute in memory of its own.
fn owned(alloc: Global, name: &[u8], said: Said<'_>) -> Result<Attr, NoMemory>
    ensures { IfOk result (λ attr. attr ≡ as_attr (name.entry, said.entry)) }
{
    let value = match said {
        Said::Flag(flag) => AttrValue::Flag(flag),
        Said::Number(number) => AttrValue::Number(number),
        Said::Names(symbols) => value_by_words(alloc, name, symbols)?,
    };
    Ok(Attr {
        name: Text::of(alloc, name)?,
        value,
    })
}

/// The attributes among the forms, in order. A form that is none is left out.
pub fn attrs_among(alloc: Global, forms: &[Form]) -> Result<List<Attr>, NoMemory>
    ensures { IfOk result (λ attrs. attrs ≡ filter_map attr_of forms.now) }
{
    let mut attrs = List::new(alloc);
    for form in forms {
        if let Some((name, said)) = attribute(form) {
            attrs.push(owned(alloc, name, said)?)?;
        }
    }
    Ok(attrs)
}

/// What stops the reading of what isn't a list of attributes.
fn no_attrs(alloc: Global) -> Stop
    ensures { Stops (λ refusal. refusal ≡ refusal_at 0 0 (304, codes "attrs")) result }
{
    let fault = Fault {
        number: refusals::WRONG_KIND,
        text: b"attrs",
    };
    stop_at(alloc, 0, 0, fault)
}

/// The attributes of a list of them, which is what stands behind the name of a clause `attrs`.
/// A form that is no list, or has an element that is no attribute, is E304 with the text
/// `attrs` (docs/REFUSALS.md).
pub fn read_attrs(alloc: Global, form: &Form) -> Result<List<Attr>, Stop>
    ensures { GivesForm 0 0 (least (attrs_faults form.now)) (attrs_of form.now) result }
{
    match form.elements() {
        Some(forms) => {
            if are_attrs(forms) {
                Ok(attrs_among(alloc, forms)?)
            } else {
                Err(no_attrs(alloc))
            }
        }
        None => Err(no_attrs(alloc)),
    }
}
