//! The words of hardware's indices and values.

ghost use Rattle.std.specs.Prelude.{◌≡◌};
ghost use Rattle.std.specs.List.{list_all};
ghost use Rattle.cg_hw.specs.Keywords.{is_word_byte, is_word, may_name, names_word, makes_word, are_words, has_words, is_keyword};

use cg_attrs::are_items;
use cg_base::{Form, headed_in, only_symbol};

/// Whether a word of a keyword may have this byte.
fn is_word_byte(byte: u8) -> bool
    ensures { result ≡ is_word_byte byte }
{
    matches!(byte, b'0'..=b'9' | b'A'..=b'Z' | b'a'..=b'z' | b'_' | b'.' | b'%' | b'$')
}

/// Whether a word of a keyword may have these bytes.
fn are_word_bytes(bytes: &[u8]) -> bool
    ensures { result ≡ list_all is_word_byte bytes.now }
{
    bytes.iter().all(|byte| is_word_byte(*byte))
}

/// Whether the name behind the prefix is a word of a keyword.
fn is_word(prefix: &[u8], name: &[u8]) -> bool
    ensures { result ≡ is_word prefix.now name.now }
{
    are_word_bytes(prefix) && are_word_bytes(name) && !(prefix.is_empty() && name.is_empty())
}

/// Whether an item may have this name behind the prefix.
fn may_name(prefix: &[u8], name: &[u8]) -> bool
    ensures { result ≡ may_name prefix.now name.now }
{
    match name {
        b"-" => true,
        _ => is_word(prefix, name),
    }
}

/// Whether an item may have this form as its name behind the prefix.
fn names_word(prefix: &[u8], name: &Form) -> bool
    ensures { result ≡ names_word prefix.now name.now }
{
    match name {
        Form::Symbol(text) | Form::Str(text) => may_name(prefix, text.as_slice()),
        Form::Number(number) => *number >= 0 && are_word_bytes(prefix),
        _ => false,
    }
}

/// Whether the name of an item, alone or with a value, may stand behind the prefix.
fn makes_word(prefix: &[u8], item: &Form) -> bool
    ensures { result ≡ makes_word prefix.now item.now }
{
    match item.elements() {
        Some(elements) => match elements {
            [name, ..] => names_word(prefix, name),
            [] => false,
        },
        None => names_word(prefix, item),
    }
}

/// Whether the name of each item may stand behind the prefix.
fn make_words(prefix: &[u8], items: &[Form]) -> bool
    ensures { result ≡ list_all (makes_word prefix.now) items.now }
{
    items.iter().all(|item| makes_word(prefix, item))
}

/// Whether the forms are items whose names may stand behind the prefix.
fn are_words(prefix: &[u8], forms: &[Form]) -> bool
    ensures { result ≡ are_words prefix.now forms.now }
{
    are_items(forms) && make_words(prefix, forms)
}

/// Whether the forms are a prefix and a list of items.
fn has_words(forms: &[Form]) -> bool
    ensures { result ≡ has_words forms.now }
{
    match forms {
        [prefix, items] => match (prefix.word(), items.elements()) {
            (Some(prefix), Some(items)) => are_words(prefix.as_slice(), items),
            _ => false,
        },
        _ => false,
    }
}

/// Whether the content is words of a keyword, or the name of one.
pub(crate) fn is_keyword(forms: &[Form]) -> bool
    ensures { result ≡ is_keyword forms.now }
{
    match headed_in(forms) {
        Some((word, rest)) => match word.as_slice() {
            b"keyword" => has_words(rest),
            b"extern-keyword" => only_symbol(rest).is_some(),
            _ => false,
        },
        None => false,
    }
}
