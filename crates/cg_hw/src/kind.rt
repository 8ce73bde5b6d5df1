//! The type of hardware.

ghost use Rattle.std.specs.Prelude.{◌≡◌, if◌then◌else◌, Some, None};
ghost use Rattle.cg_hw.specs.declared.kind.Cells.TheVariants.{Other};
ghost use Rattle.std.specs.Option.{option_copied};
ghost use Rattle.cg_base.specs.Refusing.{first};
ghost use Rattle.cg_base.specs.Parts.{headed_in};
ghost use Rattle.cg_hw.specs.Types.{names_mode, is_count, registers, is_sized_in, is_sized, is_immediate, type_named, cells_by, cells_of, cells_at, wrong_type, left_out_type};

use cg_attrs::{Named, content_at, kind_among, misfit, named};
use cg_base::{Form, headed_in, is_value_mode, only_natural};

/// The word of a type.
#[derive(Clone, Copy, Debug, PartialEq, Eq)]
pub(crate) enum TypeWord {
    /// `register`.
    Register,
    /// `memory`.
    Memory,
    /// `immediate`.
    Immediate,
    /// A word with nothing behind it.
    Bare,
}

/// The cells that hardware has.
#[derive(Clone, Copy, Debug, PartialEq, Eq)]
pub(crate) enum Cells {
    /// A register without a written count.
    Single,
    /// Registers with a written count.
    Counted,
    /// Hardware that is no register.
    Other,
}

/// Whether the form is the name of a mode.
fn names_mode(form: &Form) -> bool
    ensures { result ≡ names_mode form.now }
{
    match form.symbol() {
        Some(text) => is_value_mode(text.as_slice()),
        None => false,
    }
}

/// Whether the form is a count in a list of its own.
fn is_count(form: &Form) -> bool
    ensures { result ≡ is_count form.now }
{
    match form.elements() {
        Some(elements) => only_natural(elements).is_some(),
        None => false,
    }
}

/// The registers that stand behind that word of a type.
fn registers(forms: &[Form]) -> Option<Cells>
    ensures { result ≡ registers forms.now }
{
    match forms {
        [mode] if names_mode(mode) => Some(Cells::Single),
        [mode, count] if names_mode(mode) && is_count(count) => Some(Cells::Counted),
        _ => None,
    }
}

/// Whether the elements are `MODE n`.
fn is_sized_in(forms: &[Form]) -> bool
    ensures { result ≡ is_sized_in forms.now }
{
    match forms {
        [mode, number] => names_mode(mode) && number.number().is_some(),
        _ => false,
    }
}

/// Whether the form is `(MODE n)`.
fn is_sized(form: &Form) -> bool
    ensures { result ≡ is_sized form.now }
{
    match form.elements() {
        Some(elements) => is_sized_in(elements),
        None => false,
    }
}

/// Whether the forms may stand behind `immediate`.
fn is_immediate(forms: &[Form]) -> bool
    ensures { result ≡ is_immediate forms.now }
{
    match forms {
        [form] => names_mode(form) || is_sized(form),
        _ => false,
    }
}

/// The words of the types.
static TYPE_WORDS: [Named<TypeWord>; 6] = [
    named!(b"register", TypeWord::Register),
    named!(b"memory", TypeWord::Memory),
    named!(b"pc", TypeWord::Bare),
    named!(b"immediate", TypeWord::Immediate),
    named!(b"address", TypeWord::Bare),
    named!(b"iaddress", TypeWord::Bare),
];

/// The type of this word. None exactly where it is left out.
fn type_named(name: &[u8]) -> Option<TypeWord>
    ensures { result ≡ type_named name.now }
{
    kind_among(TYPE_WORDS.as_slice(), name)
}

/// Hardware that is no register, where its type is of its kind.
fn other_where(of_its_kind: bool) -> Option<Cells>
    ensures { result ≡ (if of_its_kind then Some Other else None) }
{
    if of_its_kind {
        Some(Cells::Other)
    } else {
        None
    }
}

/// The cells that a word of a type, and what stands behind it, give.
fn cells_by(word: TypeWord, forms: &[Form]) -> Option<Cells>
    ensures { result ≡ cells_by word forms.now }
{
    match word {
        TypeWord::Register => registers(forms),
        TypeWord::Memory => Some(Cells::Other),
        TypeWord::Immediate => other_where(is_immediate(forms)),
        TypeWord::Bare => other_where(forms.is_empty()),
    }
}

/// The cells that the content of a clause `type` gives, where it is of its kind.
#[tactic(auto, unfolding(crate::specs::Types::cells_of, crate::specs::Types::cells_in))]
fn cells_of(forms: &[Form]) -> Option<Cells>
    ensures { result ≡ cells_of forms.now }
{
    let (word, rest) = headed_in(forms)?;
    cells_by(type_named(word.as_slice())?, rest)
}

/// The cells that the clause `type` among these elements gives, where it is of its kind.
#[tactic(auto, unfolding(crate::specs::Types::cells_at))]
pub(crate) fn cells_at(elements: &[Form]) -> Option<Cells>
    ensures { result ≡ cells_at elements.now }
{
    cells_of(content_at(elements, b"type")?)
}

/// The clause's name, where its content is no type, nor one that is left out.
pub(crate) fn wrong_type<'a>(name: &'a [u8], forms: &[Form]) -> Option<&'a [u8]>
    ensures { option_copied result ≡ first (wrong_type name.now (headed_in forms.now)) }
{
    match headed_in(forms) {
        Some((word, rest)) => match type_named(word.as_slice()) {
            Some(word) => misfit(cells_by(word, rest).is_some(), name),
            None => None,
        },
        None => Some(name),
    }
}

/// The word of a type that is left out.
pub(crate) fn left_out_type(forms: &[Form]) -> Option<&[u8]>
    ensures { option_copied result ≡ first (left_out_type (headed_in forms.now)) }
{
    match headed_in(forms) {
        Some((word, _)) => match type_named(word.as_slice()) {
            Some(_) => None,
            None => Some(word.as_slice()),
        },
        None => None,
    }
}
