//! What stands in a form (docs/LANGUAGE.md, "Texts and forms").

ghost use Rattle.std.specs.Prelude.{◌≡◌, find};
ghost use Rattle.std.specs.Option.{option_copied, option_map};
ghost use Rattle.std.specs.List.{list_all};
ghost use Rattle.cg_base.specs.Parts.{symbol_of, is_symbol, string_of, word_of, number_of, natural_of, flag_of, elements_of, headed, headed_in, is_headed, clause_of, only, only_symbol, only_word, only_number, only_natural, only_flag};

use crate::{Form, Text};

impl Form {
    /// The text of a symbol. None exactly where the form is no symbol.
    pub fn symbol(&self) -> Option<&Text>
        ensures { option_copied result ≡ symbol_of self.now }
    {
        match self {
            Form::Symbol(text) => Some(text),
            _ => None,
        }
    }

    /// Whether the form is a symbol.
    pub fn is_symbol(&self) -> bool
        ensures { result ≡ is_symbol self.now }
    {
        self.symbol().is_some()
    }

    /// The text of a string. None exactly where the form is no string.
    pub fn string(&self) -> Option<&Text>
        ensures { option_copied result ≡ string_of self.now }
    {
        match self {
            Form::Str(text) => Some(text),
            _ => None,
        }
    }

    /// The text of a word, which is a symbol or a string. None exactly where the form is neither.
    pub fn word(&self) -> Option<&Text>
        ensures { option_copied result ≡ word_of self.now }
    {
        match self {
            Form::Symbol(text) | Form::Str(text) => Some(text),
            _ => None,
        }
    }

    /// The value of a number. None exactly where the form is no number.
    pub fn number(&self) -> Option<i64>
        ensures { result ≡ number_of self.now }
    {
        match self {
            Form::Number(number) => Some(*number),
            _ => None,
        }
    }

    /// The value of a number from 0. None exactly where the form is no number, or one below 0.
    pub fn natural(&self) -> Option<u64>
        ensures { result ≡ natural_of self.now }
    {
        match self {
            Form::Number(number) => u64::try_from(*number).ok(),
            _ => None,
        }
    }

    /// The value of a flag. None exactly where the form is no flag.
    pub fn flag(&self) -> Option<bool>
        ensures { result ≡ flag_of self.now }
    {
        match self {
            Form::Flag(flag) => Some(*flag),
            _ => None,
        }
    }

    /// The elements of a list, its head among them. None exactly where the form is no list.
    pub fn elements(&self) -> Option<&[Form]>
        ensures { option_copied result ≡ elements_of self.now }
    {
        match self {
            Form::Items(items) => Some(items.as_slice()),
            _ => None,
        }
    }

    /// A list headed by a symbol: that symbol, and the elements behind it. None exactly where
    /// the form is no list, or its first element no symbol.
    #[tactic(auto, unfolding(crate::specs::Parts::headed))]
    pub fn headed(&self) -> Option<(&Text, &[Form])>
        ensures { option_map (λ x. (x.0.now, x.1.now)) result ≡ headed self.now }
    {
        headed_in(self.elements()?)
    }

    /// The first clause of this name: the first element behind the head that is a list headed
    /// by the symbol `name`. None exactly where there is none, as where the form is no list. The
    /// form's own head may be of any kind.
    #[tactic(auto, unfolding(crate::specs::Parts::clause_of))]
    pub fn clause(&self, name: &[u8]) -> Option<&Form>
        ensures { option_copied result ≡ clause_of name.now self.now }
    {
        let (_, rest) = self.elements()?.split_first()?;
        first_headed(rest, name)
    }
}

/// The symbol that heads these elements of a list, and the elements behind it. None exactly where
/// there is no element, or the first is no symbol.
pub fn headed_in(elements: &[Form]) -> Option<(&Text, &[Form])>
    ensures { option_map (λ x. (x.0.now, x.1.now)) result ≡ headed_in elements.now }
{
    let (head, rest) = elements.split_first()?;
    Some((head.symbol()?, rest))
}

/// Whether the form is a list headed by this symbol.
fn is_headed(form: &Form, name: &[u8]) -> bool
    ensures { result ≡ is_headed name.now form.now }
{
    match form.headed() {
        Some((head, _)) => head.as_slice() == name,
        None => false,
    }
}

/// The first list headed by this symbol.
fn first_headed<'a>(forms: &'a [Form], name: &[u8]) -> Option<&'a Form>
    ensures { option_copied result ≡ find (is_headed name.now) forms.now }
{
    forms.iter().find(|form| is_headed(form, name))
}

/// Whether each of the forms is a symbol.
pub fn are_symbols(forms: &[Form]) -> bool
    ensures { result ≡ list_all is_symbol forms.now }
{
    forms.iter().all(Form::is_symbol)
}

/// The one element of a list. None exactly where there is none, or more than one.
pub fn only<T>(items: &[T]) -> Option<&T>
    ensures { option_copied result ≡ only items.now }
{
    match items {
        [item] => Some(item),
        _ => None,
    }
}

/// The text of the one element of a list, a symbol.
#[tactic(auto, unfolding(crate::specs::Parts::only_symbol))]
pub fn only_symbol(forms: &[Form]) -> Option<&Text>
    ensures { option_copied result ≡ only_symbol forms.now }
{
    only(forms)?.symbol()
}

/// The text of the one element of a list, a symbol or a string.
#[tactic(auto, unfolding(crate::specs::Parts::only_word))]
pub fn only_word(forms: &[Form]) -> Option<&Text>
    ensures { option_copied result ≡ only_word forms.now }
{
    only(forms)?.word()
}

/// The value of the one element of a list, a number.
#[tactic(auto, unfolding(crate::specs::Parts::only_number))]
pub fn only_number(forms: &[Form]) -> Option<i64>
    ensures { result ≡ only_number forms.now }
{
    only(forms)?.number()
}

/// The value of the one element of a list, a number from 0.
#[tactic(auto, unfolding(crate::specs::Parts::only_natural))]
pub fn only_natural(forms: &[Form]) -> Option<u64>
    ensures { result ≡ only_natural forms.now }
{
    only(forms)?.natural()
}

/// The value of the one element of a list, a flag.
#[tactic(auto, unfolding(crate::specs::Parts::only_flag))]
pub fn only_flag(forms: &[Form]) -> Option<bool>
    ensures { result ≡ only_flag forms.now }
{
    only(forms)?.flag()
}
