//! The parts of a format and of an encoding.

ghost use Rattle.std.specs.Prelude.{◌≡◌};
ghost use Rattle.std.specs.Option.{option_map};
ghost use Rattle.cg_insn.specs.Parts.{is_constant_in, is_part, are_parts, is_sum, only_headed, is_encoding, is_format};

use cg_base::{Form, Text, headed_in, only};

/// Whether the elements are a field and a number.
fn is_constant_in(elements: &[Form]) -> bool
    ensures { result ≡ is_constant_in elements.now }
{
    match elements {
        [field, number] => field.is_symbol() && number.number().is_some(),
        _ => false,
    }
}

/// Whether the form is a part.
fn is_part(form: &Form) -> bool
    ensures { result ≡ is_part form.now }
{
    match form.elements() {
        Some(elements) => is_constant_in(elements),
        None => form.is_symbol(),
    }
}

/// Whether each of the forms is a part of a format or of an encoding: a symbol, or
/// `(field number)` (docs/LANGUAGE.md, "Instructions").
pub fn are_parts(forms: &[Form]) -> bool
    ensures { result ≡ are_parts forms.now }
{
    forms.iter().all(is_part)
}

/// Whether a head and the elements behind it are `+ part ..`.
fn is_sum(head: &Text, elements: &[Form]) -> bool
    ensures { result ≡ is_sum (head.now, elements.now) }
{
    matches!(head.as_slice(), b"+") && are_parts(elements)
}

/// A list headed by a symbol that stands alone.
#[tactic(auto, unfolding(crate::specs::Parts::only_headed))]
pub(crate) fn only_headed(forms: &[Form]) -> Option<(&Text, &[Form])>
    ensures { option_map (λ x. (x.0.now, x.1.now)) result ≡ only_headed forms.now }
{
    only(forms)?.headed()
}

/// Whether what stands behind a clause's name is one list `(+ part ..)`.
pub fn is_encoding(forms: &[Form]) -> bool
    ensures { result ≡ is_encoding forms.now }
{
    match only_headed(forms) {
        Some((head, elements)) => is_sum(head, elements),
        None => false,
    }
}

/// Whether what stands behind a clause's name is `(+ part ..)`, or the same without its own list.
pub(crate) fn is_format(forms: &[Form]) -> bool
    ensures { result ≡ is_format forms.now }
{
    match headed_in(forms) {
        Some((head, elements)) => is_sum(head, elements) || is_encoding(forms),
        None => is_encoding(forms),
    }
}
