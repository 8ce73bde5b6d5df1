ghost use Rattle.std.specs.Prelude.{◌≡◌, codes};
ghost use Rattle.std.specs.Option.{option_copied, option_map};
ghost use Rattle.cg_top_include.specs.Shape.{two, three, four, is_symbol, behind_name, one_behind, symbol_clause, number_clause, comment_of, is_comment, is_empty_clause, past, named};

use cg_base::{Form, Text, only};

/// The elements of a list of just two.
pub fn two<T>(items: &[T]) -> Option<(&T, &T)>
    ensures { option_map (λ x. (x.0.now, x.1.now)) result ≡ two items.now }
{
    let (first, rest) = items.split_first()?;
    let second = only(rest)?;
    Some((first, second))
}

/// The elements of a list of just three.
#[tactic(auto, using(crate::proofs::ShapeLemmas::three_by_only))]
pub fn three<T>(items: &[T]) -> Option<(&T, &T, &T)>
    ensures { option_map (λ x. (x.0.now, x.1.now, x.2.now)) result ≡ three items.now }
{
    let (first, rest) = items.split_first()?;
    let (second, rest) = rest.split_first()?;
    let third = only(rest)?;
    Some((first, second, third))
}

/// The elements of a list of just four.
#[tactic(auto, using(crate::proofs::ShapeLemmas::four_by_three))]
pub fn four<T>(items: &[T]) -> Option<(&T, &T, &T, &T)>
    ensures { option_map (λ x. (x.0.now, x.1.now, x.2.now, x.3.now)) result ≡ four items.now }
{
    let (first, rest) = items.split_first()?;
    let (second, third, fourth) = three(rest)?;
    Some((first, second, third, fourth))
}

/// Whether the form is this symbol.
pub fn is_symbol(form: &Form, name: &[u8]) -> bool
    ensures { result ≡ is_symbol name.now form.now }
{
    match form.symbol() {
        Some(text) => text.as_slice() == name,
        None => false,
    }
}

/// What stands behind the head of a list that is headed by this symbol.
#[tactic(auto, unfolding(crate::specs::Shape::behind_name))]
pub fn behind_name<'a>(form: &'a Form, name: &[u8]) -> Option<&'a [Form]>
    ensures { option_copied result ≡ behind_name name.now form.now }
{
    let (head, rest) = form.elements()?.split_first()?;
    if is_symbol(head, name) {
        Some(rest)
    } else {
        None
    }
}

/// The element behind the head of a list `(NAME X)`.
#[tactic(auto, unfolding(crate::specs::Shape::one_behind))]
pub fn one_behind<'a>(form: &'a Form, name: &[u8]) -> Option<&'a Form>
    ensures { option_copied result ≡ one_behind name.now form.now }
{
    only(behind_name(form, name)?)
}

/// The symbol of a list `(NAME SYMBOL)`.
#[tactic(auto, unfolding(crate::specs::Shape::symbol_clause))]
pub fn symbol_clause<'a>(form: &'a Form, name: &[u8]) -> Option<&'a Text>
    ensures { option_copied result ≡ symbol_clause name.now form.now }
{
    one_behind(form, name)?.symbol()
}

/// The number of a list `(NAME NUMBER)`.
#[tactic(auto, unfolding(crate::specs::Shape::number_clause))]
pub fn number_clause(form: &Form, name: &[u8]) -> Option<u64>
    ensures { result ≡ number_clause name.now form.now }
{
    one_behind(form, name)?.natural()
}

/// The string of a list `(comment "..")`.
#[tactic(auto, unfolding(crate::specs::Shape::comment_of))]
fn comment_of(form: &Form) -> Option<&Text>
    ensures { option_copied result ≡ comment_of form.now }
{
    one_behind(form, b"comment".as_slice())?.string()
}

fn is_comment(form: &Form) -> bool
    ensures { result ≡ is_comment form.now }
{
    comment_of(form).is_some()
}

/// Whether the form is `(NAME)`, with nothing behind the name.
pub fn is_empty_clause(form: &Form, name: &[u8]) -> bool
    ensures { result ≡ is_empty_clause name.now form.now }
{
    match behind_name(form, name) {
        Some(forms) => forms.is_empty(),
        None => false,
    }
}

fn past_comment(forms: &[Form]) -> &[Form]
    ensures { result.now ≡ past is_comment forms.now }
{
    match forms.split_first() {
        None => forms,
        Some((first, rest)) => { if is_comment(first) { rest } else { forms } }
    }
}

fn past_attrs(forms: &[Form]) -> &[Form]
    ensures { result.now ≡ past (is_empty_clause (codes "attrs")) forms.now }
{
    match forms.split_first() {
        None => forms,
        Some((first, rest)) => {
            if is_empty_clause(first, b"attrs".as_slice()) {
                rest
            } else {
                forms
            }
        }
    }
}

/// The name that stands first among clauses, and the clauses behind it, past a comment and then
/// empty attributes.
#[tactic(auto, unfolding(crate::specs::Shape::named))]
pub fn named(clauses: &[Form]) -> Option<(&Text, &[Form])>
    ensures { option_map (λ x. (x.0.now, x.1.now)) result ≡ named clauses.now }
{
    let (name, rest) = clauses.split_first()?;
    let name = symbol_clause(name, b"name".as_slice())?;
    Some((name, past_attrs(past_comment(rest))))
}
