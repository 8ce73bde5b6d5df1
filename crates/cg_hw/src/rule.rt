//! The rules of hardware for reading and writing.

ghost use Rattle.std.specs.Prelude.{◌≡◌};
ghost use Rattle.std.specs.Option.{option_copied};
ghost use Rattle.cg_base.specs.Refusing.{first};
ghost use Rattle.cg_attrs.specs.Clauses.{seen_clause};
ghost use Rattle.cg_rtl.specs.Shapes.{wrong_in, left_out_in};
ghost use Rattle.cg_hw.specs.Types.{cells_at};
ghost use Rattle.cg_hw.specs.Rules.{get_formals, set_formals, first_list, expression, agree, agree_in, is_rule, inside, wrong_rule, left_out_rule};

use crate::kind::{Cells, cells_at};
use cg_attrs::{Clause, is_named};
use cg_base::Form;
use cg_rtl::{first_left_out_in, first_wrong_in};

/// The formals of a rule.
#[derive(Clone, Copy, Debug, PartialEq, Eq)]
pub(crate) enum Formals {
    /// Without `index`.
    Bare,
    /// With `index`.
    Indexed,
}

/// The formals of a rule for reading.
fn get_formals(forms: &[Form]) -> Option<Formals>
    ensures { result ≡ get_formals forms.now }
{
    match forms {
        [] => Some(Formals::Bare),
        [index] if is_named(index, b"index") => Some(Formals::Indexed),
        _ => None,
    }
}

/// The formals of a rule for writing.
fn set_formals(forms: &[Form]) -> Option<Formals>
    ensures { result ≡ set_formals forms.now }
{
    match forms {
        [newval] if is_named(newval, b"newval") => Some(Formals::Bare),
        [index, newval] if is_named(index, b"index") && is_named(newval, b"newval") => Some(
            Formals::Indexed,
        ),
        _ => None,
    }
}

/// The elements of the first of two forms.
fn first_list(forms: &[Form]) -> Option<&[Form]>
    ensures { option_copied result ≡ first_list forms.now }
{
    match forms {
        [list, _] => list.elements(),
        _ => None,
    }
}

/// The expression of a rule, which stands behind its formals. None exactly where there aren't just these
/// two (docs/LANGUAGE.md, "Hardware").
pub fn expression(forms: &[Form]) -> Option<&Form>
    ensures { option_copied result ≡ expression forms.now }
{
    match forms {
        [_, expression] => Some(expression),
        _ => None,
    }
}

/// Whether hardware may have a rule of these formals.
fn agree(cells: Cells, formals: Formals) -> bool
    ensures { result ≡ agree cells formals }
{
    match (cells, formals) {
        (Cells::Single, Formals::Bare) | (Cells::Counted, Formals::Indexed) => true,
        _ => false,
    }
}

/// Whether a rule of these formals may stand beside the other clauses. Where the type isn't of its
/// kind it may.
fn fits_type(elements: &[Form], formals: Formals) -> bool
    ensures { result ≡ agree_in (cells_at elements.now) formals }
{
    match cells_at(elements) {
        Some(cells) => agree(cells, formals),
        None => true,
    }
}

/// Whether a clause is a rule for reading that fits the type.
fn is_get(clause: Clause<'_>) -> bool
    ensures { result ≡ is_rule get_formals (seen_clause clause.entry) }
{
    match first_list(clause.content) {
        Some(forms) => match get_formals(forms) {
            Some(formals) => fits_type(clause.elements, formals),
            None => false,
        },
        None => false,
    }
}

/// Whether a clause is a rule for writing that fits the type.
fn is_set(clause: Clause<'_>) -> bool
    ensures { result ≡ is_rule set_formals (seen_clause clause.entry) }
{
    match first_list(clause.content) {
        Some(forms) => match set_formals(forms) {
            Some(formals) => fits_type(clause.elements, formals),
            None => false,
        },
        None => false,
    }
}

/// The first text of E304 inside the expression of a rule.
fn wrong_inside(forms: &[Form]) -> Option<&[u8]>
    ensures { option_copied result ≡ first (inside wrong_in (expression forms.now)) }
{
    match expression(forms) {
        Some(expression) => first_wrong_in(expression),
        None => None,
    }
}

/// The first text of E304 of a rule for reading.
pub(crate) fn wrong_get<'a>(clause: Clause<'a>) -> Option<&'a [u8]>
    ensures { option_copied result ≡ first (wrong_rule get_formals (seen_clause clause.entry)) }
{
    if is_get(clause) {
        wrong_inside(clause.content)
    } else {
        Some(clause.name)
    }
}

/// The first text of E304 of a rule for writing.
pub(crate) fn wrong_set<'a>(clause: Clause<'a>) -> Option<&'a [u8]>
    ensures { option_copied result ≡ first (wrong_rule set_formals (seen_clause clause.entry)) }
{
    if is_set(clause) {
        wrong_inside(clause.content)
    } else {
        Some(clause.name)
    }
}

/// The first text of E307 of a rule, which stands inside its expression.
pub(crate) fn left_out_rule<'a>(clause: Clause<'a>) -> Option<&'a [u8]>
    ensures { option_copied result ≡ first (left_out_rule (seen_clause clause.entry)) }
{
    match expression(clause.content) {
        Some(expression) => first_left_out_in(expression),
        None => None,
    }
}
