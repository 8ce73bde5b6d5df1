//! A clause that holds one expression.

ghost use Rattle.std.specs.Prelude.{◌≡◌};
ghost use Rattle.std.specs.Option.{option_copied};
ghost use Rattle.cg_base.specs.Refusing.{first};
ghost use Rattle.cg_attrs.specs.Clauses.{seen_clause};
ghost use Rattle.cg_insn.specs.Expressions.{wrong_expression, left_out_expression};

use cg_attrs::Clause;
use cg_base::only;
use cg_rtl::{first_left_out_in, first_wrong_in};

/// The first text of E304 of a clause that holds one expression of RTL: the clause's name where
/// not one form stands behind it, else what is wrong inside the expression.
pub fn wrong_expression<'a>(clause: Clause<'a>) -> Option<&'a [u8]>
    ensures { option_copied result ≡ first (wrong_expression (seen_clause clause.entry)) }
{
    match only(clause.content) {
        Some(expression) => first_wrong_in(expression),
        None => Some(clause.name),
    }
}

/// The first text of E307 of such a clause: what is left out inside the expression.
pub fn left_out_expression<'a>(clause: Clause<'a>) -> Option<&'a [u8]>
    ensures { option_copied result ≡ first (left_out_expression (seen_clause clause.entry)) }
{
    match only(clause.content) {
        Some(expression) => first_left_out_in(expression),
        None => None,
    }
}
