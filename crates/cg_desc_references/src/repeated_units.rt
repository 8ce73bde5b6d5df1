//! Units of a model that stand twice.

ghost use Rattle.std.specs.Prelude.{◌≡◌, map, take, length, ◌≤◌, IfOk};
ghost use Rattle.std.specs.Option.{option_copied};
ghost use Rattle.cg_base.specs.Refusing.{first};
ghost use Rattle.cg_attrs.specs.Clauses.{seen_clause};
ghost use Rattle.cg_desc_references.specs.E305.{unit_name, is_unit_named, has_unit, named_before, unit_repeated};

use cg_attrs::Clause;
use cg_base::{NoMemory, Text, headed_in};

/// The unit of a clause `unit`.
fn unit_name<'a>(clause: Clause<'a>) -> Option<&'a Text>
    ensures { option_copied result ≡ unit_name (seen_clause clause.entry) }
{
    match clause.name {
        b"unit" => match headed_in(clause.content) {
            Some((name, _)) => Some(name),
            None => None,
        },
        _ => None,
    }
}

/// Whether the clause is that of the unit of this name.
fn is_unit_named(clause: Clause<'_>, name: &Text) -> bool
    ensures { result ≡ is_unit_named name.now (seen_clause clause.entry) }
{
    match unit_name(clause) {
        Some(unit) => unit == name,
        None => false,
    }
}

/// Whether the unit of this name stands among the clauses.
fn has_unit(clauses: &[Clause<'_>], name: &Text) -> bool
    ensures { result ≡ has_unit name.now (map seen_clause clauses.now) }
{
    for clause in clauses {
        if is_unit_named(*clause, name) {
            return true;
        }
    }
    false
}

/// The unit of this name, where one of the same name stands before.
fn named_before(before: &[Clause<'_>], name: Option<&Text>) -> Result<Option<Text>, NoMemory>
    ensures { IfOk result (λ text. text ≡ first (named_before (map seen_clause before.now) (option_copied name.entry))) }
{
    match name {
        Some(name) => {
            if has_unit(before, name) {
                Ok(Some(name.clone()?))
            } else {
                Ok(None)
            }
        }
        None => Ok(None),
    }
}

/// The unit of a clause, where one of the same name stands before.
#[tactic(auto, unfolding(crate::specs::E305::unit_repeated))]
pub fn unit_repeated(before: &[Clause<'_>], clause: Clause<'_>) -> Result<Option<Text>, NoMemory>
    ensures { IfOk result (λ text. text ≡ first (unit_repeated (map seen_clause before.now) (seen_clause clause.entry))) }
{
    Ok(named_before(before, unit_name(clause))?)
}

/// The first clauses, so many of them.
#[tactic(auto, using(crate::proofs::Taking::taken))]
pub fn front<'a, 'b>(clauses: &'a [Clause<'b>], count: usize) -> &'a [Clause<'b>]
    requires { count ≤ length clauses.now }
    ensures { map seen_clause result.now ≡ take count (map seen_clause clauses.now) }
{
    &clauses[..count]
}
