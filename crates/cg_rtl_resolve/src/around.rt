//! The locals around an expression.

ghost use Rattle.std.specs.Prelude.{◌≡◌, map, drop, length, is_some, IfOk};
ghost use Rattle.cg_rtl_resolve.specs.Names.{last_place, local_name, name_first, elements_or_none};
ghost use Rattle.cg_rtl_resolve.specs.Read.{names_of};

use cg_base::{Form, NoMemory};
use cg_rtl::first_symbol;

/// The locals around an expression.
#[derive(Clone, Copy)]
pub enum Around<'a> {
    /// There are none.
    Outside,
    /// Those around a `sequence`, and then its own, each as `(MODE NAME)`.
    Sequence(&'a Around<'a>, &'a [Form]),
}

/// The elements of a list, and none of what is no list.
pub fn elements_or_none(form: &Form) -> &[Form]
    ensures { result.now ≡ elements_or_none form.now }
{
    form.elements().unwrap_or(&[])
}

/// The symbol that stands first, and no bytes where there is none.
pub fn name_first(forms: &[Form]) -> &[u8]
    ensures { result.now ≡ name_first forms.now }
{
    match first_symbol(forms) {
        Some(name) => name.as_slice(),
        None => &[],
    }
}

/// What stands behind the first form.
pub fn behind_first(forms: &[Form]) -> &[Form]
    ensures { result.now ≡ drop 1 forms.now }
{
    match forms.split_first() {
        Some((_, rest)) => rest,
        None => forms,
    }
}

/// The name of a local.
pub fn local_name(local: &Form) -> &[u8]
    ensures { result.now ≡ local_name local.now }
{
    name_first(behind_first(elements_or_none(local)))
}

/// The last place of a name among locals.
#[tactic(auto, using(crate::proofs::Places::place_rules))]
fn last_in(locals: &[Form], name: &[u8]) -> Option<usize>
    ensures { result ≡ last_place name.now (map local_name locals.now) }
{
    let mut found = None;
    for k in 0..locals.len() {
        if local_name(&locals[k]) == name {
            found = Some(k);
        }
    }
    found
}

/// How many locals there are. More than a u64 counts are in no memory.
#[tactic(auto, using(crate::proofs::Places::around_rules))]
fn count(around: &Around) -> Result<u64, NoMemory>
    ensures { IfOk result (λ n. n ≡ length (names_of around.now)) }
{
    match around {
        Around::Outside => Ok(0),
        Around::Sequence(outer, locals) => {
            let outer = count(outer)?;
            match outer.checked_add(locals.len() as u64) {
                Some(count) => Ok(count),
                None => Err(NoMemory),
            }
        }
    }
}

/// The number of the innermost local of a name.
#[tactic(auto, using(crate::proofs::Places::around_rules))]
pub fn number_of(around: &Around, name: &[u8]) -> Result<Option<u64>, NoMemory>
    ensures { IfOk result (λ n. n ≡ last_place name.now (names_of around.now)) }
{
    match around {
        Around::Outside => Ok(None),
        Around::Sequence(outer, locals) => match last_in(locals, name) {
            Some(k) => {
                let outer = count(outer)?;
                match outer.checked_add(k as u64) {
                    Some(number) => Ok(Some(number)),
                    None => Err(NoMemory),
                }
            }
            None => number_of(outer, name),
        },
    }
}

/// Whether there is a local of a name.
#[tactic(auto, using(crate::proofs::Places::around_rules))]
pub(crate) fn has_local(around: &Around, name: &[u8]) -> bool
    ensures { result ≡ is_some (last_place name.now (names_of around.now)) }
{
    match around {
        Around::Outside => false,
        Around::Sequence(outer, locals) => match last_in(locals, name) {
            Some(_) => true,
            None => has_local(outer, name),
        },
    }
}
