//! The first name of one kind in an expression that stands for nothing.

ghost use Rattle.std.specs.Prelude.{◌≡◌, ◌∷◌, ◌++◌, [], drop, map, None};
ghost use Rattle.std.specs.List.{flat_map};
ghost use Rattle.std.specs.Option.{option_copied};
ghost use Rattle.cg_base.specs.Parts.{headed};
ghost use Rattle.cg_base.specs.Refusing.{first};
ghost use Rattle.cg_rtl_resolve.specs.Names as spec;
ghost use Rattle.cg_rtl_resolve.specs.Names.{names_lacking};
ghost use Rattle.cg_rtl_resolve.specs.Read.{names_of, names_in, lacks_in};

use crate::around::{Around, behind_first, elements_or_none, has_local, name_first};
use crate::build::{Walk, elements_first, first_alone};
use crate::function::{Function, function_of};
use crate::names::{constant_named, field_named, named_beyond, number_named, operand_index};
use crate::scope::Lack;
use cg_base::Form;
use cg_model::Rtl;
use cg_rtl::{behind_mode, is_else};

/// The name, where it lacks a meaning in the wanted way.
fn when(wanted: Lack, lack: Lack, name: &[u8]) -> Option<&[u8]>
    ensures { option_copied result ≡ first (names_lacking wanted ((lack, name.now) ∷ [])) }
{
    match (wanted, lack) {
        (Lack::Undefined, Lack::Undefined) | (Lack::Unknown, Lack::Unknown) => Some(name),
        _ => None,
    }
}

/// The same, where nothing was found.
fn unless_found(wanted: Lack, lack: Lack, name: &[u8], found: Option<Rtl>) -> Option<&[u8]>
    ensures { option_copied result ≡ first (names_lacking wanted (spec.lacks lack name.now found)) }
{
    match found {
        Some(_) => None,
        None => when(wanted, lack, name),
    }
}

/// A bare symbol that stands for nothing.
#[tactic(auto, unfolding(crate::specs::Names::symbol_lacks))]
fn symbol<'a>(walk: &Walk, wanted: Lack, name: &'a [u8]) -> Option<&'a [u8]>
    ensures { option_copied result ≡ first (names_lacking wanted (spec.symbol_lacks walk.now.scope.now (names_in walk.now) name.now)) }
{
    if has_local(walk.around, name) {
        return None;
    }
    let found = named_beyond(walk.alloc, walk.scope, name);
    unless_found(wanted, Lack::Unknown, name, found)
}

/// A value of a `case` that stands for nothing.
fn value<'a>(walk: &Walk, wanted: Lack, form: &'a Form) -> Option<&'a [u8]>
    ensures { option_copied result ≡ first (names_lacking wanted (spec.value_lacks walk.now.scope.now form.now)) }
{
    match form {
        Form::Symbol(name) => {
            let name = name.as_slice();
            let found = constant_named(walk.alloc, walk.scope, name);
            unless_found(wanted, Lack::Undefined, name, found)
        }
        _ => None,
    }
}

/// The first of the values of an arm.
#[tactic(auto, using(crate::proofs::Lacking::missing_rules))]
fn values<'a>(walk: &Walk, wanted: Lack, forms: &'a [Form]) -> Option<&'a [u8]>
    ensures { option_copied result ≡ first (names_lacking wanted (flat_map (spec.value_lacks walk.now.scope.now) forms.now)) }
{
    for form in forms {
        if let Some(name) = value(walk, wanted, form) {
            return Some(name);
        }
    }
    None
}

/// The first name of an expression.
#[cycle(missing)]
#[tactic(auto, using(crate::proofs::Lacking::missing_rules))]
pub(crate) fn expression<'a>(walk: &Walk, wanted: Lack, form: &'a Form) -> Option<&'a [u8]>
    ensures { option_copied result ≡ first (names_lacking wanted (lacks_in walk.now (names_in walk.now) form.now)) }
{
    if walk.depth == 0 {
        return None;
    }
    let inwards = Walk {
        alloc: walk.alloc,
        scope: walk.scope,
        around: walk.around,
        depth: walk.depth - 1,
    };
    match form {
        Form::Symbol(name) => symbol(walk, wanted, name.as_slice()),
        Form::Items(_) => list(&inwards, wanted, form),
        _ => None,
    }
}

/// The first name of a list.
#[cycle(missing)]
#[tactic(auto, using(crate::proofs::Lacking::missing_rules))]
fn list<'a>(walk: &Walk, wanted: Lack, form: &'a Form) -> Option<&'a [u8]>
    ensures { option_copied result ≡ first (names_lacking wanted (spec.call_lacks walk.now.scope.now (lacks_in walk.now) (names_in walk.now) (headed form.now))) }
{
    match form.headed() {
        Some((name, behind)) => call(walk, wanted, name.as_slice(), behind),
        None => None,
    }
}

/// The first name of a list that is headed by this symbol.
#[cycle(missing)]
#[tactic(auto, using(crate::proofs::Lacking::missing_rules))]
fn call<'a>(walk: &Walk, wanted: Lack, name: &[u8], behind: &'a [Form]) -> Option<&'a [u8]>
    ensures { option_copied result ≡ first (names_lacking wanted (spec.known_lacks walk.now.scope.now (lacks_in walk.now) (names_in walk.now) behind.now (spec.function_of name.now))) }
{
    match function_of(name) {
        Some(function) => called(walk, wanted, behind_mode(behind), function),
        None => None,
    }
}

/// The first name behind a function's name.
#[cycle(missing)]
#[tactic(auto, using(crate::proofs::Lacking::missing_rules))]
fn called<'a>(walk: &Walk, wanted: Lack, forms: &'a [Form], function: Function) -> Option<&'a [u8]>
    ensures { option_copied result ≡ first (names_lacking wanted (spec.function_lacks walk.now.scope.now (lacks_in walk.now) (names_in walk.now) forms.now function)) }
{
    match function {
        Function::Operation(_, _) => each(walk, wanted, forms),
        Function::Constant | Function::Error => None,
        Function::Subword => each(walk, wanted, first_alone(forms)),
        Function::Behind(_) | Function::Join | Function::Delay => {
            each(walk, wanted, behind_first(forms))
        }
        Function::Cond => arms(walk, wanted, forms),
        Function::Case => case(walk, wanted, forms),
        Function::Sequence => sequence(walk, wanted, elements_first(forms), behind_first(forms)),
        Function::FieldNamed => field(walk, wanted, name_first(forms)),
        Function::Register(_) => register(walk, wanted, forms),
        Function::IndexOf => operand(walk, wanted, name_first(forms)),
    }
}

/// The name of a field that stands for nothing.
fn field<'a>(walk: &Walk, wanted: Lack, name: &'a [u8]) -> Option<&'a [u8]>
    ensures { option_copied result ≡ first (names_lacking wanted (spec.lacks Lack.Undefined name.now (spec.field_named walk.now.scope.now None name.now))) }
{
    let found = field_named(walk.alloc, walk.scope, None, name);
    unless_found(wanted, Lack::Undefined, name, found)
}

/// The name of an operand that stands for nothing.
fn operand<'a>(walk: &Walk, wanted: Lack, name: &'a [u8]) -> Option<&'a [u8]>
    ensures { option_copied result ≡ first (names_lacking wanted (spec.lacks Lack.Undefined name.now (spec.operand_index walk.now.scope.now None name.now))) }
{
    let found = operand_index(walk.alloc, walk.scope, None, name);
    unless_found(wanted, Lack::Undefined, name, found)
}

/// The name of hardware that stands for nothing.
fn hardware<'a>(walk: &Walk, wanted: Lack, name: &'a [u8]) -> Option<&'a [u8]>
    ensures { option_copied result ≡ first (names_lacking wanted (spec.hardware_lacks walk.now.scope.now name.now)) }
{
    match number_named(name, &walk.scope.hardware) {
        Some(_) => None,
        None => when(wanted, Lack::Undefined, name),
    }
}

/// The first name of several expressions.
#[cycle(missing)]
#[tactic(auto, using(crate::proofs::Lacking::missing_rules))]
fn each<'a>(walk: &Walk, wanted: Lack, forms: &'a [Form]) -> Option<&'a [u8]>
    ensures { option_copied result ≡ first (names_lacking wanted (flat_map (lacks_in walk.now (names_in walk.now)) forms.now)) }
{
    for form in forms {
        if let Some(name) = expression(walk, wanted, form) {
            return Some(name);
        }
    }
    None
}

/// The first name of an arm of a `cond`.
#[cycle(missing)]
#[tactic(auto, using(crate::proofs::Lacking::missing_rules))]
fn arm<'a>(walk: &Walk, wanted: Lack, forms: &'a [Form]) -> Option<&'a [u8]>
    ensures { option_copied result ≡ first (names_lacking wanted (spec.arm_lacks (lacks_in walk.now) (names_in walk.now) forms.now)) }
{
    if is_else(forms) {
        each(walk, wanted, behind_first(forms))
    } else {
        each(walk, wanted, forms)
    }
}

/// The first name of the arms of a `cond`.
#[cycle(missing)]
#[tactic(auto, using(crate::proofs::Lacking::missing_rules))]
fn arms<'a>(walk: &Walk, wanted: Lack, forms: &'a [Form]) -> Option<&'a [u8]>
    ensures { option_copied result ≡ first (names_lacking wanted (flat_map (spec.arm_lacks_at (lacks_in walk.now) (names_in walk.now)) forms.now)) }
{
    for form in forms {
        if let Some(name) = arm(walk, wanted, elements_or_none(form)) {
            return Some(name);
        }
    }
    None
}

/// The first name of an arm of a `case`.
#[cycle(missing)]
#[tactic(auto, using(crate::proofs::Lacking::missing_rules))]
fn choice<'a>(walk: &Walk, wanted: Lack, forms: &'a [Form]) -> Option<&'a [u8]>
    ensures { option_copied result ≡ first (names_lacking wanted (spec.choice_lacks walk.now.scope.now (lacks_in walk.now) (names_in walk.now) forms.now)) }
{
    if is_else(forms) {
        return each(walk, wanted, behind_first(forms));
    }
    if let Some(name) = values(walk, wanted, elements_first(forms)) {
        return Some(name);
    }
    each(walk, wanted, behind_first(forms))
}

/// The first name of the arms of a `case`.
#[cycle(missing)]
#[tactic(auto, using(crate::proofs::Lacking::missing_rules))]
fn choices<'a>(walk: &Walk, wanted: Lack, forms: &'a [Form]) -> Option<&'a [u8]>
    ensures { option_copied result ≡ first (names_lacking wanted (flat_map (spec.choice_lacks_at walk.now.scope.now (lacks_in walk.now) (names_in walk.now)) forms.now)) }
{
    for form in forms {
        if let Some(name) = choice(walk, wanted, elements_or_none(form)) {
            return Some(name);
        }
    }
    None
}

/// The first name of a `case`.
#[cycle(missing)]
#[tactic(auto, using(crate::proofs::Lacking::missing_rules))]
fn case<'a>(walk: &Walk, wanted: Lack, forms: &'a [Form]) -> Option<&'a [u8]>
    ensures { option_copied result ≡ first (names_lacking wanted (spec.function_lacks walk.now.scope.now (lacks_in walk.now) (names_in walk.now) forms.now Function.Case)) }
{
    if let Some(name) = each(walk, wanted, first_alone(forms)) {
        return Some(name);
    }
    choices(walk, wanted, behind_first(forms))
}

/// The first name of expressions with locals of their own.
#[cycle(missing)]
#[tactic(auto, using(crate::proofs::Lacking::missing_rules))]
fn sequence<'a>(walk: &Walk, wanted: Lack, locals: &[Form], forms: &'a [Form]) -> Option<&'a [u8]>
    ensures { option_copied result ≡ first (names_lacking wanted (flat_map (lacks_in walk.now (names_in walk.now ++ map spec.local_name locals.now)) forms.now)) }
{
    let inner = Around::Sequence(walk.around, locals);
    let inside = Walk {
        alloc: walk.alloc,
        scope: walk.scope,
        around: &inner,
        depth: walk.depth,
    };
    each(&inside, wanted, forms)
}

/// The first name of a register with an index or none.
#[cycle(missing)]
#[tactic(auto, using(crate::proofs::Lacking::missing_rules))]
fn register<'a>(walk: &Walk, wanted: Lack, forms: &'a [Form]) -> Option<&'a [u8]>
    ensures { option_copied result ≡ first (names_lacking wanted (spec.hardware_lacks walk.now.scope.now (spec.name_first forms.now) ++ flat_map (lacks_in walk.now (names_in walk.now)) (drop 1 forms.now))) }
{
    if let Some(name) = hardware(walk, wanted, name_first(forms)) {
        return Some(name);
    }
    each(walk, wanted, behind_first(forms))
}
