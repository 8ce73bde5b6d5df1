//! What stands for operands, put in their place.

ghost use Rattle.std.specs.Prelude.{◌≡◌, ◌++◌, map, drop, IfOk};
ghost use Rattle.cg_base.specs.Parts.{headed};
ghost use Rattle.cg_rtl_resolve.specs.Names.{function_of};
ghost use Rattle.cg_desc_choices.specs.Putting as spec;
ghost use Rattle.cg_desc_choices.specs.Walking.{within};

use crate::stand::{Stand, new_value, setter_first, stand_for, unhidden};
use cg_base::{Form, List, NoMemory, Text};
use cg_model::Op;
use cg_rtl::{behind_mode, is_else};
use cg_rtl_resolve::{
    Function, behind_first, elements_first, elements_or_none, first_alone, function_of,
};
use std::alloc::Global;

/// What stands for operands where an expression is gone through, and how many lists inwards it is
/// followed.
#[derive(Clone, Copy)]
pub(crate) struct Walk<'a> {
    pub alloc: Global,
    pub stands: &'a [Stand],
    pub depth: u64,
}

/// A mode that is written in front of the items.
fn mode_written(forms: &[Form]) -> &[Form]
    ensures { result.now ≡ spec.mode_written forms.now }
{
    &forms[..forms.len() - behind_mode(forms).len()]
}

/// Forms behind others that stand already, each as it is.
fn each_alone(front: List<Form>, forms: &[Form]) -> Result<List<Form>, NoMemory>
    ensures { IfOk result (λ list. list ≡ front ++ forms.now) }
{
    let mut list = front;
    for form in forms {
        list.push(form.clone()?)?;
    }
    Ok(list)
}

/// A symbol, or what stands for it.
fn symbol(stands: &[Stand], name: &[u8], form: &Form) -> Result<Form, NoMemory>
    ensures { IfOk result (λ new. new ≡ spec.getter_in (spec.stand_for name.now stands.now) form.now) }
{
    match stand_for(name, stands) {
        Some(stand) => Ok(stand.getter.clone()?),
        None => Ok(form.clone()?),
    }
}

/// An expression with what stands for operands put in.
#[cycle(putting)]
#[tactic(auto, using(crate::proofs::Depths::put_rules))]
pub(crate) fn expression(walk: &Walk, form: &Form) -> Result<Form, NoMemory>
    ensures { IfOk result (λ new. new ≡ within walk.now form.now) }
{
    if walk.depth == 0 {
        return Ok(form.clone()?);
    }
    let inwards = Walk {
        alloc: walk.alloc,
        stands: walk.stands,
        depth: walk.depth - 1,
    };
    match form {
        Form::Symbol(name) => Ok(symbol(walk.stands, name.as_slice(), form)?),
        Form::Items(_) => list(&inwards, form),
        _ => Ok(form.clone()?),
    }
}

/// A list.
#[cycle(putting)]
#[tactic(auto, using(crate::proofs::Depths::put_rules))]
fn list(walk: &Walk, form: &Form) -> Result<Form, NoMemory>
    ensures { IfOk result (λ new. new ≡ spec.put_list (spec.put_to walk.now.depth) walk.now.stands.now form.now (headed form.now)) }
{
    match form.headed() {
        Some((name, behind)) => match function_of(name.as_slice()) {
            Some(function) => call(walk, name, behind, function),
            None => Ok(form.clone()?),
        },
        None => Ok(form.clone()?),
    }
}

/// A call of a function.
#[cycle(putting)]
#[tactic(auto, using(crate::proofs::Depths::put_rules))]
fn call(walk: &Walk, name: &Text, behind: &[Form], function: Function) -> Result<Form, NoMemory>
    ensures { IfOk result (λ new. new ≡ spec.put_call (spec.put_to walk.now.depth) walk.now.stands.now name.now behind.now function) }
{
    match function {
        Function::Operation(Op::Set, _) => set(walk, name, behind, function),
        _ => plain(walk, name, behind, function),
    }
}

/// A call of `set`: the setter of what is set, where it has one.
#[cycle(putting)]
#[tactic(auto, using(crate::proofs::Depths::put_rules))]
fn set(walk: &Walk, name: &Text, behind: &[Form], function: Function) -> Result<Form, NoMemory>
    ensures { IfOk result (λ new. new ≡ spec.set_call (spec.put_to walk.now.depth) walk.now.stands.now name.now behind.now function) }
{
    let forms = behind_mode(behind);
    match (
        setter_first(walk.stands, forms),
        behind_first(forms).first(),
    ) {
        (Some(setter), Some(value)) => {
            let value = expression(walk, value)?;
            let stands = new_value(walk.alloc, value)?;
            let inside = Walk {
                alloc: walk.alloc,
                stands: stands.as_slice(),
                depth: walk.depth,
            };
            Ok(expression(&inside, setter)?)
        }
        _ => plain(walk, name, behind, function),
    }
}

/// A call as it is written, with what stands for operands put into its items.
#[cycle(putting)]
#[tactic(auto, using(crate::proofs::Depths::put_rules))]
fn plain(walk: &Walk, name: &Text, behind: &[Form], function: Function) -> Result<Form, NoMemory>
    ensures { IfOk result (λ new. new ≡ spec.plain_call (spec.put_to walk.now.depth) walk.now.stands.now name.now behind.now function) }
{
    let mut front = List::new(walk.alloc);
    front.push(Form::Symbol(name.clone()?))?;
    let front = each_alone(front, mode_written(behind))?;
    Ok(Form::Items(items(walk, front, behind_mode(behind), function)?))
}

/// The items behind a function's name and mode, behind what stands already.
#[cycle(putting)]
#[tactic(auto, using(crate::proofs::Depths::put_rules))]
fn items(
    walk: &Walk,
    front: List<Form>,
    forms: &[Form],
    function: Function,
) -> Result<List<Form>, NoMemory>
    ensures { IfOk result (λ list. list ≡ front ++ spec.put_items (spec.put_to walk.now.depth) walk.now.stands.now forms.now function) }
{
    match function {
        Function::Operation(_, _) => each(walk, front, forms),
        Function::Behind(_) | Function::Join | Function::Delay | Function::Register(_) => {
            behind(walk, front, forms)
        }
        Function::Subword => {
            let front = each(walk, front, first_alone(forms))?;
            each_alone(front, behind_first(forms))
        }
        Function::Cond => arms(walk, front, forms),
        Function::Case => {
            let front = each(walk, front, first_alone(forms))?;
            choices(walk, front, behind_first(forms))
        }
        Function::Sequence => sequence(walk, front, forms),
        Function::Constant | Function::Error | Function::FieldNamed | Function::IndexOf => {
            each_alone(front, forms)
        }
    }
}

/// Expressions, behind what stands already.
#[cycle(putting)]
#[tactic(auto, using(crate::proofs::Depths::put_rules))]
fn each(walk: &Walk, front: List<Form>, forms: &[Form]) -> Result<List<Form>, NoMemory>
    ensures { IfOk result (λ list. list ≡ front ++ map (within walk.now) forms.now) }
{
    let mut list = front;
    for form in forms {
        list.push(expression(walk, form)?)?;
    }
    Ok(list)
}

/// Expressions behind a first form that stays, behind what stands already.
#[cycle(putting)]
#[tactic(auto, using(crate::proofs::Depths::put_rules))]
fn behind(walk: &Walk, front: List<Form>, forms: &[Form]) -> Result<List<Form>, NoMemory>
    ensures { IfOk result (λ list. list ≡ front ++ spec.put_behind (spec.put_to walk.now.depth) walk.now.stands.now forms.now) }
{
    let front = each_alone(front, first_alone(forms))?;
    each(walk, front, behind_first(forms))
}

/// The expressions of a `sequence`, behind its locals, which hide what has their names.
#[cycle(putting)]
#[tactic(auto, using(crate::proofs::Depths::put_rules))]
fn sequence(walk: &Walk, front: List<Form>, forms: &[Form]) -> Result<List<Form>, NoMemory>
    ensures { IfOk result (λ list. list ≡ front ++ spec.put_items (spec.put_to walk.now.depth) walk.now.stands.now forms.now Function.Sequence) }
{
    let stands = unhidden(walk.alloc, elements_first(forms), walk.stands)?;
    let inside = Walk {
        alloc: walk.alloc,
        stands: stands.as_slice(),
        depth: walk.depth,
    };
    Ok(behind(&inside, front, forms)?)
}

/// An arm of a `cond`.
#[cycle(putting)]
#[tactic(auto, using(crate::proofs::Depths::put_rules))]
fn arm(walk: &Walk, form: &Form) -> Result<Form, NoMemory>
    ensures { IfOk result (λ new. new ≡ spec.put_arm (spec.put_to walk.now.depth) walk.now.stands.now form.now) }
{
    match form.elements() {
        Some(forms) => {
            let front = List::new(walk.alloc);
            if is_else(forms) {
                Ok(Form::Items(behind(walk, front, forms)?))
            } else {
                Ok(Form::Items(each(walk, front, forms)?))
            }
        }
        None => Ok(form.clone()?),
    }
}

/// Arms of a `cond`, behind what stands already.
#[cycle(putting)]
#[tactic(auto, using(crate::proofs::Depths::put_rules))]
fn arms(walk: &Walk, front: List<Form>, forms: &[Form]) -> Result<List<Form>, NoMemory>
    ensures { IfOk result (λ list. list ≡ front ++ map (spec.put_arm (spec.put_to walk.now.depth) walk.now.stands.now) forms.now) }
{
    let mut list = front;
    for form in forms {
        list.push(arm(walk, form)?)?;
    }
    Ok(list)
}

/// An arm of a `case`.
#[cycle(putting)]
#[tactic(auto, using(crate::proofs::Depths::put_rules))]
fn choice(walk: &Walk, form: &Form) -> Result<Form, NoMemory>
    ensures { IfOk result (λ new. new ≡ spec.put_choice (spec.put_to walk.now.depth) walk.now.stands.now form.now) }
{
    match form.elements() {
        Some(forms) => Ok(Form::Items(behind(walk, List::new(walk.alloc), forms)?)),
        None => Ok(form.clone()?),
    }
}

/// Arms of a `case`, behind what stands already.
#[cycle(putting)]
#[tactic(auto, using(crate::proofs::Depths::put_rules))]
fn choices(walk: &Walk, front: List<Form>, forms: &[Form]) -> Result<List<Form>, NoMemory>
    ensures { IfOk result (λ list. list ≡ front ++ map (spec.put_choice (spec.put_to walk.now.depth) walk.now.stands.now) forms.now) }
{
    let mut list = front;
    for form in forms {
        list.push(choice(walk, form)?)?;
    }
    Ok(list)
}

/// An expression with what stands for operands put in their place: a bare name becomes its getter,
/// and a `set` of it its setter, in which the value stands for `newval`; a local hides what has its
/// name (docs/LANGUAGE.md, "Operands").
#[tactic(auto, unfolding(crate::specs::Putting::put))]
pub fn put(alloc: Global, stands: &[Stand], form: &Form) -> Result<Form, NoMemory>
    ensures { IfOk result (λ new. new ≡ spec.put stands.now form.now) }
{
    let walk = Walk {
        alloc,
        stands,
        depth: u64::MAX,
    };
    Ok(expression(&walk, form)?)
}
