ghost use Rattle.std.specs.Prelude.{◌≡◌, slice_get, IfOk};
ghost use Rattle.std.specs.Option.{option_copied};
ghost use Rattle.std.specs.List.{list_all};
ghost use Rattle.cg_pmacro_builtin.specs.Reports.{Comes, Leaves};
ghost use Rattle.cg_pmacro_expand.specs.Steps as steps;
ghost use Rattle.cg_pmacro_expand.specs.Expansion as meant;

use super::macro_calls::pmacro;
use super::own_calls::each_for;
use super::{expand, with_arguments};
use cg_base::{List, NoMemory, Text};
use cg_pmacro_builtin::{
    Body, BuiltIn, Halt, Macro, Value, built_in_of, called, copy, form_elements, miscounted,
    misfit, pmacro_form,
};
use std::alloc::Global;

/// `.map`, `.for-each` and `.apply`.
#[cycle(expansion)]
#[tactic(auto, using(crate::proofs::Rules::leaving_rules))]
#[inline(never)]
pub fn call_over(
    alloc: Global,
    macros: &[Macro],
    depth: u32,
    of: BuiltIn,
    items: &[Body],
    left: &mut u64,
) -> Result<Value, Halt>
    ensures { Leaves (steps.call_over macros.now (meant.expanded macros.now depth) of items.now left.old) result left.new }
{
    let Some(first) = items.first() else {
        return Err(miscounted(alloc, of));
    };
    let head = head_of(alloc, macros, depth, of, first, left)?;
    let args = each_for(alloc, macros, depth, of, &items[1..], left)?;
    Ok(over(alloc, macros, depth, of, &head, args.as_slice(), left)?)
}

/// The calls of the head on lists.
#[cycle(expansion)]
#[tactic(auto, using(crate::proofs::Rules::leaving_rules), unfolding(crate::specs::Steps::over))]
#[inline(never)]
fn over(
    alloc: Global,
    macros: &[Macro],
    depth: u32,
    of: BuiltIn,
    head: &Body,
    args: &[Value],
    left: &mut u64,
) -> Result<Value, Halt>
    ensures { Leaves (steps.over macros.now (meant.expanded macros.now depth) of head.now args.now left.old) result left.new }
{
    may_call(alloc, macros, of, head, args)?;
    if of.is_apply() {
        Ok(apply(alloc, macros, depth, head, args, left)?)
    } else {
        Ok(map(alloc, macros, depth, of, head, args, left)?)
    }
}

/// The first argument as the head of a call: a `.pmacro` form stands for itself.
#[cycle(expansion)]
#[tactic(auto, using(crate::proofs::Rules::leaving_rules), unfolding(crate::specs::Expansion::head_of))]
#[inline(never)]
fn head_of(
    alloc: Global,
    macros: &[Macro],
    depth: u32,
    of: BuiltIn,
    body: &Body,
    left: &mut u64,
) -> Result<Body, Halt>
    ensures { Leaves (meant.head_of (meant.expanded macros.now depth) of body.now left.old) result left.new }
{
    match pmacro_form(body) {
        Some(form) => {
            pmacro(alloc, form)?;
            Ok(copy(alloc, body)?)
        }
        None => Ok(Body::Quoted(expand(alloc, macros, depth, of.name(), false, body, left)?)),
    }
}

/// Refuses a wrong count of lists, a head that can't be called, and lists that aren't.
#[tactic(auto, using(crate::proofs::Rules::leaving_rules), unfolding(crate::specs::Steps::over_checked))]
fn may_call(
    alloc: Global,
    macros: &[Macro],
    of: BuiltIn,
    head: &Body,
    args: &[Value],
) -> Result<(), Halt>
    ensures { Comes (steps.over_checked macros.now of head.now args.now) result }
{
    let counted = if of.is_apply() {
        args.len() == 1
    } else {
        !args.is_empty()
    };
    if !counted {
        return Err(miscounted(alloc, of));
    }
    if !is_callable(macros, head) || !are_lists(args) {
        return Err(misfit(alloc, of));
    }
    Ok(())
}

fn is_callable(macros: &[Macro], head: &Body) -> bool
    ensures { result ≡ meant.is_callable macros.now head.now }
{
    if pmacro_form(head).is_some() {
        return true;
    }
    match called(head) {
        Some(name) => may_be_called(macros, name.as_slice()),
        None => false,
    }
}

fn may_be_called(macros: &[Macro], name: &[u8]) -> bool
    ensures { result ≡ meant.may_be_called macros.now name.now }
{
    if with_arguments(macros, name).is_some() {
        return true;
    }
    match built_in_of(name) {
        Some(of) => !of.is_lazy(),
        None => false,
    }
}

fn are_lists(args: &[Value]) -> bool
    ensures { result ≡ meant.are_lists args.now }
{
    let Some(first) = args.first() else {
        return true;
    };
    match form_elements(first) {
        Some(items) => are_lists_of(args, items.len()),
        None => false,
    }
}

fn are_lists_of(args: &[Value], count: usize) -> bool
    ensures { result ≡ list_all (meant.is_list_of count) args.now }
{
    for arg in args {
        match form_elements(arg) {
            Some(items) => {
                if items.len() != count {
                    return false;
                }
            }
            None => return false,
        }
    }
    true
}

/// The elements of a list, or none.
fn elements_or_none(value: &Value) -> &[Value]
    ensures { result.now ≡ meant.elements_or_none value.now }
{
    match form_elements(value) {
        Some(items) => items,
        None => &[],
    }
}

#[cycle(expansion)]
#[tactic(auto, using(crate::proofs::Rules::leaving_rules), unfolding(crate::specs::Steps::applied))]
#[inline(never)]
fn apply(
    alloc: Global,
    macros: &[Macro],
    depth: u32,
    head: &Body,
    args: &[Value],
    left: &mut u64,
) -> Result<Value, Halt>
    ensures { Leaves (steps.applied (meant.expanded macros.now depth) head.now args.now left.old) result left.new }
{
    let Some(list) = args.first() else {
        return Err(misfit(alloc, BuiltIn::Apply));
    };
    let call = call_on(alloc, head, elements_or_none(list))?;
    expand(alloc, macros, depth, b".apply", false, &call, left)
}

/// The call of the head on quoted arguments.
fn call_on(alloc: Global, head: &Body, args: &[Value]) -> Result<Body, NoMemory>
    ensures { IfOk result (λ call. call ≡ meant.call_of head.now args.now) }
{
    let mut call = List::new(alloc);
    call.push(copy(alloc, head)?)?;
    for arg in args {
        call.push(Body::Quoted(arg.clone()?))?;
    }
    Ok(Body::Items(call))
}

/// The element of a list at a place. None past its end, and for a form that is no list.
fn element_at(value: &Value, k: usize) -> Option<&Value>
    ensures { option_copied result ≡ slice_get (meant.elements_or_none value.now) k }
{
    elements_or_none(value).get(k)
}

/// The elements of the lists at one place.
fn row(alloc: Global, args: &[Value], k: usize) -> Result<List<Value>, NoMemory>
    ensures { IfOk result (λ values. values ≡ meant.row k args.now) }
{
    let mut values = List::new(alloc);
    for arg in args {
        if let Some(item) = element_at(arg, k) {
            values.push(item.clone()?)?;
        }
    }
    Ok(values)
}

#[cycle(expansion)]
#[tactic(auto, using(crate::proofs::Rules::result_rules), unfolding(crate::specs::Steps::mapped))]
#[inline(never)]
fn map(
    alloc: Global,
    macros: &[Macro],
    depth: u32,
    of: BuiltIn,
    head: &Body,
    args: &[Value],
    left: &mut u64,
) -> Result<Value, Halt>
    ensures { Leaves (steps.mapped (meant.expanded macros.now depth) of head.now args.now left.old) result left.new }
{
    let Some(list) = args.first() else {
        return Err(misfit(alloc, of));
    };
    let count = elements_or_none(list).len();
    let mut forms = beginning(alloc, of)?;
    for k in 0..count {
        let call = call_on(alloc, head, row(alloc, args, k)?.as_slice())?;
        forms.push(expand(alloc, macros, depth, of.name(), false, &call, left)?)?;
    }
    Ok(Value::list(alloc, forms)?)
}

/// What stands in front of the results.
fn beginning(alloc: Global, of: BuiltIn) -> Result<List<Value>, NoMemory>
    ensures { IfOk result (λ values. values ≡ steps.beginning of) }
{
    let mut values = List::new(alloc);
    if of.is_for_each() {
        values.push(Value::symbol(alloc, Text::of(alloc, b"begin")?)?)?;
    }
    Ok(values)
}
