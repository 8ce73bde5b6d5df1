ghost use Rattle.std.specs.Prelude.{◌≡◌, false, ◌++◌, OnOk};
ghost use Rattle.cg_pmacro_builtin.specs.declared.built_in.Manner.TheVariants as way;
ghost use Rattle.cg_pmacro_builtin.specs.Outcome.{each as each_of};
ghost use Rattle.cg_pmacro_builtin.specs.Reports.{Comes, Leaves};
ghost use Rattle.cg_pmacro_expand.specs.Steps as steps;
ghost use Rattle.cg_pmacro_builtin.specs.BuiltIns.{name_of};
ghost use Rattle.cg_pmacro_expand.specs.Expansion as meant;

use super::choices::call_choice;
use super::lets::call_let;
use super::mapping::call_over;
use super::{each, expand};
use crate::charging::charge;
use cg_base::{List, NoMemory};
use cg_pmacro_builtin::{
    Body, BuiltIn, Halt, Macro, Manner, Value, elements, form_elements, head_name, iota, is_named,
    miscounted, misfit, ordinary,
};
use std::alloc::Global;

/// The call of a built-in, with its cost.
#[cycle(expansion)]
#[tactic(auto, using(crate::proofs::Rules::own_rules))]
#[inline(never)]
pub fn call_own(
    alloc: Global,
    macros: &[Macro],
    depth: u32,
    of: BuiltIn,
    spliced: bool,
    items: &[Body],
    left: &mut u64,
) -> Result<Value, Halt>
    ensures { Leaves (meant.own_called macros.now (meant.expanded macros.now depth) of spliced items.now left.old) result left.new }
{
    let value = call_built_in(alloc, macros, depth, of, spliced, items, left)?;
    Ok(charge(alloc, of.name(), value, left)?)
}

#[cycle(expansion)]
#[tactic(auto, using(crate::proofs::Rules::leaving_rules))]
#[inline(never)]
fn call_built_in(
    alloc: Global,
    macros: &[Macro],
    depth: u32,
    of: BuiltIn,
    spliced: bool,
    items: &[Body],
    left: &mut u64,
) -> Result<Value, Halt>
    ensures { Leaves (steps.call_built_in macros.now (meant.expanded macros.now depth) of spliced items.now left.old) result left.new }
{
    match of.manner() {
        Manner::Choice => call_choice(alloc, macros, depth, of, items, left),
        Manner::Let => call_let(alloc, macros, depth, of, false, items, left),
        Manner::LetStar => call_let(alloc, macros, depth, of, true, items, left),
        Manner::Pmacro => Ok(stray_pmacro(alloc, items)?),
        Manner::Over => call_over(alloc, macros, depth, of, items, left),
        Manner::Splice => splice(alloc, macros, depth, items, left),
        Manner::Iota => call_iota(alloc, macros, depth, of, items, left),
        Manner::Ordinary => call_ordinary(alloc, macros, depth, of, spliced, items, left),
    }
}

/// The arguments of a built-in.
#[cycle(expansion)]
#[tactic(auto, using(crate::proofs::Rules::leaving_rules))]
#[inline(never)]
pub fn each_for(
    alloc: Global,
    macros: &[Macro],
    depth: u32,
    of: BuiltIn,
    items: &[Body],
    left: &mut u64,
) -> Result<List<Value>, Halt>
    ensures { Leaves (each_of (meant.expanded macros.now depth (name_of of) false) items.now left.old) result left.new }
{
    each(alloc, macros, depth, of.name(), items, left)
}

#[cycle(expansion)]
#[tactic(auto, using(crate::proofs::Rules::leaving_rules))]
#[inline(never)]
fn call_iota(
    alloc: Global,
    macros: &[Macro],
    depth: u32,
    of: BuiltIn,
    items: &[Body],
    left: &mut u64,
) -> Result<Value, Halt>
    ensures { Leaves (steps.call_by way.Iota macros.now (meant.expanded macros.now depth) of false items.now left.old) result left.new }
{
    let args = each_for(alloc, macros, depth, of, items, left)?;
    Ok(iota(alloc, args.as_slice(), *left)?)
}

#[cycle(expansion)]
#[tactic(auto, using(crate::proofs::Rules::leaving_rules))]
#[inline(never)]
fn call_ordinary(
    alloc: Global,
    macros: &[Macro],
    depth: u32,
    of: BuiltIn,
    spliced: bool,
    items: &[Body],
    left: &mut u64,
) -> Result<Value, Halt>
    ensures { Leaves (steps.call_by way.Ordinary macros.now (meant.expanded macros.now depth) of spliced items.now left.old) result left.new }
{
    let args = each_for(alloc, macros, depth, of, items, left)?;
    Ok(ordinary(alloc, of, spliced, args)?)
}

/// A `.pmacro` form that is neither a head nor mapped or applied.
fn stray_pmacro(alloc: Global, items: &[Body]) -> Result<Value, Halt>
    ensures { Comes (meant.stray_pmacro items.now) result }
{
    match items {
        [_, _] => Err(misfit(alloc, BuiltIn::Pmacro)),
        _ => Err(miscounted(alloc, BuiltIn::Pmacro)),
    }
}

fn is_unsplice(body: &Body) -> bool
    ensures { result ≡ meant.is_unsplice body.now }
{
    match elements(body) {
        Some(items) => is_named(b".unsplice", head_name(items)),
        None => false,
    }
}

/// Puts what an argument of `.splice` adds behind what is done.
fn add_spliced(whole: bool, value: Value, done: &mut List<Value>) -> Result<(), NoMemory>
    ensures { OnOk result (done.new ≡ done.old ++ meant.added whole value) }
{
    if !whole {
        return done.push(value);
    }
    if let Some(items) = form_elements(&value) {
        for item in items {
            done.push(item.clone()?)?;
        }
    }
    Ok(())
}

#[cycle(expansion)]
#[tactic(auto, using(crate::proofs::Rules::front_rules))]
#[inline(never)]
fn splice(
    alloc: Global,
    macros: &[Macro],
    depth: u32,
    items: &[Body],
    left: &mut u64,
) -> Result<Value, Halt>
    ensures { Leaves (meant.spliced_list (meant.expanded macros.now depth) items.now left.old) result left.new }
{
    let mut forms = List::new(alloc);
    for item in items {
        let whole = is_unsplice(item);
        let value = expand(alloc, macros, depth, b".splice", whole, item, left)?;
        add_spliced(whole, value, &mut forms)?;
    }
    Ok(Value::list(alloc, forms)?)
}
