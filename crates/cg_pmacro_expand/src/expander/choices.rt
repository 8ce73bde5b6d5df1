ghost use Rattle.std.specs.Prelude.{◌≡◌, IfOk};
ghost use Rattle.std.specs.Option.{option_copied};
ghost use Rattle.std.specs.List.{list_all};
ghost use Rattle.cg_pmacro_builtin.specs.Reports.{Leaves, LeavesPart};
ghost use Rattle.cg_pmacro_expand.specs.Steps as steps;
ghost use Rattle.cg_pmacro_expand.specs.Expansion as meant;

use super::expand;
use cg_base::{List, NoMemory};
use cg_pmacro_builtin::{
    Body, BuiltIn, Halt, Macro, Value, elements, is_false, is_list, is_named, is_value, miscounted,
    misfit, own_symbol, pair_of,
};
use std::alloc::Global;

/// `.if`, `.cond` and `.case`: what they take is expanded, and nothing is `()`.
#[cycle(expansion)]
#[tactic(auto, using(crate::proofs::Rules::leaving_rules))]
#[inline(never)]
pub fn call_choice(
    alloc: Global,
    macros: &[Macro],
    depth: u32,
    of: BuiltIn,
    items: &[Body],
    left: &mut u64,
) -> Result<Value, Halt>
    ensures { Leaves (meant.chosen (meant.expanded macros.now depth) of (steps.take (meant.expanded macros.now depth) of items.now) left.old) result left.new }
{
    let taken = match of {
        BuiltIn::If => take_if(alloc, macros, depth, items, left)?,
        BuiltIn::Cond => take_cond(alloc, macros, depth, items, left)?,
        _ => take_case(alloc, macros, depth, items, left)?,
    };
    match taken {
        Some(body) => expand(alloc, macros, depth, of.name(), false, body, left),
        None => Ok(Value::list(alloc, List::new(alloc))?),
    }
}

#[cycle(expansion)]
#[tactic(auto, using(crate::proofs::Rules::leaving_rules))]
#[inline(never)]
fn take_if<'b>(
    alloc: Global,
    macros: &[Macro],
    depth: u32,
    items: &'b [Body],
    left: &mut u64,
) -> Result<Option<&'b Body>, Halt>
    ensures { LeavesPart (meant.take_if (meant.expanded macros.now depth) items.now left.old) result left.new }
{
    let Some(condition) = items.first() else {
        return Err(miscounted(alloc, BuiltIn::If));
    };
    let condition = expand(alloc, macros, depth, b".if", false, condition, left)?;
    let fails = is_false(&condition);
    match items {
        [_, then] => Ok(if fails { None } else { Some(then) }),
        [_, then, otherwise] => Ok(Some(if fails { otherwise } else { then })),
        _ => Err(miscounted(alloc, BuiltIn::If)),
    }
}

#[cycle(expansion)]
#[tactic(auto, using(crate::proofs::Rules::leaving_rules))]
#[inline(never)]
fn take_cond<'b>(
    alloc: Global,
    macros: &[Macro],
    depth: u32,
    arms: &'b [Body],
    left: &mut u64,
) -> Result<Option<&'b Body>, Halt>
    ensures { LeavesPart (meant.take_cond (meant.expanded macros.now depth) arms.now left.old) result left.new }
{
    let taken = first_arm(alloc, macros, depth, arms, left)?;
    if are_pairs(arms) {
        Ok(taken)
    } else {
        Err(misfit(alloc, BuiltIn::Cond))
    }
}

fn are_pairs(arms: &[Body]) -> bool
    ensures { result ≡ list_all meant.is_pair arms.now }
{
    for arm in arms {
        if pair_of(arm).is_none() {
            return false;
        }
    }
    true
}

/// The first arm that holds, up to one that isn't a list of two.
#[cycle(expansion)]
#[tactic(auto, using(crate::proofs::Rules::leaving_rules))]
#[inline(never)]
fn first_arm<'b>(
    alloc: Global,
    macros: &[Macro],
    depth: u32,
    arms: &'b [Body],
    left: &mut u64,
) -> Result<Option<&'b Body>, Halt>
    ensures { LeavesPart (meant.first_arm (meant.expanded macros.now depth) arms.now left.old) result left.new }
{
    for (k, arm) in arms.iter().enumerate() {
        let Some((condition, result)) = pair_of(arm) else {
            return Ok(None);
        };
        if is_else(condition, &arms[k + 1..]) {
            return Ok(Some(result));
        }
        let holds = expand(alloc, macros, depth, b".cond", false, condition, left)?;
        if !is_false(&holds) {
            return Ok(Some(result));
        }
    }
    Ok(None)
}

/// Whether it is the symbol `else`, with no arm behind.
fn is_else(condition: &Body, behind: &[Body]) -> bool
    ensures { result ≡ meant.is_else condition.now behind.now }
{
    behind.is_empty() && is_named(b"else", own_symbol(condition))
}

#[cycle(expansion)]
#[tactic(auto, using(crate::proofs::Rules::leaving_rules))]
#[inline(never)]
fn take_case<'b>(
    alloc: Global,
    macros: &[Macro],
    depth: u32,
    items: &'b [Body],
    left: &mut u64,
) -> Result<Option<&'b Body>, Halt>
    ensures { LeavesPart (meant.take_case (meant.expanded macros.now depth) items.now left.old) result left.new }
{
    let Some(form) = items.first() else {
        return Err(miscounted(alloc, BuiltIn::Case));
    };
    let value = expand(alloc, macros, depth, b".case", false, form, left)?;
    if !are_arms(&items[1..]) {
        return Err(misfit(alloc, BuiltIn::Case));
    }
    Ok(arm_of(alloc, &value, &items[1..])?)
}

fn are_arms(arms: &[Body]) -> bool
    ensures { result ≡ meant.are_arms arms.now }
{
    for (k, arm) in arms.iter().enumerate() {
        match pair_of(arm) {
            Some((values, _)) => {
                if !is_else(values, &arms[k + 1..]) && !is_list(values) {
                    return false;
                }
            }
            None => return false,
        }
    }
    true
}

/// The first arm with the value among its values.
fn arm_of<'b>(alloc: Global, value: &Value, arms: &'b [Body]) -> Result<Option<&'b Body>, NoMemory>
    ensures { IfOk result (λ arm. option_copied arm ≡ meant.arm_of value.now arms.now) }
{
    for arm in arms {
        match pair_of(arm) {
            Some((values, result)) => {
                if holds(alloc, value, values)? {
                    return Ok(Some(result));
                }
            }
            None => return Ok(None),
        }
    }
    Ok(None)
}

fn holds(alloc: Global, value: &Value, values: &Body) -> Result<bool, NoMemory>
    ensures { IfOk result (λ is. is ≡ meant.holds value.now values.now) }
{
    let Some(values) = elements(values) else {
        return Ok(true);
    };
    for each in values {
        if is_value(alloc, each, value)? {
            return Ok(true);
        }
    }
    Ok(false)
}
