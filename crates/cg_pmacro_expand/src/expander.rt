ghost use Rattle.std.specs.Prelude.{◌≡◌, false, [], drop, None, IfOk};
ghost use Rattle.std.specs.Option.{option_map};
ghost use Rattle.cg_base.specs.declared.form.Form.TheVariants.{Symbol, Str};
ghost use Rattle.cg_pmacro_builtin.specs.Outcome.{each as each_of};
ghost use Rattle.cg_pmacro_builtin.specs.Reports.{Leaves};
ghost use Rattle.cg_pmacro_expand.specs.Steps as steps;
ghost use Rattle.cg_pmacro_builtin.specs.Shapes as seen;
ghost use Rattle.cg_pmacro_expand.specs.Expansion as meant;

mod choices;
mod lets;
mod macro_calls;
mod mapping;
mod own_calls;

use crate::charging::charge;
use cg_base::{List, NoMemory, Text, refusals};
use cg_pmacro_builtin::{
    Body, Halt, Macro, Value, begins_with_dot, built_in_of, called, faulty, macro_named,
    pmacro_form,
};
use macro_calls::{call_named, call_pmacro};
use own_calls::call_own;
use std::alloc::Global;

/// What a form expands to, where lists and symbols that expand may still stand `depth` deep one
/// within another. `inner` is the innermost macro or built-in around it, `spliced` whether it is
/// an argument of `.splice`, `left` the units that are left of the budget.
#[cycle(expansion)]
#[tactic(auto, using(crate::proofs::ExpandRules::expand_rules))]
#[inline(never)]
pub fn expand(
    alloc: Global,
    macros: &[Macro],
    depth: u32,
    inner: &[u8],
    spliced: bool,
    body: &Body,
    left: &mut u64,
) -> Result<Value, Halt>
    ensures { Leaves (meant.expanded macros.now depth inner.now spliced body.now left.old) result left.new }
{
    match body {
        Body::Quoted(value) => Ok(value.clone()?),
        Body::Number(number) => Ok(Value::number(*number)),
        Body::Symbol(name) => Ok(expand_symbol(alloc, macros, depth, name, left)?),
        Body::Str(text) => Ok(string(alloc, text)?),
        Body::Flag(flag) => Ok(Value::flag(*flag)),
        Body::Items(items) => {
            let items = items.as_slice();
            Ok(expand_list(alloc, macros, depth, inner, spliced, items, left)?)
        }
    }
}

/// A string as a value.
#[inline(never)]
fn string(alloc: Global, text: &Text) -> Result<Value, NoMemory>
    ensures { IfOk result (λ value. value ≡ Str text.now) }
{
    Value::string(alloc, text.clone()?)
}

/// A symbol as a value.
#[inline(never)]
fn symbol(alloc: Global, text: &Text) -> Result<Value, NoMemory>
    ensures { IfOk result (λ value. value ≡ Symbol text.now) }
{
    Value::symbol(alloc, text.clone()?)
}

#[cycle(expansion)]
#[tactic(auto, using(crate::proofs::Rules::depth_rules))]
#[inline(never)]
fn expand_symbol(
    alloc: Global,
    macros: &[Macro],
    depth: u32,
    name: &Text,
    left: &mut u64,
) -> Result<Value, Halt>
    ensures { Leaves (steps.at_depth macros.now depth [] false (meant.symbol_kind macros.now name.now) left.old) result left.new }
{
    let Some(found) = macro_named(macros, name.as_slice()) else {
        return Ok(symbol(alloc, name)?);
    };
    if found.formals.is_some() {
        return Ok(symbol(alloc, name)?);
    }
    if depth == 0 {
        return Err(faulty(alloc, refusals::DEEP_EXPANSION, name.as_slice()));
    }
    let result = expand(
        alloc,
        macros,
        depth - 1,
        name.as_slice(),
        false,
        &found.body,
        left,
    )?;
    charge(alloc, name.as_slice(), result, left)
}

#[cycle(expansion)]
#[tactic(auto, using(crate::proofs::Rules::depth_rules), unfolding(crate::specs::Expansion::list_kind))]
#[inline(never)]
fn expand_list(
    alloc: Global,
    macros: &[Macro],
    depth: u32,
    inner: &[u8],
    spliced: bool,
    items: &[Body],
    left: &mut u64,
) -> Result<Value, Halt>
    ensures { Leaves (steps.at_depth macros.now depth inner.now spliced (meant.list_kind macros.now items.now) left.old) result left.new }
{
    let Some(head) = items.first() else {
        return expand_plain(alloc, macros, depth, inner, items, left);
    };
    if let Some(form) = pmacro_form(head) {
        if depth == 0 {
            return Err(faulty(alloc, refusals::DEEP_EXPANSION, b".pmacro"));
        }
        return Ok(call_pmacro(alloc, macros, depth - 1, form, &items[1..], left)?);
    }
    match called(head) {
        Some(name) => {
            let name = name.as_slice();
            Ok(expand_named(
                alloc,
                macros,
                depth,
                inner,
                spliced,
                name,
                &items[1..],
                items,
                left,
            )?)
        }
        None => Ok(expand_plain(alloc, macros, depth, inner, items, left)?),
    }
}

/// A list whose head is that symbol.
#[cycle(expansion)]
#[tactic(auto, using(crate::proofs::Rules::depth_rules))]
#[inline(never)]
fn expand_named(
    alloc: Global,
    macros: &[Macro],
    depth: u32,
    inner: &[u8],
    spliced: bool,
    name: &[u8],
    args: &[Body],
    items: &[Body],
    left: &mut u64,
) -> Result<Value, Halt>
    requires { args.now ≡ drop 1 items.now }
    ensures { Leaves (steps.at_depth macros.now depth inner.now spliced (meant.named_kind macros.now name.now items.now) left.old) result left.new }
{
    if let Some((formals, body)) = with_arguments(macros, name) {
        if depth == 0 {
            return Err(faulty(alloc, refusals::DEEP_EXPANSION, name));
        }
        return Ok(call_named(alloc, macros, depth - 1, name, formals, body, args, left)?);
    }
    if let Some(of) = built_in_of(name) {
        if depth == 0 {
            return Err(faulty(alloc, refusals::DEEP_EXPANSION, of.name()));
        }
        return Ok(call_own(alloc, macros, depth - 1, of, spliced, args, left)?);
    }
    if depth == 0 {
        return Err(faulty(alloc, refusals::DEEP_EXPANSION, inner));
    }
    if begins_with_dot(name) {
        return Err(faulty(alloc, refusals::NO_BUILT_IN, name));
    }
    Ok(plain_list(alloc, macros, depth - 1, inner, items, left)?)
}

/// The arguments and the body of the macro of that name, where it is one with arguments.
pub fn with_arguments<'m>(macros: &'m [Macro], name: &[u8]) -> Option<(&'m [Text], &'m Body)>
    ensures { option_map (λ p. (p.0.now, p.1.now)) result ≡ meant.with_arguments (seen.macro_named macros.now name.now) }
{
    let found = macro_named(macros, name)?;
    match &found.formals {
        Some(formals) => Some((formals.as_slice(), &found.body)),
        None => None,
    }
}

/// A list that isn't a call.
#[cycle(expansion)]
#[tactic(auto, using(crate::proofs::Rules::depth_rules))]
#[inline(never)]
fn expand_plain(
    alloc: Global,
    macros: &[Macro],
    depth: u32,
    inner: &[u8],
    items: &[Body],
    left: &mut u64,
) -> Result<Value, Halt>
    ensures { Leaves (steps.at_depth macros.now depth inner.now false (meant.other_list None items.now) left.old) result left.new }
{
    if depth == 0 {
        return Err(faulty(alloc, refusals::DEEP_EXPANSION, inner));
    }
    Ok(plain_list(alloc, macros, depth - 1, inner, items, left)?)
}

/// The list of the expansions of the elements.
#[cycle(expansion)]
#[tactic(auto, using(crate::proofs::Rules::leaving_rules))]
#[inline(never)]
fn plain_list(
    alloc: Global,
    macros: &[Macro],
    depth: u32,
    inner: &[u8],
    items: &[Body],
    left: &mut u64,
) -> Result<Value, Halt>
    ensures { Leaves (meant.listed (each_of (meant.expanded macros.now depth inner.now false) items.now) left.old) result left.new }
{
    let forms = each(alloc, macros, depth, inner, items, left)?;
    Ok(Value::list(alloc, forms)?)
}

/// The expansions of several forms from left to right.
#[cycle(expansion)]
#[tactic(auto, using(crate::proofs::Rules::front_rules))]
#[inline(never)]
pub fn each(
    alloc: Global,
    macros: &[Macro],
    depth: u32,
    name: &[u8],
    items: &[Body],
    left: &mut u64,
) -> Result<List<Value>, Halt>
    ensures { Leaves (each_of (meant.expanded macros.now depth name.now false) items.now left.old) result left.new }
{
    let mut values = List::new(alloc);
    for item in items {
        values.push(expand(alloc, macros, depth, name, false, item, left)?)?;
    }
    Ok(values)
}
