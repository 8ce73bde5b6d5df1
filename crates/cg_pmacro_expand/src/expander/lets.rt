ghost use Rattle.std.specs.Prelude.{◌≡◌, OnOk};
ghost use Rattle.std.specs.Option.{option_map};
ghost use Rattle.cg_pmacro_builtin.specs.Reports.{Leaves};
ghost use Rattle.cg_pmacro_expand.specs.Steps as steps;
ghost use Rattle.cg_pmacro_builtin.specs.Shapes as seen;
ghost use Rattle.cg_pmacro_expand.specs.Expansion as meant;

use super::expand;
use cg_base::{List, NoMemory, Text};
use cg_pmacro_builtin::{
    Binding, Body, BuiltIn, Halt, Macro, Value, elements, miscounted, misfit, own_symbol, pair_of,
    replaced, without_name,
};
use std::alloc::Global;

#[cycle(expansion)]
#[tactic(auto, using(crate::proofs::Rules::leaving_rules))]
#[inline(never)]
pub fn call_let(
    alloc: Global,
    macros: &[Macro],
    depth: u32,
    of: BuiltIn,
    ordered: bool,
    items: &[Body],
    left: &mut u64,
) -> Result<Value, Halt>
    ensures { Leaves (steps.call_let (meant.expanded macros.now depth) of ordered items.now left.old) result left.new }
{
    let table = bind(alloc, macros, depth, of, ordered, let_bindings(items), left)?;
    match items {
        [bindings, body] => {
            if !are_bindings(bindings) {
                return Err(misfit(alloc, of));
            }
            let written = replaced(alloc, table.as_slice(), body)?;
            expand(alloc, macros, depth, of.name(), false, &written, left)
        }
        _ => Err(miscounted(alloc, of)),
    }
}

fn let_bindings(items: &[Body]) -> &[Body]
    ensures { result.now ≡ meant.let_bindings items.now }
{
    match items {
        [] => items,
        [first, ..] => match elements(first) {
            Some(bindings) => bindings,
            None => &items[..0],
        },
    }
}

fn are_bindings(bindings: &Body) -> bool
    ensures { result ≡ meant.are_bindings bindings.now }
{
    let Some(bindings) = elements(bindings) else {
        return false;
    };
    for each in bindings {
        if binding(each).is_none() {
            return false;
        }
    }
    true
}

/// The name and the form of a binding `(n e)`.
fn binding(body: &Body) -> Option<(&Text, &Body)>
    ensures { option_map (λ p. (p.0.now, p.1.now)) result ≡ seen.binding body.now }
{
    let (name, form) = pair_of(body)?;
    let name = own_symbol(name)?;
    Some((name, form))
}

/// The forms of the bindings expanded, in `.let*` with the earlier ones in place.
#[cycle(expansion)]
#[tactic(auto, using(crate::proofs::Rules::front_rules))]
#[inline(never)]
fn bind(
    alloc: Global,
    macros: &[Macro],
    depth: u32,
    of: BuiltIn,
    ordered: bool,
    items: &[Body],
    left: &mut u64,
) -> Result<List<Binding>, Halt>
    ensures { Leaves (steps.bind (meant.expanded macros.now depth) of ordered items.now left.old) result left.new }
{
    let mut table = List::new(alloc);
    for item in items {
        if let Some((name, form)) = binding(item) {
            let value = if ordered {
                let written = replaced(alloc, table.as_slice(), form)?;
                expand(alloc, macros, depth, of.name(), false, &written, left)?
            } else {
                expand(alloc, macros, depth, of.name(), false, form, left)?
            };
            add_binding(alloc, ordered, &mut table, name, value)?;
        }
    }
    Ok(table)
}

fn add_binding(
    alloc: Global,
    ordered: bool,
    table: &mut List<Binding>,
    name: &Text,
    value: Value,
) -> Result<(), NoMemory>
    ensures { OnOk result (table.new ≡ steps.with_binding ordered table.old name.now value) }
{
    if ordered {
        *table = without_name(alloc, table.as_slice(), name)?;
    }
    table.push(Binding {
        name: name.clone()?,
        value,
    })
}
