ghost use Rattle.std.specs.Prelude.{◌≡◌, IfOk};
ghost use Rattle.cg_pmacro_builtin.specs.Reports.{Leaves, ComesMacro};
ghost use Rattle.cg_pmacro_expand.specs.Expansion as meant;

use super::{each, expand};
use crate::charging::charge;
use cg_base::{List, NoMemory, Text, refusals};
use cg_pmacro_builtin::{
    Binding, Body, BuiltIn, Halt, Macro, Value, elements, faulty, miscounted, misfit, names_of,
    replaced,
};
use std::alloc::Global;

/// The call of a macro with arguments, with its cost.
#[cycle(expansion)]
#[tactic(auto, using(crate::proofs::Rules::leaving_rules))]
#[inline(never)]
pub fn call_named(
    alloc: Global,
    macros: &[Macro],
    depth: u32,
    name: &[u8],
    formals: &[Text],
    body: &Body,
    items: &[Body],
    left: &mut u64,
) -> Result<Value, Halt>
    ensures { Leaves (meant.macro_called (meant.expanded macros.now depth) name.now formals.now body.now items.now left.old) result left.new }
{
    let args = each(alloc, macros, depth, name, items, left)?;
    let value = call_macro(
        alloc,
        macros,
        depth,
        name,
        formals,
        body,
        args.as_slice(),
        left,
    )?;
    Ok(charge(alloc, name, value, left)?)
}

#[cycle(expansion)]
#[tactic(auto, using(crate::proofs::Rules::leaving_rules), unfolding(crate::specs::Expansion::call_pmacro))]
#[inline(never)]
pub fn call_pmacro(
    alloc: Global,
    macros: &[Macro],
    depth: u32,
    form: &[Body],
    items: &[Body],
    left: &mut u64,
) -> Result<Value, Halt>
    ensures { Leaves (meant.call_pmacro (meant.expanded macros.now depth) form.now items.now left.old) result left.new }
{
    let (formals, body) = pmacro(alloc, form)?;
    Ok(call_named(
        alloc,
        macros,
        depth,
        b".pmacro",
        formals.as_slice(),
        body,
        items,
        left,
    )?)
}

#[cycle(expansion)]
#[tactic(auto, using(crate::proofs::Rules::leaving_rules))]
#[inline(never)]
fn call_macro(
    alloc: Global,
    macros: &[Macro],
    depth: u32,
    name: &[u8],
    formals: &[Text],
    body: &Body,
    args: &[Value],
    left: &mut u64,
) -> Result<Value, Halt>
    ensures { Leaves (meant.call_written (meant.expanded macros.now depth) name.now formals.now body.now args.now left.old) result left.new }
{
    if args.len() != formals.len() {
        return Err(faulty(alloc, refusals::ARGUMENT_COUNT, name));
    }
    let table = bindings(alloc, formals, args)?;
    let written = replaced(alloc, table.as_slice(), body)?;
    expand(alloc, macros, depth, name, false, &written, left)
}

fn bindings(alloc: Global, formals: &[Text], args: &[Value]) -> Result<List<Binding>, NoMemory>
    ensures { IfOk result (λ table. table ≡ meant.bindings formals.now args.now) }
{
    let mut table = List::new(alloc);
    for (k, name) in formals.iter().enumerate() {
        let Some(value) = args.get(k) else {
            return Ok(table);
        };
        table.push(Binding {
            name: name.clone()?,
            value: value.clone()?,
        })?;
    }
    Ok(table)
}

/// The formals and the body of a `.pmacro` form.
#[tactic(auto, using(crate::proofs::Rules::leaving_rules), unfolding(crate::specs::Expansion::pmacro))]
pub fn pmacro(alloc: Global, form: &[Body]) -> Result<(List<Text>, &Body), Halt>
    ensures { ComesMacro (meant.pmacro form.now) result }
{
    match form {
        [_, formals, body] => {
            let Some(formals) = elements(formals) else {
                return Err(misfit(alloc, BuiltIn::Pmacro));
            };
            match names_of(alloc, formals)? {
                Some(names) => Ok((names, body)),
                None => Err(misfit(alloc, BuiltIn::Pmacro)),
            }
        }
        _ => Err(miscounted(alloc, BuiltIn::Pmacro)),
    }
}
