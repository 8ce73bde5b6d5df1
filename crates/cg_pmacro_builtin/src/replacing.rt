ghost use Rattle.std.specs.Prelude.{◌≡◌, ◌++◌, [], ◌∷◌, map, Some, OnOk, IfOk, if◌then◌else◌};
ghost use Rattle.std.specs.Option.{option_copied};
ghost use Rattle.cg_pmacro_builtin.specs.Replacing as meant;
ghost use Rattle.cg_pmacro_builtin.specs.Hiding.{hiding as hiding_of, bindings_replaced as bindings_in};
ghost use Rattle.cg_pmacro_builtin.specs.Shapes.{head_name, first_symbol as first_symbol_of};

use crate::{Binding, Body, called, copy, elements, is_among, is_named, levels, own_symbol};
use cg_base::{List, NoMemory, Text};
use std::alloc::Global;

/// The body with each name of the table replaced by a quoted leaf, but for the places where the
/// name is bound again (docs/LANGUAGE.md, "Macros").
pub fn replaced(alloc: Global, table: &[Binding], body: &Body) -> Result<Body, NoMemory>
    ensures { IfOk result (λ new. new ≡ meant.replaced table.now body.now) }
{
    replaced_to(alloc, levels(body)?, table, body)
}

/// The table without some names.
pub fn without(alloc: Global, table: &[Binding], names: &[Text]) -> Result<List<Binding>, NoMemory>
    ensures { IfOk result (λ rest. rest ≡ meant.without table.now names.now) }
{
    let mut rest = List::new(alloc);
    for binding in table {
        if !is_among(names, binding.name.as_slice()) {
            rest.push(Binding {
                name: binding.name.clone()?,
                value: binding.value.clone()?,
            })?;
        }
    }
    Ok(rest)
}

/// The table without one name.
pub fn without_name(
    alloc: Global,
    table: &[Binding],
    name: &Text,
) -> Result<List<Binding>, NoMemory>
    ensures { IfOk result (λ rest. rest ≡ meant.without table.now (name.now ∷ [])) }
{
    let mut names = List::new(alloc);
    names.push(name.clone()?)?;
    without(alloc, table, names.as_slice())
}

fn looked_up(table: &[Binding], name: &Text) -> Result<Body, NoMemory>
    ensures { IfOk result (λ body. body ≡ meant.looked_up table.now name.now) }
{
    for binding in table {
        if binding.name.as_slice() == name.as_slice() {
            return Ok(Body::Quoted(binding.value.clone()?));
        }
    }
    Ok(Body::Symbol(name.clone()?))
}

fn symbols_among(alloc: Global, items: &[Body]) -> Result<List<Text>, NoMemory>
    ensures { IfOk result (λ names. names ≡ meant.symbols_among items.now) }
{
    let mut names = List::new(alloc);
    for item in items {
        if let Some(name) = own_symbol(item) {
            names.push(name.clone()?)?;
        }
    }
    Ok(names)
}

fn first_symbol(items: &[Body]) -> Option<&Text>
    ensures { option_copied result ≡ first_symbol_of items.now }
{
    match items {
        [] => None,
        [first, ..] => own_symbol(first),
    }
}

fn bound_name(body: &Body) -> Option<&Text>
    ensures { option_copied result ≡ meant.bound_name body.now }
{
    match elements(body) {
        Some(items) => first_symbol(items),
        None => None,
    }
}

fn copy_of(alloc: Global, table: &[Binding]) -> Result<List<Binding>, NoMemory>
    ensures { IfOk result (λ copy. copy ≡ table.now) }
{
    let mut copy = List::new(alloc);
    for binding in table {
        copy.push(Binding {
            name: binding.name.clone()?,
            value: binding.value.clone()?,
        })?;
    }
    Ok(copy)
}

fn hide(alloc: Global, table: &mut List<Binding>, name: Option<&Text>) -> Result<(), NoMemory>
    ensures { OnOk result (table.new ≡ hiding_of table.old (option_copied name.entry)) }
{
    if let Some(name) = name {
        *table = without_name(alloc, table.as_slice(), name)?;
    }
    Ok(())
}

#[cycle(replacing)]
#[tactic(auto, using(crate::proofs::Rules::replacing_rules))]
fn replaced_to(alloc: Global, levels: u64, table: &[Binding], body: &Body) -> Result<Body, NoMemory>
    ensures { IfOk result (λ new. new ≡ meant.replaced_to levels table.now body.now) }
{
    match body {
        Body::Quoted(value) => Ok(Body::Quoted(value.clone()?)),
        Body::Number(number) => Ok(Body::Number(*number)),
        Body::Symbol(name) => looked_up(table, name),
        Body::Str(text) => Ok(Body::Str(text.clone()?)),
        Body::Flag(flag) => Ok(Body::Flag(*flag)),
        Body::Items(items) => {
            if levels == 0 {
                copy(alloc, body)
            } else {
                let items = elements_replaced(alloc, levels - 1, table, items.as_slice())?;
                Ok(Body::Items(items))
            }
        }
    }
}

/// The elements of a list, each replaced as far as it stands in the list's own scope.
#[cycle(replacing)]
fn elements_replaced(
    alloc: Global,
    levels: u64,
    table: &[Binding],
    items: &[Body],
) -> Result<List<Body>, NoMemory>
    ensures { IfOk result (λ new. new ≡ meant.elements_replaced (meant.replaced_to levels) table.now (head_name items.now) items.now) }
{
    let mut done = List::new(alloc);
    let Some(head) = items.first() else {
        return Ok(done);
    };
    done.push(replaced_to(alloc, levels, table, head)?)?;
    let name = called(head);
    if is_named(b".pmacro", name) {
        push_pmacro(alloc, levels, table, &items[1..], &mut done)?;
    } else if is_named(b".let", name) {
        push_let(alloc, levels, false, table, &items[1..], &mut done)?;
    } else if is_named(b".let*", name) {
        push_let(alloc, levels, true, table, &items[1..], &mut done)?;
    } else {
        push_replaced(alloc, levels, table, &items[1..], &mut done)?;
    }
    Ok(done)
}

/// Puts the elements, each replaced, behind those that are done.
#[cycle(replacing)]
fn push_replaced(
    alloc: Global,
    levels: u64,
    table: &[Binding],
    items: &[Body],
    done: &mut List<Body>,
) -> Result<(), NoMemory>
    ensures { OnOk result (done.new ≡ done.old ++ map (meant.replaced_to levels table.now) items.now) }
{
    for item in items {
        done.push(replaced_to(alloc, levels, table, item)?)?;
    }
    Ok(())
}

#[cycle(replacing)]
fn push_pmacro(
    alloc: Global,
    levels: u64,
    table: &[Binding],
    items: &[Body],
    done: &mut List<Body>,
) -> Result<(), NoMemory>
    ensures { OnOk result (done.new ≡ done.old ++ meant.pmacro_replaced (meant.replaced_to levels) table.now items.now) }
{
    let Some(formals) = items.first() else {
        return Ok(());
    };
    match elements(formals) {
        Some(names) => {
            let names = symbols_among(alloc, names)?;
            let inner = without(alloc, table, names.as_slice())?;
            done.push(copy(alloc, formals)?)?;
            push_replaced(alloc, levels, inner.as_slice(), &items[1..], done)
        }
        None => push_replaced(alloc, levels, table, items, done),
    }
}

#[cycle(replacing)]
fn push_let(
    alloc: Global,
    levels: u64,
    ordered: bool,
    table: &[Binding],
    items: &[Body],
    done: &mut List<Body>,
) -> Result<(), NoMemory>
    ensures { OnOk result (done.new ≡ done.old ++ meant.let_replaced (meant.replaced_to levels) (bindings_in (meant.replaced_to levels) ordered) table.now items.now) }
{
    let Some(first) = items.first() else {
        return Ok(());
    };
    match elements(first) {
        Some(bindings) => {
            let mut later = copy_of(alloc, table)?;
            let bindings = bindings_replaced(alloc, levels, ordered, table, &mut later, bindings)?;
            done.push(Body::Items(bindings))?;
            push_replaced(alloc, levels, later.as_slice(), &items[1..], done)
        }
        None => push_replaced(alloc, levels, table, items, done),
    }
}

/// The bindings replaced; `later` becomes the table for what comes behind them.
#[cycle(replacing)]
#[tactic(auto, using(crate::proofs::Rules::hiding_rules))]
fn bindings_replaced(
    alloc: Global,
    levels: u64,
    ordered: bool,
    table: &[Binding],
    later: &mut List<Binding>,
    bindings: &[Body],
) -> Result<List<Body>, NoMemory>
    ensures { IfOk result (λ new. (new ≡ (if ordered then meant.in_order (meant.replaced_to levels) later.old bindings.now else meant.side_by_side (meant.replaced_to levels) table.now bindings.now)) × (later.new ≡ meant.hidden later.old bindings.now)) }
{
    let mut done = List::new(alloc);
    for binding in bindings {
        let new = if ordered {
            binding_replaced(alloc, levels, later.as_slice(), binding)?
        } else {
            binding_replaced(alloc, levels, table, binding)?
        };
        done.push(new)?;
        hide(alloc, later, bound_name(binding))?;
    }
    Ok(done)
}

#[cycle(replacing)]
fn binding_replaced(
    alloc: Global,
    levels: u64,
    table: &[Binding],
    binding: &Body,
) -> Result<Body, NoMemory>
    ensures { IfOk result (λ new. new ≡ meant.binding_replaced (meant.replaced_to levels) table.now binding.now) }
{
    match bound_name(binding) {
        Some(_) => match elements(binding) {
            Some(items) => {
                let new = kept_first(alloc, levels, table, items)?;
                Ok(Body::Items(new))
            }
            None => copy(alloc, binding),
        },
        None => replaced_to(alloc, levels, table, binding),
    }
}

/// The elements behind the first replaced; the first stays in its place.
#[cycle(replacing)]
fn kept_first(
    alloc: Global,
    levels: u64,
    table: &[Binding],
    items: &[Body],
) -> Result<List<Body>, NoMemory>
    ensures { IfOk result (λ new. new ≡ meant.kept_first (meant.replaced_to levels) table.now items.now) }
{
    let mut done = List::new(alloc);
    let Some(first) = items.first() else {
        return Ok(done);
    };
    done.push(copy(alloc, first)?)?;
    push_replaced(alloc, levels, table, &items[1..], &mut done)?;
    Ok(done)
}
