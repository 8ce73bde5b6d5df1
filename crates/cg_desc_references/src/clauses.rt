//! The clauses of a form, as they stand.

ghost use Rattle.std.specs.Prelude.{◌≡◌, [], map, IfOk};
ghost use Rattle.std.specs.Option.{unwrap_or};
ghost use Rattle.cg_base.specs.Parts.{elements_of};
ghost use Rattle.cg_attrs.specs.Clauses as spec;
ghost use Rattle.cg_desc_references.specs.Clauses.{argument, naming, arguments, clauses_of};

use cg_attrs::{Clause, standing};
use cg_base::{Form, NoMemory};
use cg_desc_elements::Kind;
use std::alloc::Global;

/// The clauses among the elements behind a form's head.
fn clauses(alloc: Global, elements: &[Form]) -> Result<Vec<Clause<'_>>, NoMemory>
    ensures { IfOk result (λ list. map spec.seen_clause list.items ≡ spec.clauses elements.now) }
{
    let mut list = Vec::new(alloc);
    for element in elements {
        if let Some(clause) = standing(elements, element) {
            list.push(clause)?;
        }
    }
    Ok(list)
}

/// The elements of a list.
fn elements_or_none(form: &Form) -> &[Form]
    ensures { result.now ≡ unwrap_or (elements_of form.now) [] }
{
    match form.elements() {
        Some(elements) => elements,
        None => &[],
    }
}

/// An argument as a clause.
fn argument<'a>(name: &'static [u8], content: &'a [Form]) -> Clause<'a>
    ensures { spec.seen_clause result ≡ argument name.now content.now }
{
    Clause {
        name,
        content,
        elements: &[],
    }
}

/// The arguments that name something, as clauses.
fn naming<'a>(
    alloc: Global,
    name: &'a Form,
    attrs: &'a Form,
    field: &'a Form,
    values: &'a Form,
) -> Result<Vec<Clause<'a>>, NoMemory>
    ensures { IfOk result (λ list. map spec.seen_clause list.items ≡ naming name.now attrs.now field.now values.now) }
{
    let mut list = Vec::new(alloc);
    list.push(argument(b"name", std::slice::from_ref(name)))?;
    list.push(argument(b"attrs", elements_or_none(attrs)))?;
    list.push(argument(b"field", std::slice::from_ref(field)))?;
    list.push(argument(b"values", elements_or_none(values)))?;
    Ok(list)
}

/// The arguments of `define-normal-insn-enum`, those that name something, as clauses.
fn arguments(alloc: Global, forms: &[Form]) -> Result<Vec<Clause<'_>>, NoMemory>
    ensures { IfOk result (λ list. map spec.seen_clause list.items ≡ arguments forms.now) }
{
    match forms {
        [name, _, attrs, _, field, values] => Ok(naming(alloc, name, attrs, field, values)?),
        _ => Ok(Vec::new(alloc)),
    }
}

/// The clauses of a form that gives an element of this kind, in the order in which they stand,
/// without those that count as absent. Of `define-normal-insn-enum` the arguments count as clauses.
pub fn clauses_of(alloc: Global, kind: Kind, form: &Form) -> Result<Vec<Clause<'_>>, NoMemory>
    ensures { IfOk result (λ list. map spec.seen_clause list.items ≡ clauses_of kind form.now) }
{
    match form.headed() {
        Some((_, elements)) => match kind {
            Kind::InsnEnum => arguments(alloc, elements),
            _ => clauses(alloc, elements),
        },
        None => Ok(Vec::new(alloc)),
    }
}
