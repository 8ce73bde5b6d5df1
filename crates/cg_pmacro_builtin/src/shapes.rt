ghost use Rattle.std.specs.Prelude.{◌≡◌, IfOk, map};
ghost use Rattle.std.specs.Option.{option_copied, option_map};
ghost use Rattle.cg_base.specs.Parts.{symbol_of};
ghost use Rattle.cg_base.specs.Texts.{is_named as named_so, is_among as stands_among};
ghost use Rattle.cg_pmacro_builtin.specs.Shapes as seen;

use crate::body::{Body, Macro};
use crate::value::{Node, Value};
use cg_base::{Form, List, NoMemory, Text};
use std::alloc::Global;

/// A form as read: it has no quoted leaf.
#[cycle(plain)]
pub fn plain(alloc: Global, form: &Form) -> Result<Body, NoMemory>
    ensures { IfOk result (λ body. body ≡ seen.plain form.now) }
{
    match form {
        Form::Number(number) => Ok(Body::Number(*number)),
        Form::Symbol(text) => Ok(Body::Symbol(text.clone()?)),
        Form::Str(text) => Ok(Body::Str(text.clone()?)),
        Form::Flag(flag) => Ok(Body::Flag(*flag)),
        Form::Items(items) => Ok(Body::Items(all_plain(alloc, items)?)),
    }
}

/// Each of some forms as read.
#[cycle(plain)]
fn all_plain(alloc: Global, items: &List<Form>) -> Result<List<Body>, NoMemory>
    ensures { IfOk result (λ bodies. bodies ≡ map seen.plain items.now) }
{
    let mut bodies = List::new(alloc);
    for item in items.as_slice() {
        bodies.push(plain(alloc, item)?)?;
    }
    Ok(bodies)
}

/// A form as it is written, its quoted leaves as their content.
#[cycle(written)]
pub fn written(alloc: Global, body: &Body) -> Result<Value, NoMemory>
    ensures { IfOk result (λ value. value ≡ seen.written body.now) }
{
    match body {
        Body::Quoted(value) => Ok(value.clone()?),
        Body::Number(number) => Ok(Value::number(*number)),
        Body::Symbol(text) => Value::symbol(alloc, text.clone()?),
        Body::Str(text) => Value::string(alloc, text.clone()?),
        Body::Flag(flag) => Ok(Value::flag(*flag)),
        Body::Items(items) => Value::list(alloc, all_written(alloc, items)?),
    }
}

/// Each of some forms as it is written.
#[cycle(written)]
fn all_written(alloc: Global, items: &List<Body>) -> Result<List<Value>, NoMemory>
    ensures { IfOk result (λ values. values ≡ map seen.written items.now) }
{
    let mut values = List::new(alloc);
    for item in items.as_slice() {
        values.push(written(alloc, item)?)?;
    }
    Ok(values)
}

/// A copy of a form with quoted leaves, which stay shared.
#[cycle(copy)]
pub fn copy(alloc: Global, body: &Body) -> Result<Body, NoMemory>
    ensures { IfOk result (λ new. new ≡ body.now) }
{
    match body {
        Body::Quoted(value) => Ok(Body::Quoted(value.clone()?)),
        Body::Number(number) => Ok(Body::Number(*number)),
        Body::Symbol(text) => Ok(Body::Symbol(text.clone()?)),
        Body::Str(text) => Ok(Body::Str(text.clone()?)),
        Body::Flag(flag) => Ok(Body::Flag(*flag)),
        Body::Items(items) => Ok(Body::Items(copies(alloc, items)?)),
    }
}

/// A copy of each of some forms with quoted leaves.
#[cycle(copy)]
fn copies(alloc: Global, items: &List<Body>) -> Result<List<Body>, NoMemory>
    ensures { IfOk result (λ new. new ≡ items.now) }
{
    let mut copies = List::new(alloc);
    for item in items.as_slice() {
        copies.push(copy(alloc, item)?)?;
    }
    Ok(copies)
}

/// Whether two forms are of the same kind with the same content.
pub fn same_form(a: &Value, b: &Value) -> bool
    ensures { result ≡ seen.same_form a.now b.now }
{
    match (&a.node, &b.node) {
        (Node::Number(m), Node::Number(n)) => m == n,
        (Node::Symbol(s), Node::Symbol(t)) => s.as_ref() == t.as_ref(),
        (Node::Str(s), Node::Str(t)) => s.as_ref() == t.as_ref(),
        (Node::Flag(f), Node::Flag(g)) => f == g,
        (Node::Items(_, items), Node::Items(_, others)) => {
            let others = others.as_ref().as_slice();
            let items = items.as_ref().as_slice();
            if items.len() != others.len() {
                return false;
            }
            for (k, item) in items.iter().enumerate() {
                let Some(other) = others.get(k) else {
                    return false;
                };
                if !same_form(item, other) {
                    return false;
                }
            }
            true
        }
        _ => false,
    }
}

/// The text of a form that is a symbol.
#[tactic(auto, using(crate::proofs::Values::value_rules))]
pub fn form_symbol(value: &Value) -> Option<&Text>
    ensures { option_copied result ≡ symbol_of value.now }
{
    match &value.node {
        Node::Symbol(text) => Some(text.as_ref()),
        _ => None,
    }
}

/// The symbol that the form is in the place of a head.
pub fn called(body: &Body) -> Option<&Text>
    ensures { option_copied result ≡ seen.called body.now }
{
    match body {
        Body::Quoted(value) => form_symbol(value),
        Body::Symbol(text) => Some(text),
        _ => None,
    }
}

/// The symbol in the place of a list's head.
pub fn head_name(items: &[Body]) -> Option<&Text>
    ensures { option_copied result ≡ seen.head_name items.now }
{
    match items {
        [] => None,
        [head, ..] => called(head),
    }
}

/// Whether it is a text, and this one.
pub fn is_named(name: &[u8], found: Option<&Text>) -> bool
    ensures { result ≡ named_so name.now (option_copied found.entry) }
{
    match found {
        Some(text) => text.as_slice() == name,
        None => false,
    }
}

/// The text of a symbol that isn't quoted.
pub fn own_symbol(body: &Body) -> Option<&Text>
    ensures { option_copied result ≡ seen.own_symbol body.now }
{
    match body {
        Body::Symbol(text) => Some(text),
        _ => None,
    }
}

/// The elements of a list that isn't quoted.
pub fn elements(body: &Body) -> Option<&[Body]>
    ensures { option_copied result ≡ seen.elements body.now }
{
    match body {
        Body::Items(items) => Some(items.as_slice()),
        _ => None,
    }
}

/// The elements of a `.pmacro` form.
pub fn pmacro_form(body: &Body) -> Option<&[Body]>
    ensures { option_copied result ≡ seen.pmacro_form body.now }
{
    let items = elements(body)?;
    if is_named(b".pmacro", head_name(items)) {
        Some(items)
    } else {
        None
    }
}

/// The two elements of a list of two.
pub fn pair_of(body: &Body) -> Option<(&Body, &Body)>
    ensures { option_map (λ p. (p.0.now, p.1.now)) result ≡ seen.pair_of body.now }
{
    match elements(body)? {
        [first, second] => Some((first, second)),
        _ => None,
    }
}

/// Whether it is a list that isn't quoted.
pub fn is_list(body: &Body) -> bool
    ensures { result ≡ seen.is_list body.now }
{
    matches!(body, Body::Items(_))
}

/// The macro of that name.
pub fn macro_named<'m>(macros: &'m [Macro], name: &[u8]) -> Option<&'m Macro>
    ensures { option_copied result ≡ seen.macro_named macros.now name.now }
{
    for each in macros {
        if each.name.as_slice() == name {
            return Some(each);
        }
    }
    None
}

/// Whether the text is one of these.
pub fn is_among(texts: &[Text], text: &[u8]) -> bool
    ensures { result ≡ stands_among texts.now text.now }
{
    for each in texts {
        if each.as_slice() == text {
            return true;
        }
    }
    false
}

/// The names of formals, which are distinct symbols. None where they aren't.
#[tactic(auto, using(crate::proofs::Names::name_rules))]
pub fn names_of(alloc: Global, formals: &[Body]) -> Result<Option<List<Text>>, NoMemory>
    ensures { IfOk result (λ names. names ≡ seen.names_of formals.now) }
{
    let mut names = List::new(alloc);
    for formal in formals {
        match own_symbol(formal) {
            Some(name) => {
                if is_among(names.as_slice(), name.as_slice()) {
                    return Ok(None);
                }
                names.push(name.clone()?)?;
            }
            None => return Ok(None),
        }
    }
    Ok(Some(names))
}

/// Whether the text begins with a dot.
pub fn begins_with_dot(text: &[u8]) -> bool
    ensures { result ≡ seen.begins_with_dot text.now }
{
    match text {
        [] => false,
        [first, ..] => *first == b'.',
    }
}

/// Whether the form is that value, its quoted leaves as their content.
pub fn is_value(alloc: Global, body: &Body, value: &Value) -> Result<bool, NoMemory>
    ensures { IfOk result (λ same. same ≡ seen.same_form (seen.written body.now) value.now) }
{
    match body {
        Body::Quoted(content) => Ok(same_form(content, value)),
        _ => {
            let form = written(alloc, body)?;
            Ok(same_form(&form, value))
        }
    }
}
