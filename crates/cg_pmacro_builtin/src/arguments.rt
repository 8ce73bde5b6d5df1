ghost use Rattle.std.specs.Prelude.{◌≡◌, ◌<◌, ◌^◌, IfOk};
ghost use Rattle.std.specs.Option.{option_copied};
ghost use Rattle.cg_pmacro_builtin.specs.Reports.{Comes, IsHalt};
ghost use Rattle.cg_pmacro_builtin.specs.BuiltIns as meant;
ghost use Rattle.cg_base.specs.Parts.{word_of, elements_of};

use crate::built_in::BuiltIn;
use crate::fault::{Halt, faulty};
use crate::value::{Node, Value};
use cg_base::{NoMemory, Text, decimal, refusals};
use std::alloc::Global;

/// What a wrong count of arguments comes to.
pub fn miscounted(alloc: Global, of: BuiltIn) -> Halt
    ensures { IsHalt (meant.miscounted of) result }
{
    faulty(alloc, refusals::ARGUMENT_COUNT, of.name())
}

/// What an argument comes to that isn't of its kind.
pub fn misfit(alloc: Global, of: BuiltIn) -> Halt
    ensures { IsHalt (meant.misfit of) result }
{
    faulty(alloc, refusals::ARGUMENT_KIND, of.name())
}

/// The number that the argument is.
#[tactic(auto, using(crate::proofs::Values::value_rules))]
pub fn number(alloc: Global, of: BuiltIn, value: &Value) -> Result<i64, Halt>
    ensures { Comes (meant.number_for of value.now) result }
{
    match &value.node {
        Node::Number(number) => Ok(*number),
        _ => Err(misfit(alloc, of)),
    }
}

/// The number that the argument is, which isn't negative.
#[tactic(auto, using(crate::proofs::Values::value_rules))]
pub fn natural(alloc: Global, of: BuiltIn, value: &Value) -> Result<u64, Halt>
    ensures value { Comes (meant.natural_for of value.now) result }
    ensures bound { IfOk result (λ n. n < 2 ^ 63) }
{
    match &value.node {
        Node::Number(number) if *number >= 0 => Ok(*number as u64),
        _ => Err(misfit(alloc, of)),
    }
}

/// The text of a symbol or string.
#[tactic(auto, using(crate::proofs::Values::value_rules))]
pub fn text(value: &Value) -> Option<&Text>
    ensures { option_copied result ≡ word_of value.now }
{
    match &value.node {
        Node::Symbol(text) => Some(text.as_ref()),
        Node::Str(text) => Some(text.as_ref()),
        _ => None,
    }
}

/// A symbol or string of the same kind with another text.
#[tactic(auto, using(crate::proofs::Values::value_rules))]
pub fn with_text(alloc: Global, value: &Value, text: Text) -> Result<Value, NoMemory>
    ensures { IfOk result (λ new. new ≡ meant.with_text value.now text) }
{
    match &value.node {
        Node::Symbol(_) => Value::symbol(alloc, text),
        _ => Value::string(alloc, text),
    }
}

/// The elements of a list.
#[tactic(auto, using(crate::proofs::Values::value_rules))]
pub fn form_elements(value: &Value) -> Option<&[Value]>
    ensures { option_copied result ≡ elements_of value.now }
{
    match &value.node {
        Node::Items(_, items) => Some(items.as_ref().as_slice()),
        _ => None,
    }
}

/// Whether the form is `#f`.
#[tactic(auto, using(crate::proofs::Values::value_rules))]
pub fn is_false(value: &Value) -> bool
    ensures { result ≡ meant.is_false value.now }
{
    match &value.node {
        Node::Flag(flag) => !*flag,
        _ => false,
    }
}

/// The text of a symbol, a string or a number. None for another form.
#[tactic(auto, using(crate::proofs::Values::value_rules))]
fn shown(alloc: Global, value: &Value) -> Result<Option<Text>, NoMemory>
    ensures { IfOk result (λ text. text ≡ meant.shown value.now) }
{
    match &value.node {
        Node::Number(number) => Ok(Some(decimal(alloc, i128::from(*number))?)),
        Node::Symbol(text) => Ok(Some(text.as_ref().clone()?)),
        Node::Str(text) => Ok(Some(text.as_ref().clone()?)),
        _ => Ok(None),
    }
}

/// The texts of symbols, strings and numbers joined.
#[tactic(auto, using(crate::proofs::Fronts::front_rules))]
pub fn joined(alloc: Global, of: BuiltIn, args: &[Value]) -> Result<Text, Halt>
    ensures { Comes (meant.joined of args.now) result }
{
    let mut done = Text::new(alloc);
    for arg in args {
        match shown(alloc, arg)? {
            Some(text) => done.append(text.as_slice())?,
            None => return Err(misfit(alloc, of)),
        }
    }
    Ok(done)
}
