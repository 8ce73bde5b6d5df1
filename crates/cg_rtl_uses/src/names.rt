//! What the names of an expression stand for.

ghost use Rattle.std.specs.Prelude.{◌≡◌, ◌∷◌, [], None, IfOk};
ghost use Rattle.std.specs.Option.{option_or};
ghost use Rattle.cg_model.specs.declared.rtl.Op.TheVariants as op;
ghost use Rattle.cg_rtl_resolve.specs.Names.{named_by_rule, bare_field, numbered, number_named};
ghost use Rattle.cg_rtl_uses.specs.Uses as spec;
ghost use Rattle.cg_rtl_uses.specs.Seen.{names_in};

use crate::uses::Use;
use crate::walk::Walk;
use cg_base::{Form, NoMemory, Text};
use cg_model::{Op, Rtl};
use cg_rtl_resolve::{
    Scope, bare_field, constant_named, constant_value, leaf, named_by_rule, nothing, number_named,
    number_of,
};
use std::alloc::Global;

/// The operation of an expression, with its mode and its number.
pub(crate) fn use_of(rtl: Rtl) -> Use
    ensures { result ≡ spec.use_of rtl }
{
    Use::Node(rtl.op, rtl.mode, rtl.number)
}

/// What a name stands for, or that it isn't defined.
pub(crate) fn named_use(alloc: Global, name: &[u8], found: Option<Rtl>) -> Result<Use, NoMemory>
    ensures { IfOk result (λ new. new ≡ spec.named_use name.now found) }
{
    match found {
        Some(rtl) => Ok(use_of(rtl)),
        None => Ok(Use::Undefined(Text::of(alloc, name)?)),
    }
}

/// What a bare symbol stands for that is no local: a name of the rule, a field where the expression is
/// pure, or an operand.
fn named_outside(alloc: Global, scope: &Scope, name: &[u8]) -> Option<Rtl>
    ensures { result ≡ option_or (named_by_rule scope.now name.now) (option_or (bare_field scope.now name.now) (numbered op.OperandRef None (number_named name.now scope.now.operands))) }
{
    if let Some(rtl) = named_by_rule(alloc, scope, name) {
        return Some(rtl);
    }
    if let Some(rtl) = bare_field(alloc, scope, name) {
        return Some(rtl);
    }
    match number_named(name, &scope.operands) {
        Some(operand) => Some(leaf(alloc, Op::OperandRef, None, operand)),
        None => None,
    }
}

/// What a bare symbol stands for, but for constants.
fn named_before(walk: &Walk, name: &[u8]) -> Result<Option<Rtl>, NoMemory>
    ensures { IfOk result (λ rtl. rtl ≡ spec.named_before walk.now.scope.now (names_in walk.now) name.now) }
{
    match number_of(walk.around, name)? {
        Some(number) => match i64::try_from(number) {
            Ok(number) => Ok(Some(leaf(walk.alloc, Op::Local, None, number))),
            Err(_) => Err(NoMemory),
        },
        None => Ok(named_outside(walk.alloc, walk.scope, name)),
    }
}

/// A constant, or a symbol that names nothing at all.
fn constant_use(alloc: Global, name: &[u8], value: Option<i64>) -> Result<Use, NoMemory>
    ensures { IfOk result (λ new. new ≡ spec.constant_use name.now value) }
{
    match value {
        Some(value) => Ok(Use::Constant(Text::of(alloc, name)?, value)),
        None => Ok(Use::Unknown(Text::of(alloc, name)?)),
    }
}

/// What a bare symbol is.
#[tactic(auto, unfolding(crate::specs::Uses::symbol_use))]
pub(crate) fn symbol_use(walk: &Walk, name: &[u8]) -> Result<Use, NoMemory>
    ensures { IfOk result (λ new. new ≡ spec.symbol_use walk.now.scope.now (names_in walk.now) name.now) }
{
    match named_before(walk, name)? {
        Some(rtl) => Ok(use_of(rtl)),
        None => {
            let value = constant_value(name, walk.scope.enums.as_slice());
            Ok(constant_use(walk.alloc, name, value)?)
        }
    }
}

/// What a value of a `case` is.
pub(crate) fn value_use(alloc: Global, scope: &Scope, form: &Form) -> Result<Use, NoMemory>
    ensures { IfOk result (λ new. spec.here new ∷ [] ≡ spec.value_use scope.now form.now) }
{
    match form {
        Form::Number(number) => Ok(Use::Node(Op::Number, None, *number)),
        Form::Symbol(name) => {
            let found = constant_named(alloc, scope, name.as_slice());
            Ok(named_use(alloc, name.as_slice(), found)?)
        }
        _ => Ok(use_of(nothing(alloc))),
    }
}
