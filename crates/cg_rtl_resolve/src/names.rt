//! What names stand for.

ghost use Rattle.std.specs.Prelude.{◌≡◌, pos};
ghost use Rattle.std.specs.Option.{option_map};
ghost use Rattle.cg_rtl_resolve.specs.Names as spec;

use crate::scope::{EnumValue, Rule, Scope};
use cg_base::{List, Mode, Text};
use cg_model::{Op, Rtl};
use std::alloc::Global;

/// An expression without items.
pub fn leaf(alloc: Global, op: Op, mode: Option<Mode>, number: i64) -> Rtl
    ensures { result ≡ spec.leaf op mode number }
{
    Rtl {
        op,
        mode,
        number,
        items: List::new(alloc),
    }
}

/// What stands where an expression has no meaning.
pub fn nothing(alloc: Global) -> Rtl
    ensures { result ≡ spec.nothing }
{
    leaf(alloc, Op::Nop, None, 0)
}

/// The first place of a name.
#[tactic(auto, using(crate::proofs::Places::first_rules))]
fn place_of(name: &[u8], names: &[Text]) -> Option<i64>
    ensures { result ≡ option_map pos (spec.place_of name.now names.now) }
{
    for k in 0..names.len() {
        if names[k].as_slice() == name {
            return Some(k as i64);
        }
    }
    None
}

/// The number of a name.
#[tactic(auto, using(crate::proofs::Places::number_is))]
pub fn number_named(name: &[u8], names: &List<Text>) -> Option<i64>
    ensures { result ≡ spec.number_named name.now names.now }
{
    place_of(name, names.as_slice())
}

/// What a name stands for where it has a number.
fn numbered(alloc: Global, op: Op, mode: Option<Mode>, number: Option<i64>) -> Option<Rtl>
    ensures { result ≡ spec.numbered op mode number }
{
    match number {
        Some(number) => Some(leaf(alloc, op, mode, number)),
        None => None,
    }
}

/// The value of the first constant of a name.
pub fn constant_value(name: &[u8], enums: &[EnumValue]) -> Option<i64>
    ensures { result ≡ spec.enum_value name.now enums.now }
{
    for each in enums {
        if each.name.as_slice() == name {
            return Some(each.value);
        }
    }
    None
}

/// What a constant stands for.
pub fn constant_named(alloc: Global, scope: &Scope, name: &[u8]) -> Option<Rtl>
    ensures { result ≡ spec.constant_named scope.now name.now }
{
    numbered(
        alloc,
        Op::Number,
        None,
        constant_value(name, scope.enums.as_slice()),
    )
}

/// An expression, where something holds.
fn given_where(alloc: Global, holds: bool, op: Op, mode: Option<Mode>) -> Option<Rtl>
    ensures { result ≡ spec.given_where holds (spec.leaf op mode (pos 0)) }
{
    if holds {
        Some(leaf(alloc, op, mode, 0))
    } else {
        None
    }
}

/// What a name of a rule stands for.
fn rule_name(alloc: Global, rule: &Rule, own: Option<Mode>, name: &[u8]) -> Option<Rtl>
    ensures { result ≡ spec.rule_name rule.now own name.now }
{
    match rule {
        Rule::Get => given_where(alloc, name == b"index".as_slice(), Op::Index, None),
        Rule::Set => {
            if name == b"index".as_slice() {
                Some(leaf(alloc, Op::Index, None, 0))
            } else {
                given_where(alloc, name == b"newval".as_slice(), Op::NewVal, own)
            }
        }
        Rule::Encode | Rule::Decode => {
            given_where(alloc, name == b"value".as_slice(), Op::Value, own)
        }
        _ => None,
    }
}

/// What the pc or a name of a rule stands for.
pub fn named_by_rule(alloc: Global, scope: &Scope, name: &[u8]) -> Option<Rtl>
    ensures { result ≡ spec.named_by_rule scope.now name.now }
{
    if name == b"pc".as_slice() {
        Some(leaf(alloc, Op::Pc, None, 0))
    } else {
        rule_name(alloc, &scope.rule, scope.own, name)
    }
}

/// Whether a name is that of the multi field whose `insert` is meant.
fn is_own(rule: &Rule, name: &[u8]) -> bool
    ensures { result ≡ spec.is_own rule.now name.now }
{
    match rule {
        Rule::Insert(multi) => name == multi.as_slice(),
        _ => false,
    }
}

/// What a field or a multi field stands for.
pub fn field_named(alloc: Global, scope: &Scope, mode: Option<Mode>, name: &[u8]) -> Option<Rtl>
    ensures { result ≡ spec.field_named scope.now mode name.now }
{
    if is_own(&scope.rule, name) {
        return Some(leaf(alloc, Op::Value, scope.own, 0));
    }
    match number_named(name, &scope.fields) {
        Some(field) => Some(leaf(alloc, Op::FieldRef, mode, field)),
        None => numbered(alloc, Op::MultiRef, mode, number_named(name, &scope.multis)),
    }
}

/// Whether the expressions of a rule are pure.
fn is_pure(rule: &Rule) -> bool
    ensures { result ≡ spec.is_pure rule.now }
{
    match rule {
        Rule::Semantics | Rule::Get | Rule::Set => false,
        _ => true,
    }
}

/// What a bare field of a pure expression stands for.
pub fn bare_field(alloc: Global, scope: &Scope, name: &[u8]) -> Option<Rtl>
    ensures { result ≡ spec.bare_field scope.now name.now }
{
    if is_pure(&scope.rule) {
        field_named(alloc, scope, None, name)
    } else {
        None
    }
}

/// What an operand stands for, or else a constant.
fn operand_or_constant(alloc: Global, scope: &Scope, name: &[u8]) -> Option<Rtl>
    ensures { result ≡ spec.operand_or_constant scope.now name.now }
{
    match number_named(name, &scope.operands) {
        Some(operand) => Some(leaf(alloc, Op::OperandRef, None, operand)),
        None => constant_named(alloc, scope, name),
    }
}

/// What a bare symbol that is no local stands for.
#[tactic(auto, unfolding(crate::specs::Names::named_beyond))]
pub(crate) fn named_beyond(alloc: Global, scope: &Scope, name: &[u8]) -> Option<Rtl>
    ensures { result ≡ spec.named_beyond scope.now name.now }
{
    if let Some(rtl) = named_by_rule(alloc, scope, name) {
        return Some(rtl);
    }
    if let Some(rtl) = bare_field(alloc, scope, name) {
        return Some(rtl);
    }
    operand_or_constant(alloc, scope, name)
}

/// What `index-of` an operand stands for.
pub fn operand_index(alloc: Global, scope: &Scope, mode: Option<Mode>, name: &[u8]) -> Option<Rtl>
    ensures { result ≡ spec.operand_index scope.now mode name.now }
{
    numbered(
        alloc,
        Op::IndexOf,
        mode,
        number_named(name, &scope.operands),
    )
}
