//! What is asked of an expression, and what stands in it.

ghost use Rattle.std.specs.Prelude.{◌≡◌, IfOk};
ghost use Rattle.cg_desc_fault_rtl.specs.Asking as spec;

use cg_base::{Form, List, NoMemory, Text};
use cg_desc_check_rtl::names_many;
use cg_model::{Machine, Part};
use cg_model_faults::Purpose;
use cg_rtl_resolve::{Rule, Scope, built};
use cg_rtl_uses::{PlacedUse, uses_of};
use std::alloc::Global;

/// What is asked of an expression.
#[derive(Clone, Copy, PartialEq, Eq)]
pub enum Asked {
    /// All.
    All,
    /// What has a meaning in it, as it is with choices in the place of anyof operands.
    PutIn,
    /// Of its names, as it is written, whether they are defined and whether they are those of derived or
    /// anyof operands.
    AsWritten,
}

/// Which fields, and operands that have one, an expression may name.
#[derive(Drop)]
pub enum Naming {
    /// That isn't asked.
    Unasked,
    /// Those of an instruction of this format, in what it does.
    Semantics(List<Part>),
    /// The same in an assertion.
    Assertion(List<Part>),
    /// None, as in a get or set rule.
    Hardware,
}

/// An expression as it is judged, but for what stands in it.
#[derive(Drop)]
pub struct Asking {
    /// The name of its element.
    pub own: Text,
    /// Where it stands in its clause, where that has several.
    pub at: List<usize>,
    /// The subfields, where it is that of a multi field's value.
    pub subs: List<u16>,
    /// Which fields, and operands that have one, it may name.
    pub naming: Naming,
    /// The anyof operands that may stand in it.
    pub anyofs: List<Text>,
    /// What is asked of it.
    pub asked: Asked,
}

/// An expression as it is judged.
#[derive(Drop)]
pub struct Expression {
    /// What is asked of it, and of which element.
    pub asking: Asking,
    /// What it is for.
    pub purpose: Purpose,
    /// What stands in it, from left to right.
    pub uses: List<PlacedUse>,
    /// Whether it is an assertion that names over 8 bits, where its meaning is asked.
    pub is_wide: bool,
}

/// Whether names that have a meaning in an expression are asked.
pub fn asks_meaning(asked: Asked) -> bool
    ensures { result ≡ spec.asks_meaning asked }
{
    match asked {
        Asked::All | Asked::PutIn => true,
        Asked::AsWritten => false,
    }
}

/// Whether names of derived and anyof operands are asked.
pub fn asks_operands(asked: Asked) -> bool
    ensures { result ≡ spec.asks_operands asked }
{
    match asked {
        Asked::All | Asked::AsWritten => true,
        Asked::PutIn => false,
    }
}

/// What the expressions of a rule are for.
fn purpose_of(rule: &Rule) -> Purpose
    ensures { result ≡ spec.purpose_of rule.now }
{
    match rule {
        Rule::Encode => Purpose::Encode,
        Rule::Decode => Purpose::Decode,
        Rule::Insert(_) => Purpose::Insert,
        Rule::Extract => Purpose::Extract,
        Rule::Assertion => Purpose::Assertion,
        Rule::Get => Purpose::Get,
        Rule::Set => Purpose::Set,
        Rule::Semantics => Purpose::Semantics,
    }
}

/// Whether an expression codes the values of a field or a multi field.
pub fn is_coding(purpose: Purpose) -> bool
    ensures { result ≡ spec.is_coding purpose }
{
    matches!(
        purpose,
        Purpose::Encode | Purpose::Decode | Purpose::Insert | Purpose::Extract
    )
}

/// Whether an expression is an assertion.
fn is_assertion(purpose: Purpose) -> bool
    ensures { result ≡ spec.is_assertion purpose }
{
    matches!(purpose, Purpose::Assertion)
}

/// Whether it is an assertion that names over 8 bits, where its meaning is asked.
fn is_wide(
    alloc: Global,
    machine: &Machine,
    scope: &Scope,
    form: &Form,
    asked: Asked,
) -> Result<bool, NoMemory>
    ensures { IfOk result (λ wide. wide ≡ spec.is_wide machine.now scope.now form.now asked) }
{
    if !is_assertion(purpose_of(&scope.rule)) || !asks_meaning(asked) {
        return Ok(false);
    }
    let rtl = built(alloc, form, scope)?;
    Ok(names_many(machine, Purpose::Assertion, &rtl))
}

/// The expression in a scope of which this is asked.
pub(crate) fn expression_of(
    alloc: Global,
    machine: &Machine,
    scope: &Scope,
    form: &Form,
    asking: Asking,
) -> Result<Expression, NoMemory>
    ensures { IfOk result (λ new. new ≡ spec.expression_of machine.now scope.now form.now asking) }
{
    let uses = uses_of(alloc, scope, form)?;
    let is_wide = is_wide(alloc, machine, scope, form, asking.asked)?;
    Ok(Expression {
        asking,
        purpose: purpose_of(&scope.rule),
        uses,
        is_wide,
    })
}

/// What is asked of an expression of this element that stands alone in its clause: all, and no anyof operand
/// may stand in it.
pub(crate) fn plain_asking(alloc: Global, own: &Text, naming: Naming) -> Result<Asking, NoMemory>
    ensures { IfOk result (λ new. new ≡ spec.plain_asking own.now naming) }
{
    Ok(Asking {
        own: own.clone()?,
        at: List::new(alloc),
        subs: List::new(alloc),
        naming,
        anyofs: List::new(alloc),
        asked: Asked::All,
    })
}
