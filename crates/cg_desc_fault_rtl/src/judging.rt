//! Rules that judge what stands in expressions.

ghost use Rattle.std.specs.Prelude.{◌≡◌, ◌++◌, IfOk, OnOk};
ghost use Rattle.std.specs.Option.{option_copied};
ghost use Rattle.cg_desc_fault_rtl.specs.Asking.{no_operand};
ghost use Rattle.cg_desc_fault_rtl.specs.Judging as spec;

use crate::asking::Expression;
use cg_base::{List, NoMemory, Text};
use cg_desc_fault_report::{Placed, Saying, joined_place, put_at};
use cg_rtl_uses::{PlacedUse, Use};
use std::alloc::Global;

/// A rule that judges what stands in expressions, each place by itself.
pub trait UseRule {
    ghost use Rattle.cg_desc_fault_rtl.specs.Judging.{Says};

    /// What is said of what stands at one place of an expression.
    ghost says: { Self → Says };

    /// What is said of it, if anything.
    fn said_of(
        &self,
        alloc: Global,
        expression: &Expression,
        what: &Use,
    ) -> Result<Option<Saying>, NoMemory>
        ensures { IfOk result (λ said. said ≡ says self.now expression.now what.now) };
}

/// Puts what is said of a place of an expression at the end, if anything is.
fn put_where(
    alloc: Global,
    list: &mut List<Placed>,
    expression: &Expression,
    place: &[usize],
    said: Option<Saying>,
) -> Result<(), NoMemory>
    ensures { OnOk result (list.new ≡ list.old ++ spec.placed_where (expression.now.asking.at ++ place.now) said) }
{
    match said {
        Some(said) => {
            let at = expression.asking.at.as_slice();
            put_at(list, joined_place(alloc, at, place)?, said)
        }
        None => Ok(()),
    }
}

/// Puts what a rule says of what stands at one place of an expression at the end.
fn put_of_use<R: UseRule>(
    alloc: Global,
    rule: &R,
    list: &mut List<Placed>,
    expression: &Expression,
    each: &PlacedUse,
) -> Result<(), NoMemory>
    ensures { OnOk result (list.new ≡ list.old ++ spec.of_use (R.says rule.now) expression.now each.now) }
{
    let said = rule.said_of(alloc, expression, &each.what)?;
    put_where(alloc, list, expression, each.place.as_slice(), said)
}

/// Puts what a rule says of what stands in an expression at the end, from left to right.
pub fn put_of_expression<R: UseRule>(
    alloc: Global,
    rule: &R,
    list: &mut List<Placed>,
    expression: &Expression,
) -> Result<(), NoMemory>
    ensures { OnOk result (list.new ≡ list.old ++ spec.of_expression (R.says rule.now) expression.now) }
{
    for each in expression.uses.as_slice() {
        put_of_use(alloc, rule, list, expression, each)?;
    }
    Ok(())
}

/// The same of several expressions.
pub fn put_of_expressions<R: UseRule>(
    alloc: Global,
    rule: &R,
    list: &mut List<Placed>,
    expressions: &[Expression],
) -> Result<(), NoMemory>
    ensures { OnOk result (list.new ≡ list.old ++ spec.of_expressions (R.says rule.now) expressions.now) }
{
    for expression in expressions {
        put_of_expression(alloc, rule, list, expression)?;
    }
    Ok(())
}

/// The name of a bare symbol that stands for none of the machine's own operands. Derived and anyof
/// operands go before constants of their names.
pub fn no_operand(what: &Use) -> Option<&Text>
    ensures { option_copied result ≡ no_operand what.now }
{
    match what {
        Use::Constant(name, _) | Use::Unknown(name) => Some(name),
        _ => None,
    }
}
