//! The expressions of an instruction.

ghost use Rattle.std.specs.Prelude.{◌≡◌, ◌++◌, map, IfOk, OnOk};
ghost use Rattle.std.specs.List.{flat_map};
ghost use Rattle.cg_attrs.specs.Clauses.{seen_clause};
ghost use Rattle.cg_desc_fault_report.specs.Subject.{described_in, machine_in, insns_in};
ghost use Rattle.cg_desc_machine.specs.Seen.{base};
ghost use Rattle.cg_desc_fault_rtl.specs.declared.asking.Asked.TheVariants.{PutIn};
ghost use Rattle.cg_desc_fault_rtl.specs.Expressions as spec;

use crate::asking::{Asked, Asking, Expression, Naming, expression_of, plain_asking};
use cg_attrs::Clause;
use cg_base::{Form, List, NoMemory, Text};
use cg_desc_choices::{Anyof, Written, WrittenAssertion};
use cg_desc_fault_report::Subject;
use cg_desc_insns::{anyofs_of, expression_in, parts_of};
use cg_desc_machine::{parts_of as machine_parts, set_rule};
use cg_desc_references::Place;
use cg_insn::InstructionForm;
use cg_rtl_resolve::{Rule, Scope};
use std::alloc::Global;

/// The names of anyof operands.
fn anyof_names(alloc: Global, anyofs: &[Anyof]) -> Result<List<Text>, NoMemory>
    ensures { IfOk result (λ names. names ≡ map spec.anyof_name anyofs.now) }
{
    let mut names = List::new(alloc);
    for anyof in anyofs {
        names.push(anyof.operand.clone()?)?;
    }
    Ok(names)
}

/// The names of the anyof operands of a format.
fn anyofs_in(alloc: Global, of: &Subject, form: &InstructionForm) -> Result<List<Text>, NoMemory>
    ensures { IfOk result (λ names. names ≡ spec.anyofs_in (described_in of.now) form.now) }
{
    let described = of.described;
    let names = described.selection.names;
    let elements = described.selection.elements;
    let parts = parts_of(alloc, names, elements, Place::Part, &form.format)?;
    let anyofs = anyofs_of(alloc, names, elements, parts.as_slice())?;
    anyof_names(alloc, anyofs.as_slice())
}

/// What is asked of what an instruction does.
fn semantics_asking(
    alloc: Global,
    of: &Subject,
    asked: Asked,
    written: &Written,
) -> Result<Asking, NoMemory>
    ensures { IfOk result (λ new. new ≡ spec.semantics_asking (described_in of.now) asked written.now) }
{
    let parts = machine_parts(alloc, of.described, written)?;
    let mut asking = plain_asking(alloc, &written.name, Naming::Semantics(parts))?;
    asking.asked = asked;
    Ok(asking)
}

/// What is asked of an assertion of an instruction.
fn assertion_asking(
    alloc: Global,
    of: &Subject,
    asked: Asked,
    written: &Written,
) -> Result<Asking, NoMemory>
    ensures { IfOk result (λ new. new ≡ spec.assertion_asking (described_in of.now) asked written.now) }
{
    let parts = machine_parts(alloc, of.described, written)?;
    let mut asking = plain_asking(alloc, &written.name, Naming::Assertion(parts))?;
    asking.asked = asked;
    Ok(asking)
}

/// What is asked of an expression as it is written, where these anyof operands may stand in it.
fn written_asking(alloc: Global, own: &Text, anyofs: List<Text>) -> Result<Asking, NoMemory>
    ensures { IfOk result (λ new. new ≡ spec.written_asking own.now anyofs) }
{
    let mut asking = plain_asking(alloc, own, Naming::Unasked)?;
    asking.anyofs = anyofs;
    asking.asked = Asked::AsWritten;
    Ok(asking)
}

/// What is asked of an assertion that a choice puts in.
fn choice_asking(
    alloc: Global,
    of: &Subject,
    written: &Written,
    assertion: &WrittenAssertion,
) -> Result<Asking, NoMemory>
    ensures { IfOk result (λ new. new ≡ spec.choice_asking (described_in of.now) written.now assertion.now) }
{
    let mut asking = assertion_asking(alloc, of, Asked::PutIn, written)?;
    match assertion.spot.item.checked_add(1) {
        Some(item) => asking.at.push(item)?,
        None => return Err(NoMemory),
    }
    Ok(asking)
}

/// Puts what each of a form's instructions does at the end.
fn put_semantics(
    alloc: Global,
    list: &mut List<Expression>,
    scope: &Scope,
    of: &Subject,
    asked: Asked,
) -> Result<(), NoMemory>
    ensures { OnOk result (list.new ≡ list.old ++ flat_map (spec.one_semantics (described_in of.now) scope.now (machine_in of.now) asked) (insns_in of.now)) }
{
    for written in of.insns {
        let asking = semantics_asking(alloc, of, asked, written)?;
        list.push(expression_of(alloc, of.machine, scope, &written.semantics, asking)?)?;
    }
    Ok(())
}

/// Puts the own assertion of an instruction at the end, where it has one.
fn put_own_assertion(
    alloc: Global,
    list: &mut List<Expression>,
    scope: &Scope,
    of: &Subject,
    asked: Asked,
    written: &Written,
) -> Result<(), NoMemory>
    ensures { OnOk result (list.new ≡ list.old ++ spec.own_where (described_in of.now) scope.now (machine_in of.now) asked written.now written.now.assertion) }
{
    match &written.assertion {
        Some(form) => {
            let asking = assertion_asking(alloc, of, asked, written)?;
            list.push(expression_of(alloc, of.machine, scope, form, asking)?)
        }
        None => Ok(()),
    }
}

/// Puts the own assertions of a form's instructions at the end.
fn put_own_assertions(
    alloc: Global,
    list: &mut List<Expression>,
    scope: &Scope,
    of: &Subject,
    asked: Asked,
) -> Result<(), NoMemory>
    ensures { OnOk result (list.new ≡ list.old ++ flat_map (spec.own_assertion (described_in of.now) scope.now (machine_in of.now) asked) (insns_in of.now)) }
{
    for written in of.insns {
        put_own_assertion(alloc, list, scope, of, asked, written)?;
    }
    Ok(())
}

/// Puts the assertions that choices put into an instruction at the end.
fn put_choice_assertions(
    alloc: Global,
    list: &mut List<Expression>,
    scope: &Scope,
    of: &Subject,
    written: &Written,
) -> Result<(), NoMemory>
    ensures { OnOk result (list.new ≡ list.old ++ spec.choice_assertions (described_in of.now) scope.now (machine_in of.now) written.now) }
{
    for assertion in written.choice_assertions.as_slice() {
        let asking = choice_asking(alloc, of, written, assertion)?;
        list.push(expression_of(alloc, of.machine, scope, &assertion.form, asking)?)?;
    }
    Ok(())
}

/// The same of all of a form's instructions.
fn put_all_choice_assertions(
    alloc: Global,
    list: &mut List<Expression>,
    scope: &Scope,
    of: &Subject,
) -> Result<(), NoMemory>
    ensures { OnOk result (list.new ≡ list.old ++ flat_map (spec.choice_assertions (described_in of.now) scope.now (machine_in of.now)) (insns_in of.now)) }
{
    for written in of.insns {
        put_choice_assertions(alloc, list, scope, of, written)?;
    }
    Ok(())
}

/// Puts an expression of an instruction as it is written at the end, where there is one and these anyof
/// operands may stand in it.
fn put_written(
    alloc: Global,
    list: &mut List<Expression>,
    scope: &Scope,
    of: &Subject,
    own: &Text,
    anyofs: List<Text>,
    form: &Form,
) -> Result<(), NoMemory>
    ensures { OnOk result (list.new ≡ list.old ++ spec.as_written (machine_in of.now) own.now scope.now anyofs form.now) }
{
    let asking = written_asking(alloc, own, anyofs)?;
    list.push(expression_of(alloc, of.machine, scope, form, asking)?)
}

/// Puts the expressions of `semantics` at the end.
#[tactic(auto, using(crate::proofs::Choosing::with_none, crate::proofs::Choosing::with_some))]
fn put_of_semantics(
    alloc: Global,
    list: &mut List<Expression>,
    scope: &Scope,
    of: &Subject,
    form: &InstructionForm,
) -> Result<(), NoMemory>
    ensures { OnOk result (list.new ≡ list.old ++ spec.in_semantics (described_in of.now) scope.now (machine_in of.now) form.now (insns_in of.now)) }
{
    let anyofs = anyofs_in(alloc, of, form)?;
    if anyofs.len() == 0 {
        put_semantics(alloc, list, scope, of, Asked::All)
    } else {
        let written = expression_in(&form.semantics);
        put_written(alloc, list, scope, of, &form.name, anyofs, written)?;
        put_semantics(alloc, list, scope, of, Asked::PutIn)
    }
}

/// Puts an instruction's own assertion at the end as it is written, where these anyof operands may stand in
/// it, and then those with choices put in.
fn put_both_assertions(
    alloc: Global,
    list: &mut List<Expression>,
    scope: &Scope,
    of: &Subject,
    own: &Text,
    anyofs: List<Text>,
    form: &Form,
) -> Result<(), NoMemory>
    ensures { OnOk result (list.new ≡ list.old ++ (spec.as_written (machine_in of.now) own.now scope.now anyofs form.now ++ flat_map (spec.own_assertion (described_in of.now) scope.now (machine_in of.now) PutIn) (insns_in of.now))) }
{
    put_written(alloc, list, scope, of, own, anyofs, form)?;
    put_own_assertions(alloc, list, scope, of, Asked::PutIn)
}

/// Puts the expressions of an instruction's own assertion at the end, in a scope for assertions.
#[tactic(auto, using(crate::proofs::Choosing::with_none, crate::proofs::Choosing::with_some, crate::proofs::Choosing::with_no_form))]
fn put_of_assertion(
    alloc: Global,
    list: &mut List<Expression>,
    scope: &Scope,
    of: &Subject,
    form: &InstructionForm,
) -> Result<(), NoMemory>
    ensures { OnOk result (list.new ≡ list.old ++ spec.assertion_within (described_in of.now) scope.now (machine_in of.now) form.now (insns_in of.now)) }
{
    let anyofs = anyofs_in(alloc, of, form)?;
    if anyofs.len() == 0 {
        put_own_assertions(alloc, list, scope, of, Asked::All)
    } else if let Some(clause) = &form.ifield_assertion {
        let written = expression_in(clause);
        put_both_assertions(alloc, list, scope, of, &form.name, anyofs, written)
    } else {
        Ok(())
    }
}

/// Puts the expressions in a clause of an instruction at the end.
pub(crate) fn put_of_instruction(
    alloc: Global,
    list: &mut List<Expression>,
    scope: &mut Scope,
    of: &Subject,
    form: &InstructionForm,
    clause: Clause<'_>,
) -> Result<(), NoMemory>
    ensures value { OnOk result (list.new ≡ list.old ++ spec.in_instruction (described_in of.now) (base scope.old) (machine_in of.now) form.now (insns_in of.now) (seen_clause clause.entry)) }
    ensures kept { base scope.new ≡ base scope.old }
{
    match clause.name {
        b"semantics" => {
            set_rule(scope, Rule::Semantics, None);
            put_of_semantics(alloc, list, scope, of, form)
        }
        b"ifield-assertion" => {
            set_rule(scope, Rule::Assertion, None);
            put_of_assertion(alloc, list, scope, of, form)
        }
        b"format" => {
            set_rule(scope, Rule::Assertion, None);
            put_all_choice_assertions(alloc, list, scope, of)
        }
        _ => Ok(()),
    }
}
