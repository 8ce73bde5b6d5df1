//! E401 to E406 of a form.

ghost use Rattle.std.specs.Prelude.{◌≡◌, map, IfOk};
ghost use Rattle.std.specs.List.{flat_map};
ghost use Rattle.cg_attrs.specs.Clauses.{seen_clause};
ghost use Rattle.cg_base.specs.Refusing.{first};
ghost use Rattle.cg_desc_fault_report.specs.Subject.{described_in, machine_in, element_in, form_in, insns_in, all_lent};
ghost use Rattle.cg_desc_machine.specs.Seen.{base};
ghost use Rattle.cg_desc_fault_least.specs.Least.{modes_fault, modes_at};
ghost use Rattle.cg_desc_fault_least.specs.Modes as spec;

use crate::rules::{
    Found, first_of_field, first_of_hardware, first_of_multi, of_rtl, of_where, wanted,
};
use cg_attrs::Clause;
use cg_base::refusals;
use cg_desc_choices::Written;
use cg_desc_elements::Element;
use cg_desc_fault_report::Subject;
use cg_desc_fault_rtl::first_unknown;
use cg_desc_machine::{assertion_of, ruled_field, ruled_hardware, ruled_multi, semantics_of};
use cg_desc_references::clauses_of;
use cg_ifield::FieldForm;
use cg_insn::InsnForm;
use cg_model::Machine;
use cg_model_faults::Purpose;
use cg_rtl_resolve::Scope;
use std::alloc::Global;

/// The first fault of the assertions of an instruction.
fn of_assertion(alloc: Global, machine: &Machine, scope: &mut Scope, written: &Written) -> Found
    ensures value { IfOk result (λ found. found ≡ first (spec.of_assertion machine.now (base scope.old) written.now)) }
    ensures kept { base scope.new ≡ base scope.old }
{
    let rtl = assertion_of(alloc, scope, written)?;
    let wanted = wanted(Purpose::Assertion, None, None);
    of_where(alloc, machine, written.name.as_slice(), wanted, &rtl)
}

/// The first fault of what an instruction does.
fn of_semantics(alloc: Global, machine: &Machine, scope: &mut Scope, written: &Written) -> Found
    ensures value { IfOk result (λ found. found ≡ first (spec.of_semantics machine.now (base scope.old) written.now)) }
    ensures kept { base scope.new ≡ base scope.old }
{
    let rtl = semantics_of(alloc, scope, &written.semantics)?;
    let wanted = wanted(Purpose::Semantics, None, None);
    of_rtl(alloc, machine, written.name.as_slice(), wanted, &rtl)
}

/// The first fault of the assertions of instructions.
#[tactic(auto, using(cg_desc_fault_report::proofs::Firsts::first_rules))]
fn of_assertions(alloc: Global, machine: &Machine, scope: &mut Scope, insns: &[&Written]) -> Found
    ensures value { IfOk result (λ found. found ≡ first (flat_map (spec.of_assertion machine.now (base scope.old)) (all_lent insns.now))) }
    ensures kept { base scope.new ≡ base scope.old }
{
    for written in insns {
        if let Some(found) = of_assertion(alloc, machine, scope, *written)? {
            return Ok(Some(found));
        }
    }
    Ok(None)
}

/// The first fault of what instructions do.
#[tactic(auto, using(cg_desc_fault_report::proofs::Firsts::first_rules))]
fn of_all_semantics(
    alloc: Global,
    machine: &Machine,
    scope: &mut Scope,
    insns: &[&Written],
) -> Found
    ensures value { IfOk result (λ found. found ≡ first (flat_map (spec.of_semantics machine.now (base scope.old)) (all_lent insns.now))) }
    ensures kept { base scope.new ≡ base scope.old }
{
    for written in insns {
        if let Some(found) = of_semantics(alloc, machine, scope, *written)? {
            return Ok(Some(found));
        }
    }
    Ok(None)
}

/// The first fault of instructions: assertions go before what they do.
#[tactic(auto, using(cg_desc_fault_report::proofs::Firsts::first_rules))]
fn of_insns(alloc: Global, machine: &Machine, scope: &mut Scope, insns: &[&Written]) -> Found
    ensures value { IfOk result (λ found. found ≡ first (spec.of_insns machine.now (base scope.old) (all_lent insns.now))) }
    ensures kept { base scope.new ≡ base scope.old }
{
    if let Some(found) = of_assertions(alloc, machine, scope, insns)? {
        return Ok(Some(found));
    }
    of_all_semantics(alloc, machine, scope, insns)
}

/// The first fault by its modes of a form with these clauses.
fn first_of_modes(alloc: Global, scope: &mut Scope, of: &Subject, clauses: &[Clause<'_>]) -> Found
    ensures value { IfOk result (λ found. found ≡ first (spec.modes_said (described_in of.now) (base scope.old) (machine_in of.now) (map seen_clause clauses.now) (insns_in of.now) (element_in of.now))) }
    ensures kept { base scope.new ≡ base scope.old }
{
    let described = of.described;
    match of.element {
        Element::Field(FieldForm::Plain(form)) => {
            let field = ruled_field(alloc, scope, described, form)?;
            first_of_field(alloc, of.machine, &field, clauses)
        }
        Element::Field(FieldForm::Multi(form)) => {
            let multi = ruled_multi(alloc, scope, described, form)?;
            let fields = &described.numbers.fields;
            first_of_multi(alloc, fields, of.machine, scope, &multi, clauses)
        }
        Element::Hardware(form) => {
            let hardware = ruled_hardware(alloc, scope, described, form)?;
            first_of_hardware(alloc, of.machine, &hardware, clauses)
        }
        Element::Insn(InsnForm::Instruction(_)) => of_insns(alloc, of.machine, scope, of.insns),
        _ => Ok(None),
    }
}

/// The fault of a form by its modes: a symbol that names nothing goes first.
fn modes_fault(alloc: Global, scope: &mut Scope, of: &Subject) -> Found
    ensures value { IfOk result (λ found. found ≡ modes_fault (described_in of.now) (base scope.old) (machine_in of.now) (element_in of.now) (form_in of.now) (insns_in of.now)) }
    ensures kept { base scope.new ≡ base scope.old }
{
    if let Some(said) = first_unknown(alloc, scope, of)? {
        return Ok(Some((refusals::OUTSIDE_RULE, said)));
    }
    let clauses = clauses_of(alloc, of.element.kind(), &of.top.form)?;
    first_of_modes(alloc, scope, of, &clauses)
}

/// The same, where the form's element takes part.
pub(crate) fn modes_at(alloc: Global, scope: &mut Scope, of: &Subject) -> Found
    ensures value { IfOk result (λ found. found ≡ modes_at (described_in of.now) (base scope.old) (machine_in of.now) (element_in of.now) (form_in of.now) (insns_in of.now)) }
    ensures kept { base scope.new ≡ base scope.old }
{
    if of.described.selection.takes_part(of.element) {
        modes_fault(alloc, scope, of)
    } else {
        Ok(None)
    }
}
