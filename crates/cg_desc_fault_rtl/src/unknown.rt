//! E405.

ghost use Rattle.std.specs.Prelude.{◌≡◌, ◌++◌, map, IfOk};
ghost use Rattle.std.specs.List.{flat_map};
ghost use Rattle.cg_base.specs.Refusing.{first};
ghost use Rattle.cg_attrs.specs.Clauses.{seen_clause};
ghost use Rattle.cg_desc_fault_report.specs.Subject.{described_in, machine_in, element_in, form_in, insns_in};
ghost use Rattle.cg_desc_machine.specs.Seen.{base};
ghost use Rattle.cg_desc_fault_rtl.specs.E405 as spec;

use crate::asking::{Expression, asks_meaning};
use crate::clauses::expressions;
use crate::judging::{UseRule, put_of_expressions};
use cg_attrs::Clause;
use cg_base::{List, NoMemory};
use cg_desc_elements::Element;
use cg_desc_fault_report::{Saying, Subject, earliest_said, only_text};
use cg_desc_references::clauses_of;
use cg_rtl_resolve::Scope;
use cg_rtl_uses::Use;
use std::alloc::Global;

/// The rule that each bare symbol names something.
#[derive(Drop)]
struct Unknown;

/// What is said of what stands in an expression as it is with choices put in.
fn what_said(alloc: Global, what: &Use) -> Result<Option<Saying>, NoMemory>
    ensures { IfOk result (λ said. said ≡ spec.of_what what.now) }
{
    match what {
        Use::Unknown(name) => Ok(Some(only_text(alloc, name.as_slice())?)),
        _ => Ok(None),
    }
}

impl UseRule for Unknown {
    ghost says = { λ _. spec.unknown };

    #[tactic(auto, unfolding(crate::specs::E405::unknown))]
    fn said_of(
        &self,
        alloc: Global,
        expression: &Expression,
        what: &Use,
    ) -> Result<Option<Saying>, NoMemory> {
        if asks_meaning(expression.asking.asked) {
            what_said(alloc, what)
        } else {
            Ok(None)
        }
    }
}

/// What is said of a clause.
fn first_in_clause(
    alloc: Global,
    scope: &mut Scope,
    of: &Subject,
    clause: Clause<'_>,
) -> Result<Option<Saying>, NoMemory>
    ensures value { IfOk result (λ said. said ≡ first (spec.in_clause (described_in of.now) (base scope.old) (machine_in of.now) (insns_in of.now) (element_in of.now) (seen_clause clause.entry))) }
    ensures kept { base scope.new ≡ base scope.old }
{
    let expressions = expressions(alloc, scope, of, clause)?;
    let mut list = List::new(alloc);
    put_of_expressions(alloc, &Unknown, &mut list, expressions.as_slice())?;
    earliest_said(&list)
}

/// Whether a clause says what an instruction does.
fn is_semantics(clause: Clause<'_>) -> bool
    ensures { result ≡ spec.is_semantics (seen_clause clause.entry) }
{
    b"semantics".as_slice() == clause.name
}

/// What is said of a clause, where it is no `semantics`.
fn first_in_assertion(
    alloc: Global,
    scope: &mut Scope,
    of: &Subject,
    clause: Clause<'_>,
) -> Result<Option<Saying>, NoMemory>
    ensures value { IfOk result (λ said. said ≡ first (spec.in_assertion (described_in of.now) (base scope.old) (machine_in of.now) (insns_in of.now) (element_in of.now) (seen_clause clause.entry))) }
    ensures kept { base scope.new ≡ base scope.old }
{
    if is_semantics(clause) {
        Ok(None)
    } else {
        first_in_clause(alloc, scope, of, clause)
    }
}

/// What is said of a clause, where it is `semantics`.
fn first_in_semantics(
    alloc: Global,
    scope: &mut Scope,
    of: &Subject,
    clause: Clause<'_>,
) -> Result<Option<Saying>, NoMemory>
    ensures value { IfOk result (λ said. said ≡ first (spec.in_semantics (described_in of.now) (base scope.old) (machine_in of.now) (insns_in of.now) (element_in of.now) (seen_clause clause.entry))) }
    ensures kept { base scope.new ≡ base scope.old }
{
    if is_semantics(clause) {
        first_in_clause(alloc, scope, of, clause)
    } else {
        Ok(None)
    }
}

/// What is said of the first of some clauses that aren't `semantics`.
#[tactic(auto, using(cg_desc_fault_report::proofs::Firsts::first_rules))]
fn first_in_assertions(
    alloc: Global,
    scope: &mut Scope,
    of: &Subject,
    clauses: &[Clause<'_>],
) -> Result<Option<Saying>, NoMemory>
    ensures value { IfOk result (λ said. said ≡ first (flat_map (spec.in_assertion (described_in of.now) (base scope.old) (machine_in of.now) (insns_in of.now) (element_in of.now)) (map seen_clause clauses.now))) }
    ensures kept { base scope.new ≡ base scope.old }
{
    for clause in clauses {
        if let Some(said) = first_in_assertion(alloc, scope, of, *clause)? {
            return Ok(Some(said));
        }
    }
    Ok(None)
}

/// What is said of the first of some clauses that are `semantics`.
#[tactic(auto, using(cg_desc_fault_report::proofs::Firsts::first_rules))]
fn first_in_all_semantics(
    alloc: Global,
    scope: &mut Scope,
    of: &Subject,
    clauses: &[Clause<'_>],
) -> Result<Option<Saying>, NoMemory>
    ensures value { IfOk result (λ said. said ≡ first (flat_map (spec.in_semantics (described_in of.now) (base scope.old) (machine_in of.now) (insns_in of.now) (element_in of.now)) (map seen_clause clauses.now))) }
    ensures kept { base scope.new ≡ base scope.old }
{
    for clause in clauses {
        if let Some(said) = first_in_semantics(alloc, scope, of, *clause)? {
            return Ok(Some(said));
        }
    }
    Ok(None)
}

/// What is said of the clauses of a form that isn't an operand's.
#[tactic(auto, using(cg_desc_fault_report::proofs::Firsts::first_rules))]
fn first_by_clauses(
    alloc: Global,
    scope: &mut Scope,
    of: &Subject,
    clauses: &[Clause<'_>],
) -> Result<Option<Saying>, NoMemory>
    ensures value { IfOk result (λ said. said ≡ first (flat_map (spec.in_assertion (described_in of.now) (base scope.old) (machine_in of.now) (insns_in of.now) (element_in of.now)) (map seen_clause clauses.now) ++ flat_map (spec.in_semantics (described_in of.now) (base scope.old) (machine_in of.now) (insns_in of.now) (element_in of.now)) (map seen_clause clauses.now))) }
    ensures kept { base scope.new ≡ base scope.old }
{
    if let Some(said) = first_in_assertions(alloc, scope, of, clauses)? {
        return Ok(Some(said));
    }
    first_in_all_semantics(alloc, scope, of, clauses)
}

/// The first E405 of a form: a bare symbol names nothing at all. Assertions go before what an instruction
/// does; of a clause it is the earliest; a derived operand is judged where it is put in. None exactly where
/// there is none (docs/REFUSALS.md).
pub fn first_unknown(
    alloc: Global,
    scope: &mut Scope,
    of: &Subject,
) -> Result<Option<Saying>, NoMemory>
    ensures value { IfOk result (λ said. said ≡ first (spec.e405 (described_in of.now) (base scope.old) (machine_in of.now) (element_in of.now) (form_in of.now) (insns_in of.now))) }
    ensures kept { base scope.new ≡ base scope.old }
{
    match of.element {
        Element::Operand(_) => Ok(None),
        element => {
            let clauses = clauses_of(alloc, element.kind(), &of.top.form)?;
            first_by_clauses(alloc, scope, of, &clauses)
        }
    }
}
