//! E308.

ghost use Rattle.std.specs.Prelude.{◌≡◌, map, IfOk};
ghost use Rattle.cg_attrs.specs.Clauses.{seen_clause};
ghost use Rattle.std.specs.Option.{option_map};
ghost use Rattle.cg_base.specs.Refusing.{first};
ghost use Rattle.cg_desc_fault_count.specs.E308 as spec;
ghost use Rattle.cg_desc_fault_count.specs.Passing.{seen_passed};
ghost use Rattle.cg_desc_fault_report.specs.Subject.{described_in, machine_in, element_in, form_in, insns_in};
ghost use Rattle.cg_desc_machine.specs.Seen.{base};

use crate::counts::Counts;
use crate::passing::{Found, passed_said, passing};
use crate::shapes::{first_of_insn, first_of_isa, first_of_macro, first_of_words};
use crate::texts::first_long_text;
use cg_attrs::{Clause, Frame};
use cg_base::NoMemory;
use cg_desc_check_element::add;
use cg_desc_elements::Element;
use cg_desc_fault_report::{Saying, Subject};
use cg_desc_references::clauses_of;
use cg_insn::InsnForm;
use cg_rtl_resolve::Scope;
use std::alloc::Global;

/// The limit that is passed with what is added.
fn passed_with(limit: u64, before: u64, own: u64) -> Found
    ensures { IfOk result (λ found. option_map seen_passed found ≡ first (spec.passed limit before own)) }
{
    Ok(passing(limit, before, add(before, own)? as u128))
}

/// What a form passes of fields, multi fields, hardware and cells.
#[tactic(auto, using(cg_desc_fault_report::proofs::Firsts::first_rules))]
fn of_elements(before: &Counts, own: &Counts) -> Found
    ensures { IfOk result (λ found. option_map seen_passed found ≡ first (spec.of_elements before.now own.now)) }
{
    if let Some(passed) = passed_with(1024, before.fields, own.fields)? {
        return Ok(Some(passed));
    }
    if let Some(passed) = passed_with(1024, before.multis, own.multis)? {
        return Ok(Some(passed));
    }
    if let Some(passed) = passed_with(256, before.hardware, own.hardware)? {
        return Ok(Some(passed));
    }
    passed_with(65_536, before.cells, own.cells)
}

/// What a form passes of operands, macro instructions, nodes and error texts.
#[tactic(auto, using(cg_desc_fault_report::proofs::Firsts::first_rules))]
fn of_others(before: &Counts, own: &Counts) -> Found
    ensures { IfOk result (λ found. option_map seen_passed found ≡ first (spec.of_others before.now own.now)) }
{
    if let Some(passed) = passed_with(1024, before.operands, own.operands)? {
        return Ok(Some(passed));
    }
    if let Some(passed) = passed_with(1024, before.macros, own.macros)? {
        return Ok(Some(passed));
    }
    if let Some(passed) = passed_with(1_000_000, before.nodes, own.nodes)? {
        return Ok(Some(passed));
    }
    passed_with(1_000_000, before.texts, own.texts)
}

/// What a form passes of all that is counted over a machine.
#[tactic(auto, using(cg_desc_fault_report::proofs::Firsts::first_rules))]
fn of_counts(before: &Counts, own: &Counts) -> Found
    ensures { IfOk result (λ found. option_map seen_passed found ≡ first (spec.of_counts before.now own.now)) }
{
    if let Some(passed) = of_elements(before, own)? {
        return Ok(Some(passed));
    }
    of_others(before, own)
}

/// What is passed in a clause.
fn first_in_clause(alloc: Global, scope: &mut Scope, of: &Subject, clause: Clause<'_>) -> Found
    ensures value { IfOk result (λ found. option_map seen_passed found ≡ first (spec.in_clause (described_in of.now) (base scope.old) (machine_in of.now) of.now.number (element_in of.now) (insns_in of.now) (seen_clause clause.entry))) }
    ensures kept { base scope.new ≡ base scope.old }
{
    let described = of.described;
    let selection = &described.selection;
    let name = clause.name;
    match of.element {
        Element::Hardware(form) => first_of_words(alloc, selection, form, name),
        Element::Frame(Frame::Isa(form)) => Ok(first_of_isa(selection, of.number, form, name)),
        Element::Insn(InsnForm::Instruction(form)) => {
            first_of_insn(alloc, scope, of, form, name)
        }
        Element::Insn(InsnForm::Macro(form)) => first_of_macro(alloc, described, form, name),
        _ => Ok(None),
    }
}

/// What is passed in the first of some clauses in which anything is.
#[tactic(auto, using(cg_desc_fault_report::proofs::Firsts::first_rules))]
fn first_in_clauses(alloc: Global, scope: &mut Scope, of: &Subject, clauses: &[Clause<'_>]) -> Found
    ensures value { IfOk result (λ found. option_map seen_passed found ≡ first (spec.of_clauses (described_in of.now) (base scope.old) (machine_in of.now) of.now.number (element_in of.now) (insns_in of.now) (map seen_clause clauses.now))) }
    ensures kept { base scope.new ≡ base scope.old }
{
    for clause in clauses {
        if let Some(passed) = first_in_clause(alloc, scope, of, *clause)? {
            return Ok(Some(passed));
        }
    }
    Ok(None)
}

/// The first count of its own that a form passes: of its texts, and then clause by clause.
#[tactic(auto, using(cg_desc_fault_report::proofs::Firsts::first_rules))]
fn first_of_own(alloc: Global, scope: &mut Scope, of: &Subject) -> Found
    ensures value { IfOk result (λ found. option_map seen_passed found ≡ first (spec.of_own (described_in of.now) (base scope.old) (machine_in of.now) of.now.number (element_in of.now) (form_in of.now) (insns_in of.now))) }
    ensures kept { base scope.new ≡ base scope.old }
{
    if let Some(passed) = first_long_text(alloc, of)? {
        return Ok(Some(passed));
    }
    let clauses = clauses_of(alloc, of.element.kind(), &of.top.form)?;
    first_in_clauses(alloc, scope, of, &clauses)
}

/// The first count that a form passes, behind those of the forms before it.
#[tactic(auto, using(cg_desc_fault_report::proofs::Firsts::first_rules))]
fn first_of_all(
    alloc: Global,
    scope: &mut Scope,
    of: &Subject,
    before: &Counts,
    own: &Counts,
) -> Found
    ensures value { IfOk result (λ found. option_map seen_passed found ≡ first (spec.all_of (described_in of.now) (base scope.old) (machine_in of.now) before.now own.now of.now.number (element_in of.now) (form_in of.now) (insns_in of.now))) }
    ensures kept { base scope.new ≡ base scope.old }
{
    if let Some(passed) = of_counts(before, own)? {
        return Ok(Some(passed));
    }
    first_of_own(alloc, scope, of)
}

/// What is said of the first E308 of a form: a count is passed that a machine, or an element of it, may
/// have. So much stands before the form, and it adds so much. Counts over the machine go first. None
/// exactly where there is none (docs/REFUSALS.md).
#[tactic(auto, using(cg_desc_fault_report::proofs::Firsts::first_rules))]
pub fn first_passed(
    alloc: Global,
    scope: &mut Scope,
    of: &Subject,
    before: &Counts,
    own: &Counts,
) -> Result<Option<Saying>, NoMemory>
    ensures value { IfOk result (λ said. said ≡ first (spec.e308 (described_in of.now) (base scope.old) (machine_in of.now) before.now own.now of.now.number (element_in of.now) (form_in of.now) (insns_in of.now))) }
    ensures kept { base scope.new ≡ base scope.old }
{
    match first_of_all(alloc, scope, of, before, own)? {
        Some(passed) => Ok(Some(passed_said(alloc, passed)?)),
        None => Ok(None),
    }
}
