//! The least fault of a form by its names, counts and data.

ghost use Rattle.std.specs.Prelude.{◌≡◌, map, IfOk};
ghost use Rattle.cg_base.specs.Refusing.{first};
ghost use Rattle.cg_desc_insns.specs.E317.{e317};
ghost use Rattle.cg_desc_names.specs.Table.{known};
ghost use Rattle.cg_desc_references.specs.E305.{e305};
ghost use Rattle.cg_desc_fault_report.specs.Saying.{least_said, only_text};
ghost use Rattle.cg_desc_fault_report.specs.Subject.{described_in, machine_in, element_in, form_in, insns_in};
ghost use Rattle.cg_desc_machine.specs.Seen.{base};
ghost use Rattle.cg_desc_fault_least.specs.Least as spec;

use crate::rules::Found;
use cg_base::{NoMemory, refusals};
use cg_desc_choices::Written;
use cg_desc_fault_count::{Counts, first_circular, first_lacking, first_left_out, first_passed};
use cg_desc_fault_format::{
    first_misplaced, first_of_bundle, first_overlap, first_undelimited, first_unfit,
    first_unmatched,
};
use cg_desc_fault_name::{first_missing, first_of_another_kind};
use cg_desc_fault_report::{Saying, Subject, only_text};
use cg_desc_fault_rtl::first_impure;
use cg_desc_insns::form_over;
use cg_desc_references::first_repeated;
use cg_rtl_resolve::Scope;
use std::alloc::Global;

/// What is said of E305 of a form.
#[tactic(auto, using(cg_desc_fault_report::proofs::Firsts::first_rules))]
fn repeated_said(alloc: Global, of: &Subject) -> Result<Option<Saying>, NoMemory>
    ensures { IfOk result (λ said. said ≡ first (map only_text (e305 (known of.now.described.now.selection.names.now) of.now.number (element_in of.now) (form_in of.now)))) }
{
    let described = of.described;
    let names = described.selection.names;
    match first_repeated(alloc, names, of.number, of.element, &of.top.form)? {
        Some(text) => Ok(Some(only_text(alloc, text.as_slice())?)),
        None => Ok(None),
    }
}

/// Whether the instructions are over 4,096 with those of the form of this number.
fn is_over(written: &[Written], number: usize) -> bool
    ensures { result ≡ spec.is_over written.now number }
{
    match form_over(written) {
        Some(form) => form == number,
        None => false,
    }
}

/// What is said of E317 of the form of this number.
#[tactic(auto, using(cg_desc_fault_report::proofs::Firsts::first_rules))]
fn over_said(alloc: Global, written: &[Written], number: usize) -> Result<Option<Saying>, NoMemory>
    ensures { IfOk result (λ said. said ≡ first (map only_text (e317 written.now number))) }
{
    if is_over(written, number) {
        Ok(Some(only_text(alloc, b"4096")?))
    } else {
        Ok(None)
    }
}

/// The least fault by names.
fn least_of_names(alloc: Global, scope: &mut Scope, of: &Subject) -> Found
    ensures value { IfOk result (λ found. found ≡ least_said (spec.by_names (described_in of.now) (base scope.old) (machine_in of.now) of.now.number (element_in of.now) (form_in of.now) (insns_in of.now))) }
    ensures kept { base scope.new ≡ base scope.old }
{
    let selection = &of.described.selection;
    if let Some(said) = first_lacking(alloc, selection, of.number)? {
        return Ok(Some((refusals::ABSENT, said)));
    }
    if let Some(said) = first_of_another_kind(alloc, scope, of)? {
        return Ok(Some((refusals::WRONG_KIND, said)));
    }
    if let Some(said) = repeated_said(alloc, of)? {
        return Ok(Some((refusals::REPEATED_NAME, said)));
    }
    if let Some(said) = first_missing(alloc, scope, of)? {
        return Ok(Some((refusals::UNDEFINED_NAME, said)));
    }
    match first_left_out(alloc, selection, of.number, &of.top.form)? {
        Some(said) => Ok(Some((refusals::LEFT_OUT, said))),
        None => Ok(None),
    }
}

/// The least fault by counts and bits, where so much stands before the form, and it adds so much.
fn least_of_bits(
    alloc: Global,
    scope: &mut Scope,
    of: &Subject,
    before: &Counts,
    own: &Counts,
) -> Found
    ensures value { IfOk result (λ found. found ≡ least_said (spec.by_bits (described_in of.now) (base scope.old) (machine_in of.now) before.now own.now of.now.number (element_in of.now) (form_in of.now) (insns_in of.now))) }
    ensures kept { base scope.new ≡ base scope.old }
{
    if let Some(said) = first_passed(alloc, scope, of, before, own)? {
        return Ok(Some((refusals::COUNT_PASSED, said)));
    }
    if let Some(said) = first_misplaced(alloc, of)? {
        return Ok(Some((refusals::MISPLACED_FIELD, said)));
    }
    if let Some(said) = first_overlap(alloc, of)? {
        return Ok(Some((refusals::OVERLAP, said)));
    }
    if let Some(said) = first_unfit(alloc, of)? {
        return Ok(Some((refusals::WIDE_CONSTANT, said)));
    }
    match first_undelimited(alloc, of)? {
        Some(said) => Ok(Some((refusals::UNDELIMITED_SLOT, said))),
        None => Ok(None),
    }
}

/// The least fault by slots and rules.
fn least_of_rules(alloc: Global, scope: &mut Scope, of: &Subject) -> Found
    ensures value { IfOk result (λ found. found ≡ least_said (spec.by_rules (described_in of.now) (base scope.old) (machine_in of.now) of.now.number (element_in of.now) (form_in of.now) (insns_in of.now))) }
    ensures kept { base scope.new ≡ base scope.old }
{
    if let Some(said) = first_unmatched(alloc, of)? {
        return Ok(Some((refusals::SLOTS_DIFFER, said)));
    }
    if let Some(said) = first_circular(alloc, of)? {
        return Ok(Some((refusals::CIRCULAR_RULE, said)));
    }
    if let Some(said) = first_impure(alloc, scope, of)? {
        return Ok(Some((refusals::IMPURE, said)));
    }
    if let Some(said) = first_of_bundle(alloc, of)? {
        return Ok(Some((refusals::BUNDLE_FIELD, said)));
    }
    match over_said(alloc, of.described.written.as_slice(), of.number)? {
        Some(said) => Ok(Some((refusals::MANY_INSTRUCTIONS, said))),
        None => Ok(None),
    }
}

/// The least fault of a form.
fn least(alloc: Global, scope: &mut Scope, of: &Subject, before: &Counts, own: &Counts) -> Found
    ensures value { IfOk result (λ found. found ≡ least_said (spec.faults_at (described_in of.now) (base scope.old) (machine_in of.now) before.now own.now of.now.number (element_in of.now) (form_in of.now) (insns_in of.now))) }
    ensures kept { base scope.new ≡ base scope.old }
{
    if let Some(found) = least_of_names(alloc, scope, of)? {
        return Ok(Some(found));
    }
    if let Some(found) = least_of_bits(alloc, scope, of, before, own)? {
        return Ok(Some(found));
    }
    least_of_rules(alloc, scope, of)
}

/// The same, where the form's element takes part.
pub(crate) fn least_at(
    alloc: Global,
    scope: &mut Scope,
    of: &Subject,
    before: &Counts,
    own: &Counts,
) -> Found
    ensures value { IfOk result (λ found. found ≡ spec.least_at (described_in of.now) (base scope.old) (machine_in of.now) before.now own.now of.now.number (element_in of.now) (form_in of.now) (insns_in of.now)) }
    ensures kept { base scope.new ≡ base scope.old }
{
    if of.described.selection.takes_part(of.element) {
        least(alloc, scope, of, before, own)
    } else {
        Ok(None)
    }
}
