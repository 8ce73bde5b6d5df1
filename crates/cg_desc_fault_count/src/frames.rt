//! E303 and E307.

ghost use Rattle.std.specs.Prelude.{◌≡◌, map, not, is_some, IfOk};
ghost use Rattle.std.specs.List.{flat_map};
ghost use Rattle.cg_attrs.specs.Clauses.{seen_clause};
ghost use Rattle.cg_base.specs.Refusing.{first};
ghost use Rattle.cg_desc_data.specs.Framing.{arch_form};
ghost use Rattle.cg_desc_data.specs.Seen.{seen};
ghost use Rattle.cg_desc_fault_count.specs.Frames as spec;

use cg_attrs::Clause;
use cg_base::{Form, NoMemory};
use cg_desc_data::Selection;
use cg_desc_elements::{Kind, isas_of, selected_arch};
use cg_desc_fault_report::{Saying, only_text};
use cg_desc_references::clauses_of;
use std::alloc::Global;

/// Whether the machine has no arch.
fn lacks_arch(selection: &Selection) -> bool
    ensures { result ≡ not (is_some (arch_form (seen selection.now))) }
{
    selected_arch(selection.elements, selection.machine).is_none()
}

/// What is said of E303 of the form of this number: the machine has no arch, at its `define-mach`. None
/// exactly where there is none (docs/REFUSALS.md).
pub fn first_lacking(
    alloc: Global,
    selection: &Selection,
    number: usize,
) -> Result<Option<Saying>, NoMemory>
    ensures { IfOk result (λ said. said ≡ first (spec.e303 (seen selection.now) number)) }
{
    if number == selection.form && lacks_arch(selection) {
        Ok(Some(only_text(alloc, b"define-arch")?))
    } else {
        Ok(None)
    }
}

/// The machine's second instruction set.
fn second_isa(alloc: Global, selection: &Selection) -> Result<Option<Saying>, NoMemory>
    ensures { IfOk result (λ said. said ≡ first (spec.second_isa (seen selection.now))) }
{
    let arch = selected_arch(selection.elements, selection.machine);
    match isas_of(selection.mach, arch) {
        [_, second, ..] => Ok(Some(only_text(alloc, second.as_slice())?)),
        _ => Ok(None),
    }
}

/// The same, where the machine names none of its own.
fn by_arch(alloc: Global, selection: &Selection) -> Result<Option<Saying>, NoMemory>
    ensures { IfOk result (λ said. said ≡ first (spec.by_arch (seen selection.now))) }
{
    if selection.mach.isas.is_some() {
        Ok(None)
    } else {
        second_isa(alloc, selection)
    }
}

/// What is left out in a clause of the machine's `define-mach`.
fn first_in_clause(
    alloc: Global,
    selection: &Selection,
    clause: Clause<'_>,
) -> Result<Option<Saying>, NoMemory>
    ensures { IfOk result (λ said. said ≡ first (spec.in_clause (seen selection.now) (seen_clause clause.entry))) }
{
    if b"isa-selector".as_slice() == clause.name {
        Ok(Some(only_text(alloc, b"isa-selector")?))
    } else if b"isas".as_slice() == clause.name {
        second_isa(alloc, selection)
    } else {
        Ok(None)
    }
}

/// The same in the first of some clauses in which anything is.
#[tactic(auto, using(cg_desc_fault_report::proofs::Firsts::first_rules))]
fn first_in_clauses(
    alloc: Global,
    selection: &Selection,
    clauses: &[Clause<'_>],
) -> Result<Option<Saying>, NoMemory>
    ensures { IfOk result (λ said. said ≡ first (flat_map (spec.in_clause (seen selection.now)) (map seen_clause clauses.now))) }
{
    for clause in clauses {
        if let Some(said) = first_in_clause(alloc, selection, *clause)? {
            return Ok(Some(said));
        }
    }
    Ok(None)
}

/// What is left out in the machine's `define-mach`.
#[tactic(auto, using(cg_desc_fault_report::proofs::Firsts::first_rules))]
fn first_of_mach(
    alloc: Global,
    selection: &Selection,
    form: &Form,
) -> Result<Option<Saying>, NoMemory>
    ensures { IfOk result (λ said. said ≡ first (spec.of_mach (seen selection.now) form.now)) }
{
    if let Some(said) = by_arch(alloc, selection)? {
        return Ok(Some(said));
    }
    let clauses = clauses_of(alloc, Kind::Mach, form)?;
    first_in_clauses(alloc, selection, &clauses)
}

/// What is said of the first E307 of the form of this number: a second instruction set, and hardware that
/// selects one, at the machine's `define-mach`. None exactly where there is none (docs/REFUSALS.md).
pub fn first_left_out(
    alloc: Global,
    selection: &Selection,
    number: usize,
    form: &Form,
) -> Result<Option<Saying>, NoMemory>
    ensures { IfOk result (λ said. said ≡ first (spec.e307 (seen selection.now) number form.now)) }
{
    if number == selection.form {
        first_of_mach(alloc, selection, form)
    } else {
        Ok(None)
    }
}
