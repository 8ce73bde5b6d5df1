//! The modes of the rules of fields, multi fields and hardware.

ghost use Rattle.std.specs.Prelude.{◌≡◌, map, IfOk};
ghost use Rattle.std.specs.List.{flat_map};
ghost use Rattle.cg_attrs.specs.Clauses.{seen_clause};
ghost use Rattle.cg_base.specs.Refusing.{first};
ghost use Rattle.cg_desc_data.specs.Seen.{seen_numbering};
ghost use Rattle.cg_model_faults.specs.Elements.{mode_of_field};
ghost use Rattle.cg_desc_machine.specs.Seen.{base, seen_sets};
ghost use Rattle.cg_desc_fault_least.specs.Modes as spec;

use cg_attrs::Clause;
use cg_base::{Form, Mode, NoMemory, Text};
use cg_desc_check_element::{Wanted, by_mode};
use cg_desc_data::Numbering;
use cg_desc_fault_report::{Saying, fault_said};
use cg_desc_fault_rtl::sets_in;
use cg_desc_machine::set_rule;
use cg_model::{Field, Hardware, Machine, Multi, Rtl};
use cg_model_faults::Purpose;
use cg_rtl_resolve::{Rule, Scope, built};
use std::alloc::Global;

/// What is found, with its number, or want of memory.
pub(crate) type Found = Result<Option<(u16, Saying)>, NoMemory>;

/// What is wanted of an expression.
pub(crate) fn wanted(purpose: Purpose, want: Option<Mode>, own: Option<Mode>) -> Wanted
    ensures { result ≡ spec.wanted purpose want own }
{
    Wanted { purpose, want, own }
}

/// The first fault by its modes of an expression of an element of this name.
#[tactic(auto, using(cg_desc_fault_report::proofs::Firsts::first_rules))]
pub(crate) fn of_rtl(
    alloc: Global,
    machine: &Machine,
    own: &[u8],
    wanted: Wanted,
    rtl: &Rtl,
) -> Found
    ensures { IfOk result (λ found. found ≡ first (spec.of_rtl machine.now own.now wanted rtl.now)) }
{
    match by_mode(machine, wanted, rtl) {
        Some(fault) => {
            let number = fault.number;
            Ok(Some((number, fault_said(alloc, machine, own, fault)?)))
        }
        None => Ok(None),
    }
}

/// The same of an expression that may be absent.
pub(crate) fn of_where(
    alloc: Global,
    machine: &Machine,
    own: &[u8],
    wanted: Wanted,
    rtl: &Option<Rtl>,
) -> Found
    ensures { IfOk result (λ found. found ≡ first (spec.of_where machine.now own.now wanted rtl.now)) }
{
    match rtl {
        Some(rtl) => of_rtl(alloc, machine, own, wanted, rtl),
        None => Ok(None),
    }
}

/// The first fault of a field in one of its clauses.
fn field_clause(alloc: Global, machine: &Machine, field: &Field, clause: Clause<'_>) -> Found
    ensures { IfOk result (λ found. found ≡ first (spec.field_clause machine.now field.now (seen_clause clause.entry))) }
{
    let own = field.name.as_slice();
    let mode = Some(field.mode);
    match clause.name {
        b"encode" => {
            let wanted = wanted(Purpose::Encode, mode, mode);
            of_where(alloc, machine, own, wanted, &field.encode)
        }
        b"decode" => {
            let wanted = wanted(Purpose::Decode, mode, mode);
            of_where(alloc, machine, own, wanted, &field.decode)
        }
        _ => Ok(None),
    }
}

/// The first fault of a field.
#[tactic(auto, using(cg_desc_fault_report::proofs::Firsts::first_rules))]
pub(crate) fn first_of_field(
    alloc: Global,
    machine: &Machine,
    field: &Field,
    clauses: &[Clause<'_>],
) -> Found
    ensures { IfOk result (λ found. found ≡ first (flat_map (spec.field_clause machine.now field.now) (map seen_clause clauses.now))) }
{
    for clause in clauses {
        if let Some(found) = field_clause(alloc, machine, field, *clause)? {
            return Ok(Some(found));
        }
    }
    Ok(None)
}

/// The first fault of hardware in one of its clauses.
fn hardware_clause(
    alloc: Global,
    machine: &Machine,
    hardware: &Hardware,
    clause: Clause<'_>,
) -> Found
    ensures { IfOk result (λ found. found ≡ first (spec.hardware_clause machine.now hardware.now (seen_clause clause.entry))) }
{
    let own = hardware.name.as_slice();
    let mode = Some(hardware.mode);
    match clause.name {
        b"get" => {
            let wanted = wanted(Purpose::Get, mode, None);
            of_where(alloc, machine, own, wanted, &hardware.get)
        }
        b"set" => {
            let wanted = wanted(Purpose::Set, None, mode);
            of_where(alloc, machine, own, wanted, &hardware.set)
        }
        _ => Ok(None),
    }
}

/// The first fault of hardware.
#[tactic(auto, using(cg_desc_fault_report::proofs::Firsts::first_rules))]
pub(crate) fn first_of_hardware(
    alloc: Global,
    machine: &Machine,
    hardware: &Hardware,
    clauses: &[Clause<'_>],
) -> Found
    ensures { IfOk result (λ found. found ≡ first (flat_map (spec.hardware_clause machine.now hardware.now) (map seen_clause clauses.now))) }
{
    for clause in clauses {
        if let Some(found) = hardware_clause(alloc, machine, hardware, *clause)? {
            return Ok(Some(found));
        }
    }
    Ok(None)
}

/// The mode of the field of a number.
fn mode_of_field(machine: &Machine, k: u16) -> Option<Mode>
    ensures { result ≡ mode_of_field machine.now k }
{
    match machine.fields.get(k as usize) {
        Some(field) => Some(field.mode),
        None => None,
    }
}

/// The first fault of an expression of `insert`, whose field has this number.
fn of_sub(
    alloc: Global,
    machine: &Machine,
    scope: &Scope,
    multi: &Multi,
    form: &Form,
    number: Option<u16>,
) -> Found
    ensures { IfOk result (λ found. found ≡ first (spec.of_sub machine.now scope.now multi.now form.now number)) }
{
    match number {
        Some(k) => {
            let want = mode_of_field(machine, k);
            let wanted = wanted(Purpose::Insert, want, Some(multi.mode));
            let rtl = built(alloc, form, scope)?;
            of_rtl(alloc, machine, multi.name.as_slice(), wanted, &rtl)
        }
        None => Ok(None),
    }
}

/// The first fault of the expressions of `insert`, in the order in which they are written.
#[tactic(auto, using(cg_desc_fault_report::proofs::Firsts::first_rules))]
fn of_sets(
    alloc: Global,
    fields: &Numbering,
    machine: &Machine,
    scope: &Scope,
    multi: &Multi,
    sets: &[(&Text, &Form)],
) -> Found
    ensures { IfOk result (λ found. found ≡ first (spec.of_sets (seen_numbering fields.now) machine.now scope.now multi.now (seen_sets sets.now))) }
{
    for set in sets {
        let number = fields.get(set.0);
        if let Some(found) = of_sub(alloc, machine, scope, multi, set.1, number)? {
            return Ok(Some(found));
        }
    }
    Ok(None)
}

/// The first fault of a multi field in one of its clauses.
fn multi_clause(
    alloc: Global,
    fields: &Numbering,
    machine: &Machine,
    scope: &mut Scope,
    multi: &Multi,
    clause: Clause<'_>,
) -> Found
    ensures value { IfOk result (λ found. found ≡ first (spec.multi_clause (seen_numbering fields.now) machine.now (base scope.old) multi.now (seen_clause clause.entry))) }
    ensures kept { base scope.new ≡ base scope.old }
{
    match clause.name {
        b"insert" => {
            let sets = sets_in(alloc, clause)?;
            set_rule(scope, Rule::Insert(multi.name.clone()?), Some(multi.mode));
            of_sets(alloc, fields, machine, scope, multi, &sets)
        }
        b"extract" => {
            let wanted = wanted(Purpose::Extract, Some(multi.mode), None);
            of_rtl(
                alloc,
                machine,
                multi.name.as_slice(),
                wanted,
                &multi.extract,
            )
        }
        _ => Ok(None),
    }
}

/// The first fault of a multi field.
#[tactic(auto, using(cg_desc_fault_report::proofs::Firsts::first_rules))]
pub(crate) fn first_of_multi(
    alloc: Global,
    fields: &Numbering,
    machine: &Machine,
    scope: &mut Scope,
    multi: &Multi,
    clauses: &[Clause<'_>],
) -> Found
    ensures value { IfOk result (λ found. found ≡ first (flat_map (spec.multi_clause (seen_numbering fields.now) machine.now (base scope.old) multi.now) (map seen_clause clauses.now))) }
    ensures kept { base scope.new ≡ base scope.old }
{
    for clause in clauses {
        if let Some(found) = multi_clause(alloc, fields, machine, scope, multi, *clause)? {
            return Ok(Some(found));
        }
    }
    Ok(None)
}
