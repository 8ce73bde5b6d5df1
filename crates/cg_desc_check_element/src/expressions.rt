ghost use Rattle.std.specs.Prelude.{◌≡◌, IfOk, []};
ghost use Rattle.cg_base.specs.Refusing.{first};
ghost use Rattle.cg_model_faults.specs.Elements as spec;
ghost use Rattle.cg_desc_check_rtl.specs.Named.{nameable};

use cg_base::NoMemory;
use cg_desc_check_rtl::{Standing, first_impure, first_no_cell, first_stray, first_unnamed};
use cg_model::{Machine, Rtl};
use cg_model_faults::{MachineFault, Purpose};

/// What a rule finds, or want of memory.
pub(crate) type Found = Result<Option<MachineFault>, NoMemory>;

/// E304 of an expression whose numbers all name something.
#[tactic(auto, using(crate::proofs::Firsts::first_rules))]
pub(crate) fn cells(machine: &Machine, rtl: &Rtl) -> Found
    ensures { IfOk result (λ found. found ≡ first (spec.cells_of machine.now rtl.now)) }
{
    if first_unnamed(machine, rtl)?.is_some() {
        return Ok(None);
    }
    Ok(first_no_cell(machine, rtl))
}

/// E306 of an expression that may name what may be named where it stands.
#[tactic(auto, using(crate::proofs::Firsts::first_rules))]
pub(crate) fn names(machine: &Machine, standing: Standing, rtl: &Rtl) -> Found
    ensures { IfOk result (λ found. found ≡ first (spec.names_of machine.now (nameable machine.now standing.entry) rtl.now)) }
{
    if let Some(fault) = first_unnamed(machine, rtl)? {
        return Ok(Some(fault));
    }
    Ok(first_stray(machine, standing, rtl))
}

/// E315 of an expression whose numbers all name something.
#[tactic(auto, using(crate::proofs::Firsts::first_rules))]
pub(crate) fn purity(machine: &Machine, purpose: Purpose, subs: &[u16], rtl: &Rtl) -> Found
    ensures { IfOk result (λ found. found ≡ first (spec.purity_of machine.now purpose subs.now rtl.now)) }
{
    if first_unnamed(machine, rtl)?.is_some() {
        return Ok(None);
    }
    Ok(first_impure(machine, purpose, subs, rtl))
}

/// E304 of an expression that may be absent.
#[tactic(auto, using(crate::proofs::Firsts::first_rules))]
pub(crate) fn cells_where(machine: &Machine, rtl: &Option<Rtl>) -> Found
    ensures { IfOk result (λ found. found ≡ first (spec.where_there (spec.cells_of machine.now) rtl.now)) }
{
    match rtl {
        Some(rtl) => Ok(cells(machine, rtl)?),
        None => Ok(None),
    }
}

/// E304 of several expressions.
#[tactic(auto, using(crate::proofs::Firsts::first_rules))]
pub(crate) fn cells_of_all(machine: &Machine, rtls: &[Rtl]) -> Found
    ensures { IfOk result (λ found. found ≡ first (spec.of_all (spec.cells_of machine.now) rtls.now)) }
{
    for rtl in rtls {
        if let Some(fault) = cells(machine, rtl)? {
            return Ok(Some(fault));
        }
    }
    Ok(None)
}

/// E306 by the numbers of an expression that may be absent.
pub(crate) fn numbers_where(machine: &Machine, rtl: &Option<Rtl>) -> Found
    ensures { IfOk result (λ found. found ≡ first (spec.where_there (spec.numbers_of machine.now) rtl.now)) }
{
    match rtl {
        Some(rtl) => Ok(first_unnamed(machine, rtl)?),
        None => Ok(None),
    }
}

/// E306 by the numbers of several expressions.
#[tactic(auto, using(crate::proofs::Firsts::first_rules))]
pub(crate) fn numbers_of_all(machine: &Machine, rtls: &[Rtl]) -> Found
    ensures { IfOk result (λ found. found ≡ first (spec.of_all (spec.numbers_of machine.now) rtls.now)) }
{
    for rtl in rtls {
        if let Some(fault) = first_unnamed(machine, rtl)? {
            return Ok(Some(fault));
        }
    }
    Ok(None)
}

/// E306 of an expression that may be absent.
pub(crate) fn names_where(machine: &Machine, standing: Standing, rtl: &Option<Rtl>) -> Found
    ensures { IfOk result (λ found. found ≡ first (spec.where_there (spec.names_of machine.now (nameable machine.now standing.entry)) rtl.now)) }
{
    match rtl {
        Some(rtl) => Ok(names(machine, standing, rtl)?),
        None => Ok(None),
    }
}

/// E315 of an expression that may be absent.
pub(crate) fn purity_where(machine: &Machine, purpose: Purpose, rtl: &Option<Rtl>) -> Found
    ensures { IfOk result (λ found. found ≡ first (spec.where_there (spec.purity_of machine.now purpose []) rtl.now)) }
{
    match rtl {
        Some(rtl) => Ok(purity(machine, purpose, &[], rtl)?),
        None => Ok(None),
    }
}

/// E315 of several expressions.
#[tactic(auto, using(crate::proofs::Firsts::first_rules))]
pub(crate) fn purity_of_all(machine: &Machine, purpose: Purpose, rtls: &[Rtl]) -> Found
    ensures { IfOk result (λ found. found ≡ first (spec.of_all (spec.purity_of machine.now purpose []) rtls.now)) }
{
    for rtl in rtls {
        if let Some(fault) = purity(machine, purpose, &[], rtl)? {
            return Ok(Some(fault));
        }
    }
    Ok(None)
}
