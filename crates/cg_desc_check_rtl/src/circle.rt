ghost use Rattle.std.specs.Prelude.{◌≡◌, ◌*◌, ◌+◌, true, length, IfOk};
ghost use Rattle.cg_base.specs.Refusing.{first};
ghost use Rattle.cg_model_faults.specs.E314 as spec;
ghost use Rattle.cg_desc_check_rtl.specs.Tables.{seen_rule, IsRow, IsNext, IsAlike, AreAlike};

use crate::rule::{RuleName, Table, in_table, is_ruled, rule_leads};
use cg_base::{NoMemory, refusals};
use cg_model::Machine;
use cg_model_faults::{MachineFault, Said};
use std::alloc::Global;

/// The row of the get rules, or of the set rules, that lead to a rule by a table.
#[tactic(auto, using(crate::proofs::Leading::row_rules))]
fn row(
    alloc: Global,
    machine: &Machine,
    table: &Table,
    target: RuleName,
    sets: bool,
) -> Result<Vec<bool>, NoMemory>
    ensures { IfOk result (λ row. IsRow machine.now table.now (seen_rule target) sets row.items) }
{
    let mut row = Vec::new(alloc);
    for hardware in 0..machine.hardware.len() {
        row.push(rule_leads(machine, table, target, RuleName { hardware, sets }))?;
    }
    Ok(row)
}

/// The table of one step more.
#[tactic(auto, using(crate::proofs::Leading::next_rules))]
fn next(
    alloc: Global,
    machine: &Machine,
    table: &Table,
    target: RuleName,
) -> Result<Table, NoMemory>
    ensures { IfOk result (λ next. IsNext machine.now table.now (seen_rule target) next) }
{
    let gets = row(alloc, machine, table, target, false)?;
    let sets = row(alloc, machine, table, target, true)?;
    Ok(Table { gets, sets })
}

/// Whether two tables have the same rules of the hardware of a number.
fn is_settled_at(table: &Table, next: &Table, hardware: usize) -> bool
    ensures { result ≡ true → IsAlike table.now next.now hardware }
{
    let get = RuleName {
        hardware,
        sets: false,
    };
    let set = RuleName {
        hardware,
        sets: true,
    };
    in_table(table, get) == in_table(next, get) && in_table(table, set) == in_table(next, set)
}

/// Whether a table has no rules of the hardware of a machine that another hasn't, and lacks none.
#[tactic(auto, using(crate::proofs::Settling::alike_rules))]
fn is_settled(machine: &Machine, table: &Table, next: &Table) -> bool
    ensures { result ≡ true → AreAlike (length machine.now.hardware) table.now next.now }
{
    for hardware in 0..machine.hardware.len() {
        if !is_settled_at(table, next, hardware) {
            return false;
        }
    }
    true
}

/// Whether a rule needs itself. Where a table doesn't grow in a step, it has all rules that lead to this one.
#[tactic(auto, using(crate::proofs::Settling::settling_rules))]
fn needs_itself(alloc: Global, machine: &Machine, rule: RuleName) -> Result<bool, NoMemory>
    ensures { IfOk result (λ needs. needs ≡ spec.needs machine.now (seen_rule rule) (seen_rule rule)) }
{
    if !is_ruled(machine, rule) {
        return Ok(false);
    }
    let mut table = Table {
        gets: Vec::new(alloc),
        sets: Vec::new(alloc),
    };
    for _round in 0..machine.hardware.len() {
        let once = next(alloc, machine, &table, rule)?;
        if is_settled(machine, &table, &once) {
            return Ok(in_table(&table, rule));
        }
        table = next(alloc, machine, &once, rule)?;
    }
    Ok(in_table(&table, rule))
}

/// E314: a get or set rule of the hardware of a number needs itself.
#[tactic(auto, using(crate::proofs::Leading::needing_rules))]
pub fn first_circular(
    alloc: Global,
    machine: &Machine,
    k: usize,
) -> Result<Option<MachineFault>, NoMemory>
    ensures { IfOk result (λ found. found ≡ first (spec.circular machine.now k)) }
{
    let get = RuleName {
        hardware: k,
        sets: false,
    };
    let set = RuleName {
        hardware: k,
        sets: true,
    };
    if needs_itself(alloc, machine, get)? || needs_itself(alloc, machine, set)? {
        return Ok(Some(MachineFault {
            number: refusals::CIRCULAR_RULE,
            place: 0,
            text: Said::Own,
            other: Said::Nothing,
        }));
    }
    Ok(None)
}
