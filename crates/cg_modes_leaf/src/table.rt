ghost use Rattle.std.specs.Prelude.{◌≡◌, ◌≤◌, ◌*◌, length, true, false};
ghost use Rattle.cg_model.specs.Placed as spec;
ghost use Rattle.cg_model.specs.declared.rtl.Rtl.{out-Rtl};
ghost use Rattle.cg_modes_leaf.specs.Delaying.{seen_rule, in_row, in_table, delays_beside, IsEmpty, IsRow, IsNext, Knows};

use crate::needed::{RuleName, needed_at, rule_named};
use crate::rules::is_set;
use crate::search::delays_itself;
use cg_model::{Machine, Rtl};

/// The rules in which a `delay` or a halt stands, or in one that they need in so many steps: the get
/// rules of hardware by its number, and the set rules.
#[derive(Clone, Copy)]
pub(crate) struct Table {
    pub gets: [bool; 256],
    pub sets: [bool; 256],
}

/// What a row has of the hardware of a number.
fn in_row(row: &[bool], k: usize) -> bool
    ensures { result ≡ in_row row.now k }
{
    match row.get(k) {
        Some(delays) => *delays,
        None => false,
    }
}

/// Whether a table has a rule.
fn in_table(table: &Table, rule: RuleName) -> bool
    ensures { result ≡ in_table table.now (seen_rule rule) }
{
    if rule.sets {
        return in_row(&table.sets, rule.hardware);
    }
    in_row(&table.gets, rule.hardware)
}

/// Whether a table has the rule that the outermost node of an expression needs.
fn node_delays(machine: &Machine, table: &Table, is_place: bool, rtl: &Rtl) -> bool
    ensures { result ≡ spec.one_delays (in_table table.now) (spec.needed_at machine.now is_place (out-Rtl rtl.now).op (out-Rtl rtl.now).number) }
{
    match needed_at(machine, is_place, rtl) {
        Some(rule) => in_table(table, rule),
        None => false,
    }
}

/// Whether a table has a rule that an expression needs.
#[tactic(auto, using(crate::proofs::Reaching::needed_rules))]
fn needs_one(machine: &Machine, table: &Table, is_place: bool, rtl: &Rtl) -> bool
    ensures { result ≡ spec.one_delays (in_table table.now) (spec.needed_by machine.now rtl.now is_place) }
{
    if node_delays(machine, table, is_place, rtl) {
        return true;
    }
    let mut place = is_set(rtl);
    for item in rtl.items.as_slice() {
        if needs_one(machine, table, place, item) {
            return true;
        }
        place = false;
    }
    false
}

/// Whether a `delay` or a halt stands in a rule, or in one that it needs at once and that a table has.
fn delays_beside(machine: &Machine, table: &Table, rule: RuleName) -> bool
    ensures { result ≡ delays_beside machine.now table.now (seen_rule rule) }
{
    match rule_named(machine, rule) {
        Some(rtl) => delays_itself(rtl) || needs_one(machine, table, false, rtl),
        None => false,
    }
}

/// A row of nothing.
#[tactic(auto, using(crate::proofs::Tables::is_empty))]
fn empty_row() -> [bool; 256]
    ensures { IsEmpty 256 result }
{
    [false; 256]
}

/// The row of the get rules, or of the set rules, of the table of one step more.
#[tactic(auto, using(crate::proofs::Tables::row_rules))]
fn row(machine: &Machine, table: &Table, sets: bool) -> [bool; 256]
    requires few { length machine.now.hardware ≤ 256 }
    ensures { IsRow machine.now table.now sets result }
{
    let mut row = empty_row();
    for hardware in 0..machine.hardware.len() {
        row[hardware] = delays_beside(machine, table, RuleName { hardware, sets });
    }
    row
}

/// The table of one step more.
#[tactic(auto, using(crate::proofs::Tables::next_rules))]
fn next(machine: &Machine, table: &Table) -> Table
    requires few { length machine.now.hardware ≤ 256 }
    ensures { IsNext machine.now table.now result }
{
    let gets = row(machine, table, false);
    let sets = row(machine, table, true);
    Table { gets, sets }
}

/// Whether two rows have the same.
#[tactic(auto, using(crate::proofs::Tables::same_bits))]
fn is_same(row: &[bool; 256], other: &[bool; 256]) -> bool
    ensures { result ≡ true → row.now ≡ other.now }
{
    row == other
}

/// Whether a table has all that the one of one step more has.
#[tactic(auto, using(crate::proofs::Tables::settled_rules))]
fn is_settled(table: &Table, next: &Table) -> bool
    ensures { result ≡ true → table.now ≡ next.now }
{
    is_same(&table.gets, &next.gets) && is_same(&table.sets, &next.sets)
}

/// The table of as many steps as a machine has rules. Where it doesn't grow in a step, it never does.
#[tactic(auto, using(crate::proofs::Tables::step_rules))]
fn delaying(machine: &Machine) -> Table
    requires few { length machine.now.hardware ≤ 256 }
    ensures { Knows machine.now (2 * length machine.now.hardware) result }
{
    let mut table = Table {
        gets: empty_row(),
        sets: empty_row(),
    };
    for _step in 0..2 * machine.hardware.len() {
        let more = next(machine, &table);
        if is_settled(&table, &more) {
            return table;
        }
        table = more;
    }
    table
}

/// Whether a rule that an expression needs has a `delay` or a halt, told by tables.
#[tactic(auto, using(crate::proofs::Tables::known_rules))]
pub(crate) fn needed_delay(machine: &Machine, rtl: &Rtl) -> bool
    requires few { length machine.now.hardware ≤ 256 }
    ensures { result ≡ spec.one_delays (spec.rule_delays machine.now (2 * length machine.now.hardware)) (spec.needed_by machine.now rtl.now false) }
{
    needs_one(machine, &delaying(machine), false, rtl)
}
