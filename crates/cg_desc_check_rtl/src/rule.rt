ghost use Rattle.std.specs.Prelude.{◌≡◌, slice_get, is_some};
ghost use Rattle.std.specs.Option.{option_copied};
ghost use Rattle.cg_model.specs.Placed as placed;
ghost use Rattle.cg_model.specs.Operators.{at_number};
ghost use Rattle.cg_model.specs.declared.rtl.Rtl.{out-Rtl};
ghost use Rattle.cg_model_faults.specs.E314 as spec;
ghost use Rattle.cg_desc_check_rtl.specs.Tables.{seen_rule, in_row, in_table, leads_by};

use cg_model::{HwKind, Machine, Op, Rtl};

/// The rule by which the hardware of a number is set, or by which it is read.
#[derive(Clone, Copy)]
pub(crate) struct RuleName {
    pub hardware: usize,
    pub sets: bool,
}

/// Whether two rules are one.
fn is_same(rule: RuleName, other: RuleName) -> bool
    ensures { result ≡ spec.is_same (seen_rule rule) (seen_rule other) }
{
    if rule.hardware != other.hardware {
        return false;
    }
    if rule.sets {
        return other.sets;
    }
    !other.sets
}

/// Which rules lead to one rule in at most so many steps: the get rules of hardware by its number, and
/// the set rules.
#[derive(Drop)]
pub(crate) struct Table {
    pub gets: Vec<bool>,
    pub sets: Vec<bool>,
}

/// What a row has of the hardware of a number.
fn in_row(row: &[bool], k: usize) -> bool
    ensures { result ≡ in_row row.now k }
{
    match row.get(k) {
        Some(leads) => *leads,
        None => false,
    }
}

/// Whether a table has a rule.
pub(crate) fn in_table(table: &Table, rule: RuleName) -> bool
    ensures { result ≡ in_table table.now (seen_rule rule) }
{
    if rule.sets {
        return in_row(table.sets.as_slice(), rule.hardware);
    }
    in_row(table.gets.as_slice(), rule.hardware)
}

/// Whether the rule of a register leads to another, by itself or by a table.
fn register_leads(machine: &Machine, table: &Table, target: RuleName, sets: bool, k: usize) -> bool
    ensures { result ≡ spec.one_leads (in_table table.now) (seen_rule target) (placed.of_register sets k (slice_get machine.now.hardware k)) }
{
    match machine.hardware.get(k) {
        Some(hardware) => {
            if hardware.kind != HwKind::Register {
                return false;
            }
            let rule = RuleName { hardware: k, sets };
            is_same(rule, target) || in_table(table, rule)
        }
        None => false,
    }
}

/// The same of the register that a number names.
fn number_leads(machine: &Machine, table: &Table, target: RuleName, sets: bool, rtl: &Rtl) -> bool
    ensures { result ≡ spec.one_leads (in_table table.now) (seen_rule target) (placed.of_number machine.now sets (out-Rtl rtl.now).number) }
{
    if rtl.number < 0 {
        return false;
    }
    register_leads(machine, table, target, sets, rtl.number as usize)
}

/// The same of the register of the operand that a number names.
fn operand_leads(machine: &Machine, table: &Table, target: RuleName, sets: bool, rtl: &Rtl) -> bool
    ensures { result ≡ spec.one_leads (in_table table.now) (seen_rule target) (placed.of_operand machine.now sets (at_number machine.now.operands (out-Rtl rtl.now).number)) }
{
    if rtl.number < 0 {
        return false;
    }
    match machine.operands.get(rtl.number as usize) {
        Some(operand) => register_leads(machine, table, target, sets, operand.hardware as usize),
        None => false,
    }
}

/// The same of the outermost node of an expression, which may be a place that is set.
#[tactic(auto, unfolding(cg_model::specs::Placed::needed_at))]
fn node_leads(machine: &Machine, table: &Table, target: RuleName, is_place: bool, rtl: &Rtl) -> bool
    ensures { result ≡ spec.one_leads (in_table table.now) (seen_rule target) (placed.needed_at machine.now is_place (out-Rtl rtl.now).op (out-Rtl rtl.now).number) }
{
    match rtl.op {
        Op::Reg => number_leads(machine, table, target, is_place, rtl),
        Op::OperandRef => operand_leads(machine, table, target, is_place, rtl),
        _ => false,
    }
}

/// Whether an operation sets its first item.
fn is_set(op: Op) -> bool
    ensures { result ≡ placed.is_set op }
{
    match op {
        Op::Set => true,
        _ => false,
    }
}

/// The same of an expression.
#[tactic(auto, using(crate::proofs::Leading::leading_rules))]
fn expression_leads(
    machine: &Machine,
    table: &Table,
    target: RuleName,
    is_place: bool,
    rtl: &Rtl,
) -> bool
    ensures { result ≡ spec.one_leads (in_table table.now) (seen_rule target) (placed.needed_by machine.now rtl.now is_place) }
{
    if node_leads(machine, table, target, is_place, rtl) {
        return true;
    }
    let mut first = is_set(rtl.op);
    for item in rtl.items.as_slice() {
        if expression_leads(machine, table, target, first, item) {
            return true;
        }
        first = false;
    }
    false
}

/// The expression of a rule.
fn rule_named(machine: &Machine, rule: RuleName) -> Option<&Rtl>
    ensures { option_copied result ≡ placed.rule_named machine.now (seen_rule rule) }
{
    let hardware = machine.hardware.get(rule.hardware)?;
    if rule.sets {
        return hardware.set.as_ref();
    }
    hardware.get.as_ref()
}

/// Whether a rule is there at all.
pub(crate) fn is_ruled(machine: &Machine, rule: RuleName) -> bool
    ensures { result ≡ is_some (placed.rule_named machine.now (seen_rule rule)) }
{
    rule_named(machine, rule).is_some()
}

/// Whether a rule leads to another, at once or by a table.
pub(crate) fn rule_leads(machine: &Machine, table: &Table, target: RuleName, rule: RuleName) -> bool
    ensures { result ≡ leads_by machine.now table.now (seen_rule target) (seen_rule rule) }
{
    match rule_named(machine, rule) {
        Some(rtl) => expression_leads(machine, table, target, false, rtl),
        None => false,
    }
}
