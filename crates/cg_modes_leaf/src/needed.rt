ghost use Rattle.std.specs.Prelude.{◌≡◌, slice_get};
ghost use Rattle.std.specs.Option.{option_copied};
ghost use Rattle.cg_model.specs.Placed as spec;
ghost use Rattle.cg_model.specs.Operators.{at_number};
ghost use Rattle.cg_model.specs.declared.rtl.Rtl.{out-Rtl};
ghost use Rattle.cg_modes_leaf.specs.Delaying.{seen_rule, seen_rules};

use cg_model::{HwKind, Machine, Op, Rtl};

/// The rule by which the hardware of a number is set, or that by which it is read.
#[derive(Clone, Copy)]
pub struct RuleName {
    /// The number of the hardware.
    pub hardware: usize,
    /// Whether it is the set rule.
    pub sets: bool,
}

/// The rule of the register of a number.
fn of_register(machine: &Machine, sets: bool, hardware: usize) -> Option<RuleName>
    ensures { seen_rules result ≡ spec.of_register sets hardware (slice_get machine.now.hardware hardware) }
{
    match machine.hardware.get(hardware) {
        Some(element) => {
            if element.kind != HwKind::Register {
                return None;
            }
            Some(RuleName { hardware, sets })
        }
        None => None,
    }
}

/// The same of the register that a number names.
fn of_number(machine: &Machine, sets: bool, number: i64) -> Option<RuleName>
    ensures { seen_rules result ≡ spec.of_number machine.now sets number }
{
    if number < 0 {
        return None;
    }
    of_register(machine, sets, number as usize)
}

/// The same of the register of the operand that a number names.
fn of_operand(machine: &Machine, sets: bool, number: i64) -> Option<RuleName>
    ensures { seen_rules result ≡ spec.of_operand machine.now sets (at_number machine.now.operands number) }
{
    if number < 0 {
        return None;
    }
    match machine.operands.get(number as usize) {
        Some(operand) => of_register(machine, sets, operand.hardware as usize),
        None => None,
    }
}

/// The rule by which the outermost node of an expression reads, or sets where it is a place
/// (docs/LANGUAGE.md, "Modes of expressions").
#[tactic(auto, unfolding(cg_model::specs::Placed::needed_at))]
pub fn needed_at(machine: &Machine, is_place: bool, rtl: &Rtl) -> Option<RuleName>
    ensures { seen_rules result ≡ spec.needed_at machine.now is_place (out-Rtl rtl.now).op (out-Rtl rtl.now).number }
{
    match rtl.op {
        Op::Reg => of_number(machine, is_place, rtl.number),
        Op::OperandRef => of_operand(machine, is_place, rtl.number),
        _ => None,
    }
}

/// The expression of a rule, where the hardware has it.
pub fn rule_named(machine: &Machine, rule: RuleName) -> Option<&Rtl>
    ensures { option_copied result ≡ spec.rule_named machine.now (seen_rule rule) }
{
    let hardware = machine.hardware.get(rule.hardware)?;
    if rule.sets {
        return hardware.set.as_ref();
    }
    hardware.get.as_ref()
}
