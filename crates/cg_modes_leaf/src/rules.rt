ghost use Rattle.std.specs.Prelude.{◌≡◌};
ghost use Rattle.std.specs.Option.{option_copied};
ghost use Rattle.cg_model.specs.declared.rtl.Rtl.{out-Rtl};
ghost use Rattle.cg_model.specs.Placed as spec;
ghost use Rattle.cg_model.specs.Operators.{at_number};

use cg_model::{Hardware, Machine, Op, Rtl};

/// The hardware of a number.
fn hardware_at(machine: &Machine, number: i64) -> Option<&Hardware>
    ensures { option_copied result ≡ at_number machine.now.hardware number }
{
    if number < 0 {
        return None;
    }
    machine.hardware.get(number as usize)
}

/// The hardware of the operand of a number.
pub fn hardware_of(machine: &Machine, number: i64) -> Option<&Hardware>
    ensures { option_copied result ≡ spec.hardware_of machine.now number }
{
    if number < 0 {
        return None;
    }
    let operand = machine.operands.get(number as usize)?;
    machine.hardware.get(operand.hardware as usize)
}

/// The hardware that an expression reads or sets by a rule.
#[tactic(auto, unfolding(cg_model::specs::Placed::goes_to))]
fn goes_to<'a>(rtl: &Rtl, machine: &'a Machine) -> Option<&'a Hardware>
    ensures { option_copied result ≡ spec.goes_to machine.now (out-Rtl rtl.now).op (out-Rtl rtl.now).number }
{
    match rtl.op {
        Op::Reg => hardware_at(machine, rtl.number),
        Op::OperandRef => hardware_of(machine, rtl.number),
        _ => None,
    }
}

/// The rule by which an expression reads.
fn get_rule<'a>(rtl: &Rtl, machine: &'a Machine) -> Option<&'a Rtl>
    ensures { option_copied result ≡ spec.get_rule (spec.goes_to machine.now (out-Rtl rtl.now).op (out-Rtl rtl.now).number) }
{
    match goes_to(rtl, machine) {
        Some(hardware) => hardware.get.as_ref(),
        None => None,
    }
}

/// The rule by which the first of some items is set.
fn place_rule<'a>(items: &[Rtl], machine: &'a Machine) -> Option<&'a Rtl>
    ensures { option_copied result ≡ spec.place_rule machine.now items.now }
{
    match items.first() {
        Some(place) => match goes_to(place, machine) {
            Some(hardware) => hardware.set.as_ref(),
            None => None,
        },
        None => None,
    }
}

/// Whether an expression is a `set`, whose first item is a place.
pub fn is_set(rtl: &Rtl) -> bool
    ensures { result ≡ spec.is_set (out-Rtl rtl.now).op }
{
    matches!(rtl.op, Op::Set)
}

/// The rule that is put in place beside an expression's items.
pub(crate) fn rule_of<'a>(rtl: &Rtl, machine: &'a Machine, is_place: bool) -> Option<&'a Rtl>
    ensures { option_copied result ≡ spec.rule_of machine.now is_place (out-Rtl rtl.now) }
{
    if is_set(rtl) {
        return place_rule(rtl.items.as_slice(), machine);
    }
    if is_place {
        return None;
    }
    get_rule(rtl, machine)
}
