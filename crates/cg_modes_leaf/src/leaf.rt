ghost use Rattle.std.specs.Prelude.{◌≡◌, ◌+◌, ◌≤◌, ◌==◌, unsigned_abs, length, map, drop};
ghost use Rattle.cg_model.specs.declared.rtl.Rtl.{out-Rtl};
ghost use Rattle.cg_model.specs.Checked as spec;
ghost use Rattle.cg_model.specs.Operators.{at_number};
ghost use Rattle.cg_model.specs.Placed as placed;
ghost use Rattle.cg_modes_leaf.specs.Scope.{locals_of};
ghost use Rattle.cg_modes_leaf.specs.Firm.{firm_place};

use crate::hardware_of;
use crate::scope::{Scope, find};
use crate::verdict::{Verdict, fits, is_loose, no_shape, word};
use cg_base::Mode;
use cg_model::{HwKind, Machine, Op, Rtl};

/// The mode of a number: its own, else the wanted one, else the word's.
pub fn number(machine: &Machine, written: Option<Mode>, want: Option<Mode>, number: i64) -> Verdict
    ensures { result ≡ spec.number_mode machine.now written want number }
{
    fits(written.or(want).unwrap_or(word(machine)), number)
}

/// The mode of a local.
pub fn local(scope: &Scope, number: i64) -> Verdict
    ensures { result ≡ spec.local_mode (at_number (locals_of scope.now) number) }
{
    if number < 0 {
        return Err(no_shape());
    }
    match find(scope, number as u64) {
        Ok(local) => Ok(local.mode),
        Err(_) => Err(no_shape()),
    }
}

/// The mode of hardware.
pub fn hardware(machine: &Machine, number: i64) -> Verdict
    ensures { result ≡ spec.hardware_mode (at_number machine.now.hardware number) }
{
    if number < 0 {
        return Err(no_shape());
    }
    match machine.hardware.get(number as usize) {
        Some(hardware) => Ok(hardware.mode),
        None => Err(no_shape()),
    }
}

/// The mode of an operand.
pub fn operand_ref(machine: &Machine, number: i64) -> Verdict
    ensures { result ≡ spec.hardware_mode (placed.hardware_of machine.now number) }
{
    match hardware_of(machine, number) {
        Some(hardware) => Ok(hardware.mode),
        None => Err(no_shape()),
    }
}

/// Whether an operand is a cell or the pc.
fn holds_cell(machine: &Machine, number: i64) -> bool
    ensures { result ≡ spec.holds_cell (placed.hardware_of machine.now number) }
{
    match hardware_of(machine, number) {
        Some(hardware) => match hardware.kind {
            HwKind::Register | HwKind::Pc => true,
            _ => false,
        },
        None => false,
    }
}

/// The mode of a field.
pub fn field(machine: &Machine, number: i64) -> Verdict
    ensures { result ≡ spec.field_mode machine.now number }
{
    if number < 0 {
        return Err(no_shape());
    }
    match machine.fields.get(number as usize) {
        Some(field) => Ok(field.mode),
        None => Err(no_shape()),
    }
}

/// The mode of a multi field.
pub fn multi(machine: &Machine, number: i64) -> Verdict
    ensures { result ≡ spec.multi_mode machine.now number }
{
    if number < 0 {
        return Err(no_shape());
    }
    match machine.multis.get(number as usize) {
        Some(multi) => Ok(multi.mode),
        None => Err(no_shape()),
    }
}

/// Whether a local stands within the innermost `parallel`.
fn is_inside(scope: &Scope, number: i64) -> bool
    ensures { result ≡ spec.is_inside (at_number (locals_of scope.now) number) }
{
    if number < 0 {
        return false;
    }
    match find(scope, number as u64) {
        Ok(local) => !local.outside,
        Err(_) => false,
    }
}

/// Whether an expression can be set.
#[tactic(auto, unfolding(cg_model::specs::Checked::is_place))]
pub fn is_place(place: &Rtl, machine: &Machine, scope: &Scope) -> bool
    ensures { result ≡ spec.is_place machine.now (locals_of scope.now) (out-Rtl place.now).op (out-Rtl place.now).number }
{
    match place.op {
        Op::Pc | Op::Reg | Op::RawReg | Op::Mem => true,
        Op::Local => is_inside(scope, place.number),
        Op::OperandRef => holds_cell(machine, place.number),
        _ => false,
    }
}

/// Whether the last item of an expression is loose.
#[tactic(auto, using(crate::proofs::Places::place_rules))]
pub fn last_loose(rtl: &Rtl) -> bool
    ensures { result ≡ spec.last_loose (out-Rtl rtl.now).items }
{
    let items = rtl.items.as_slice();
    if items.is_empty() {
        return false;
    }
    is_loose(&items[items.len() - 1])
}

/// The first arm from a place on whose value isn't loose, or how many arms there are.
#[tactic(auto, using(crate::proofs::Places::place_rules))]
pub fn first_firm(items: &[Rtl], from: usize) -> usize
    requires { from ≤ length items.now }
    ensures { result ≡ from + firm_place (drop from items.now) }
{
    for i in from..items.len() {
        if !last_loose(&items[i]) {
            return i;
        }
    }
    items.len()
}

/// Whether an expression is an arm.
pub fn is_arm(rtl: &Rtl) -> bool
    ensures { result ≡ spec.is_arm (out-Rtl rtl.now).op }
{
    matches!(rtl.op, Op::Arm)
}

/// Whether an arm has no tests.
pub fn is_else(arm: &Rtl) -> bool
    ensures { result ≡ (unsigned_abs (out-Rtl arm.now).number == 0) }
{
    arm.number == 0
}

/// Whether the arms from a place on end with one without tests.
#[tactic(auto, using(crate::proofs::Places::place_rules))]
pub fn ends_with_else(items: &[Rtl], from: usize) -> bool
    requires { from ≤ length items.now }
    ensures { result ≡ spec.ends_with_else (map out-Rtl (drop from items.now)) }
{
    if from == items.len() {
        return false;
    }
    is_else(&items[items.len() - 1])
}
