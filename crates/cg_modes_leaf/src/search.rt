ghost use Rattle.std.specs.Prelude.{◌≡◌, IfSome};
ghost use Rattle.std.specs.List.{list_any};
ghost use Rattle.cg_model.specs.Placed as spec;
ghost use Rattle.cg_model.specs.declared.rtl.Rtl.{out-Rtl};
ghost use Rattle.cg_modes_leaf.specs.Delaying.{seen_rule, delays_by, node_delays_by, IsFree, AreFree, NeedsFree};

use crate::needed::{RuleName, needed_at, rule_named};
use crate::rules::is_set;
use crate::table::needed_delay;
use cg_model::{Machine, Op, Rtl};

fn is_delay(rtl: &Rtl) -> bool
    ensures { result ≡ spec.delays_op (out-Rtl rtl.now).op }
{
    matches!(rtl.op, Op::Delay | Op::Halt)
}

/// Whether a `delay` or a halt stands in an expression itself.
#[tactic(auto, using(crate::proofs::Reaching::itself_rules))]
pub(crate) fn delays_itself(rtl: &Rtl) -> bool
    ensures { result ≡ spec.delays_itself rtl.now }
{
    if is_delay(rtl) {
        return true;
    }
    for item in rtl.items.as_slice() {
        if delays_itself(item) {
            return true;
        }
    }
    false
}

/// What an expression without a `delay` or a halt leaves of a count of nodes, rules put in place, or
/// None where it may have one: where it has more nodes or is deeper, too.
#[cycle(searching)]
#[tactic(auto, using(crate::proofs::Reaching::free_rules))]
fn left(rtl: &Rtl, machine: &Machine, is_place: bool, depth: u8, count: u16) -> Option<u16>
    ensures { IfSome result (λ rest. IsFree machine.now is_place rtl.now) }
{
    if depth == 0 || count == 0 || is_delay(rtl) {
        return None;
    }
    let items = rtl.items.as_slice();
    let rest = left_by_items(items, machine, is_set(rtl), depth - 1, count - 1)?;
    left_by_node(rtl, machine, is_place, depth - 1, rest)
}

/// The same of items. The first may be a place.
#[cycle(searching)]
#[tactic(auto, using(crate::proofs::Reaching::free_rules))]
fn left_by_items(
    items: &[Rtl],
    machine: &Machine,
    is_place: bool,
    depth: u8,
    count: u16,
) -> Option<u16>
    ensures { IfSome result (λ rest. AreFree machine.now is_place items.now) }
{
    let mut rest = count;
    let mut place = is_place;
    for item in items {
        rest = left(item, machine, place, depth, rest)?;
        place = false;
    }
    Some(rest)
}

/// The same of the rule that an expression's outermost node needs.
#[cycle(searching)]
#[tactic(auto, using(crate::proofs::Reaching::free_rules))]
fn left_by_node(rtl: &Rtl, machine: &Machine, is_place: bool, depth: u8, count: u16) -> Option<u16>
    ensures { IfSome result (λ rest. NeedsFree machine.now is_place rtl.now) }
{
    match needed_at(machine, is_place, rtl) {
        Some(rule) => match rule_named(machine, rule) {
            Some(rule) => left(rule, machine, false, depth, count),
            None => Some(count),
        },
        None => Some(count),
    }
}

/// Whether a `delay` or a halt stands in an expression, or in a rule that it needs in so many steps.
#[cycle(stepping)]
#[tactic(auto, using(crate::proofs::Reaching::step_rules))]
fn delays_by(rtl: &Rtl, machine: &Machine, is_place: bool, steps: usize) -> bool
    ensures { result ≡ delays_by machine.now steps is_place rtl.now }
{
    if is_delay(rtl) {
        return true;
    }
    if node_delays_by(rtl, machine, is_place, steps) {
        return true;
    }
    let mut place = is_set(rtl);
    for item in rtl.items.as_slice() {
        if delays_by(item, machine, place, steps) {
            return true;
        }
        place = false;
    }
    false
}

/// The same of the rule that an expression's outermost node needs.
#[cycle(stepping)]
#[tactic(auto, using(crate::proofs::Reaching::step_rules))]
fn node_delays_by(rtl: &Rtl, machine: &Machine, is_place: bool, steps: usize) -> bool
    ensures { result ≡ node_delays_by machine.now steps is_place rtl.now }
{
    match needed_at(machine, is_place, rtl) {
        Some(rule) => rule_delays(machine, rule, steps),
        None => false,
    }
}

/// The same of a rule, and in fewer steps.
#[cycle(stepping)]
#[tactic(auto, using(crate::proofs::Reaching::step_rules))]
fn rule_delays(machine: &Machine, rule: RuleName, steps: usize) -> bool
    ensures { result ≡ spec.rule_delays machine.now steps (seen_rule rule) }
{
    if steps == 0 {
        return false;
    }
    match rule_named(machine, rule) {
        Some(rtl) => delays_by(rtl, machine, false, steps - 1),
        None => false,
    }
}

/// Whether a `delay` or a halt stands in an expression, the get and set rules put in place by which
/// it reads and sets, and those by which they do (docs/LANGUAGE.md, "Modes of expressions"). It is
/// told without memory. An expression that is large with its rules put in place is told by tables of
/// the machine's rules, of which the hardware has at most 512; only where it has more, which no
/// machine may have, is the time not bounded by them.
#[tactic(auto, using(crate::proofs::Reaching::whole_rules))]
pub fn delays(rtl: &Rtl, machine: &Machine) -> bool
    ensures { result ≡ spec.delays machine.now rtl.now }
{
    if delays_itself(rtl) {
        return true;
    }
    if left(rtl, machine, false, 64, 4096).is_some() {
        return false;
    }
    let hardware = machine.hardware.as_slice();
    if hardware.len() <= 256 {
        return needed_delay(machine, rtl);
    }
    delays_by(rtl, machine, false, 2 * hardware.len())
}
