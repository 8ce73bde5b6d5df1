ghost use Rattle.std.specs.Prelude.{◌≡◌};
ghost use Rattle.cg_model.specs.Placed as spec;
ghost use Rattle.cg_modes_leaf.specs.Counted.{left_of};

use crate::rules::{is_set, rule_of};
use cg_model::{Machine, Rtl};

/// What an expression leaves of a count of nodes, or None where it has more nodes or is deeper.
#[cycle(counting)]
#[tactic(auto, using(crate::proofs::Counting::count_rules))]
fn left(rtl: &Rtl, machine: &Machine, is_place: bool, depth: u8, count: u16) -> Option<u16>
    ensures { result ≡ left_of count (spec.nodes_to machine.now depth is_place rtl.now) }
{
    if depth == 0 || count == 0 {
        return None;
    }
    let items = rtl.items.as_slice();
    let count = left_by_items(items, machine, is_set(rtl), depth - 1, count - 1)?;
    match rule_of(rtl, machine, is_place) {
        Some(rule) => left(rule, machine, false, depth - 1, count),
        None => Some(count),
    }
}

/// What items leave of a count of nodes. The first may be a place.
#[cycle(counting)]
#[tactic(auto, using(crate::proofs::Counting::count_rules))]
fn left_by_items(
    items: &[Rtl],
    machine: &Machine,
    is_place: bool,
    depth: u8,
    count: u16,
) -> Option<u16>
    ensures { result ≡ left_of count (spec.nodes_of_items (spec.nodes_to machine.now depth) is_place items.now) }
{
    let mut rest = count;
    let mut place = is_place;
    for item in items {
        rest = left(item, machine, place, depth, rest)?;
        place = false;
    }
    Some(rest)
}

/// Whether an expression has at most 4,096 nodes and is at most 64 deep, rules put in place
/// (docs/LANGUAGE.md, "Modes of expressions").
#[tactic(auto, using(crate::proofs::Counting::small_is))]
pub fn is_small(machine: &Machine, rtl: &Rtl) -> bool
    ensures { result ≡ spec.small machine.now rtl.now }
{
    left(rtl, machine, false, 64, 4096).is_some()
}
