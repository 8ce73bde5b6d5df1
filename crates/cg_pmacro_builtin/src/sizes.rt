ghost use Rattle.std.specs.Prelude.{◌≡◌, ◌-◌, ◌≤◌, ◌↔◌, IsTrue, SomeIff, IfOk};
ghost use Rattle.cg_pmacro_builtin.specs.Sizes.{nodes, lists, levels as how_deep};

use crate::body::Body;
use crate::value::{Node, Value};
use cg_base::NoMemory;

/// What is left of some units when the form's nodes are taken. None where they are too few.
#[tactic(auto, using(crate::proofs::Values::value_rules))]
pub fn without_nodes(value: &Value, left: u64) -> Option<u64>
    ensures { SomeIff result (nodes value.now ≤ left) (left - nodes value.now) }
{
    match &value.node {
        Node::Items(_, items) => {
            let mut rest = left.checked_sub(1)?;
            for item in items.as_ref().as_slice() {
                rest = without_nodes(item, rest)?;
            }
            Some(rest)
        }
        _ => left.checked_sub(1),
    }
}

/// Whether so many lists stand one within another in the form at most.
#[tactic(auto, using(crate::proofs::Values::value_rules))]
pub fn is_within(value: &Value, most: u32) -> bool
    ensures { IsTrue result ↔ (lists value.now ≤ most) }
{
    match &value.node {
        Node::Items(_, items) => {
            if most == 0 {
                return false;
            }
            for item in items.as_ref().as_slice() {
                if !is_within(item, most - 1) {
                    return false;
                }
            }
            true
        }
        _ => true,
    }
}

/// How many lists stand one within another in the form.
#[tactic(auto, using(crate::proofs::Values::value_rules))]
pub fn form_depth(value: &Value) -> Result<u64, NoMemory>
    ensures { IfOk result (λ depth. depth ≡ lists value.now) }
{
    match &value.node {
        Node::Items(_, items) => {
            let mut depth = 0;
            for item in items.as_ref().as_slice() {
                depth = form_depth(item)?.max(depth);
            }
            depth.checked_add(1).ok_or(NoMemory)
        }
        _ => Ok(0),
    }
}

/// How many lists stand one within another in the form, quoted leaves aside.
pub fn levels(body: &Body) -> Result<u64, NoMemory>
    ensures { IfOk result (λ depth. depth ≡ how_deep body.now) }
{
    match body {
        Body::Items(items) => {
            let mut depth = 0;
            for item in items.as_slice() {
                depth = levels(item)?.max(depth);
            }
            depth.checked_add(1).ok_or(NoMemory)
        }
        _ => Ok(0),
    }
}
