ghost use Rattle.cg_pmacro_builtin.specs.Reports.{Leaves};
ghost use Rattle.cg_pmacro_expand.specs.Expansion.{charge as cost_of};

use cg_base::refusals;
use cg_pmacro_builtin::{Halt, Value, faulty, is_within, without_nodes};
use std::alloc::Global;

/// How deep lists may stand one within another in a result.
const LISTS: u32 = 200;

/// The result of a call, once its cost is taken from the units that are left.
pub fn charge(alloc: Global, name: &[u8], value: Value, left: &mut u64) -> Result<Value, Halt>
    ensures { Leaves (cost_of name.now value left.old) result left.new }
{
    let Some(before) = left.checked_sub(1) else {
        return Err(faulty(alloc, refusals::BUDGET_PASSED, b"4000000"));
    };
    let Some(rest) = without_nodes(&value, before) else {
        return Err(faulty(alloc, refusals::BUDGET_PASSED, b"4000000"));
    };
    if !is_within(&value, LISTS) {
        return Err(faulty(alloc, refusals::DEEP_EXPANSION, name));
    }
    *left = rest;
    Ok(value)
}
