ghost use Rattle.std.specs.Prelude.{◌≡◌, IfOk};
ghost use Rattle.std.specs.List.{filter};
ghost use Rattle.cg_tree.specs.Candidates as spec;
ghost use Rattle.cg_tree.specs.Growing.{IsGrown};

use crate::asking::next_bit;
use crate::branch::{Branch, fork, leaf};
use crate::table::{agrees, constant_at};
use bumpalo::Bump;
use cg_base::{List, NoMemory};
use cg_code_mask::Constants;
use std::alloc::Global;

/// A tree, and how many leaves more may be parted.
#[derive(Clone, Copy)]
pub(crate) struct Grown<'a> {
    pub(crate) branch: Branch<'a>,
    pub(crate) room: u32,
}

/// Those candidates that may have this for a bit, in order.
fn agreeing(
    alloc: Global,
    table: &[Constants],
    candidates: &[u16],
    bit: u8,
    answer: bool,
) -> Result<List<u16>, NoMemory>
    ensures { IfOk result (λ list. list ≡ filter (λ k. spec.agrees (spec.constant_at table.now k bit) answer) candidates.now) }
{
    let mut list = List::new(alloc);
    for k in candidates {
        if agrees(constant_at(table, *k, bit), answer) {
            list.push(*k)?;
        }
    }
    Ok(list)
}

/// Grows a tree over some candidates: a leaf where no bit tells two of them apart or `room` is 0,
/// else a test with a tree over those that may have a 0 there, and one over those that may have a 1.
/// Each test takes 1 from `room`.
pub(crate) fn grow<'a>(
    alloc: Global,
    arena: &'a Bump,
    table: &[Constants],
    candidates: &[u16],
    room: u32,
) -> Result<Grown<'a>, NoMemory>
    ensures { IfOk result (λ g. IsGrown table.now candidates.now room g.branch g.room) }
{
    match next_bit(table, candidates, room) {
        Some(bit) => {
            let clear = agreeing(alloc, table, candidates, bit, false)?;
            let set = agreeing(alloc, table, candidates, bit, true)?;
            let low = grow(alloc, arena, table, clear.as_slice(), room - 1)?;
            let high = grow(alloc, arena, table, set.as_slice(), low.room)?;
            Ok(Grown {
                branch: fork(arena, bit, low.branch, high.branch)?,
                room: high.room,
            })
        }
        None => Ok(Grown {
            branch: leaf(arena, candidates)?,
            room,
        }),
    }
}
