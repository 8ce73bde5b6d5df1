ghost use Rattle.std.specs.Prelude.{IfOk};
ghost use Rattle.cg_model.specs.Sound.{IsSound};
ghost use Rattle.cg_tree.specs.Finding.{IsTight};

use crate::growing::grow;
use crate::table::{decodables, table_of};
use crate::tree::Tree;
use bumpalo::Bump;
use cg_base::NoMemory;
use cg_model::Machine;
use std::alloc::Global;

/// The decision tree of a machine, in the arena (docs/LANGUAGE.md, "The decision tree"). It is tight:
/// each leaf lists just the decodable instructions whose constants don't contradict the tests on the
/// path to it, each test tells two candidates apart, and no leaf lists two that a constant bit tells
/// apart, unless two more nodes would pass 16 N + 1,024, N the machine's instructions. NoMemory where
/// memory runs out, in the arena or beside it.
pub fn build<'a>(alloc: Global, arena: &'a Bump, machine: &Machine) -> Result<Tree<'a>, NoMemory>
    requires { IsSound machine.now }
    ensures { IfOk result (λ tree. IsTight tree machine.now) }
{
    let table = table_of(alloc, machine)?;
    let candidates = decodables(alloc, machine)?;
    let room = 8 * machine.insns.len() as u32 + 511;
    let grown = grow(alloc, arena, table.as_slice(), candidates.as_slice(), room)?;
    Ok(Tree {
        root: grown.branch,
        nodes: 1 + 2 * (room - grown.room),
    })
}
