ghost use Rattle.std.specs.Prelude.{◌≡◌, IfOk};
ghost use Rattle.cg_model_faults.specs.Accepted.{IsAccepted};
ghost use Rattle.cg_top.specs.Replies.{listed};

use crate::asking::Listing;
use crate::lines::lines_of;
use crate::replies::Reply;
use bumpalo::Bump;
use cg_base::NoMemory;
use cg_list::list;
use cg_model::Machine;
use cg_model_laws::accepted_is_sound;
use cg_syntax::accepted_is_ready;
use cg_syntax_choose::Index;
use cg_tree::build;
use std::alloc::Global;

/// What is answered of an image: its listing, by the machine's decision tree, line by line.
pub fn listed(
    alloc: Global,
    machine: &Machine,
    it: &Listing,
    image: &[u8],
) -> Result<Reply, NoMemory>
    requires { IsAccepted machine.now }
    ensures { IfOk result (λ answer. answer ≡ listed it.now machine.now image.now) }
{
    accepted_is_sound(machine);
    accepted_is_ready(machine);
    let index = Index::build(alloc, machine)?;
    let arena = Bump::new(alloc);
    let tree = build(alloc, &arena, machine)?;
    let text = list(alloc, machine, &index, &tree, it.base, image)?;
    Ok(Reply {
        status: 0,
        lines: lines_of(alloc, text.as_slice())?,
        file: None,
    })
}
