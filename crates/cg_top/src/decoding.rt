ghost use Rattle.std.specs.Prelude.{◌≡◌, IfOk};
ghost use Rattle.cg_list.specs.Decoding.{decoded_line};
ghost use Rattle.cg_model.specs.Sound.{IsSound};

use bumpalo::Bump;
use cg_base::{NoMemory, Text};
use cg_list::decode;
use cg_model::Machine;
use cg_tree::build;
use std::alloc::Global;

/// The line of what bytes are decoded to, which the machine's decision tree finds.
pub fn decoded(alloc: Global, machine: &Machine, bytes: &[u8]) -> Result<Text, NoMemory>
    requires { IsSound machine.now }
    ensures { IfOk result (λ line. line ≡ decoded_line machine.now bytes.now) }
{
    let arena = Bump::new(alloc);
    let tree = build(alloc, &arena, machine)?;
    Ok(decode(alloc, machine, &tree, bytes)?)
}
