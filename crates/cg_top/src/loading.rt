ghost use Rattle.std.specs.Prelude.{⊤};
ghost use Rattle.cg_base.specs.Answering.{Answered};
ghost use Rattle.cg_model_faults.specs.Accepted.{IsAccepted};
ghost use Rattle.cg_top.specs.Loading.{Loads};

use cg_base::{Forms, Stop, Text};
use cg_desc::machine;
use cg_model::Machine;
use cg_pmacro::expand;
use std::alloc::Global;

/// The machine of this name that the forms describe once their macros are expanded
/// (docs/REFUSALS.md: the faults of expansion, and then those of the expanded forms, the least
/// first). It is accepted.
#[tactic(auto, using(crate::proofs::Loaded::loading))]
pub fn load(alloc: Global, forms: &Forms, name: &Text) -> Result<Machine, Stop>
    ensures answer { Loads forms.now name.now result }
    ensures accepted { Answered (λ machine. IsAccepted machine) (λ _. ⊤) result }
{
    let expanded = expand(alloc, forms)?;
    machine(alloc, &expanded, name)
}
