ghost use Rattle.cg_syntax_choose.specs.Indexing.{GivesAll};
ghost use Rattle.cg_model_faults.specs.Accepted.{IsAccepted};
ghost use Rattle.cg_syntax.specs.Laying.{HasBundleBit};

use cg_model::Machine;

/// A law of the definitions: where a machine is accepted, each of its macro instructions gives each slot of
/// the instruction that it emits, and its bundle field is one bit of the shortest instruction. So source for
/// it may be assembled.
#[tactic(auto, using(crate::proofs::ReadyLemmas::ready))]
pub fn accepted_is_ready(machine: &Machine)
    requires { IsAccepted machine.now }
    ensures given { GivesAll machine.now }
    ensures bundle { HasBundleBit machine.now }
{}
