ghost use Rattle.std.specs.Prelude.{◌≡◌, None};
ghost use Rattle.cg_model.specs.Formed.{IsFormed};
ghost use Rattle.cg_model.specs.Sound.{IsSound};
ghost use Rattle.cg_model_faults.specs.Accepted.{IsAccepted};
ghost use Rattle.cg_model_faults.specs.Refusing.{first_refusal};

use cg_model::Machine;

/// A law of the definitions (docs/REFUSALS.md, "Faults of a machine"): a machine whose values are allowed,
/// and of which no element is refused, is sound, so that its instructions may be matched and encoded.
#[tactic(auto, using(crate::proofs::Whole::faultless))]
pub fn faultless_is_sound(machine: &Machine)
    requires formed { IsFormed machine.now }
    requires clear { first_refusal machine.now ≡ None }
    ensures { IsSound machine.now }
{}

/// The same of a machine that is accepted.
#[tactic(auto, using(crate::proofs::Whole::accepted))]
pub fn accepted_is_sound(machine: &Machine)
    requires { IsAccepted machine.now }
    ensures { IsSound machine.now }
{}
