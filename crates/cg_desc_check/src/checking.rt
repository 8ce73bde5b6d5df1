ghost use Rattle.std.specs.Prelude.{◌≡◌, None, ⊤};
ghost use Rattle.cg_base.specs.Answering.{Answered};
ghost use Rattle.cg_model.specs.Formed.{IsFormed};
ghost use Rattle.cg_model_faults.specs.Refusing as spec;

use crate::clash::clash_refusal;
use cg_ambig::first_clash;
use cg_base::Stop;
use cg_desc_check_machine::first_refusal;
use cg_model::Machine;
use cg_model_laws::faultless_is_sound;
use std::alloc::Global;

/// The same of a machine of which nothing but a clash may be wrong.
#[tactic(auto, using(crate::proofs::Answering::answering))]
fn check_clash(alloc: Global, machine: &Machine) -> Result<(), Stop>
    requires formed { IsFormed machine.now }
    requires clear { spec.first_refusal machine.now ≡ None }
    ensures { Answered (λ _. spec.IsFaultless machine.now) (spec.Refuses machine.now) result }
{
    faultless_is_sound(machine);
    match first_clash(machine) {
        Some(clash) => Err(Stop::Refused(clash_refusal(alloc, machine, &clash)?)),
        None => Ok(()),
    }
}

/// The same of any machine whose values are allowed.
#[tactic(auto, using(crate::proofs::Answering::answering))]
fn judged(alloc: Global, machine: &Machine) -> Result<(), Stop>
    requires { IsFormed machine.now }
    ensures { Answered (λ _. spec.IsFaultless machine.now) (spec.Refuses machine.now) result }
{
    match first_refusal(alloc, machine)? {
        Some(refusal) => Err(Stop::Refused(refusal)),
        None => Ok(check_clash(alloc, machine)?),
    }
}

/// Accepts a machine in hand, or refuses it (docs/REFUSALS.md, "Faults of a machine"). Its values must be
/// allowed, as those of a table that was read are. The refusal is the one for the first fault by its
/// elements' data, else by the modes of their expressions, else for the first two instructions that clash.
/// A machine is refused exactly where it is not faultless, but memory may run out.
#[tactic(auto, using(crate::proofs::Answering::refused_exactly))]
pub fn check(alloc: Global, machine: &Machine) -> Result<(), Stop>
    requires { IsFormed machine.now }
    ensures answer { Answered (λ _. spec.IsFaultless machine.now) (spec.Refuses machine.now) result }
    ensures exact { Answered (λ _. ⊤) (λ _. spec.IsFaultless machine.now → ⊥) result }
{
    judged(alloc, machine)
}
