ghost use Rattle.std.specs.Prelude.{◌≡◌, None};
ghost use Rattle.cg_desc_laws.specs.InHand.{AreWithin};
ghost use Rattle.cg_model_faults.specs.Refusing.{first_refusal};
ghost use Rattle.cg_desc_laws.specs.Numbered.{AreNumbered};
ghost use Rattle.cg_desc_laws.specs.Clear.{AreClear};

use cg_model::Machine;

/// A law of the definitions: a machine in hand isn't refused for an element where nothing is said of it by
/// its counts, by its numbers outside of expressions, and by its expressions, bits and slots
/// (docs/REFUSALS.md).
#[tactic(auto, using(crate::proofs::UnrefusedJoined::joining_law))]
pub fn no_element_is_refused(machine: &Machine)
    requires within { AreWithin machine.now }
    requires numbered { AreNumbered machine.now }
    requires clear { AreClear machine.now }
    ensures { first_refusal machine.now ≡ None }
{}
