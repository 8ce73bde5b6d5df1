ghost use Rattle.cg_model.specs.Sound.{IsSound};
ghost use Rattle.cg_ambig.specs.Strings.{SameOnStrings};

use cg_model::Machine;

/// A law of the definitions: the first clash among all byte strings is the first among few of them,
/// at most 65,536 for a pair (docs/LANGUAGE.md, "Encoding and matching"): those with the constants of
/// both in place, some setting of the bits that the two assertions name and no constant covers, and
/// 0 elsewhere.
#[tactic(auto, using(crate::proofs::Strings::same_on_strings))]
pub fn same_on_strings(machine: &Machine)
    requires { IsSound machine.now }
    ensures { SameOnStrings machine.now }
{}
