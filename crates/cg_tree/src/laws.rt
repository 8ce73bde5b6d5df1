ghost use Rattle.std.specs.Prelude.{ℕ, List, MatchOption};
ghost use Rattle.cg_model.specs.Clashing.{AreBytes, NoClash, decoded_to};
ghost use Rattle.cg_model.specs.Matching.{Decodes};
ghost use Rattle.cg_model.specs.Sound.{IsSound};
ghost use Rattle.cg_tree.specs.Decoding.{NoMatch};

use cg_model::Machine;

/// A law of the definitions (docs/LANGUAGE.md, "The decision tree"): in a machine without clash the
/// first decodable instruction that matches bytes is the only one, and where none is found none
/// matches.
#[tactic(auto, using(crate::proofs::Alone::decoded_alone))]
pub fn decoded_alone(machine: &Machine)
    requires sound { IsSound machine.now }
    requires clear { NoClash machine.now }
    ensures { (bytes : List ℕ) → AreBytes bytes → MatchOption (decoded_to machine.now bytes) (NoMatch machine.now bytes) (λ k. Decodes machine.now bytes k) }
{}
