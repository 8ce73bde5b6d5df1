ghost use Rattle.std.specs.Prelude.{◌≡◌};
ghost use Rattle.cg_model.specs.Checked.{checked};
ghost use Rattle.cg_model.specs.Slots.{Named};
ghost use Rattle.cg_model_effects.specs.Effects.{Before, Rules, around, effect_meaning};

use cg_model::{Machine, Rtl};

/// A law of the definitions: what an expression does in turn is judged as the expression itself is. So
/// effects are had in the modes that the checker of modes finds.
#[tactic(auto, using(crate::proofs::Effects::effect_checked))]
pub fn effects_are_judged(machine: &Machine, rtl: &Rtl)
    ensures { (b : Before) (rules : Rules) (names : Named) → (effect_meaning (around machine.now b rules names) rtl.now).checked ≡ checked machine.now rtl.now }
{}
