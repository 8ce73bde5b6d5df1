ghost use Rattle.std.specs.Prelude.{◌≡◌};
ghost use Rattle.cg_model.specs.Checked.{checked};
ghost use Rattle.cg_model.specs.Pure.{Around, pure_meaning};

use crate::{Machine, Rtl};

/// A law of the definitions: what an expression gives at once is judged as the expression itself is. So
/// values are had in the modes that the checker of modes finds.
#[tactic(auto, using(crate::proofs::Meanings::pure_checked))]
pub fn values_are_judged(machine: &Machine, rtl: &Rtl)
    ensures { (a : Around) → (pure_meaning machine.now a rtl.now).checked ≡ checked machine.now rtl.now }
{}
