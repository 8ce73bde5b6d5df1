ghost use Rattle.std.specs.Prelude.{◌≡◌, [], ◌∷◌};
ghost use Rattle.cg_model.specs.Checked.{checked, leading_choice, plain_choice};
ghost use Rattle.cg_model_pure_eval.specs.Typing.{lead_of};

use cg_base::Mode;
use cg_model::{Machine, Rtl};
use cg_modes::mode_within;
use cg_modes_leaf::verdict::{Verdict, is_loose, word};

/// The mode that leads where one operand has to agree with it.
#[tactic(auto, unfolding(crate::specs::Typing::lead_of), using(crate::proofs::Laws::lead_rules))]
pub fn leading_one(x: &Rtl, machine: &Machine, written: Option<Mode>, want: Option<Mode>) -> Verdict
    ensures { result ≡ lead_of machine.now written want (x.now ∷ []) }
{
    match written {
        Some(mode) => Ok(mode),
        None => {
            if is_loose(x) {
                Ok(want.unwrap_or(word(machine)))
            } else {
                mode_within(machine, x, want)
            }
        }
    }
}

/// The mode that leads where two operands have to agree.
#[tactic(auto, unfolding(crate::specs::Typing::lead_of), using(crate::proofs::Laws::lead_rules))]
pub fn leading_two(
    x: &Rtl,
    y: &Rtl,
    machine: &Machine,
    written: Option<Mode>,
    want: Option<Mode>,
) -> Verdict
    ensures operands { result ≡ lead_of machine.now written want (x.now ∷ y.now ∷ []) }
    ensures values { result ≡ leading_choice machine.now [] written want (plain_choice (checked machine.now x.now) ∷ plain_choice (checked machine.now y.now) ∷ []) }
{
    match written {
        Some(mode) => Ok(mode),
        None => {
            if !is_loose(x) {
                mode_within(machine, x, want)
            } else {
                leading_one(y, machine, None, want)
            }
        }
    }
}
