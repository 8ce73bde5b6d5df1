//! Which expressions are rules of fields, or assertions.

ghost use Rattle.std.specs.Prelude.{◌≡◌, true, MatchOption, ⊤, Some};
ghost use Rattle.cg_model.specs.Sound as spec;
ghost use Rattle.cg_model.specs.Sound.{IsRule, IsAssertion, Gives};
ghost use Rattle.tests_code.specs.Judged.{HasMode, IsRuleWhere};

use crate::allowed::{Allows, OfValue, Pure, all_allowed};
use cg_base::{Mode, bits};
use cg_model::{Machine, Rtl};
use cg_modes::mode_of;

/// The mode of a pure expression of which a mode may be wanted. None where it isn't pure, or has no
/// mode of some bits.
#[tactic(auto, using(crate::proofs::RuleLaws::pure_allowed))]
pub(crate) fn pure_mode(machine: &Machine, want: Option<Mode>, rtl: &Rtl) -> Option<Mode>
    ensures { MatchOption result ⊤ (λ k. HasMode machine.now want rtl.now k) }
{
    if !all_allowed(&Pure, rtl) {
        return None;
    }
    match mode_of(machine, rtl, want) {
        Ok(mode) if bits(mode) >= 1 => Some(mode),
        _ => None,
    }
}

/// Whether an expression is a rule of a mode, in which some may stand.
pub(crate) fn is_rule<A: Allows>(machine: &Machine, own: Mode, rule: &A, rtl: &Rtl) -> bool
    ensures { result ≡ true → IsRule machine.now own (A.allowed rule.now) rtl.now }
{
    match pure_mode(machine, Some(own), rtl) {
        Some(mode) => bits(mode) == bits(own) && all_allowed(rule, rtl),
        None => false,
    }
}

/// Whether an expression, where there is one, is a rule of one value of a mode.
pub(crate) fn is_rule_where(machine: &Machine, own: Mode, rtl: &Option<Rtl>) -> bool
    ensures { result ≡ true → IsRuleWhere machine.now own (spec.of_value own) rtl.now }
{
    match rtl {
        Some(rtl) => is_rule(machine, own, &OfValue { own }, rtl),
        None => true,
    }
}
