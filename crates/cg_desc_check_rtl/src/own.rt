ghost use Rattle.std.specs.Prelude.{◌≡◌};
ghost use Rattle.cg_base.specs.Refusing.{first};
ghost use Rattle.cg_base.specs.Modes.{mode_place};
ghost use Rattle.cg_model_faults.specs.Judging as spec;

use crate::walk::{NodeRule, first_in};
use cg_base::{Mode, mode_place, refusals};
use cg_model::{Op, Rtl};
use cg_model_faults::{MachineFault, Purpose, Said};

/// Whether an expression has a value of its own.
#[tactic(auto, unfolding(cg_model_faults::specs::Judging::has_value))]
fn has_value(purpose: Purpose) -> bool
    ensures { result ≡ spec.has_value purpose }
{
    match purpose {
        Purpose::Encode => true,
        Purpose::Decode => true,
        Purpose::Insert => true,
        _ => false,
    }
}

/// Whether it has an index.
#[tactic(auto, unfolding(cg_model_faults::specs::Judging::has_index))]
fn has_index(purpose: Purpose) -> bool
    ensures { result ≡ spec.has_index purpose }
{
    match purpose {
        Purpose::Get => true,
        Purpose::Set => true,
        _ => false,
    }
}

/// Whether it has a new value.
#[tactic(auto, unfolding(cg_model_faults::specs::Judging::has_new_value))]
fn has_new_value(purpose: Purpose) -> bool
    ensures { result ≡ spec.has_new_value purpose }
{
    match purpose {
        Purpose::Set => true,
        _ => false,
    }
}

/// The fault of a name, where its rule doesn't have it.
fn outside(has: bool, op: Op) -> Option<MachineFault>
    ensures { result ≡ first (spec.outside has op) }
{
    if has {
        return None;
    }
    Some(MachineFault {
        number: refusals::OUTSIDE_RULE,
        place: 0,
        text: Said::Name(op),
        other: Said::Nothing,
    })
}

/// The rule that a value, an index and a new value are named in their own rules alone.
#[derive(Drop)]
struct Belonging {
    purpose: Purpose,
}

impl NodeRule for Belonging {
    ghost faults = { λ r. spec.outside_at r.purpose };

    #[tactic(auto, unfolding(cg_model_faults::specs::Judging::outside_at))]
    fn first_at(&self, rtl: &Rtl) -> Option<MachineFault> {
        match rtl.op {
            Op::Value => outside(has_value(self.purpose), Op::Value),
            Op::Index => outside(has_index(self.purpose), Op::Index),
            Op::NewVal => outside(has_new_value(self.purpose), Op::NewVal),
            _ => None,
        }
    }
}

/// E405: an expression names a value, an index or a new value outside of its rule.
pub fn first_outside(purpose: Purpose, rtl: &Rtl) -> Option<MachineFault>
    ensures { result ≡ first (spec.outside_rules purpose rtl.now) }
{
    first_in(&Belonging { purpose }, rtl)
}

/// Whether a mode is another one.
fn has_other(mode: Option<Mode>, own: Option<Mode>) -> bool
    ensures { result ≡ spec.has_other mode own }
{
    match mode {
        None => own.is_some(),
        Some(mode) => match own {
            None => true,
            Some(own) => mode_place(mode) != mode_place(own),
        },
    }
}

/// The fault of a value that stands in a mode, where its own is another one.
fn other(own: Option<Mode>, mode: Option<Mode>) -> Option<MachineFault>
    ensures { result ≡ first (spec.other own mode) }
{
    if has_other(mode, own) {
        return Some(MachineFault {
            number: refusals::WRONG_MODE,
            place: 0,
            text: Said::Own,
            other: Said::Nothing,
        });
    }
    None
}

/// The rule that a value stands in its own mode.
#[derive(Drop)]
struct OwnMode {
    own: Option<Mode>,
}

impl NodeRule for OwnMode {
    ghost faults = { λ r. spec.other_at r.own };

    #[tactic(auto, unfolding(cg_model_faults::specs::Judging::other_at))]
    fn first_at(&self, rtl: &Rtl) -> Option<MachineFault> {
        match rtl.op {
            Op::Value => other(self.own, rtl.mode),
            Op::NewVal => other(self.own, rtl.mode),
            _ => None,
        }
    }
}

/// E402: a value or a new value stands in another mode than its own.
pub fn first_other_mode(own: Option<Mode>, rtl: &Rtl) -> Option<MachineFault>
    ensures { result ≡ first (spec.other_modes own rtl.now) }
{
    first_in(&OwnMode { own }, rtl)
}
