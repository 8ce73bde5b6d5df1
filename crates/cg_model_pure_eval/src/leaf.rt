ghost use Rattle.std.specs.Prelude.{◌≡◌, true};
ghost use Rattle.cg_model.specs.declared.rtl.Op.TheVariants as op;
ghost use Rattle.cg_model.specs.declared.rtl.Rtl.{out-Rtl};
ghost use Rattle.cg_model_pure_eval.specs.Seen.{all_had};
ghost use Rattle.cg_model_pure_eval.specs.Typed.{Fits};
ghost use Rattle.cg_model_pure_eval.specs.Typing.{typed, has_no_value, number_verdict, fits_verdict, HasMode, IsMode};

use crate::around::Around;
use crate::typed::{Answer, Typed};
use crate::words;
use cg_base::Mode;
use cg_model::{Machine, Rtl};
use cg_modes::mode_within;
use cg_modes_leaf::verdict::{Verdict, fits};

/// The mode of a number.
#[tactic(auto, unfolding(crate::specs::Typing::number_verdict))]
fn number_mode(rtl: &Rtl, machine: &Machine, want: Option<Mode>) -> Verdict
    ensures mode { result ≡ number_verdict machine.now rtl.now want }
    ensures bits { HasMode result }
{
    cg_modes_leaf::leaf::number(machine, rtl.mode, want, rtl.number)
}

/// Whether a number stands in a mode.
#[tactic(auto, unfolding(crate::specs::Typing::fits_verdict))]
pub fn fits_mode(rtl: &Rtl, mode: Mode) -> Verdict
    ensures mode { result ≡ fits_verdict mode rtl.now }
    ensures bits { HasMode result }
    ensures same { IsMode result mode }
{
    fits(mode, rtl.number)
}

/// A number.
#[tactic(auto, using(crate::proofs::Typings::typing_rules))]
pub fn number<A: Around>(rtl: &Rtl, machine: &Machine, _around: &A, want: Option<Mode>) -> Answer
    requires op { (out-Rtl rtl.now).op ≡ op.Number }
    ensures value { result ≡ typed machine.now (A.seen _around.now machine.now).around rtl.now want }
    ensures fits { Fits result }
{
    let mode = number_mode(rtl, machine, want)?;
    Ok(words::number(mode, rtl))
}

/// The rule's own value.
#[tactic(auto, using(crate::proofs::Typings::leaf_laws, crate::proofs::Laws::leaf_rules))]
pub fn value<A: Around>(rtl: &Rtl, machine: &Machine, around: &A, want: Option<Mode>) -> Answer
    requires op { (out-Rtl rtl.now).op ≡ op.Value }
    requires had { all_had machine.now (A.seen around.now machine.now) rtl.now ≡ true }
    ensures value { result ≡ typed machine.now (A.seen around.now machine.now).around rtl.now want }
    ensures fits { Fits result }
{
    let mode = mode_within(machine, rtl, want)?;
    Ok(Typed {
        mode,
        value: around.value(machine),
    })
}

/// The pc.
#[tactic(auto, using(crate::proofs::Typings::leaf_laws, crate::proofs::Laws::leaf_rules))]
pub fn pc<A: Around>(rtl: &Rtl, machine: &Machine, around: &A, want: Option<Mode>) -> Answer
    requires op { (out-Rtl rtl.now).op ≡ op.Pc }
    requires had { all_had machine.now (A.seen around.now machine.now) rtl.now ≡ true }
    ensures value { result ≡ typed machine.now (A.seen around.now machine.now).around rtl.now want }
    ensures fits { Fits result }
{
    let mode = mode_within(machine, rtl, want)?;
    Ok(Typed {
        mode,
        value: around.pc(machine),
    })
}

/// The value of a field.
#[tactic(auto, using(crate::proofs::Typings::leaf_laws, crate::proofs::Laws::leaf_rules))]
pub fn field<A: Around>(rtl: &Rtl, machine: &Machine, around: &A, want: Option<Mode>) -> Answer
    requires ready { A.ready around.now machine.now }
    requires op { (out-Rtl rtl.now).op ≡ op.FieldRef }
    requires had { all_had machine.now (A.seen around.now machine.now) rtl.now ≡ true }
    ensures value { result ≡ typed machine.now (A.seen around.now machine.now).around rtl.now want }
    ensures fits { Fits result }
{
    let mode = mode_within(machine, rtl, want)?;
    Ok(Typed {
        mode,
        value: around.field(machine, rtl.number),
    })
}

/// The value of a multi field.
#[tactic(auto, using(crate::proofs::Typings::leaf_laws, crate::proofs::Laws::leaf_rules))]
pub fn multi<A: Around>(rtl: &Rtl, machine: &Machine, around: &A, want: Option<Mode>) -> Answer
    requires ready { A.ready around.now machine.now }
    requires op { (out-Rtl rtl.now).op ≡ op.MultiRef }
    requires had { all_had machine.now (A.seen around.now machine.now) rtl.now ≡ true }
    ensures value { result ≡ typed machine.now (A.seen around.now machine.now).around rtl.now want }
    ensures fits { Fits result }
{
    let mode = mode_within(machine, rtl, want)?;
    Ok(Typed {
        mode,
        value: around.multi(machine, rtl.number),
    })
}

/// What has no value among pure expressions.
#[tactic(auto, using(crate::proofs::Typings::leaf_laws))]
pub fn nothing<A: Around>(rtl: &Rtl, machine: &Machine, _around: &A, want: Option<Mode>) -> Answer
    requires op { has_no_value (out-Rtl rtl.now).op ≡ true }
    ensures value { result ≡ typed machine.now (A.seen _around.now machine.now).around rtl.now want }
    ensures fits { Fits result }
{
    let mode = mode_within(machine, rtl, want)?;
    Ok(Typed { mode, value: 0 })
}
