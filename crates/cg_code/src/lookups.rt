ghost use Rattle.std.specs.Prelude.{◌≡◌, ◌<◌, length, Some, slice_get, MatchOption, ⊤};
ghost use Rattle.std.specs.Option.{option_copied};
ghost use Rattle.cg_model.specs.Sound.{IsSound, SoundField, SoundMulti, SoundOperand, SoundInsn};

use cg_model::{Field, Insn, Machine, Multi, Operand};

/// The field of a number.
#[tactic(auto, using(crate::proofs::Soundness::found))]
pub(crate) fn field_at(machine: &Machine, k: u16) -> Option<&Field>
    requires { IsSound machine.now }
    ensures value { option_copied result ≡ slice_get machine.now.fields k }
    ensures sound { MatchOption result ⊤ (λ f. SoundField machine.now f.now) }
{
    machine.fields.get(k as usize)
}

/// The multi field of a number.
#[tactic(auto, using(crate::proofs::Soundness::found))]
pub(crate) fn multi_at(machine: &Machine, k: u16) -> Option<&Multi>
    requires { IsSound machine.now }
    ensures value { option_copied result ≡ slice_get machine.now.multis k }
    ensures sound { MatchOption result ⊤ (λ x. SoundMulti machine.now x.now) }
{
    machine.multis.get(k as usize)
}

/// The operand of a number.
#[tactic(auto, using(crate::proofs::Soundness::found))]
pub fn operand_at(machine: &Machine, k: u16) -> Option<&Operand>
    requires { IsSound machine.now }
    ensures value { option_copied result ≡ slice_get machine.now.operands k }
    ensures sound { MatchOption result ⊤ (λ o. SoundOperand machine.now o.now) }
{
    machine.operands.get(k as usize)
}

/// The instruction of a number.
#[tactic(auto, using(crate::proofs::Matched::instructions))]
pub fn insn_at(machine: &Machine, i: u16) -> &Insn
    requires sound { IsSound machine.now }
    requires within { i < length machine.now.insns }
    ensures at { slice_get machine.now.insns i ≡ Some result.now }
    ensures sound { SoundInsn machine.now result.now }
{
    &machine.insns.as_slice()[i as usize]
}
