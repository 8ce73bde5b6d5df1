ghost use Rattle.std.specs.Prelude.{◌≡◌, ◌≤◌, length, take, map};
ghost use Rattle.cg_model.specs.Covers.{AreInWords};
ghost use Rattle.cg_code_mask.specs.Constants.{AreFitting};
ghost use Rattle.cg_ambig.specs.Patterns.{pattern, HasPatterns};

use cg_ambig_pattern::Pattern;
use cg_code_mask::{constants_of, named};
use cg_model::{Insn, Machine};

/// What an instruction says of all bits.
pub fn pattern_of(machine: &Machine, insn: &Insn) -> Pattern
    requires placed { AreInWords machine.now }
    requires fitting { AreFitting machine.now insn.now.parts }
    ensures { result ≡ pattern machine.now insn.now }
{
    let constants = constants_of(machine, insn);
    let asked = match &insn.assertion {
        Some(rule) => named(machine, rule),
        None => 0,
    };
    Pattern {
        decodable: insn.decodable,
        cover: constants.cover,
        value: constants.value,
        named: asked,
    }
}

/// Puts what the instructions say in front of `patterns`.
#[tactic(auto, using(crate::proofs::Filling::filling))]
pub fn fill(machine: &Machine, patterns: &mut [Pattern])
    requires sound { HasPatterns machine.now }
    requires room { length machine.now.insns ≤ length patterns.old }
    ensures { take (length machine.now.insns) patterns.new ≡ map (pattern machine.now) machine.now.insns }
{
    for (k, insn) in machine.insns.as_slice().iter().enumerate() {
        patterns[k] = pattern_of(machine, insn);
    }
}
