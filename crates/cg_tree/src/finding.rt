ghost use Rattle.std.specs.Prelude.{◌≡◌, ◌+◌, ◌≤◌, length};
ghost use Rattle.std.specs.List.{find};
ghost use Rattle.cg_code.specs.Coded.{matches_at};
ghost use Rattle.cg_model.specs.Clashing.{decoded_to};
ghost use Rattle.cg_model.specs.Sound.{IsSound};
ghost use Rattle.cg_tree.specs.Finding as spec;
ghost use Rattle.cg_tree.specs.Counted.{risen};
ghost use Rattle.cg_code_mask.specs.View.{whole};

use crate::branch::reach;
use crate::steps::Steps;
use crate::tree::Tree;
use cg_code::matches;
use cg_code_mask::whole_of;
use cg_model::Machine;

impl Tree<'_> {
    /// The bytes lead to one leaf (docs/LANGUAGE.md, "The decision tree"); of the instructions that it
    /// lists this is the first that the machine has and that matches, None exactly where there is
    /// none. The tree may be another machine's. By a tight tree of this machine it is what the bytes
    /// are decoded to. Each bit tested and each listed number tried, be it the machine's or not, is
    /// one step: at most 128 bits, and no more numbers than the leaf lists. It takes no memory.
    #[tactic(auto, using(crate::proofs::Finds::finding))]
    pub fn find(&self, machine: &Machine, bytes: &[u8], steps: &mut Steps) -> Option<u16>
        requires sound { IsSound machine.now }
        ensures first { result ≡ spec.found self.now machine.now bytes.now }
        ensures decoded { spec.IsTight self.now machine.now → result ≡ decoded_to machine.now bytes.now }
        ensures ticked { steps.new.count ≡ risen steps.old.count (spec.steps_for self.now machine.now bytes.now) }
        ensures bits { spec.tests_for self.now bytes.now ≤ 128 }
        ensures candidates { spec.tried machine.now bytes.now (spec.leaf_for self.now bytes.now) ≤ length (spec.leaf_for self.now bytes.now) }
    {
        let candidates = reach(&self.root, front_of(bytes), steps);
        first_match(machine, candidates, bytes, steps)
    }
}

/// Bytes as one number of 128 bits, the first byte the highest. Those past the 16th don't count.
fn front_of(bytes: &[u8]) -> u128
    ensures { result ≡ whole bytes.now }
{
    whole_of(&bytes[..bytes.len().min(16)])
}

/// Whether the machine has the instruction of a number, and it matches.
fn is_match(machine: &Machine, k: u16, bytes: &[u8]) -> bool
    requires { IsSound machine.now }
    ensures { result ≡ matches_at machine.now k bytes.now }
{
    match machine.insns.get(k as usize) {
        Some(_) => matches(machine, k, bytes),
        None => false,
    }
}

/// The first of some candidates that the machine has and that matches. Each that is tried is a step.
#[tactic(auto, using(crate::proofs::Trying::trying))]
fn first_match(
    machine: &Machine,
    candidates: &[u16],
    bytes: &[u8],
    steps: &mut Steps,
) -> Option<u16>
    requires sound { IsSound machine.now }
    ensures first { result ≡ find (λ k. matches_at machine.now k bytes.now) candidates.now }
    ensures ticked { steps.new.count ≡ risen steps.old.count (spec.tried machine.now bytes.now candidates.now) }
{
    for k in candidates {
        steps.tick();
        if is_match(machine, *k, bytes) {
            return Some(*k);
        }
    }
    None
}
