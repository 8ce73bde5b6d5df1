ghost use Rattle.std.specs.Prelude.{◌≡◌, ◌≤◌, IfOk};
ghost use Rattle.cg_tree.specs.Counted.{risen};
ghost use Rattle.cg_tree.specs.Growing.{IsLeaf, IsFork};
ghost use Rattle.cg_tree.specs.Trees as spec;

use crate::bits::is_set;
use crate::steps::Steps;
use bumpalo::Bump;
use cg_base::NoMemory;

/// A decision tree, or a part of one.
#[derive(Clone, Copy)]
pub(crate) enum Branch<'a> {
    /// The numbers of the instructions that the bytes may be, in order.
    Leaf(&'a [u16]),
    /// A test of a bit, by its place among all 128, the lowest 0.
    Test {
        bit: u8,
        /// What stands where the bit is 0.
        clear: &'a Branch<'a>,
        /// What stands where the bit is 1.
        set: &'a Branch<'a>,
    },
}

/// The list of the leaf that all bits together lead to. Each bit that is tested is a step.
#[tactic(auto, using(crate::proofs::Shapes::walking))]
pub(crate) fn reach<'a>(branch: &Branch<'a>, whole: u128, steps: &mut Steps) -> &'a [u16]
    ensures reached { result.now ≡ spec.reached branch.now whole }
    ensures ticked { steps.new.count ≡ risen steps.old.count (spec.tests branch.now whole) }
    ensures low { spec.tests branch.now whole ≤ spec.height branch.now }
{
    match branch {
        Branch::Leaf(candidates) => candidates,
        Branch::Test { bit, clear, set } => {
            steps.tick();
            if is_set(whole, *bit) {
                reach(set, whole, steps)
            } else {
                reach(clear, whole, steps)
            }
        }
    }
}

/// How many instructions the longest list of a leaf has.
#[tactic(auto, using(crate::proofs::Shapes::lists))]
pub(crate) fn longest(branch: &Branch) -> usize
    ensures { result ≡ spec.longest branch.now }
{
    match branch {
        Branch::Leaf(candidates) => candidates.len(),
        Branch::Test { clear, set, .. } => longest(clear).max(longest(set)),
    }
}

/// A leaf in the arena.
#[tactic(auto, using(crate::proofs::Shapes::making))]
pub(crate) fn leaf<'a>(arena: &'a Bump, candidates: &[u16]) -> Result<Branch<'a>, NoMemory>
    ensures { IfOk result (λ b. IsLeaf b candidates.now) }
{
    let candidates: &'a [u16] = arena.try_alloc_slice_copy(candidates)?;
    Ok(Branch::Leaf(candidates))
}

/// A test of a bit, and what stands behind it, in the arena.
#[tactic(auto, using(crate::proofs::Shapes::making))]
pub(crate) fn fork<'a>(
    arena: &'a Bump,
    bit: u8,
    clear: Branch<'a>,
    set: Branch<'a>,
) -> Result<Branch<'a>, NoMemory>
    ensures { IfOk result (λ b. IsFork b bit clear.entry set.entry) }
{
    let clear: &'a Branch<'a> = arena.try_alloc(clear)?;
    let set: &'a Branch<'a> = arena.try_alloc(set)?;
    Ok(Branch::Test { bit, clear, set })
}
