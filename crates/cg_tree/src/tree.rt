ghost use Rattle.std.specs.Prelude.{◌≡◌, ◌≤◌};
ghost use Rattle.cg_tree.specs.Trees.{height, longest, size};

use crate::branch::{self, Branch};

/// A decision tree, in an arena that outlives it: a leaf with the numbers of some instructions, in
/// order, or a test of one bit of an instruction's bytes, with two trees (docs/LANGUAGE.md,
/// "The decision tree"). On each path to a leaf at most 128 bits are tested.
#[derive(Clone, Copy)]
pub struct Tree<'a> {
    pub(crate) root: Branch<'a>,
    pub(crate) nodes: u32,
    ghost low: { height root ≤ 128 },
    ghost all: { nodes ≡ size root },
}

impl Tree<'_> {
    /// How many nodes the tree has, leaves and tests.
    pub fn nodes(&self) -> u32
        ensures { result ≡ size self.now.root }
    {
        self.nodes
    }

    /// How many instructions the longest list of a leaf has.
    pub fn longest_leaf(&self) -> usize
        ensures { result ≡ longest self.now.root }
    {
        branch::longest(&self.root)
    }
}
