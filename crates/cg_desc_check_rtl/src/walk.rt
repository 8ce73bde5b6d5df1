ghost use Rattle.std.specs.Prelude.{◌≡◌};
ghost use Rattle.cg_base.specs.Refusing.{first};
ghost use Rattle.cg_model_faults.specs.Finding.{AtNode, in_nodes};
ghost use Rattle.cg_model.specs.declared.rtl.Rtl.{out-Rtl};

use cg_model::Rtl;
use cg_model_faults::MachineFault;

/// A rule that judges each node of an expression by itself.
pub trait NodeRule {
    /// The faults of a node.
    ghost faults: { Self → AtNode };

    /// The first fault of the outermost node.
    fn first_at(&self, rtl: &Rtl) -> Option<MachineFault>
        ensures { result ≡ first (faults self.now (out-Rtl rtl.now).op (out-Rtl rtl.now).mode (out-Rtl rtl.now).number) };
}

/// The first fault of an expression, from left to right.
#[tactic(auto, using(crate::proofs::Nodes::node_rules))]
pub fn first_in<R: NodeRule>(rule: &R, rtl: &Rtl) -> Option<MachineFault>
    ensures { result ≡ first (in_nodes (R.faults rule.now) rtl.now) }
{
    if let Some(fault) = rule.first_at(rtl) {
        return Some(fault);
    }
    for item in rtl.items.as_slice() {
        if let Some(fault) = first_in(rule, item) {
            return Some(fault);
        }
    }
    None
}
