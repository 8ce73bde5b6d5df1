ghost use Rattle.std.specs.Prelude.{◌≡◌, None};
ghost use Rattle.std.specs.List.{filter_map};
ghost use Rattle.cg_desc_data.specs.Seen.{seen};
ghost use Rattle.cg_desc_scope.specs.Described as description;
ghost use Rattle.cg_desc_scope.specs.Seen.{forms_of, seen_described};
ghost use Rattle.cg_desc_elements.specs.Reading.{element_at, first_refusal};
ghost use Rattle.cg_desc_fault_least.specs.Least.{by_elements};
ghost use Rattle.cg_desc_laws.specs.InHand.{IsChosen, AreWithin, AreKnown};
ghost use Rattle.cg_desc_machine.specs.Machines.{machine_of};
ghost use Rattle.cg_desc_machine.specs.Seen.{base};

use cg_base::Top;
use cg_desc_data::Selection;
use cg_desc_scope::Described;
use cg_model::Machine;
use cg_rtl_resolve::Scope;

/// A law of the definitions: where none of the forms is refused by itself, and none of those that take part
/// by its data or its modes, the description's machine isn't refused in hand for what is counted (E308), for
/// rules that need themselves (E314), nor for the number of its instructions (E317); its sizes are known, and
/// its operands and slots have numbers (docs/REFUSALS.md).
#[tactic(auto, using(crate::proofs::CountedWhole::counts_law))]
pub fn counts_are_kept(
    selection: &Selection,
    described: &Described,
    scope: &Scope,
    machine: &Machine,
    tops: &[Top],
)
    requires described { seen_described described.now ≡ description.described (seen selection.now) }
    requires scope { base scope.now ≡ description.whole_scope (seen selection.now) (forms_of tops.now) }
    requires machine { machine.now ≡ machine_of (seen_described described.now) (base scope.now) }
    requires alone { first_refusal tops.now ≡ None }
    requires elements { (seen selection.now).elements ≡ filter_map element_at tops.now }
    requires unsaid { by_elements (seen_described described.now) (base scope.now) machine.now tops.now ≡ None }
    requires chosen { IsChosen (seen selection.now) }
    ensures within { AreWithin machine.now }
    ensures known { AreKnown (seen_described described.now) }
{}
