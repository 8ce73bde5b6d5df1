ghost use Rattle.std.specs.Prelude.{◌≡◌, None};
ghost use Rattle.std.specs.List.{filter_map};
ghost use Rattle.cg_desc_data.specs.Seen.{seen};
ghost use Rattle.cg_desc_scope.specs.Described as description;
ghost use Rattle.cg_desc_scope.specs.Seen.{forms_of, seen_described};
ghost use Rattle.cg_desc_elements.specs.Reading.{element_at, first_refusal};
ghost use Rattle.cg_desc_fault_least.specs.Least.{by_elements};
ghost use Rattle.cg_desc_laws.specs.Meant.{AreMeant};
ghost use Rattle.cg_desc_machine.specs.Machines.{machine_of};
ghost use Rattle.cg_desc_machine.specs.Seen.{base};

use cg_base::Top;
use cg_desc_data::Selection;
use cg_desc_scope::Described;
use cg_model::Machine;
use cg_rtl_resolve::Scope;

/// A law of the definitions: where none of the forms is refused by itself, and none of those that take part
/// by its data or its modes, no expression of the description's machine has a fault in hand: by what it names
/// (E304, E306), by what may stand in it (E315), or by its modes (E401 to E406; docs/REFUSALS.md).
#[tactic(auto, using(crate::proofs::MeantWhole::meaning_law))]
pub fn expressions_are_meant(
    selection: &Selection,
    described: &Described,
    scope: &Scope,
    machine: &Machine,
    tops: &[Top],
)
    requires described { seen_described described.now ≡ description.described (seen selection.now) }
    requires scope { base scope.now ≡ description.whole_scope (seen selection.now) (forms_of tops.now) }
    requires machine { machine.now ≡ machine_of (seen_described described.now) (base scope.now) }
    requires alone { first_refusal tops.now ≡ None }
    requires elements { (seen selection.now).elements ≡ filter_map element_at tops.now }
    requires unsaid { by_elements (seen_described described.now) (base scope.now) machine.now tops.now ≡ None }
    ensures { AreMeant machine.now }
{}
