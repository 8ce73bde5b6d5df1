ghost use Rattle.std.specs.Prelude.{◌≡◌, None};
ghost use Rattle.std.specs.List.{filter_map};
ghost use Rattle.cg_desc_data.specs.Seen.{seen};
ghost use Rattle.cg_desc_scope.specs.Described as description;
ghost use Rattle.cg_desc_scope.specs.Seen.{seen_described};
ghost use Rattle.cg_desc_elements.specs.Reading.{element_at, first_refusal};
ghost use Rattle.cg_desc_fault_least.specs.Least.{by_elements};
ghost use Rattle.cg_desc_laws.specs.InHand.{IsChosen};
ghost use Rattle.cg_desc_laws.specs.Fitting.{AreFitting};
ghost use Rattle.cg_desc_machine.specs.Machines.{machine_of};
ghost use Rattle.cg_desc_machine.specs.Seen.{base};

use cg_base::Top;
use cg_desc_data::Selection;
use cg_desc_scope::Described;
use cg_model::Machine;
use cg_rtl_resolve::Scope;

/// A law of the definitions: where none of the forms is refused by itself, and none of those that take part
/// by its data or its modes, nothing is at fault in the bits and slots of the description's machine in hand:
/// each field has its place (E309), formats cover no bit twice (E310), constants fit (E311), slots are
/// delimited (E312), those of a syntax, a format and what is emitted are the same (E313), and the bundle
/// field is one bit of the first word that no format covers (E316).
pub fn elements_fit(
    selection: &Selection,
    described: &Described,
    scope: &Scope,
    machine: &Machine,
    tops: &[Top],
)
    requires described { seen_described described.now ≡ description.described (seen selection.now) }
    requires machine { machine.now ≡ machine_of (seen_described described.now) (base scope.now) }
    requires alone { first_refusal tops.now ≡ None }
    requires elements { (seen selection.now).elements ≡ filter_map element_at tops.now }
    requires unsaid { by_elements (seen_described described.now) (base scope.now) machine.now tops.now ≡ None }
    requires chosen { IsChosen (seen selection.now) }
    ensures { AreFitting machine.now }
{}
