ghost use Rattle.std.specs.Prelude.{◌≡◌, None};
ghost use Rattle.std.specs.List.{filter_map};
ghost use Rattle.cg_desc_data.specs.Seen.{seen};
ghost use Rattle.cg_desc_scope.specs.Described as description;
ghost use Rattle.cg_desc_scope.specs.Seen.{seen_described};
ghost use Rattle.cg_desc_elements.specs.Reading.{element_at, first_refusal};
ghost use Rattle.cg_desc_fault_least.specs.Least.{by_elements};
ghost use Rattle.cg_desc_names.specs.Table.{table_of};
ghost use Rattle.cg_model.specs.Formed.{IsFormed};
ghost use Rattle.cg_desc_machine.specs.Machines.{machine_of};
ghost use Rattle.cg_desc_machine.specs.Seen.{base};

use cg_base::Top;
use cg_desc_data::Selection;
use cg_desc_scope::Described;
use cg_model::Machine;
use cg_rtl_resolve::Scope;

/// A law of the definitions: where none of the forms is refused by itself, and none of those that take part
/// by its data or its modes, the machine of the description is formed, which means that its values are
/// those that a machine may have at all (docs/LANGUAGE.md, "Allowed values"). Names have to be looked up
/// among the elements that take part.
#[tactic(auto, using(crate::proofs::WholeWhole::whole))]
pub fn machine_is_formed(
    selection: &Selection,
    described: &Described,
    scope: &Scope,
    machine: &Machine,
    tops: &[Top],
)
    requires described { seen_described described.now ≡ description.described (seen selection.now) }
    requires alone { first_refusal tops.now ≡ None }
    requires elements { (seen selection.now).elements ≡ filter_map element_at tops.now }
    requires names { (seen selection.now).at ≡ table_of (seen selection.now).machine (seen selection.now).isa (seen selection.now).elements }
    requires unsaid { by_elements (seen_described described.now) (base scope.now) machine.now tops.now ≡ None }
    requires machine { machine.now ≡ machine_of (seen_described described.now) (base scope.now) }
    ensures { IsFormed machine.now }
{}
