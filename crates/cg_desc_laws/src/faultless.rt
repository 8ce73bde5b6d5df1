ghost use Rattle.std.specs.Prelude.{◌≡◌, None};
ghost use Rattle.std.specs.List.{filter_map};
ghost use Rattle.cg_desc_laws.specs.InHand.{IsChosen};
ghost use Rattle.cg_desc_data.specs.Seen.{seen};
ghost use Rattle.cg_desc_scope.specs.Described as description;
ghost use Rattle.cg_desc_scope.specs.Seen.{forms_of, seen_described};
ghost use Rattle.cg_desc_elements.specs.Reading as reading;
ghost use Rattle.cg_desc_fault_least.specs.Least.{by_elements};
ghost use Rattle.cg_model.specs.Formed.{IsFormed};
ghost use Rattle.cg_model_faults.specs.Refusing as refusing;
ghost use Rattle.cg_desc_machine.specs.Machines.{machine_of};
ghost use Rattle.cg_desc_machine.specs.Seen.{base};

use crate::counted::counts_are_kept;
use crate::fitted::elements_fit;
use crate::machine::machine_is_formed;
use crate::meant::expressions_are_meant;
use crate::numbered::numbers_name_elements;
use crate::unrefused::no_element_is_refused;
use cg_base::Top;
use cg_desc_data::Selection;
use cg_desc_scope::Described;
use cg_model::Machine;
use cg_rtl_resolve::Scope;

/// A law of the definitions: where none of the forms is refused by itself, and none of those that take part
/// by its data or its modes, the machine of the description is formed and isn't refused in hand for any of
/// its elements. So the rules that judge forms and those that judge a machine say the same of it
/// (docs/REFUSALS.md).
#[tactic(auto, using(crate::proofs::FaultlessClear::clearing))]
pub fn machine_is_faultless(
    selection: &Selection,
    described: &Described,
    scope: &Scope,
    machine: &Machine,
    tops: &[Top],
)
    requires described { seen_described described.now ≡ description.described (seen selection.now) }
    requires scope { base scope.now ≡ description.whole_scope (seen selection.now) (forms_of tops.now) }
    requires machine { machine.now ≡ machine_of (seen_described described.now) (base scope.now) }
    requires alone { reading.first_refusal tops.now ≡ None }
    requires elements { (seen selection.now).elements ≡ filter_map reading.element_at tops.now }
    requires unsaid { by_elements (seen_described described.now) (base scope.now) machine.now tops.now ≡ None }
    requires chosen { IsChosen (seen selection.now) }
    ensures formed { IsFormed machine.now }
    ensures faultless { refusing.first_refusal machine.now ≡ None }
{
    machine_is_formed(selection, described, scope, machine, tops);
    counts_are_kept(selection, described, scope, machine, tops);
    numbers_name_elements(selection, described, scope, machine, tops);
    elements_fit(selection, described, scope, machine, tops);
    expressions_are_meant(selection, described, scope, machine, tops);
    no_element_is_refused(machine);
}
