//! The machine of a name.

ghost use Rattle.std.specs.Prelude.{◌≡◌, Some, None, ⊤};
ghost use Rattle.std.specs.List.{filter_map};
ghost use Rattle.cg_base.specs.Answering.{Answered};
ghost use Rattle.cg_desc.specs.Answering as spec;
ghost use Rattle.cg_desc_elements.specs.E318.{selected_mach};
ghost use Rattle.cg_desc_elements.specs.Reading as reading;
ghost use Rattle.cg_model_faults.specs.Accepted.{IsAccepted};

use crate::judging::selected_machine;
use cg_attrs::MachForm;
use cg_base::{Fault, Forms, Stop, Text, Top, refusals, stop_at};
use cg_desc_data::Selection;
use cg_desc_elements::{Element, elements, selected_arch, selected_isa, selected_mach};
use cg_desc_names::Names;
use cg_model::Machine;
use std::alloc::Global;

/// What is answered where this `define-mach` is selected, the form of this number.
fn machine_at(
    alloc: Global,
    elements: &[Element],
    tops: &[Top],
    name: &Text,
    number: usize,
    mach: &MachForm,
) -> Result<Machine, Stop>
    requires alone { reading.first_refusal tops.now ≡ None }
    requires elements { elements.now ≡ filter_map reading.element_at tops.now }
    requires mach { selected_mach name.now elements.now ≡ Some (number, mach.now) }
    ensures answer { spec.GivesAt name.now elements.now tops.now number mach.now result }
    ensures accepted { Answered (λ machine. IsAccepted machine) (λ _. ⊤) result }
{
    let arch = selected_arch(elements, name);
    let isa = selected_isa(mach, arch);
    let names = Names::of(alloc, name, isa, elements)?;
    let selection = Selection {
        machine: name,
        form: number,
        mach,
        isa,
        elements,
        names: &names,
    };
    selected_machine(alloc, &selection, tops)
}

/// What is answered of elements and their forms.
fn machine_among(
    alloc: Global,
    elements: &[Element],
    tops: &[Top],
    name: &Text,
) -> Result<Machine, Stop>
    requires alone { reading.first_refusal tops.now ≡ None }
    requires elements { elements.now ≡ filter_map reading.element_at tops.now }
    ensures answer { spec.GivesMachine name.now elements.now tops.now result }
    ensures accepted { Answered (λ machine. IsAccepted machine) (λ _. ⊤) result }
{
    match selected_mach(elements, name) {
        Some((number, mach)) => machine_at(alloc, elements, tops, name, number, mach),
        None => {
            let fault = Fault {
                number: refusals::NO_MACHINE,
                text: name.as_slice(),
            };
            Err(stop_at(alloc, 0, 0, fault))
        }
    }
}

/// The machine of this name that expanded forms describe, where nothing is at fault in them, or else their
/// least refusal: that of the first form that is refused by itself; E318 where no `define-mach` of that name
/// is the machine's; then by form, by number and by place, first by names, counts and data and then by
/// modes; and last E501 at the second of the first two instructions that match the same bytes
/// (docs/REFUSALS.md). Such a machine is accepted in hand, so that its instructions may be matched and
/// encoded.
///
/// An error `Stop::NoMemory` is want of memory.
#[tactic(auto, using(crate::proofs::Answers::reading))]
pub fn machine(alloc: Global, forms: &Forms, name: &Text) -> Result<Machine, Stop>
    ensures answer { spec.GivesDescription name.now forms.now.tops result }
    ensures accepted { Answered (λ machine. IsAccepted machine) (λ _. ⊤) result }
{
    let elements = elements(alloc, forms)?;
    machine_among(alloc, elements.as_slice(), forms.tops.as_slice(), name)
}
