//! The instructions of a description.

ghost use Rattle.std.specs.Prelude.{◌≡◌, ◌++◌, IfOk, OnOk};
ghost use Rattle.std.specs.Option.{option_copied, option_map};
ghost use Rattle.cg_desc_names.specs.Table.{known};
ghost use Rattle.cg_desc_insns.specs.Expanded.{choices_put, instructions_in, instructions_at, expanded_from, expanded};
ghost use Rattle.cg_desc_insns.specs.E317.{form_over};

use crate::choices::anyofs_of;
use crate::written::written_of;
use cg_base::{List, NoMemory, Text};
use cg_desc_choices::{Written, each_choice};
use cg_desc_elements::Element;
use cg_desc_names::Names;
use cg_insn::InsnForm;
use std::alloc::Global;

/// Puts the instructions that one, as it is written, becomes at the end.
fn put_choices(
    alloc: Global,
    list: &mut List<Written>,
    names: &Names,
    elements: &[Element],
    written: &Written,
) -> Result<(), NoMemory>
    ensures { OnOk result (list.new ≡ list.old ++ choices_put (known names.now) elements.now written.now) }
{
    let anyofs = anyofs_of(alloc, names, elements, written.parts.as_slice())?;
    each_choice(alloc, list, anyofs.as_slice(), written)
}

/// Puts the instructions that the form of this number says at the end.
fn put_in(
    alloc: Global,
    list: &mut List<Written>,
    names: &Names,
    elements: &[Element],
    form: usize,
    element: &Element,
) -> Result<(), NoMemory>
    ensures { OnOk result (list.new ≡ list.old ++ instructions_in (known names.now) elements.now form element.now) }
{
    match element {
        Element::Insn(InsnForm::Instruction(instruction)) => {
            let written = written_of(alloc, names, elements, form, instruction)?;
            put_choices(alloc, list, names, elements, &written)
        }
        _ => Ok(()),
    }
}

/// The same, where the form's element takes part.
fn put_at(
    alloc: Global,
    list: &mut List<Written>,
    names: &Names,
    machine: &Text,
    isa: Option<&Text>,
    elements: &[Element],
    form: usize,
    element: &Element,
) -> Result<(), NoMemory>
    ensures { OnOk result (list.new ≡ list.old ++ instructions_at (known names.now) machine.now (option_copied isa.entry) elements.now form element.now) }
{
    if element.takes_part(machine, isa) {
        put_in(alloc, list, names, elements, form, element)
    } else {
        Ok(())
    }
}

/// The instructions of the machine that is selected with this instruction set, in the description's
/// order, with the names that it knows. One with anyof operands stands once for each way to choose for
/// them, the first operand's choices varying slowest; of more than 4,096 ways the first 4,097 stand
/// there. A part or a choice that isn't defined is left out (docs/LANGUAGE.md, "Choices").
#[tactic(auto, unfolding(crate::specs::Expanded::expanded))]
pub fn expanded(
    alloc: Global,
    names: &Names,
    machine: &Text,
    isa: Option<&Text>,
    elements: &[Element],
) -> Result<List<Written>, NoMemory>
    ensures { IfOk result (λ list. list ≡ expanded (known names.now) machine.now (option_copied isa.entry) elements.now) }
{
    let mut list = List::new(alloc);
    for (place, element) in elements.iter().enumerate() {
        put_at(
            alloc,
            &mut list,
            names,
            machine,
            isa,
            elements,
            place + 1,
            element,
        )?;
    }
    Ok(list)
}

/// The number of the form with which these instructions of a description are over 4,096, which is E317
/// there. None exactly where they aren't (docs/REFUSALS.md).
#[tactic(auto, unfolding(crate::specs::E317::form_over))]
pub fn form_over(written: &[Written]) -> Option<usize>
    ensures { result ≡ form_over written.now }
{
    match written.get(4096) {
        Some(instruction) => Some(instruction.form),
        None => None,
    }
}
