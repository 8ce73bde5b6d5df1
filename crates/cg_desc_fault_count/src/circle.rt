//! E314.

ghost use Rattle.std.specs.Prelude.{◌≡◌, IfOk};
ghost use Rattle.cg_base.specs.Refusing.{first};
ghost use Rattle.cg_desc_fault_count.specs.E314 as spec;
ghost use Rattle.cg_desc_fault_report.specs.Subject.{described_in, machine_in, element_in};

use cg_base::NoMemory;
use cg_desc_check_rtl::first_circular as circular;
use cg_desc_elements::Element;
use cg_desc_fault_report::{Saying, Subject, fault_said};
use cg_hw::HardwareForm;
use cg_model::Machine;
use std::alloc::Global;

/// The same of the hardware of a number, which has this name.
#[tactic(auto, using(cg_desc_fault_report::proofs::Firsts::first_rules))]
fn of_number(
    alloc: Global,
    machine: &Machine,
    own: &[u8],
    number: Option<u16>,
) -> Result<Option<Saying>, NoMemory>
    ensures { IfOk result (λ said. said ≡ first (spec.of_number machine.now own.now number)) }
{
    let number = match number {
        Some(number) => number as usize,
        None => return Ok(None),
    };
    match circular(alloc, machine, number)? {
        Some(fault) => Ok(Some(fault_said(alloc, machine, own, fault)?)),
        None => Ok(None),
    }
}

/// The same of the hardware of a form.
fn of_hardware(alloc: Global, of: &Subject, form: &HardwareForm) -> Result<Option<Saying>, NoMemory>
    ensures { IfOk result (λ said. said ≡ first (spec.of_hardware (described_in of.now) (machine_in of.now) form.now)) }
{
    let number = of.described.numbers.hardware.get(&form.name);
    of_number(alloc, of.machine, form.name.as_slice(), number)
}

/// What is said of E314 of a form: a get or set rule of hardware needs itself. None exactly where there is
/// none (docs/REFUSALS.md).
pub fn first_circular(alloc: Global, of: &Subject) -> Result<Option<Saying>, NoMemory>
    ensures { IfOk result (λ said. said ≡ first (spec.e314 (described_in of.now) (machine_in of.now) (element_in of.now))) }
{
    match of.element {
        Element::Hardware(form) => of_hardware(alloc, of, form),
        _ => Ok(None),
    }
}
