//! The selected machine, its arch and its instruction set.

ghost use Rattle.std.specs.Prelude.{◌≡◌};
ghost use Rattle.std.specs.Option.{option_copied, option_map};
ghost use Rattle.cg_base.specs.Refusing.{first};
ghost use Rattle.cg_desc_elements.specs.E318.{mach_in, selected_mach, arch_in, selected_arch, isas_of, selected_isa};

use crate::belonging::belongs_to_machine;
use crate::element::Element;
use cg_attrs::{ArchForm, Frame, MachForm};
use cg_base::Text;

/// A `define-mach` of this name that belongs to the machine.
fn mach_in<'a>(machine: &Text, element: &'a Element) -> Option<&'a MachForm>
    ensures { option_copied result ≡ mach_in machine.now element.now }
{
    match element {
        Element::Frame(Frame::Mach(form)) => {
            if form.name == *machine && belongs_to_machine(machine, form.attrs.as_slice()) {
                Some(form)
            } else {
                None
            }
        }
        _ => None,
    }
}

/// The selected machine: the first `define-mach` of this name that belongs to it, with the number of
/// its form, counted from 1. None exactly where there is none, which is E318 (docs/REFUSALS.md).
pub fn selected_mach<'a>(elements: &'a [Element], machine: &Text) -> Option<(usize, &'a MachForm)>
    ensures { option_map (λ x. (x.0, x.1.now)) result ≡ selected_mach machine.now elements.now }
{
    for (place, element) in elements.iter().enumerate() {
        if let Some(form) = mach_in(machine, element) {
            return Some((place + 1, form));
        }
    }
    None
}

/// A `define-arch` that belongs to the machine.
fn arch_in<'a>(machine: &Text, element: &'a Element) -> Option<&'a ArchForm>
    ensures { option_copied result ≡ arch_in machine.now element.now }
{
    match element {
        Element::Frame(Frame::Arch(form)) => {
            if belongs_to_machine(machine, form.attrs.as_slice()) {
                Some(form)
            } else {
                None
            }
        }
        _ => None,
    }
}

/// The machine's arch: the first `define-arch` that belongs to it.
pub fn selected_arch<'a>(elements: &'a [Element], machine: &Text) -> Option<&'a ArchForm>
    ensures { option_copied result ≡ selected_arch machine.now elements.now }
{
    for element in elements {
        if let Some(form) = arch_in(machine, element) {
            return Some(form);
        }
    }
    None
}

/// The instruction sets of a machine: those that it names, or its arch's where it names none.
pub fn isas_of<'a>(mach: &'a MachForm, arch: Option<&'a ArchForm>) -> &'a [Text]
    ensures { result.now ≡ isas_of mach.now (option_copied arch.entry) }
{
    match &mach.isas {
        Some(isas) => isas.as_slice(),
        None => match arch {
            Some(arch) => arch.isas.as_slice(),
            None => &[],
        },
    }
}

/// The instruction set that a machine is selected with: the first of its instruction sets.
pub fn selected_isa<'a>(mach: &'a MachForm, arch: Option<&'a ArchForm>) -> Option<&'a Text>
    ensures { option_copied result ≡ selected_isa mach.now (option_copied arch.entry) }
{
    isas_of(mach, arch).first()
}
