//! E316.

ghost use Rattle.std.specs.Prelude.{◌≡◌, ◌++◌, IfOk, OnOk};
ghost use Rattle.std.specs.List.{flat_map};
ghost use Rattle.std.specs.Option.{option_copied};
ghost use Rattle.cg_base.specs.Refusing.{first};
ghost use Rattle.cg_desc_scope.specs.Seen.{seen_described};
ghost use Rattle.cg_desc_fault_format.specs.E316 as spec;
ghost use Rattle.cg_desc_fault_report.specs.Subject.{described_in, machine_in, element_in, insns_in};

use crate::fields::field_named;
use cg_attrs::{Frame, IsaForm};
use cg_base::{List, NoMemory, Text};
use cg_desc_check_format::first_bundled;
use cg_desc_choices::Written;
use cg_desc_data::{Extent, Framing, extent_of, has_place};
use cg_desc_elements::Element;
use cg_desc_fault_report::{Placed, Saying, Subject, earliest_said, only_text, put_at_part};
use cg_desc_machine::parts_of;
use cg_desc_scope::Described;
use cg_ifield::PlainForm;
use std::alloc::Global;

/// Whether a field is one bit, in a word that lies in the shortest instruction.
fn is_bundle_bit(framing: &Framing, extent: &Extent) -> bool
    ensures { result ≡ spec.is_bundle_bit framing.now extent.now }
{
    let end = extent.word_offset as u32 + extent.word_bits as u32;
    has_place(extent) && extent.length <= 1 && end <= framing.base_bits as u32
}

/// Whether a field that is there is no such bit.
fn is_other_field(framing: &Framing, form: Option<&PlainForm>) -> bool
    ensures { result ≡ spec.is_other_field framing.now (option_copied form.entry) }
{
    match form {
        Some(form) => !is_bundle_bit(framing, &extent_of(framing, form)),
        None => false,
    }
}

/// The bundle field, where it is no such bit.
fn of_bundle(
    alloc: Global,
    described: &Described,
    name: Option<&Text>,
) -> Result<Option<Saying>, NoMemory>
    ensures { IfOk result (λ said. said ≡ first (spec.of_bundle (seen_described described.now) (option_copied name.entry))) }
{
    match name {
        Some(name) => {
            let form = field_named(&described.selection, name);
            if is_other_field(&described.framing, form) {
                Ok(Some(only_text(alloc, name.as_slice())?))
            } else {
                Ok(None)
            }
        }
        None => Ok(None),
    }
}

/// The same at the form of the selected instruction set.
fn of_isa_form(
    alloc: Global,
    described: &Described,
    number: usize,
    isa: &IsaForm,
) -> Result<Option<Saying>, NoMemory>
    ensures { IfOk result (λ said. said ≡ first (spec.of_isa_form (seen_described described.now) number isa.now)) }
{
    let selection = &described.selection;
    if selection.names.gives_isa(selection.isa, number) {
        of_bundle(alloc, described, isa.bundle_field.as_ref())
    } else {
        Ok(None)
    }
}

/// The same at any form.
fn of_isa(alloc: Global, of: &Subject) -> Result<Option<Saying>, NoMemory>
    ensures { IfOk result (λ said. said ≡ first (spec.of_isa (described_in of.now) of.now.number (element_in of.now))) }
{
    match of.element {
        Element::Frame(Frame::Isa(isa)) => of_isa_form(alloc, of.described, of.number, isa),
        _ => Ok(None),
    }
}

/// Puts the first part of an instruction's format at the end that covers the bundle field.
fn put_of_written(
    alloc: Global,
    list: &mut List<Placed>,
    of: &Subject,
    written: &Written,
) -> Result<(), NoMemory>
    ensures { OnOk result (list.new ≡ list.old ++ spec.of_written (described_in of.now) (machine_in of.now) written.now) }
{
    let parts = parts_of(alloc, of.described, written)?;
    let fault = first_bundled(of.machine, parts.as_slice());
    put_at_part(alloc, list, of.machine, written, fault)
}

/// The same of all of a form's instructions.
fn put_of_insns(alloc: Global, list: &mut List<Placed>, of: &Subject) -> Result<(), NoMemory>
    ensures { OnOk result (list.new ≡ list.old ++ flat_map (spec.of_written (described_in of.now) (machine_in of.now)) (insns_in of.now)) }
{
    for written in of.insns {
        put_of_written(alloc, list, of, written)?;
    }
    Ok(())
}

/// What is said of the instructions of a form.
fn of_insns(alloc: Global, of: &Subject) -> Result<Option<Saying>, NoMemory>
    ensures { IfOk result (λ said. said ≡ first (spec.of_insns (described_in of.now) (machine_in of.now) (insns_in of.now))) }
{
    if !of.described.framing.is_sized {
        return Ok(None);
    }
    let mut list = List::new(alloc);
    put_of_insns(alloc, &mut list, of)?;
    earliest_said(&list)
}

/// What is said of the first E316 of a form: the bundle field isn't one bit of the first word, at the
/// selected instruction set, or overlaps a format, at the earliest part. None exactly where there is none
/// (docs/REFUSALS.md).
#[tactic(auto, using(cg_desc_fault_report::proofs::Firsts::first_rules))]
pub fn first_of_bundle(alloc: Global, of: &Subject) -> Result<Option<Saying>, NoMemory>
    ensures { IfOk result (λ said. said ≡ first (spec.e316 (described_in of.now) (machine_in of.now) of.now.number (element_in of.now) (insns_in of.now))) }
{
    if let Some(said) = of_isa(alloc, of)? {
        return Ok(Some(said));
    }
    of_insns(alloc, of)
}
