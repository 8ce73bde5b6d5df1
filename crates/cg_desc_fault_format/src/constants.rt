//! E311.

ghost use Rattle.std.specs.Prelude.{◌≡◌, ◌++◌, IfOk, OnOk};
ghost use Rattle.std.specs.List.{flat_map};
ghost use Rattle.std.specs.Option.{option_copied};
ghost use Rattle.cg_base.specs.Refusing.{first};
ghost use Rattle.cg_desc_scope.specs.Seen.{seen_described};
ghost use Rattle.cg_desc_fault_format.specs.E311 as spec;
ghost use Rattle.cg_desc_fault_report.specs.Subject.{described_in, insns_in};

use crate::fields::field_named;
use cg_base::{List, NoMemory, Text, decimal};
use cg_desc_choices::{NamedPart, Spot, Written, WrittenPart};
use cg_desc_data::{extent_of, is_constant};
use cg_desc_fault_report::{Placed, Saying, Subject, earliest_said, put_at_spot};
use cg_desc_scope::Described;
use cg_ifield::PlainForm;
use std::alloc::Global;

/// Whether a value is no constant of a field.
fn is_unfit(described: &Described, value: i64, form: Option<&PlainForm>) -> bool
    ensures { result ≡ spec.is_unfit (seen_described described.now) value (option_copied form.entry) }
{
    match form {
        Some(form) => !is_constant(&extent_of(&described.framing, form), value),
        None => false,
    }
}

/// Puts a constant at the end, which stands there, where its field can't hold it.
fn put_constant(
    alloc: Global,
    list: &mut List<Placed>,
    described: &Described,
    spot: Spot,
    name: &Text,
    value: i64,
) -> Result<(), NoMemory>
    ensures { OnOk result (list.new ≡ list.old ++ spec.of_constant (seen_described described.now) spot name.now value) }
{
    if !is_unfit(described, value, field_named(&described.selection, name)) {
        return Ok(());
    }
    let said = Saying {
        text: name.clone()?,
        other: decimal(alloc, value as i128)?,
    };
    put_at_spot(alloc, list, spot, said)
}

/// The same of a part.
fn put_of_part(
    alloc: Global,
    list: &mut List<Placed>,
    described: &Described,
    part: &WrittenPart,
) -> Result<(), NoMemory>
    ensures { OnOk result (list.new ≡ list.old ++ spec.of_part (seen_described described.now) part.now) }
{
    match &part.part {
        NamedPart::Constant(name, value) => {
            put_constant(alloc, list, described, part.spot, name, *value)
        }
        NamedPart::Slot(_) => Ok(()),
    }
}

/// The same of the parts of an instruction's format.
fn put_of_written(
    alloc: Global,
    list: &mut List<Placed>,
    described: &Described,
    written: &Written,
) -> Result<(), NoMemory>
    ensures { OnOk result (list.new ≡ list.old ++ spec.of_written (seen_described described.now) written.now) }
{
    for part in written.parts.as_slice() {
        put_of_part(alloc, list, described, part)?;
    }
    Ok(())
}

/// The same of all of a form's instructions.
fn put_of_insns(alloc: Global, list: &mut List<Placed>, of: &Subject) -> Result<(), NoMemory>
    ensures { OnOk result (list.new ≡ list.old ++ flat_map (spec.of_written (described_in of.now)) (insns_in of.now)) }
{
    for written in of.insns {
        put_of_written(alloc, list, of.described, written)?;
    }
    Ok(())
}

/// What is said of the earliest E311 of a form: a constant of a format isn't from 0 to 2^length - 1, where
/// its field has so many bits. None exactly where there is none, and where the cpu or the instruction set
/// is lacking (docs/REFUSALS.md).
pub fn first_unfit(alloc: Global, of: &Subject) -> Result<Option<Saying>, NoMemory>
    ensures { IfOk result (λ said. said ≡ first (spec.e311 (described_in of.now) (insns_in of.now))) }
{
    if !of.described.framing.is_sized {
        return Ok(None);
    }
    let mut list = List::new(alloc);
    put_of_insns(alloc, &mut list, of)?;
    earliest_said(&list)
}
