//! E310.

ghost use Rattle.std.specs.Prelude.{◌≡◌, ◌++◌, IfOk, OnOk};
ghost use Rattle.std.specs.List.{flat_map};
ghost use Rattle.cg_base.specs.Refusing.{first};
ghost use Rattle.cg_desc_fault_format.specs.E310 as spec;
ghost use Rattle.cg_desc_fault_report.specs.Subject.{described_in, machine_in, insns_in};

use cg_base::{List, NoMemory};
use cg_desc_check_format::first_overlap as overlap;
use cg_desc_choices::Written;
use cg_desc_fault_report::{Placed, Saying, Subject, earliest_said, put_at_part};
use cg_desc_machine::parts_of;
use std::alloc::Global;

/// Puts the first of two parts of an instruction's format at the end that cover one bit.
fn put_of_written(
    alloc: Global,
    list: &mut List<Placed>,
    of: &Subject,
    written: &Written,
) -> Result<(), NoMemory>
    ensures { OnOk result (list.new ≡ list.old ++ spec.of_written (described_in of.now) (machine_in of.now) written.now) }
{
    let parts = parts_of(alloc, of.described, written)?;
    let fault = overlap(of.machine, parts.as_slice());
    put_at_part(alloc, list, of.machine, written, fault)
}

/// The same of all of a form's instructions.
fn put_of_insns(alloc: Global, list: &mut List<Placed>, of: &Subject) -> Result<(), NoMemory>
    ensures { OnOk result (list.new ≡ list.old ++ flat_map (spec.of_written (described_in of.now) (machine_in of.now)) (insns_in of.now)) }
{
    for written in of.insns {
        put_of_written(alloc, list, of, written)?;
    }
    Ok(())
}

/// What is said of the earliest E310 of a form: two parts of a format cover one bit. None exactly where
/// there is none, and where the cpu or the instruction set is lacking (docs/REFUSALS.md).
pub fn first_overlap(alloc: Global, of: &Subject) -> Result<Option<Saying>, NoMemory>
    ensures { IfOk result (λ said. said ≡ first (spec.e310 (described_in of.now) (machine_in of.now) (insns_in of.now))) }
{
    if !of.described.framing.is_sized {
        return Ok(None);
    }
    let mut list = List::new(alloc);
    put_of_insns(alloc, &mut list, of)?;
    earliest_said(&list)
}
