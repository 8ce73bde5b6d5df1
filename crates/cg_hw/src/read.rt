//! Reading a form of hardware.

ghost use Rattle.std.specs.Prelude.{◌≡◌, IfOk};
ghost use Rattle.cg_base.specs.Refusing.{least};
ghost use Rattle.cg_base.specs.Answering.{GivesForm};
ghost use Rattle.cg_hw.specs.Hardware.{hardware_in, hardware_of, hardware_faults};

use crate::form::HardwareForm;
use crate::table::HardwareKind;
use cg_attrs::{attrs_at, judged, optional_form, wanted_form, wanted_symbol};
use cg_base::{Form, NoMemory, Stop, Top, stop_at};
use std::alloc::Global;

/// What a form without fault says.
fn hardware(alloc: Global, elements: &[Form]) -> Result<HardwareForm, NoMemory>
    ensures { IfOk result (λ form. form ≡ hardware_in elements.now) }
{
    Ok(HardwareForm {
        name: wanted_symbol(alloc, elements, b"name")?,
        kind: wanted_form(alloc, elements, b"type")?,
        indices: optional_form(alloc, elements, b"indices")?,
        values: optional_form(alloc, elements, b"values")?,
        get: optional_form(alloc, elements, b"get")?,
        set: optional_form(alloc, elements, b"set")?,
        attrs: attrs_at(alloc, elements)?,
    })
}

/// A form of hardware, `define-hardware`. Otherwise the refusal of its least fault, by number and
/// then by place, with the form's file and line (docs/LANGUAGE.md, "Hardware";
/// docs/REFUSALS.md):
///
/// - E301: another form. Its text is the symbol that heads it, else `form`.
/// - E302: a clause that is not of this form or stands twice, or an element that is no list
///   headed by a symbol, whose text is `clause`.
/// - E303: a wanted clause that is absent, in the order of the form's table.
/// - E304: content that is not of its clause's kind; `get` or `set` where the type is no register
///   or where `index` doesn't stand just where a count of cells is written; what is at fault inside an expression.
/// - E307: a clause that is left out, the word of a type that is, what is left out inside an
///   expression, and the form `if`.
pub fn read_hardware(alloc: Global, top: &Top) -> Result<HardwareForm, Stop>
    ensures { GivesForm top.now.file top.now.line (least (hardware_faults top.now.form)) (hardware_of top.now.form) result }
{
    match judged::<HardwareKind>(&top.form) {
        Ok((_, elements)) => Ok(hardware(alloc, elements)?),
        Err(fault) => Err(stop_at(alloc, top.file, top.line, fault)),
    }
}
