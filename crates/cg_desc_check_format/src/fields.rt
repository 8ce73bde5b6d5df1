ghost use Rattle.std.specs.Prelude.{◌≡◌};
ghost use Rattle.cg_base.specs.Refusing.{first};
ghost use Rattle.cg_model_faults.specs.E309.{has_place, misplaced};
ghost use Rattle.cg_model_faults.specs.E316.{is_bundle_bit, no_bundle_bit};

use cg_base::{bits, refusals};
use cg_model::{Field, Machine};
use cg_model_faults::{MachineFault, Said};

/// Whether a field has a bit, lies in its word and is no longer than its mode.
fn has_place(field: &Field) -> bool
    ensures { result ≡ has_place field.now }
{
    let end = field.shift as u16 + field.length as u16;
    field.length >= 1 && end <= field.word_bits as u16 && field.length <= bits(field.mode)
}

/// E309: a field leaves its word, is empty, or is longer than its mode.
pub fn first_misplaced(field: &Field) -> Option<MachineFault>
    ensures { result ≡ first (misplaced field.now) }
{
    if has_place(field) {
        return None;
    }
    Some(MachineFault {
        number: refusals::MISPLACED_FIELD,
        place: 0,
        text: Said::Own,
        other: Said::Nothing,
    })
}

/// Whether a field is one bit of the shortest instruction.
fn is_bundle_bit(machine: &Machine, field: &Field) -> bool
    ensures { result ≡ is_bundle_bit machine.now field.now }
{
    let end = field.word_offset as u32 + field.word_bits as u32;
    field.length == 1 && end <= machine.base_bits as u32
}

/// E316: the bundle field isn't one bit of the first word. A number that names no field is not judged
/// here.
pub fn first_no_bundle_bit(machine: &Machine) -> Option<MachineFault>
    ensures { result ≡ first (no_bundle_bit machine.now) }
{
    let k = machine.bundle? as usize;
    if is_bundle_bit(machine, machine.fields.get(k)?) {
        return None;
    }
    Some(MachineFault {
        number: refusals::BUNDLE_FIELD,
        place: 0,
        text: Said::Field(k),
        other: Said::Nothing,
    })
}
