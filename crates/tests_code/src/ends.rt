//! Where the words of fields end.

ghost use Rattle.std.specs.Prelude.{◌≡◌, slice_get};
ghost use Rattle.cg_model.specs.Matching as matching;

use cg_model::Machine;

/// The end of a field's word, in bits.
pub(crate) fn end_of(machine: &Machine, k: usize) -> u32
    ensures { result ≡ matching.end_of (slice_get machine.now.fields k) }
{
    match machine.fields.get(k) {
        Some(field) => field.word_offset as u32 + field.word_bits as u32,
        None => 0,
    }
}

/// The end of the last word of some fields.
#[tactic(auto, using(std::proofs::lemmas::Grind::common_steps))]
pub(crate) fn last_end(machine: &Machine, fields: &[u16]) -> u32
    ensures { result ≡ matching.last_end machine.now fields.now }
{
    let mut end = 0;
    for k in fields {
        end = end_of(machine, *k as usize).max(end);
    }
    end
}
