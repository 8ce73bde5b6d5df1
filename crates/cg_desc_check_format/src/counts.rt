ghost use Rattle.std.specs.Prelude.{◌≡◌, slice_get};
ghost use Rattle.cg_base.specs.Refusing.{first};
ghost use Rattle.cg_model.specs.Matching as matching;
ghost use Rattle.cg_model_faults.specs.E308 as spec;
ghost use Rattle.cg_model_faults.specs.E317.{too_many_insns};

use crate::numbers::slot_count;
use crate::overlap::fields_of_part;
use cg_base::refusals;
use cg_model::{Insn, Machine, Part};
use cg_model_faults::{MachineFault, Said};

/// E308: a limit is passed by what makes so many before so many now.
pub fn first_passing(limit: u64, before: u64, now: u64) -> Option<MachineFault>
    ensures { result ≡ first (spec.passing limit before now) }
{
    if before <= limit && limit < now {
        return Some(MachineFault {
            number: refusals::COUNT_PASSED,
            place: 0,
            text: Said::Count(limit),
            other: Said::Count(now),
        });
    }
    None
}

/// E317: over 4,096 instructions, at the one that so many stand before.
pub fn first_of_too_many_insns(before: usize) -> Option<MachineFault>
    ensures { result ≡ first (too_many_insns before) }
{
    if before == 4096 {
        return Some(MachineFault {
            number: refusals::MANY_INSTRUCTIONS,
            place: 0,
            text: Said::Count(4096),
            other: Said::Nothing,
        });
    }
    None
}

/// The end of a field's word, in bits.
fn end_of(machine: &Machine, k: u16) -> u32
    ensures { result ≡ matching.end_of (slice_get machine.now.fields k) }
{
    match machine.fields.get(k as usize) {
        Some(field) => field.word_offset as u32 + field.word_bits as u32,
        None => 0,
    }
}

/// The end of the last word of some fields.
#[tactic(auto, using(crate::proofs::Walks::end_rules))]
fn last_end(machine: &Machine, fields: &[u16]) -> u32
    ensures { result ≡ matching.last_end machine.now fields.now }
{
    let mut end = 0;
    for k in fields {
        end = end_of(machine, *k).max(end);
    }
    end
}

/// The end of the last word of a format.
#[tactic(auto, using(crate::proofs::Walks::end_rules))]
fn parts_end(machine: &Machine, parts: &[Part]) -> u32
    ensures { result ≡ matching.last_end machine.now (matching.fields_of_parts machine.now parts.now) }
{
    let mut end = 0;
    for part in parts {
        end = last_end(machine, fields_of_part(machine, part)).max(end);
    }
    end
}

/// How many bytes an instruction has, also where that is more than 16.
pub fn bytes_of(machine: &Machine, insn: &Insn) -> u32
    ensures { result ≡ matching.length_of machine.now insn.now }
{
    parts_end(machine, insn.parts.as_slice()).max(machine.base_bits as u32) / 8
}

/// E308: over 64 pieces or 16 slots of a syntax.
#[tactic(auto, using(crate::proofs::Walks::first_rules))]
pub fn first_long_syntax(pieces: usize, slots: usize) -> Option<MachineFault>
    ensures { result ≡ first (spec.of_syntax pieces slots) }
{
    if let Some(fault) = first_passing(64, 0, pieces as u64) {
        return Some(fault);
    }
    first_passing(16, 0, slots as u64)
}

/// E308: over 64 pieces, 16 slots, 16 bytes or 67,107,840 cycles of an instruction.
#[tactic(auto, using(crate::proofs::Walks::first_rules))]
pub fn first_long_insn(machine: &Machine, insn: &Insn) -> Option<MachineFault>
    ensures { result ≡ first (spec.of_shape machine.now insn.now) }
{
    if let Some(fault) = first_long_syntax(insn.pieces.len(), slot_count(insn.parts.as_slice())) {
        return Some(fault);
    }
    if let Some(fault) = first_passing(16, 0, bytes_of(machine, insn) as u64) {
        return Some(fault);
    }
    first_passing(67_107_840, 0, insn.cycles as u64)
}
