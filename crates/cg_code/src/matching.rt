ghost use Rattle.std.specs.Prelude.{◌≡◌, ◌*◌, ◌≤◌, ◌<◌, length};
ghost use Rattle.std.specs.List.{list_all};
ghost use Rattle.cg_code.specs.Coded.{matches_at};
ghost use Rattle.cg_model.specs.Matching as spec;
ghost use Rattle.cg_model.specs.Sound.{IsSound, SoundInsn};

use crate::lengths::insn_length;
use crate::lookups::{field_at, insn_at};
use cg_model::{Insn, Machine, Part, field_bits};
use cg_model_pure::pure_eval;

/// Whether a constant stands in its field.
#[tactic(auto, using(crate::proofs::Ends::inside))]
fn part_stands(machine: &Machine, part: Part, bytes: &[u8]) -> bool
    requires sound { IsSound machine.now }
    requires inside { spec.last_end machine.now (spec.fields_of_part machine.now part) ≤ 8 * length bytes.now }
    ensures { result ≡ spec.part_stands machine.now bytes.now part }
{
    if let Part::Constant { field, value } = part {
        return match field_at(machine, field) {
            Some(field) => field_bits(machine, field, bytes) == value,
            None => true,
        };
    }
    true
}

/// Whether each constant stands in its field.
#[tactic(auto, using(crate::proofs::Ends::inside))]
fn constants_stand(machine: &Machine, parts: &[Part], bytes: &[u8]) -> bool
    requires sound { IsSound machine.now }
    requires inside { spec.last_end machine.now (spec.fields_of_parts machine.now parts.now) ≤ 8 * length bytes.now }
    ensures { result ≡ list_all (spec.part_stands machine.now bytes.now) parts.now }
{
    for part in parts {
        if !part_stands(machine, *part, bytes) {
            return false;
        }
    }
    true
}

/// Whether bytes that hold an instruction meet its assertion (docs/LANGUAGE.md, "Encoding and
/// matching"). It takes no memory.
#[tactic(auto, using(crate::proofs::Around::asserting))]
pub fn asserted(machine: &Machine, insn: &Insn, bytes: &[u8]) -> bool
    requires sound { IsSound machine.now }
    requires insn { SoundInsn machine.now insn.now }
    requires long { spec.length_of machine.now insn.now ≤ length bytes.now }
    ensures { result ≡ spec.asserts machine.now insn.now bytes.now }
{
    match &insn.assertion {
        Some(rule) => pure_eval(machine, rule, None, 0, 0, bytes) != 0,
        None => true,
    }
}

/// Whether an instruction matches bytes that are as long as it.
#[tactic(auto, using(crate::proofs::Matched::matching))]
fn matches_insn(machine: &Machine, insn: &Insn, bytes: &[u8]) -> bool
    requires sound { IsSound machine.now }
    requires insn { SoundInsn machine.now insn.now }
    ensures { result ≡ spec.matches machine.now insn.now bytes.now }
{
    if bytes.len() < insn_length(machine, insn) as usize {
        return false;
    }
    constants_stand(machine, insn.parts.as_slice(), bytes) && asserted(machine, insn, bytes)
}

/// Whether the instruction of a number matches bytes (docs/LANGUAGE.md, "Encoding and
/// matching"). It takes no memory.
#[tactic(auto, using(crate::proofs::Matched::numbered))]
pub fn matches(machine: &Machine, i: u16, bytes: &[u8]) -> bool
    requires sound { IsSound machine.now }
    requires within { i < length machine.now.insns }
    ensures { result ≡ matches_at machine.now i bytes.now }
{
    matches_insn(machine, insn_at(machine, i), bytes)
}
