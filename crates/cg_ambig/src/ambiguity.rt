ghost use Rattle.std.specs.Prelude.{◌≡◌, ◌≤◌, length, map, slice_get, MatchOption, ⊤};
ghost use Rattle.cg_ambig_pattern.specs.First.{IsFirst};
ghost use Rattle.cg_ambig.specs.Patterns.{pattern, asserted};
ghost use Rattle.cg_model.specs.Sound.{IsSound, SoundInsn};
ghost use Rattle.std.specs.Option.{option_copied};
ghost use Rattle.cg_model.specs.Clashing.{NoClash, FirstClashIn, length_at};

use crate::patterns::fill;
use cg_ambig_pattern::{Judge, Pattern, first_pair};
use cg_code::insn_length;
use cg_model::{Clash, Insn, Machine};

/// The assertions of a sound machine's instructions.
#[derive(Drop)]
struct Assertions<'a> {
    machine: &'a Machine,
}

impl Judge for Assertions<'_> {
    ghost asserted = { λ a. asserted a.machine.now };

    ghost ready = { λ a. IsSound a.machine.now };

    fn meets(&self, i: usize, number: u128) -> bool {
        match insn_at(self.machine, i) {
            Some(insn) => cg_code::asserted(self.machine, insn, &number.to_be_bytes()),
            None => false,
        }
    }
}

/// The instruction of a number.
fn insn_at(machine: &Machine, i: usize) -> Option<&Insn>
    requires { IsSound machine.now }
    ensures value { option_copied result ≡ slice_get machine.now.insns i }
    ensures sound { MatchOption result ⊤ (λ x. SoundInsn machine.now x.now) }
{
    machine.insns.get(i)
}

/// How many bytes the instruction of a number has.
fn length_of(machine: &Machine, i: usize) -> u8
    requires { IsSound machine.now }
    ensures { result ≡ length_at machine.now i }
{
    match insn_at(machine, i) {
        Some(insn) => insn_length(machine, insn),
        None => 0,
    }
}

/// The first clash, by the least number that both match.
#[tactic(auto, using(crate::proofs::Filling::answering))]
fn clash_on(machine: &Machine, first: usize, second: usize, number: u128) -> Clash
    requires sound { IsSound machine.now }
    requires found { IsFirst (map (pattern machine.now) machine.now.insns) (asserted machine.now) first second number }
    ensures { FirstClashIn machine.now result.first result.second result.len result.bytes }
{
    let len = length_of(machine, first).max(length_of(machine, second));
    Clash {
        first: first as u16,
        second: second as u16,
        len,
        bytes: number.to_be_bytes(),
    }
}

/// The first two decodable instructions that match the same bytes, and the least such bytes
/// (docs/LANGUAGE.md, "Encoding and matching"). None exactly where no two do. It takes no memory.
#[tactic(auto, using(crate::proofs::Filling::answering))]
pub fn first_clash(machine: &Machine) -> Option<Clash>
    requires sound { IsSound machine.now }
    ensures { MatchOption result (NoClash machine.now) (λ c. FirstClashIn machine.now c.first c.second c.len c.bytes) }
{
    let none = Pattern {
        decodable: false,
        cover: 0,
        value: 0,
        named: 0,
    };
    let mut patterns = [none; 4096];
    fill(machine, &mut patterns);
    let judge = Assertions { machine };
    match first_pair(&judge, &patterns[..machine.insns.len()]) {
        Some(found) => Some(clash_on(machine, found.first, found.second, found.number)),
        None => None,
    }
}
