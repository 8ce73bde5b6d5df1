//! The instructions of a bundle, each at its own address.

ghost use Rattle.std.specs.Prelude.{◌≡◌, map, IfOk};
ghost use Rattle.std.specs.Option.{option_copied};
ghost use Rattle.cg_base.specs.Texts.{seen_text};
ghost use Rattle.cg_syntax_choose.specs.Indexing.{IsIndex, GivesAll};
ghost use Rattle.cg_model_source.specs.Bundling as spec;
ghost use Rattle.cg_model_source.specs.Spelling.{keywords};
ghost use Rattle.cg_model.specs.Sound.{IsSound};
ghost use Rattle.cg_syntax.specs.Telling.{told_part, told_parts, part_size, refused_as, first_refused, label_of, first_term, first_label, has_empty};

use cg_base::{List, NoMemory, Refusal, Stop, Text};
use cg_code::length;
use cg_model::Machine;
use cg_model_source::Sum;
use cg_syntax_choose::{Choice, Index, choose, sum_there};
use cg_syntax_fit::Sums;
use std::alloc::Global;

/// A text between two `||` (docs/ASSEMBLY.md, "Sources").
#[derive(Drop)]
pub enum Part {
    /// Nothing stands there.
    Empty,
    /// It is refused so.
    Refused(Refusal),
    /// An instruction.
    Stands {
        /// Its address modulo 2^64.
        address: u64,
        /// What is chosen for it.
        choice: Choice,
    },
}

/// What a text is that stands at an address.
#[tactic(auto, using(crate::proofs::BundleLemmas::parting))]
fn part_at(
    alloc: Global,
    machine: &Machine,
    index: &Index,
    text: &[u8],
    address: u64,
) -> Result<Part, NoMemory>
    requires sound { IsSound machine.now }
    requires given { GivesAll machine.now }
    requires index { IsIndex machine.now index.now }
    ensures { IfOk result (λ part. part ≡ told_part (spec.part_of machine.now (keywords machine.now) address text.now)) }
{
    if text.is_empty() {
        return Ok(Part::Empty);
    }
    match choose(alloc, machine, index, text, address) {
        Ok(choice) => Ok(Part::Stands { address, choice }),
        Err(Stop::Refused(refusal)) => Ok(Part::Refused(refusal)),
        Err(Stop::NoMemory) => Err(NoMemory),
    }
}

/// How many bytes a part of a bundle has. A part without an instruction has none.
pub fn part_size(machine: &Machine, part: &Part) -> u8
    requires { IsSound machine.now }
    ensures { result ≡ part_size machine.now part.now }
{
    match part {
        Part::Stands { choice, .. } if (choice.insn as usize) < machine.insns.len() => {
            length(machine, choice.insn)
        }
        _ => 0,
    }
}

/// The parts of a bundle that begins at an address, which counts modulo 2^64.
#[tactic(auto, using(crate::proofs::BundleLemmas::all_parting))]
pub fn parts_at(
    alloc: Global,
    machine: &Machine,
    index: &Index,
    texts: &[&[u8]],
    address: u64,
) -> Result<List<Part>, NoMemory>
    requires sound { IsSound machine.now }
    requires given { GivesAll machine.now }
    requires index { IsIndex machine.now index.now }
    ensures { IfOk result (λ parts. parts ≡ told_parts (spec.parts_at machine.now (keywords machine.now) address (map seen_text texts.now))) }
{
    let mut parts = List::new(alloc);
    let mut at = address;
    for text in texts {
        let part = part_at(alloc, machine, index, *text, at)?;
        at = at.wrapping_add(part_size(machine, &part) as u64);
        parts.push(part)?;
    }
    Ok(parts)
}

/// The refusal of a part that is refused under a number.
fn refused_as(number: u16, part: &Part) -> Option<&Refusal>
    ensures { option_copied result ≡ refused_as number part.now }
{
    match part {
        Part::Refused(refusal) if refusal.number == number => Some(refusal),
        _ => None,
    }
}

/// The first refusal of this number among parts.
pub fn first_refused(number: u16, parts: &[Part]) -> Option<&Refusal>
    ensures { option_copied result ≡ first_refused number parts.now }
{
    for part in parts {
        if let Some(refusal) = refused_as(number, part) {
            return Some(refusal);
        }
    }
    None
}

/// The first label of a sum.
fn label_of(sum: &Sum) -> Option<&Text>
    ensures { option_copied result ≡ label_of sum.now.terms }
{
    match sum.terms.as_slice() {
        [term, ..] => Some(&term.label),
        [] => None,
    }
}

/// The first label of sums.
fn first_term(sums: &Sums) -> Option<&Text>
    ensures { option_copied result ≡ first_term sums.now }
{
    for k in 0..sums.len() {
        if let Some(label) = label_of(sum_there(sums, k)) {
            return Some(label);
        }
    }
    None
}

/// The first label that parts name.
pub fn first_label(parts: &[Part]) -> Option<&Text>
    ensures { option_copied result ≡ first_label parts.now }
{
    for part in parts {
        if let Part::Stands { choice, .. } = part {
            if let Some(label) = first_term(&choice.sums) {
                return Some(label);
            }
        }
    }
    None
}

/// Whether nothing stands in a part.
pub fn has_empty(parts: &[Part]) -> bool
    ensures { result ≡ has_empty parts.now }
{
    parts.iter().any(|part| matches!(part, Part::Empty))
}
