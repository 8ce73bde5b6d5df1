ghost use Rattle.std.specs.Prelude.{◌≡◌, ◌≤◌, ◌++◌, length, drop, IfOk, OnOk, option_to_list};
ghost use Rattle.std.specs.List.{prefix_len};
ghost use Rattle.std.specs.Option.{option_copied, option_map};
ghost use Rattle.cg_model_source.specs.Splitting as spec;
ghost use Rattle.cg_model_faults.specs.E312 as runs;
ghost use Rattle.cg_syntax_split.specs.Passing.{passed, byte_passed, slot_passed, filled};

use cg_base::{List, NoMemory};
use cg_model::{Machine, Operand};
use cg_model_source::{Mark, Sum};
use cg_syntax_spelling::{Keywords, lower, may_have, spelled};
use std::alloc::Global;

/// What is written in a slot.
#[derive(Drop)]
pub struct Filled {
    /// The slot, by its number.
    pub slot: u8,
    /// What is written stands for this sum.
    pub sum: Sum,
}

/// What a mark of a syntax takes from the front of a text.
#[derive(Drop)]
pub(crate) struct Taken {
    /// How many characters.
    pub(crate) count: usize,
    /// What they fill, where it is a slot.
    pub(crate) filled: Option<Filled>,
}

/// The operand of a slot.

fn operand_at<'a>(machine: &'a Machine, operands: &[u16], slot: u8) -> Option<&'a Operand>
    ensures { option_copied result ≡ spec.operand_at machine.now operands.now slot }
{
    let operand = operands.get(slot as usize)?;
    machine.operands.get(*operand as usize)
}

/// How many characters the text of an operand has at most that a text begins with.
#[tactic(auto, using(crate::proofs::Runs::at_most))]
fn run_len(machine: &Machine, operand: &Operand, text: &[u8]) -> usize
    ensures count { result ≡ prefix_len (runs.may_have machine.now operand.now) text.now }
    ensures within { result ≤ length text.now }
{
    text.iter()
        .take_while(|byte| may_have(machine, operand, **byte))
        .count()
}

/// What a slot takes from the front of a text: all that its operand may have. None exactly where the
/// operand isn't written so.
fn slot_passed(
    alloc: Global,
    machine: &Machine,
    keywords: &Keywords,
    operand: &Operand,
    slot: u8,
    text: &[u8],
) -> Result<Option<Taken>, NoMemory>
    ensures { IfOk result (λ taken. taken ≡ slot_passed machine.now keywords.now operand.now slot text.now) }
{
    let count = run_len(machine, operand, text);
    let (run, _) = text.split_at(count);
    match spelled(alloc, machine, keywords, operand, run)? {
        Some(sum) => Ok(Some(Taken {
            count,
            filled: Some(Filled { slot, sum }),
        })),
        None => Ok(None),
    }
}

/// What a character takes from the front of a text: itself, letter case aside.
fn byte_passed(byte: u8, text: &[u8]) -> Option<Taken>
    ensures { result ≡ byte_passed byte text.now }
{
    match text {
        [first, ..] if lower(byte) == lower(*first) => Some(Taken {
            count: 1,
            filled: None,
        }),
        _ => None,
    }
}

/// What a mark of a syntax takes from the front of a text. None exactly where it takes nothing.
fn passed(
    alloc: Global,
    machine: &Machine,
    keywords: &Keywords,
    operands: &[u16],
    mark: Mark,
    text: &[u8],
) -> Result<Option<Taken>, NoMemory>
    ensures { IfOk result (λ taken. taken ≡ passed machine.now keywords.now operands.now mark text.now) }
{
    match mark {
        Mark::Byte(byte) => Ok(byte_passed(byte, text)),
        Mark::Slot(slot) => match operand_at(machine, operands, slot) {
            Some(operand) => Ok(slot_passed(alloc, machine, keywords, operand, slot, text)?),
            None => Ok(None),
        },
    }
}

/// Puts what fills a slot to others.
fn put(found: &mut List<Filled>, filled: Option<Filled>) -> Result<(), NoMemory>
    ensures { OnOk result (found.new ≡ found.old ++ option_to_list filled) }
{
    if let Some(filled) = filled {
        found.push(filled)?;
    }
    Ok(())
}

/// How a squeezed text is split by a squeezed syntax whose slots are numbered by their operands
/// (docs/ASSEMBLY.md, "Statements"): what stands in each slot, in the order of the text. Letter case
/// doesn't matter in characters. None exactly where the text has no split.
#[tactic(auto, using(crate::proofs::Passing::passing))]
pub fn split(
    alloc: Global,
    machine: &Machine,
    keywords: &Keywords,
    operands: &[u16],
    marks: &[Mark],
    text: &[u8],
) -> Result<Option<List<Filled>>, NoMemory>
    ensures { IfOk result (λ found. found ≡ option_map filled (spec.split machine.now keywords.now operands.now marks.now text.now)) }
{
    let mut found = List::new(alloc);
    let mut rest = text;
    for mark in marks {
        match passed(alloc, machine, keywords, operands, *mark, rest)? {
            Some(passed) => {
                put(&mut found, passed.filled)?;
                rest = behind(rest, passed.count);
            }
            None => return Ok(None),
        }
    }
    if rest.is_empty() {
        return Ok(Some(found));
    }
    Ok(None)
}

/// What stands behind so many characters.
fn behind(text: &[u8], count: usize) -> &[u8]
    ensures { result.now ≡ drop count text.now }
{
    text.get(count..).unwrap_or(&[])
}
