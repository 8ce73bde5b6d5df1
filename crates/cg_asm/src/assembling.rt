//! The image of a source.

ghost use Rattle.std.specs.Prelude.{◌≡◌, Ok, Err};
ghost use Rattle.cg_asm.specs.Placing.{AnswersSource, seen_refusal, told_image, told_refusal};
ghost use Rattle.cg_base.specs.Answering.{Answered};
ghost use Rattle.cg_syntax_choose.specs.Indexing.{IsIndex, GivesAll};
ghost use Rattle.cg_model_source.specs.Imaging.{image};
ghost use Rattle.cg_model.specs.Sound.{IsSound};
ghost use Rattle.cg_model_source.specs.Sourcing.{only_set};
ghost use Rattle.cg_syntax.specs.Laying.{HasBundleBit};

use crate::faults::size_fault;
use crate::placing::lines_laid;
use cg_asm_labels::lines_put;
use cg_base::{Refusal, Stop, Text};
use cg_model::Machine;
use cg_syntax_choose::Index;
use cg_syntax_lines::line_texts;
use std::alloc::Global;

/// Why a source is refused. docs/ASSEMBLY.md has a row for each number.
#[derive(Debug, Drop)]
pub struct SourceRefusal {
    /// Which refusal it is, as 601 for `E601`.
    pub number: u16,
    /// The line, counted from 1, or 0 where no line is meant. A line past 2^32 - 1 is held as 2^32 - 1.
    pub line: u32,
    /// What is at fault.
    pub text: Text,
    /// More of it, or no bytes.
    pub other: Text,
}

/// Why a source has no image.
#[derive(Debug, Drop)]
pub enum AsmStop {
    /// The source is at fault.
    Refused(SourceRefusal),
    /// Memory ran out.
    NoMemory,
}

/// A refusal of a source.
fn source_refusal(refusal: Refusal) -> SourceRefusal
    ensures { result ≡ told_refusal refusal }
{
    SourceRefusal {
        number: refusal.number,
        line: refusal.line,
        text: refusal.text,
        other: refusal.other,
    }
}

/// The image of a source at a base, or its first refusal.
#[tactic(auto, using(crate::proofs::ImageLemmas::images))]
fn image_at(
    alloc: Global,
    machine: &Machine,
    index: &Index,
    base: u64,
    source: &[u8],
) -> Result<Vec<u8>, Stop>
    requires sound { IsSound machine.now }
    requires given { GivesAll machine.now }
    requires bundle { HasBundleBit machine.now }
    requires index { IsIndex machine.now index.now }
    ensures { Answered (λ bytes. told_image (image (only_set machine.now) base source.now) ≡ Ok bytes.items) (λ refusal. told_image (image (only_set machine.now) base source.now) ≡ Err refusal) result }
{
    if let Some(refusal) = size_fault(alloc, machine, base, base as u128)? {
        return Err(Stop::Refused(refusal));
    }
    let texts = line_texts(alloc, source)?;
    let layout = lines_laid(alloc, machine, index, base, texts.as_slice())?;
    lines_put(
        alloc,
        machine,
        index,
        &layout.labels,
        layout.lines.as_slice(),
    )
}

/// The image of a source at a base (docs/ASSEMBLY.md, "Sources"): the bytes that its lines lay down, one
/// behind another, or why it is refused. E601 to E603 and E606 to E609 are those of the first line that has
/// one, with the least number; where none has one, so are E604 and E605. E607 has line 0 where the base
/// itself is above the machine's addresses. The index was built from the machine, which is accepted.
#[tactic(auto, using(crate::proofs::ImageLemmas::assembling))]
pub fn assemble(
    alloc: Global,
    machine: &Machine,
    index: &Index,
    base: u64,
    source: &[u8],
) -> Result<Vec<u8>, AsmStop>
    requires sound { IsSound machine.now }
    requires given { GivesAll machine.now }
    requires bundle { HasBundleBit machine.now }
    requires index { IsIndex machine.now index.now }
    ensures { AnswersSource (λ bytes. image (only_set machine.now) base source.now ≡ Ok bytes.items) (λ refusal. image (only_set machine.now) base source.now ≡ Err (seen_refusal refusal)) result }
{
    match image_at(alloc, machine, index, base, source) {
        Ok(bytes) => Ok(bytes),
        Err(Stop::Refused(refusal)) => Err(AsmStop::Refused(source_refusal(refusal))),
        Err(Stop::NoMemory) => Err(AsmStop::NoMemory),
    }
}
