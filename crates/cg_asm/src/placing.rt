//! Lines, each at the address behind the lines before it.

ghost use Rattle.std.specs.Prelude.{◌≤◌, ◌^◌, map, OnOk};
ghost use Rattle.cg_asm.specs.Placing as spec;
ghost use Rattle.cg_base.specs.Answering.{Gives, leaving};
ghost use Rattle.cg_base.specs.Texts.{seen_text};
ghost use Rattle.cg_syntax_choose.specs.Indexing.{IsIndex, GivesAll};
ghost use Rattle.cg_syntax_lines.specs.Seen.{seen_line};
ghost use Rattle.cg_model.specs.Sound.{IsSound};

use crate::faults::{Place, content_fault};
use cg_asm_directives::{content_of, content_size};
use cg_asm_labels::{Labels, Laid, on_line};
use cg_base::{List, Stop, refusals};
use cg_model::Machine;
use cg_syntax::said_alone;
use cg_syntax_choose::Index;
use cg_syntax_lines::{Line, is_readable, read_line};
use std::alloc::Global;

/// The most bytes that a line may have.
const LONGEST: usize = 4096;

/// The lines that have their places, and the address behind them.
#[derive(Drop)]
pub(crate) struct Layout {
    /// The labels that they define.
    pub(crate) labels: Labels,
    /// What they lay down.
    pub(crate) lines: List<Laid>,
    /// Where the next line stands.
    pub(crate) address: u128,
}

/// Puts a line that can be read behind others, or answers what is wrong with it while labels aren't known.
#[tactic(auto, using(crate::proofs::PlacingLemmas::placing))]
fn place_line(
    alloc: Global,
    machine: &Machine,
    index: &Index,
    base: u64,
    number: u64,
    line: Line<'_>,
    layout: &mut Layout,
) -> Result<(), Stop>
    requires sound { IsSound machine.now }
    requires given { GivesAll machine.now }
    requires index { IsIndex machine.now index.now }
    requires low { layout.old.address ≤ 2 ^ 64 }
    ensures laid { Gives (spec.read_laid machine.now base number layout.old (seen_line line.entry)) (leaving layout.new result) }
    ensures low { OnOk result (layout.new.address ≤ 2 ^ 64) }
{
    let address = layout.address;
    let content = content_of(alloc, machine, index, address, line.statement)?;
    let end = address + content_size(machine, address, &content);
    let place = Place { base, address, end };
    let labels = &layout.labels;
    let keywords = &index.keywords;
    if let Some(refusal) = content_fault(
        alloc, machine, keywords, labels, line.label, &content, place,
    )? {
        return Err(Stop::Refused(on_line(number, refusal)));
    }
    layout.labels.define(alloc, line.label, address)?;
    layout.lines.push(Laid {
        line: number,
        address,
        content,
    })?;
    layout.address = end;
    Ok(())
}

/// Puts a line behind others, or answers what is wrong with it while labels aren't known.
#[tactic(auto, using(crate::proofs::PlacingLemmas::reading_lines))]
fn lay_line(
    alloc: Global,
    machine: &Machine,
    index: &Index,
    base: u64,
    number: u64,
    text: &[u8],
    layout: &mut Layout,
) -> Result<(), Stop>
    requires sound { IsSound machine.now }
    requires given { GivesAll machine.now }
    requires index { IsIndex machine.now index.now }
    requires low { layout.old.address ≤ 2 ^ 64 }
    ensures laid { Gives (spec.line_laid machine.now base number layout.old text.now) (leaving layout.new result) }
    ensures low { OnOk result (layout.new.address ≤ 2 ^ 64) }
{
    if !is_readable(LONGEST, text) {
        let refusal = said_alone(alloc, refusals::STRANGE_LINE, b"line")?;
        return Err(Stop::Refused(on_line(number, refusal)));
    }
    place_line(alloc, machine, index, base, number, read_line(text), layout)
}

/// The lines of a source in their places, or what is wrong with the first that is at fault while labels
/// aren't known.
#[tactic(auto, using(crate::proofs::PlacingLemmas::lines))]
pub(crate) fn lines_laid(
    alloc: Global,
    machine: &Machine,
    index: &Index,
    base: u64,
    texts: &[&[u8]],
) -> Result<Layout, Stop>
    requires sound { IsSound machine.now }
    requires given { GivesAll machine.now }
    requires index { IsIndex machine.now index.now }
    ensures { Gives (spec.lines_laid machine.now base 1 (spec.no_lines base) (map seen_text texts.now)) result }
{
    let mut layout = Layout {
        labels: Labels::new(alloc),
        lines: List::new(alloc),
        address: base as u128,
    };
    let mut number = 0;
    for text in texts {
        number += 1;
        lay_line(alloc, machine, index, base, number, *text, &mut layout)?;
    }
    Ok(layout)
}
