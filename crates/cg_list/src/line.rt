//! The lines of a listing.

ghost use Rattle.std.specs.Prelude.{◌≡◌, ℕ, ◌%◌, ◌^◌, ◌≤◌, length, IfOk, Some};
ghost use Rattle.std.specs.Option.{option_copied, option_map};
ghost use Rattle.cg_base.specs.Texts.{same_text};
ghost use Rattle.cg_syntax_choose.specs.Indexing.{IsIndex, GivesAll};
ghost use Rattle.cg_list.specs.Seen.{seen, seen_line};
ghost use Rattle.cg_model_source.specs.Listing as spec;
ghost use Rattle.cg_model.specs.Sound.{IsSound};
ghost use Rattle.cg_model_source.specs.Stating.{stated};
ghost use Rattle.cg_syntax.specs.Laying.{HasBundleBit};
ghost use Rattle.cg_tree.specs.Finding.{found};

use crate::bundle::{Shown, bundle_at};
use crate::digits::{put_bytes, put_numbers};
use cg_base::{NoMemory, Stop, Text, hex};
use cg_code::word_pc;
use cg_model::Machine;
use cg_syntax::{Index, statement};
use cg_tree::Tree;
use std::alloc::Global;

/// A line of a listing.
#[derive(Drop)]
pub(crate) struct Line {
    /// The line, with its end.
    pub(crate) text: Text,
    /// How many bytes it shows.
    pub(crate) size: usize,
}

/// Whether two texts have the same bytes.
fn same_bytes(one: &[u8], other: &[u8]) -> bool
    ensures { result ≡ same_text one.now other.now }
{
    one == other
}

/// Whether a text is a statement that gives just these bytes at a pc.
#[tactic(auto, using(crate::proofs::Lined::giving))]
fn gives(
    alloc: Global,
    machine: &Machine,
    index: &Index,
    pc: u64,
    text: &[u8],
    bytes: &[u8],
) -> Result<bool, NoMemory>
    requires sound { IsSound machine.now }
    requires given { GivesAll machine.now }
    requires bit { HasBundleBit machine.now }
    requires index { IsIndex machine.now index.now }
    ensures { IfOk result (λ same. same ≡ spec.gives (stated machine.now pc text.now) bytes.now) }
{
    match statement(alloc, machine, index, text, pc) {
        Ok(given) => Ok(same_bytes(given.as_slice(), bytes)),
        Err(Stop::Refused(_)) => Ok(false),
        Err(Stop::NoMemory) => Err(NoMemory),
    }
}

/// A line: eight blanks, a text, its address, its bytes, and what is said of them besides.
fn listed(
    alloc: Global,
    address: u64,
    text: &[u8],
    bytes: &[u8],
    besides: &[u8],
) -> Result<Text, NoMemory>
    ensures { IfOk result (λ line. line ≡ spec.listed address text.now bytes.now besides.now) }
{
    let mut line = Text::of(alloc, b"        ")?;
    line.append(text)?;
    line.append(b" ; ")?;
    line.append(hex(alloc, address)?.as_slice())?;
    line.append(b": ")?;
    put_bytes(bytes, &mut line)?;
    line.append(besides)?;
    line.push(10)?;
    Ok(line)
}

/// What is said of bytes that are shown as they are: the bundle that they begin, where it can be shown.
fn besides(alloc: Global, bundle: Option<&Shown>) -> Result<Text, NoMemory>
    ensures { IfOk result (λ text. text ≡ spec.besides (option_map seen (option_copied bundle.entry))) }
{
    let mut text = Text::new(alloc);
    if let Some(bundle) = bundle {
        text.push(b' ')?;
        text.append(bundle.text.as_slice())?;
    }
    Ok(text)
}

/// The bytes of the machine's shortest instruction, or the rest of the bytes, as they are.
#[tactic(auto, using(crate::proofs::Lined::first_bytes))]
fn as_bytes(
    alloc: Global,
    machine: &Machine,
    pc: u64,
    bytes: &[u8],
    bundle: Option<&Shown>,
) -> Result<Line, NoMemory>
    ensures { IfOk result (λ line. seen_line line ≡ spec.as_bytes machine.now pc bytes.now (option_map seen (option_copied bundle.entry))) }
{
    let size = (machine.base_bits as usize / 8).min(bytes.len());
    let mut text = Text::of(alloc, b".byte ")?;
    put_numbers(&bytes[..size], &mut text)?;
    let besides = besides(alloc, bundle)?;
    Ok(Line {
        text: listed(
            alloc,
            pc,
            text.as_slice(),
            &bytes[..size],
            besides.as_slice(),
        )?,
        size,
    })
}

/// A bundle as the statement that gives its bytes, or else the bytes as they are.
fn line_of(
    alloc: Global,
    machine: &Machine,
    index: &Index,
    pc: u64,
    bytes: &[u8],
    bundle: &Shown,
) -> Result<Line, NoMemory>
    requires sound { IsSound machine.now }
    requires given { GivesAll machine.now }
    requires bit { HasBundleBit machine.now }
    requires index { IsIndex machine.now index.now }
    requires within { bundle.now.size ≤ length bytes.now }
    ensures { IfOk result (λ line. seen_line line ≡ spec.line_for machine.now pc bytes.now (Some (seen bundle.now))) }
{
    let text = bundle.text.as_slice();
    let front = &bytes[..bundle.size];
    if gives(alloc, machine, index, pc, text, front)? {
        return Ok(Line {
            text: listed(alloc, pc, text, front, &[])?,
            size: bundle.size,
        });
    }
    Ok(as_bytes(alloc, machine, pc, bytes, Some(bundle))?)
}

/// The first line of bytes that lie at an address, which counts modulo 2^64.
#[tactic(auto, using(crate::proofs::Lined::lining))]
pub(crate) fn line_at(
    alloc: Global,
    machine: &Machine,
    index: &Index,
    tree: &Tree,
    address: u64,
    bytes: &[u8],
) -> Result<Line, NoMemory>
    requires sound { IsSound machine.now }
    requires given { GivesAll machine.now }
    requires bit { HasBundleBit machine.now }
    requires index { IsIndex machine.now index.now }
    ensures { IfOk result (λ line. (a : ℕ) → a % 2 ^ 64 ≡ address → seen_line line ≡ spec.line_at machine.now (found tree.now machine.now) a bytes.now) }
{
    let pc = word_pc(machine, address);
    match bundle_at(alloc, machine, tree, address, bytes)? {
        Some(bundle) => Ok(line_of(alloc, machine, index, pc, bytes, &bundle)?),
        None => Ok(as_bytes(alloc, machine, pc, bytes, None)?),
    }
}
