//! The bytes of a statement that stands alone.

ghost use Rattle.std.specs.Prelude.{◌≡◌, ◌++◌, map, IfOk, OnOk};
ghost use Rattle.std.specs.Option.{option_map};
ghost use Rattle.cg_base.specs.Answering.{Answered};
ghost use Rattle.cg_base.specs.Texts.{seen_text};
ghost use Rattle.cg_syntax_choose.specs.Indexing.{IsIndex, GivesAll};
ghost use Rattle.cg_model_source.specs.Bundling.{parts_at};
ghost use Rattle.cg_model_source.specs.Spelling.{keywords};
ghost use Rattle.cg_model_source.specs.Stating as spec;
ghost use Rattle.cg_model.specs.Sound.{IsSound};
ghost use Rattle.cg_syntax.specs.Laying.{HasBundleBit, IsWithin, AreWithin, part_bytes, told_bytes};
ghost use Rattle.cg_syntax.specs.Faulting.{statement_fault, said_alone, refusal_of};

use crate::bundle::{Part, first_label, first_refused, has_empty, parts_at};
use crate::bytes::put_instruction;
use cg_base::{NoMemory, Refusal, Stop, Text, decimal, refusals};
use cg_model::Machine;
use cg_syntax_choose::{Index, known_all};
use cg_syntax_lines::{bundle_texts, is_readable, read_line};
use std::alloc::Global;

/// The most bytes that a statement may have.
const LONGEST: usize = 3800;

/// The refusal of a number that says this and nothing else. File and line are 0.
pub fn said_alone(alloc: Global, number: u16, text: &[u8]) -> Result<Refusal, NoMemory>
    ensures { IfOk result (λ refusal. refusal ≡ said_alone number text.now) }
{
    Ok(Refusal {
        number,
        file: 0,
        line: 0,
        text: Text::of(alloc, text)?,
        other: Text::new(alloc),
    })
}

/// What is wrong with the parts of a statement that may define a label: E601, E602, E604, E608 or E609.
#[tactic(auto, using(crate::proofs::FaultLemmas::faulting))]
fn statement_fault(
    alloc: Global,
    machine: &Machine,
    label: Option<&[u8]>,
    parts: &[Part],
) -> Result<Option<Refusal>, NoMemory>
    ensures { IfOk result (λ fault. fault ≡ statement_fault machine.now (option_map seen_text label.entry) parts.now) }
{
    if let Some(refusal) = first_refused(refusals::NO_STATEMENT, parts) {
        return Ok(Some(refusal.clone()?));
    }
    if let Some(refusal) = first_refused(refusals::OUT_OF_RANGE, parts) {
        return Ok(Some(refusal.clone()?));
    }
    if let Some(name) = label {
        return Ok(Some(said_alone(alloc, refusals::NO_LABEL, name)?));
    }
    if let Some(name) = first_label(parts) {
        return Ok(Some(said_alone(alloc, refusals::NO_LABEL, name.as_slice())?));
    }
    if has_empty(parts) {
        return Ok(Some(said_alone(alloc, refusals::STRANGE_LINE, b"line")?));
    }
    if parts.len() > machine.width as usize {
        let width = decimal(alloc, machine.width as i128)?;
        return Ok(Some(said_alone(alloc, refusals::WIDE_BUNDLE, width.as_slice())?));
    }
    Ok(None)
}

/// The bytes of the parts of a statement that nothing is wrong with.
#[tactic(auto, using(crate::proofs::ByteLemmas::putting))]
fn put_parts(
    alloc: Global,
    machine: &Machine,
    index: &Index,
    parts: &[Part],
) -> Result<Vec<u8>, NoMemory>
    requires sound { IsSound machine.now }
    requires bundle { HasBundleBit machine.now }
    requires index { IsIndex machine.now index.now }
    requires within { AreWithin machine.now parts.now }
    ensures { IfOk result (λ bytes. bytes.items ≡ told_bytes machine.now parts.now) }
{
    let mut out = Vec::new(alloc);
    for k in 0..parts.len() {
        put_part(
            alloc,
            machine,
            index,
            &parts[k],
            k + 1 < parts.len(),
            &mut out,
        )?;
    }
    Ok(out)
}

/// Puts the bytes of a part behind others. Another part follows or not.
fn put_part(
    alloc: Global,
    machine: &Machine,
    index: &Index,
    part: &Part,
    more: bool,
    out: &mut Vec<u8>,
) -> Result<(), NoMemory>
    requires sound { IsSound machine.now }
    requires bundle { HasBundleBit machine.now }
    requires index { IsIndex machine.now index.now }
    requires within { IsWithin machine.now part.now }
    ensures { OnOk result (out.new.items ≡ out.old.items ++ part_bytes machine.now part.now more) }
{
    if let Part::Stands { address, choice } = part {
        let numbers = known_all(alloc, &choice.sums)?;
        let numbers = numbers.as_slice();
        put_instruction(alloc, machine, index, choice, numbers, *address, more, out)?;
    }
    Ok(())
}

/// The bytes of a statement of these texts, which may define a label.
#[tactic(auto, using(crate::proofs::StatingLemmas::parts_stating))]
fn stated_parts(
    alloc: Global,
    machine: &Machine,
    index: &Index,
    label: Option<&[u8]>,
    texts: &[&[u8]],
    pc: u64,
) -> Result<Vec<u8>, Stop>
    requires sound { IsSound machine.now }
    requires given { GivesAll machine.now }
    requires bundle { HasBundleBit machine.now }
    requires index { IsIndex machine.now index.now }
    ensures { Answered
        (λ bytes. spec.stated_parts machine.now (option_map seen_text label.entry) (parts_at machine.now (keywords machine.now) pc (map seen_text texts.now)) ≡ Ok bytes.items)
        (λ refusal. refusal_of (spec.stated_parts machine.now (option_map seen_text label.entry) (parts_at machine.now (keywords machine.now) pc (map seen_text texts.now))) ≡ Some refusal)
        result }
{
    let parts = parts_at(alloc, machine, index, texts, pc)?;
    match statement_fault(alloc, machine, label, parts.as_slice())? {
        Some(refusal) => Err(Stop::Refused(refusal)),
        None => Ok(put_parts(alloc, machine, index, parts.as_slice())?),
    }
}

/// The bytes of a statement that stands at `pc` (docs/ASSEMBLY.md, "A statement alone"): those of a line
/// that defines and names no label and has no directive; a blank text has none. A label is E604. E608 comes
/// for a directive, for a byte that a line may not have and for more than 3,800 bytes, and then alone; and
/// for nothing beside a `||`. E601 and E602 are those of `choose`, E609 comes where there are more
/// instructions than the machine's bundles have. Of several the least number counts. File and line are 0.
/// `pc` counts modulo 2^bits of the cpu's word. The index was built from the machine.
#[tactic(auto, using(crate::proofs::StatingLemmas::reading))]
pub fn statement(
    alloc: Global,
    machine: &Machine,
    index: &Index,
    text: &[u8],
    pc: u64,
) -> Result<Vec<u8>, Stop>
    requires sound { IsSound machine.now }
    requires given { GivesAll machine.now }
    requires bundle { HasBundleBit machine.now }
    requires index { IsIndex machine.now index.now }
    ensures { Answered
        (λ bytes. spec.stated machine.now pc text.now ≡ Ok bytes.items)
        (λ refusal. refusal_of (spec.stated machine.now pc text.now) ≡ Some refusal)
        result }
{
    if !is_readable(LONGEST, text) {
        return Err(Stop::Refused(said_alone(alloc, refusals::STRANGE_LINE, b"line")?));
    }
    let line = read_line(text);
    match line.statement {
        cg_syntax_lines::Statement::Nothing => Ok(stated_parts(
            alloc,
            machine,
            index,
            line.label,
            &[],
            pc,
        )?),
        cg_syntax_lines::Statement::Directive { name, .. } => Err(Stop::Refused(said_alone(
            alloc,
            refusals::STRANGE_LINE,
            name,
        )?)),
        cg_syntax_lines::Statement::Bundle(bundle) => {
            let texts = bundle_texts(alloc, bundle)?;
            let texts = texts.as_slice();
            Ok(stated_parts(alloc, machine, index, line.label, texts, pc)?)
        }
    }
}
