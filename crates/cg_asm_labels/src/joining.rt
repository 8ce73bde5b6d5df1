//! The bytes of lines, once all labels are known.

ghost use Rattle.std.specs.Prelude.{◌≡◌, ◌++◌, [], replicate, Ok, Err, IfOk, OnOk};
ghost use Rattle.std.specs.Option.{option_copied, option_map};
ghost use Rattle.cg_asm_directives.specs.Faulting as faulting;
ghost use Rattle.cg_asm_labels.specs.Joining as spec;
ghost use Rattle.cg_asm_directives.specs.Faulting.{told_first};
ghost use Rattle.cg_base.specs.Answering.{Answered, Gives, leaving};
ghost use Rattle.cg_syntax_choose.specs.Indexing.{IsIndex};
ghost use Rattle.cg_model.specs.Sound.{IsSound};
ghost use Rattle.cg_model_source.specs.E604.{undefined_sums};
ghost use Rattle.cg_model_source.specs.E605.{number_with};
ghost use Rattle.cg_syntax.specs.Faulting as telling;
ghost use Rattle.cg_syntax.specs.Laying.{HasBundleBit, IsWithin, AreWithin};

use crate::labels::Labels;
use cg_asm_directives::{Content, Order, Width, order_size, unfit_in, unfit_refusal, width_bytes};
use cg_base::{NoMemory, Refusal, Stop, Text, put_number, refusals};
use cg_model::Machine;
use cg_model_source::Sum;
use cg_syntax::{Part, put_instruction, said_alone};
use cg_syntax_choose::Index;
use cg_syntax_fit::{misfit_refusal, wrapped};
use std::alloc::Global;

/// A line that has its place.
#[derive(Drop)]
pub struct Laid {
    /// Its number, counted from 1.
    pub line: u64,
    /// Its address.
    pub address: u128,
    /// What it lays down.
    pub content: Content,
}

/// A refusal on a line. A line past 2^32 - 1 is said to be that one.
pub fn on_line(line: u64, mut refusal: Refusal) -> Refusal
    ensures { result ≡ faulting.on_line line refusal }
{
    refusal.file = 0;
    refusal.line = line.min(u32::MAX as u64) as u32;
    refusal
}

/// The first label of data that isn't defined.
#[tactic(auto, using(crate::proofs::JoiningLemmas::next_datum))]
fn undefined_data<'a>(labels: &Labels, sums: &'a [Sum]) -> Option<&'a Text>
    ensures { option_map (telling.said_alone 604) (option_copied result) ≡ told_first (undefined_sums labels.now sums.now) }
{
    for sum in sums {
        if let Some(label) = labels.undefined_of(sum) {
            return Some(label);
        }
    }
    None
}

/// The first label of a part of a bundle that isn't defined.
fn undefined_part<'a>(labels: &Labels, part: &'a Part) -> Option<&'a Text>
    ensures { option_map (telling.said_alone 604) (option_copied result) ≡ spec.undefined_part labels.now part.now }
{
    match part {
        Part::Stands { choice, .. } => labels.undefined_in(&choice.sums),
        _ => None,
    }
}

/// The first label of the parts of a bundle that isn't defined.
#[tactic(auto, using(crate::proofs::JoiningLemmas::next_undefined))]
fn undefined_parts<'a>(labels: &Labels, parts: &'a [Part]) -> Option<&'a Text>
    ensures { option_map (telling.said_alone 604) (option_copied result) ≡ spec.undefined_parts labels.now parts.now }
{
    for part in parts {
        if let Some(label) = undefined_part(labels, part) {
            return Some(label);
        }
    }
    None
}

/// The first label of a line that isn't defined.
fn undefined_in<'a>(labels: &Labels, content: &'a Content) -> Option<&'a Text>
    ensures { option_map (telling.said_alone 604) (option_copied result) ≡ spec.undefined_in labels.now content.now }
{
    match content {
        Content::Directive(Order::Data { sums, .. }) => undefined_data(labels, sums.as_slice()),
        Content::Directive(_) => None,
        Content::Bundle(parts) => undefined_parts(labels, parts.as_slice()),
    }
}

/// Puts the number of a sum behind others, and answers it where it does not fit.
#[tactic(auto, using(crate::proofs::JoiningLemmas::datum))]
fn put_datum(
    machine: &Machine,
    labels: &Labels,
    width: Width,
    sum: &Sum,
    out: &mut Vec<u8>,
) -> Result<Option<i128>, NoMemory>
    ensures unfit { IfOk result (λ unfit. unfit ≡ faulting.unfit_in width (number_with labels.now sum.now)) }
    ensures bytes { OnOk result (out.new.items ≡ out.old.items ++ spec.datum_bytes machine.now labels.now width sum.now) }
{
    let number = labels.number_with(sum)?;
    let count = width_bytes(width);
    let mut bytes = [0; 8];
    let value = wrapped(8 * count, number);
    put_number(&mut bytes, 0, count, machine.data_endian, value);
    out.extend_from_slice(&bytes[..count as usize])?;
    Ok(unfit_in(width, number))
}

/// Puts data behind others, and answers the first number that does not fit.
#[tactic(auto, using(crate::proofs::JoiningLemmas::numbering))]
fn put_data(
    machine: &Machine,
    labels: &Labels,
    width: Width,
    sums: &[Sum],
    out: &mut Vec<u8>,
) -> Result<Option<i128>, NoMemory>
    ensures unfit { IfOk result (λ unfit. unfit ≡ spec.first_unfit_with labels.now width sums.now) }
    ensures bytes { OnOk result (out.new.items ≡ out.old.items ++ spec.data_bytes machine.now labels.now width sums.now) }
{
    let mut first = None;
    for sum in sums {
        let unfit = put_datum(machine, labels, width, sum, out)?;
        first = first.or(unfit);
    }
    Ok(first)
}

/// Puts so many zeros behind others.
#[tactic(auto, using(crate::proofs::JoiningLemmas::zeros))]
fn put_zeros(count: u128, out: &mut Vec<u8>) -> Result<(), NoMemory>
    ensures { OnOk result (out.new.items ≡ out.old.items ++ replicate count 0) }
{
    if count > u32::MAX as u128 {
        return Err(NoMemory);
    }
    let len = out.len().checked_add(count as usize).ok_or(NoMemory)?;
    out.resize(len, 0u8)?;
    Ok(())
}

/// Puts what a directive lays down at an address behind others, and answers E605 of it.
fn put_order(
    alloc: Global,
    machine: &Machine,
    labels: &Labels,
    address: u128,
    order: &Order,
    out: &mut Vec<u8>,
) -> Result<Option<Refusal>, NoMemory>
    ensures unfit { IfOk result (λ refusal. refusal ≡ spec.unfit_order labels.now order.now) }
    ensures bytes { OnOk result (out.new.items ≡ out.old.items ++ spec.order_bytes machine.now labels.now address order.now) }
{
    match order {
        Order::Data { name, width, sums } => {
            match put_data(machine, labels, *width, sums.as_slice(), out)? {
                Some(value) => Ok(Some(unfit_refusal(
                    alloc,
                    refusals::LABEL_OUT_OF_RANGE,
                    name,
                    value,
                )?)),
                None => Ok(None),
            }
        }
        Order::Bytes(text) => {
            out.extend_from_slice(text.as_slice())?;
            Ok(None)
        }
        _ => {
            put_zeros(order_size(address, order), out)?;
            Ok(None)
        }
    }
}

/// Puts the bytes of a part of a bundle behind others, and answers E605 of it. Another part follows or not.
#[tactic(auto, using(crate::proofs::JoiningLemmas::part))]
fn put_part(
    alloc: Global,
    machine: &Machine,
    index: &Index,
    labels: &Labels,
    part: &Part,
    more: bool,
    out: &mut Vec<u8>,
) -> Result<Option<Refusal>, NoMemory>
    requires sound { IsSound machine.now }
    requires bundle { HasBundleBit machine.now }
    requires index { IsIndex machine.now index.now }
    requires within { IsWithin machine.now part.now }
    ensures unfit { IfOk result (λ refusal. refusal ≡ spec.unfit_part machine.now labels.now part.now) }
    ensures bytes { OnOk result (out.new.items ≡ out.old.items ++ spec.part_bytes machine.now labels.now part.now more) }
{
    let Part::Stands { address, choice } = part else {
        return Ok(None);
    };
    let numbers = labels.numbers_with(alloc, &choice.sums)?;
    let numbers = numbers.as_slice();
    match put_instruction(alloc, machine, index, choice, numbers, *address, more, out)? {
        Some(misfit) => Ok(Some(misfit_refusal(
            alloc,
            machine,
            refusals::LABEL_OUT_OF_RANGE,
            misfit,
        )?)),
        None => Ok(None),
    }
}

/// Puts the bytes of a bundle behind others, and answers the first E605 of it.
#[tactic(auto, using(crate::proofs::JoiningLemmas::parts))]
fn put_parts(
    alloc: Global,
    machine: &Machine,
    index: &Index,
    labels: &Labels,
    parts: &[Part],
    out: &mut Vec<u8>,
) -> Result<Option<Refusal>, NoMemory>
    requires sound { IsSound machine.now }
    requires bundle { HasBundleBit machine.now }
    requires index { IsIndex machine.now index.now }
    requires within { AreWithin machine.now parts.now }
    ensures unfit { IfOk result (λ refusal. refusal ≡ spec.unfit_parts machine.now labels.now parts.now) }
    ensures bytes { OnOk result (out.new.items ≡ out.old.items ++ spec.parts_bytes machine.now labels.now parts.now) }
{
    let mut first = None;
    for k in 0..parts.len() {
        let more = k + 1 < parts.len();
        let unfit = put_part(alloc, machine, index, labels, &parts[k], more, out)?;
        first = first.or(unfit);
    }
    Ok(first)
}

/// Puts what a line lays down behind others, and answers E605 of it.
fn put_content(
    alloc: Global,
    machine: &Machine,
    index: &Index,
    labels: &Labels,
    laid: &Laid,
    out: &mut Vec<u8>,
) -> Result<Option<Refusal>, NoMemory>
    requires sound { IsSound machine.now }
    requires bundle { HasBundleBit machine.now }
    requires index { IsIndex machine.now index.now }
    requires within { spec.ContentWithin machine.now laid.now.content }
    ensures unfit { IfOk result (λ refusal. refusal ≡ spec.unfit_content machine.now labels.now laid.now.content) }
    ensures bytes { OnOk result (out.new.items ≡ out.old.items ++ spec.content_bytes machine.now labels.now laid.now.address laid.now.content) }
{
    match &laid.content {
        Content::Directive(order) => put_order(alloc, machine, labels, laid.address, order, out),
        Content::Bundle(parts) => {
            put_parts(alloc, machine, index, labels, parts.as_slice(), out)
        }
    }
}

/// Puts a line behind others, or answers what is wrong with it now that all labels are known.
#[tactic(auto, using(crate::proofs::JoiningLemmas::line))]
fn put_line(
    alloc: Global,
    machine: &Machine,
    index: &Index,
    labels: &Labels,
    laid: &Laid,
    out: &mut Vec<u8>,
) -> Result<(), Stop>
    requires sound { IsSound machine.now }
    requires bundle { HasBundleBit machine.now }
    requires index { IsIndex machine.now index.now }
    requires within { spec.ContentWithin machine.now laid.now.content }
    ensures { Gives (spec.line_put machine.now labels.now laid.now out.old.items) (leaving out.new.items result) }
{
    if let Some(label) = undefined_in(labels, &laid.content) {
        let refusal = said_alone(alloc, refusals::NO_LABEL, label.as_slice())?;
        return Err(Stop::Refused(on_line(laid.line, refusal)));
    }
    match put_content(alloc, machine, index, labels, laid, out)? {
        Some(refusal) => Err(Stop::Refused(on_line(laid.line, refusal))),
        None => Ok(()),
    }
}

/// The bytes of lines in their places, or what is wrong with the first that is at fault now.
#[tactic(auto, using(crate::proofs::JoiningLemmas::lines))]
pub fn lines_put(
    alloc: Global,
    machine: &Machine,
    index: &Index,
    labels: &Labels,
    lines: &[Laid],
) -> Result<Vec<u8>, Stop>
    requires sound { IsSound machine.now }
    requires bundle { HasBundleBit machine.now }
    requires index { IsIndex machine.now index.now }
    requires within { spec.AllWithin machine.now lines.now }
    ensures { Answered (λ bytes. spec.lines_put machine.now labels.now lines.now [] ≡ Ok bytes.items) (λ refusal. spec.lines_put machine.now labels.now lines.now [] ≡ Err refusal) result }
{
    let mut out = Vec::new(alloc);
    for laid in lines {
        put_line(alloc, machine, index, labels, laid, &mut out)?;
    }
    Ok(out)
}
