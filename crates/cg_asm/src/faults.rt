//! What is wrong with a line while labels aren't known.

ghost use Rattle.std.specs.Prelude.{◌≡◌, ◌≤◌, IfOk};
ghost use Rattle.std.specs.Option.{option_map, option_or};
ghost use Rattle.cg_asm.specs.Faulting as spec;
ghost use Rattle.cg_asm_directives.specs.Faulting.{told_first};
ghost use Rattle.cg_base.specs.Texts.{seen_text};
ghost use Rattle.cg_model_source.specs.Choosing.{known};
ghost use Rattle.cg_model_source.specs.E603.{taken_label};
ghost use Rattle.cg_model_source.specs.E607.{too_large};
ghost use Rattle.cg_syntax.specs.Faulting as telling;
ghost use Rattle.cg_syntax.specs.Telling.{first_refused};

use cg_asm_directives::{Content, Order, Width, unfit_in, unfit_refusal};
use cg_asm_labels::Labels;
use cg_base::{NoMemory, Refusal, Text, decimal, hex, refusals};
use cg_model::Machine;
use cg_model_source::Sum;
use cg_syntax::{Part, first_refused, has_empty, said_alone};
use cg_syntax_spelling::Keywords;
use std::alloc::Global;

/// Where a line stands.
#[derive(Clone, Copy)]
pub(crate) struct Place {
    /// The address at which the image begins.
    pub(crate) base: u64,
    /// The line's own address.
    pub(crate) address: u128,
    /// The address behind it.
    pub(crate) end: u128,
}

/// The number of a sum that does not fit so many bytes, where the sum has no label.
fn unfit_sum(width: Width, sum: &Sum) -> Option<i128>
    ensures { result ≡ spec.unfit_known width (known sum.now) }
{
    match sum.terms.as_slice() {
        [] => unfit_in(width, sum.number),
        _ => None,
    }
}

/// The first such number of sums.
fn first_unfit(width: Width, sums: &[Sum]) -> Option<i128>
    ensures { result ≡ spec.first_unfit width sums.now }
{
    for sum in sums {
        if let Some(number) = unfit_sum(width, sum) {
            return Some(number);
        }
    }
    None
}

/// E602 of a directive.
fn unfit_data(alloc: Global, order: &Order) -> Result<Option<Refusal>, NoMemory>
    ensures { IfOk result (λ refusal. refusal ≡ spec.unfit_data order.now) }
{
    if let Order::Data { name, width, sums } = order {
        if let Some(value) = first_unfit(*width, sums.as_slice()) {
            return Ok(Some(unfit_refusal(alloc, refusals::OUT_OF_RANGE, name, value)?));
        }
    }
    Ok(None)
}

/// E601 and E602 of the parts of a bundle.
fn unfit_texts(parts: &[Part]) -> Result<Option<Refusal>, NoMemory>
    ensures { IfOk result (λ refusal. refusal ≡ option_or (first_refused 601 parts.now) (first_refused 602 parts.now)) }
{
    if let Some(refusal) = first_refused(refusals::NO_STATEMENT, parts) {
        return Ok(Some(refusal.clone()?));
    }
    if let Some(refusal) = first_refused(refusals::OUT_OF_RANGE, parts) {
        return Ok(Some(refusal.clone()?));
    }
    Ok(None)
}

/// E601 and E602 of what a line lays down.
fn text_fault(alloc: Global, content: &Content) -> Result<Option<Refusal>, NoMemory>
    ensures { IfOk result (λ refusal. refusal ≡ spec.text_fault content.now) }
{
    match content {
        Content::Directive(order) => Ok(unfit_data(alloc, order)?),
        Content::Bundle(parts) => Ok(unfit_texts(parts.as_slice())?),
    }
}

/// E603: a label that is defined already, or that is a word of the machine.
fn label_fault(
    alloc: Global,
    keywords: &Keywords,
    labels: &Labels,
    label: Option<&[u8]>,
) -> Result<Option<Refusal>, NoMemory>
    ensures { IfOk result (λ refusal. refusal ≡ told_first (taken_label keywords.now labels.now (option_map seen_text label.entry))) }
{
    let Some(name) = label else {
        return Ok(None);
    };
    let text = Text::of(alloc, name)?;
    if labels.address(&text).is_some() {
        return Ok(Some(said_alone(alloc, refusals::LABEL_TAKEN, name)?));
    }
    if keywords.has(alloc, name)? {
        return Ok(Some(said_alone(alloc, refusals::LABEL_TAKEN, name)?));
    }
    Ok(None)
}

/// E606: an `.org` below the address.
fn origin_fault(
    alloc: Global,
    address: u128,
    content: &Content,
) -> Result<Option<Refusal>, NoMemory>
    ensures { IfOk result (λ refusal. refusal ≡ spec.origin_fault address content.now) }
{
    if let Content::Directive(Order::Origin(number)) = content {
        if (*number as u128) < address {
            let text = hex(alloc, *number)?;
            return Ok(Some(said_alone(alloc, refusals::ORG_BACK, text.as_slice())?));
        }
    }
    Ok(None)
}

/// E607: the image from a base on passes 1 MiB, or its end the machine's addresses.
pub(crate) fn size_fault(
    alloc: Global,
    machine: &Machine,
    base: u64,
    end: u128,
) -> Result<Option<Refusal>, NoMemory>
    requires { machine.now.word_bits ≤ 64 }
    ensures { IfOk result (λ refusal. refusal ≡ told_first (too_large machine.now.word_bits base end)) }
{
    if end.saturating_sub(base as u128) > 1 << 20 || end > 1 << machine.word_bits {
        return Ok(Some(said_alone(alloc, refusals::LARGE_IMAGE, b"image")?));
    }
    Ok(None)
}

/// E608 and E609 of the parts of a bundle.
fn bundle_fault(
    alloc: Global,
    machine: &Machine,
    parts: &[Part],
) -> Result<Option<Refusal>, NoMemory>
    ensures { IfOk result (λ refusal. refusal ≡ option_or (telling.where_empty parts.now) (telling.where_wide machine.now.width parts.now)) }
{
    if has_empty(parts) {
        return Ok(Some(said_alone(alloc, refusals::STRANGE_LINE, b"line")?));
    }
    if parts.len() > machine.width as usize {
        let width = decimal(alloc, machine.width as i128)?;
        return Ok(Some(said_alone(alloc, refusals::WIDE_BUNDLE, width.as_slice())?));
    }
    Ok(None)
}

/// E608 and E609 of what a line lays down.
fn form_fault(
    alloc: Global,
    machine: &Machine,
    content: &Content,
) -> Result<Option<Refusal>, NoMemory>
    ensures { IfOk result (λ refusal. refusal ≡ spec.form_fault machine.now.width content.now) }
{
    match content {
        Content::Directive(Order::Malformed(name)) => {
            Ok(Some(said_alone(alloc, refusals::STRANGE_LINE, name.as_slice())?))
        }
        Content::Directive(_) => Ok(None),
        Content::Bundle(parts) => Ok(bundle_fault(alloc, machine, parts.as_slice())?),
    }
}

/// What is wrong with what a line lays down at an address, in front of an end: the least number of E601 to
/// E603 and E606 to E609. The image begins at a base.
pub(crate) fn content_fault(
    alloc: Global,
    machine: &Machine,
    keywords: &Keywords,
    labels: &Labels,
    label: Option<&[u8]>,
    content: &Content,
    place: Place,
) -> Result<Option<Refusal>, NoMemory>
    requires { machine.now.word_bits ≤ 64 }
    ensures { IfOk result (λ refusal. refusal ≡ spec.content_fault machine.now keywords.now place.base place.address place.end labels.now (option_map seen_text label.entry) content.now) }
{
    if let Some(refusal) = text_fault(alloc, content)? {
        return Ok(Some(refusal));
    }
    if let Some(refusal) = label_fault(alloc, keywords, labels, label)? {
        return Ok(Some(refusal));
    }
    if let Some(refusal) = origin_fault(alloc, place.address, content)? {
        return Ok(Some(refusal));
    }
    if let Some(refusal) = size_fault(alloc, machine, place.base, place.end)? {
        return Ok(Some(refusal));
    }
    Ok(form_fault(alloc, machine, content)?)
}
