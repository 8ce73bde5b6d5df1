//! What directives say.

ghost use Rattle.std.specs.Prelude.{◌≡◌, ◌≤◌, ◌==◌, ◌&&◌, not, map, IfOk};
ghost use Rattle.std.specs.List.{list_all};
ghost use Rattle.std.specs.Option.{option_copied};
ghost use Rattle.cg_asm_directives.specs.Telling.{told_order, width_bytes, room_order, one_set_order};
ghost use Rattle.cg_base.specs.Texts.{seen_text};
ghost use Rattle.cg_model_source.specs.Sourcing as spec;

use cg_base::{List, NoMemory, Text, read_number};
use cg_model_source::Sum;
use cg_syntax_lines::comma_texts;
use cg_syntax_spelling::{Keywords, sum_of};
use std::alloc::Global;

/// How wide the numbers of a directive are.
#[derive(Clone, Copy)]
pub enum Width {
    /// `.byte`.
    Byte,
    /// `.half`.
    Half,
    /// `.word`.
    Word,
}

/// How many bytes a number has.
pub fn width_bytes(width: Width) -> u8
    ensures value { result ≡ width_bytes width }
    ensures some { 1 ≤ result }
    ensures few { result ≤ 4 }
{
    match width {
        Width::Byte => 1,
        Width::Half => 2,
        Width::Word => 4,
    }
}

/// What a directive says (docs/ASSEMBLY.md, "Sources").
#[derive(Drop)]
pub enum Order {
    /// Sums, each so wide.
    Data {
        /// The directive.
        name: Text,
        /// How wide each of them is.
        width: Width,
        /// The sums.
        sums: List<Sum>,
    },
    /// These bytes.
    Bytes(Text),
    /// So many zeros.
    Space(u64),
    /// Zeros up to this address.
    Origin(u64),
    /// Zeros up to a multiple of this number.
    Align(u64),
    /// It isn't as the directive is.
    Malformed(Text),
}

/// The sums that texts write. None where one of them is no sum.
#[tactic(auto, using(crate::proofs::OrderLemmas::summing))]
fn sums_of(
    alloc: Global,
    keywords: &Keywords,
    texts: &[&[u8]],
) -> Result<Option<List<Sum>>, NoMemory>
    ensures { IfOk result (λ sums. sums ≡ spec.sums_of keywords.now (map seen_text texts.now)) }
{
    let mut sums = List::new(alloc);
    for text in texts {
        match sum_of(alloc, keywords, *text)? {
            Some(sum) => sums.push(sum)?,
            None => return Ok(None),
        }
    }
    Ok(Some(sums))
}

/// Sums, separated by commas, each so wide.
#[tactic(auto, using(crate::proofs::OrderLemmas::ordering))]
fn data_order(
    alloc: Global,
    keywords: &Keywords,
    name: &[u8],
    width: Width,
    rest: &[u8],
) -> Result<Order, NoMemory>
    ensures { IfOk result (λ order. order ≡ told_order (spec.data_order keywords.now name.now (width_bytes width) rest.now)) }
{
    let texts = comma_texts(alloc, rest)?;
    let name = Text::of(alloc, name)?;
    match sums_of(alloc, keywords, texts.as_slice())? {
        Some(sums) => Ok(Order::Data { name, width, sums }),
        None => Ok(Order::Malformed(name)),
    }
}

/// Whether a text has no `"`.
fn has_no_quote(text: &[u8]) -> bool
    ensures { result ≡ list_all (λ b. not (b == 34)) text.now }
{
    text.iter().all(|byte| *byte != b'"')
}

/// Whether a text ends here, in front of a `"`, and has no other.
fn ends_here(front: &[u8], last: u8) -> bool
    ensures { result ≡ (last == 34 && list_all (λ b. not (b == 34)) front.now) }
{
    last == b'"' && has_no_quote(front)
}

/// What stands up to a `"` that ends a text.
#[tactic(auto, using(crate::proofs::OrderLemmas::quoting))]
fn up_to_quote(text: &[u8]) -> Option<&[u8]>
    ensures { option_copied result ≡ spec.up_to_quote text.now }
{
    let (last, front) = text.split_last()?;
    if ends_here(front, *last) {
        return Some(front);
    }
    None
}

/// What stands between two `"`.
fn quoted(text: &[u8]) -> Option<&[u8]>
    ensures { option_copied result ≡ spec.quoted text.now }
{
    match text {
        [b'"', rest @ ..] => up_to_quote(rest),
        _ => None,
    }
}

/// A text in `"`.
fn text_order(alloc: Global, name: &[u8], rest: &[u8]) -> Result<Order, NoMemory>
    ensures { IfOk result (λ order. order ≡ told_order (spec.text_order name.now rest.now)) }
{
    match quoted(rest) {
        Some(text) => Ok(Order::Bytes(Text::of(alloc, text)?)),
        None => Ok(Order::Malformed(Text::of(alloc, name)?)),
    }
}

/// So many zeros.
fn space_order(alloc: Global, name: &[u8], rest: &[u8]) -> Result<Order, NoMemory>
    ensures { IfOk result (λ order. order ≡ told_order (spec.space_order name.now rest.now)) }
{
    match read_number(rest) {
        Some(number) => Ok(Order::Space(number)),
        None => Ok(Order::Malformed(Text::of(alloc, name)?)),
    }
}

/// Zeros up to an address.
fn origin_order(alloc: Global, name: &[u8], rest: &[u8]) -> Result<Order, NoMemory>
    ensures { IfOk result (λ order. order ≡ told_order (spec.origin_order name.now rest.now)) }
{
    match read_number(rest) {
        Some(number) => Ok(Order::Origin(number)),
        None => Ok(Order::Malformed(Text::of(alloc, name)?)),
    }
}

/// Zeros up to a multiple of a number from 1 to 4,096.
fn align_order(alloc: Global, name: &[u8], rest: &[u8]) -> Result<Order, NoMemory>
    ensures { IfOk result (λ order. order ≡ told_order (spec.align_order name.now rest.now)) }
{
    match read_number(rest) {
        Some(number) if 1 <= number && number <= 4096 => Ok(Order::Align(number)),
        _ => Ok(Order::Malformed(Text::of(alloc, name)?)),
    }
}

/// What the directive of a name says that lays down zeros, with what stands behind the name.
fn room_order(alloc: Global, name: &[u8], rest: &[u8]) -> Result<Order, NoMemory>
    ensures { IfOk result (λ order. order ≡ told_order (room_order name.now rest.now)) }
{
    if name == b".space".as_slice() {
        return Ok(space_order(alloc, name, rest)?);
    }
    if name == b".org".as_slice() {
        return Ok(origin_order(alloc, name, rest)?);
    }
    if name == b".align".as_slice() {
        return Ok(align_order(alloc, name, rest)?);
    }
    Ok(Order::Malformed(Text::of(alloc, name)?))
}

/// What the directive of a name says, with what stands behind the name, in a source of one instruction set
/// (docs/ASSEMBLY.md, "Sources").
pub fn order_of(
    alloc: Global,
    keywords: &Keywords,
    name: &[u8],
    rest: &[u8],
) -> Result<Order, NoMemory>
    ensures { IfOk result (λ order. order ≡ told_order (one_set_order keywords.now name.now rest.now)) }
{
    if name == b".byte".as_slice() {
        return Ok(data_order(alloc, keywords, name, Width::Byte, rest)?);
    }
    if name == b".half".as_slice() {
        return Ok(data_order(alloc, keywords, name, Width::Half, rest)?);
    }
    if name == b".word".as_slice() {
        return Ok(data_order(alloc, keywords, name, Width::Word, rest)?);
    }
    if name == b".ascii".as_slice() {
        return Ok(text_order(alloc, name, rest)?);
    }
    Ok(room_order(alloc, name, rest)?)
}
