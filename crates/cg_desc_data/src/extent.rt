//! Where a field lies.

ghost use Rattle.std.specs.Prelude.{◌≡◌, ◌^◌, nat_lt, IfOk};
ghost use Rattle.std.specs.Option.{option_copied};
ghost use Rattle.cg_desc_data.specs.Extents as spec;

use crate::framing::{Framing, cut, size};
use cg_base::{Mode, NoMemory, Text, bits};
use cg_ifield::PlainForm;
use cg_model::Field;
use cg_rtl_resolve::mode_named;

/// A word of an instruction, and a bit in it.
#[derive(Clone, Copy)]
pub(crate) struct Word {
    /// Where it begins: a bit of the instruction.
    pub(crate) offset: u16,
    /// Its bits.
    pub(crate) bits: u8,
    /// The number of the first bit of a field, as bits are numbered.
    pub(crate) start: u16,
}

/// Where a field lies as its form says, with numbers of any size (docs/LANGUAGE.md, "Fields").
#[derive(Clone, Copy)]
pub struct Extent {
    /// Where its word begins: a bit of the instruction.
    pub word_offset: u16,
    /// The bits of its word, 8 at least.
    pub word_bits: u8,
    /// The bit of its word behind its highest, counted from the lowest.
    pub top: i32,
    /// Its bits, as they are written.
    pub length: i64,
    /// Its mode.
    pub mode: Mode,
}

/// The mode that is written, and UINT where none is.
pub(crate) fn mode_or_uint(framing: &Framing, word: Option<&Text>) -> Mode
    ensures { result ≡ spec.mode_or_uint framing.now (option_copied word.entry) }
{
    match word {
        Some(word) => match mode_named(framing.word_bits, word.as_slice()) {
            Some(mode) => mode,
            None => Mode::Usi,
        },
        None => Mode::Usi,
    }
}

/// The word of a field that names none.
fn base_word(framing: &Framing, start: u16) -> Word
    ensures { result ≡ spec.base_word framing.now start }
{
    let bits = framing.base_bits as u16;
    if framing.lsb0 {
        return Word {
            offset: 0,
            bits: framing.base_bits,
            start,
        };
    }
    let offset = start.checked_div(bits).unwrap_or(0) * bits;
    Word {
        offset,
        bits: framing.base_bits,
        start: start - offset,
    }
}

/// The word of a field.
fn word_of(framing: &Framing, form: &PlainForm) -> Word
    ensures { result ≡ spec.word_of framing.now form.now }
{
    let start = cut(65535, form.start as i128);
    match (form.word_offset, form.word_length) {
        (Some(offset), Some(length)) => Word {
            offset: cut(65535, offset as i128),
            bits: size(length),
            start,
        },
        _ => base_word(framing, start),
    }
}

/// The bit of a word behind the highest one of a field whose first is this.
fn top_in(lsb0: bool, word: Word) -> i32
    ensures { result ≡ spec.top_in lsb0 word }
{
    if lsb0 {
        word.start as i32 + 1
    } else {
        word.bits as i32 - word.start as i32
    }
}

/// Where the field of a form lies.
pub fn extent_of(framing: &Framing, form: &PlainForm) -> Extent
    ensures { result ≡ spec.extent_of framing.now form.now }
{
    let word = word_of(framing, form);
    Extent {
        word_offset: word.offset,
        word_bits: word.bits,
        top: top_in(framing.lsb0, word),
        length: form.length,
        mode: mode_or_uint(framing, form.mode.as_ref()),
    }
}

/// Whether a field has a bit at least, lies in its word, and is no longer than its mode. Where it
/// doesn't, it is E309 (docs/REFUSALS.md).
pub fn has_place(extent: &Extent) -> bool
    ensures { result ≡ spec.has_place extent.now }
{
    1 <= extent.length
        && extent.length <= extent.top as i64
        && extent.top <= extent.word_bits as i32
        && extent.length <= bits(extent.mode) as i64
}

/// Whether a number is below 2^length.
#[tactic(auto, using(crate::proofs::Powers::below_all))]
fn fits(number: u64, length: u64) -> bool
    ensures { result ≡ nat_lt number (2 ^ length) }
{
    if length >= 64 {
        return true;
    }
    (number as u128) < 1u128 << length
}

/// Whether a number may be a constant of a field: it is from 0 to 2^length - 1. Where it isn't, it is
/// E311 (docs/REFUSALS.md).
pub fn is_constant(extent: &Extent, number: i64) -> bool
    ensures { result ≡ spec.is_constant extent.now number }
{
    if number < 0 || extent.length < 0 {
        return false;
    }
    fits(number as u64, extent.length as u64)
}

/// The lowest of the field's bits that lie in its word.
fn low(extent: &Extent) -> u8
    ensures { result ≡ spec.low extent.now }
{
    cut(
        extent.word_bits as u16,
        extent.top as i128 - extent.length as i128,
    ) as u8
}

/// How many of the field's bits lie in its word.
fn length_within(extent: &Extent) -> u8
    ensures { result ≡ spec.length_within extent.now }
{
    let top = cut(extent.word_bits as u16, extent.top as i128) as u8;
    top.saturating_sub(low(extent))
}

/// The field that lies so.
fn field_at(name: &Text, extent: &Extent) -> Result<Field, NoMemory>
    ensures { IfOk result (λ field. field ≡ spec.field_at name.now extent.now) }
{
    Ok(Field {
        name: name.clone()?,
        word_offset: extent.word_offset,
        word_bits: extent.word_bits,
        shift: low(extent),
        length: length_within(extent),
        mode: extent.mode,
        encode: None,
        decode: None,
    })
}

/// The field of a form, without its rules: what of it lies in its word (docs/LANGUAGE.md, "Fields").
pub fn field_of(framing: &Framing, form: &PlainForm) -> Result<Field, NoMemory>
    ensures { IfOk result (λ field. field ≡ spec.field_of framing.now form.now) }
{
    field_at(&form.name, &extent_of(framing, form))
}
