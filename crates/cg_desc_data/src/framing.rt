//! What the frames of a machine say.

ghost use Rattle.std.specs.Prelude.{◌≡◌, ◌≤◌, is_some};
ghost use Rattle.std.specs.Option.{option_copied};
ghost use Rattle.cg_desc_data.specs.Seen.{seen};
ghost use Rattle.cg_desc_data.specs.Framing as spec;

use crate::selecting::Selection;
use cg_attrs::{ArchForm, CpuForm, Frame, IsaForm};
use cg_base::{Endian, Text};
use cg_desc_elements::{Element, Namespace, selected_arch};
use cg_model::Alignment;

/// What the frames of a machine say: its arch, its cpu and its instruction set (docs/LANGUAGE.md,
/// "Selection"). Where one of them is lacking, which is a fault, it is made up for: bits are numbered
/// from the highest, the order of bytes is big, the word has 32 bits and the shortest instruction 8.
#[derive(Clone, Copy)]
pub struct Framing {
    /// Whether bits are numbered from the lowest.
    pub lsb0: bool,
    /// What happens to accesses that are not aligned.
    pub alignment: Alignment,
    /// The bits of the cpu's word, at least 8.
    pub word_bits: u8,
    /// The order of the bytes of an instruction's words.
    pub insn_endian: Endian,
    /// The order of the bytes of data.
    pub data_endian: Endian,
    /// The bits of the shortest instruction, at least 8.
    pub base_bits: u8,
    /// Whether the cpu and the instruction set are there.
    pub is_sized: bool,
}

/// The number from 0 to `most` that is nearest to a number.
pub fn cut(most: u16, number: i128) -> u16
    ensures value { result ≡ spec.cut most number }
    ensures within { result ≤ most }
{
    if number < 0 {
        0
    } else if number < most as i128 {
        number as u16
    } else {
        most
    }
}

/// A count of bits: 8 at least.
pub(crate) fn size(number: i64) -> u8
    ensures value { result ≡ spec.size number }
    ensures some { 8 ≤ result }
{
    let bits = cut(255, number as i128);
    if bits < 8 { 8 } else { bits as u8 }
}

/// The form of a cpu.
fn cpu_in(element: &Element) -> Option<&CpuForm>
    ensures { option_copied result ≡ spec.cpu_in element.now }
{
    match element {
        Element::Frame(Frame::Cpu(form)) => Some(form),
        _ => None,
    }
}

/// The form of an instruction set.
fn isa_in(element: &Element) -> Option<&IsaForm>
    ensures { option_copied result ≡ spec.isa_in element.now }
{
    match element {
        Element::Frame(Frame::Isa(form)) => Some(form),
        _ => None,
    }
}

/// The machine's cpu.
pub(crate) fn selected_cpu<'a>(selection: &Selection<'a>) -> Option<&'a CpuForm>
    ensures { option_copied result ≡ spec.selected_cpu (seen selection.now) }
{
    match selection.named(Namespace::Cpus, &selection.mach.cpu) {
        Some(element) => cpu_in(element),
        None => None,
    }
}

/// The instruction set of this name.
fn isa_named<'a>(selection: &Selection<'a>, name: &Text) -> Option<&'a IsaForm>
    ensures { option_copied result ≡ spec.isa_named (seen selection.now) name.now }
{
    match selection.named(Namespace::Isas, name) {
        Some(element) => isa_in(element),
        None => None,
    }
}

/// The form of the machine's instruction set. None where there is none.
pub fn isa_form<'a>(selection: &Selection<'a>) -> Option<&'a IsaForm>
    ensures { option_copied result ≡ spec.isa_form (seen selection.now) }
{
    match selection.isa {
        Some(name) => isa_named(selection, name),
        None => None,
    }
}

/// Whether bits are numbered from the lowest.
fn lsb0_in(arch: Option<&ArchForm>) -> bool
    ensures { result ≡ spec.lsb0_in (option_copied arch.entry) }
{
    match arch {
        Some(form) => form.insn_lsb0.unwrap_or(false),
        None => false,
    }
}

/// What happens to accesses that are not aligned.
fn alignment_named(word: &[u8]) -> Alignment
    ensures { result ≡ spec.alignment_named word.now }
{
    match word {
        b"unaligned" => Alignment::Unaligned,
        b"forced" => Alignment::Forced,
        _ => Alignment::Aligned,
    }
}

/// What happens to accesses that are not aligned.
fn alignment_in(arch: Option<&ArchForm>) -> Alignment
    ensures { result ≡ spec.alignment_in (option_copied arch.entry) }
{
    match arch {
        Some(form) => match &form.default_alignment {
            Some(word) => alignment_named(word.as_slice()),
            None => Alignment::Aligned,
        },
        None => Alignment::Aligned,
    }
}

/// The order of bytes that a word says.
fn endian_named(word: &[u8]) -> Endian
    ensures { result ≡ spec.endian_named word.now }
{
    match word {
        b"little" => Endian::Little,
        _ => Endian::Big,
    }
}

/// The order of the bytes of an instruction's words.
fn insn_endian_in(cpu: Option<&CpuForm>) -> Endian
    ensures { result ≡ spec.endian_in (option_copied cpu.entry) (λ form. form.insn_endian) }
{
    match cpu {
        Some(form) => match &form.insn_endian {
            Some(word) => endian_named(word.as_slice()),
            None => endian_named(form.endian.as_slice()),
        },
        None => Endian::Big,
    }
}

/// The order of the bytes of data.
fn data_endian_in(cpu: Option<&CpuForm>) -> Endian
    ensures { result ≡ spec.endian_in (option_copied cpu.entry) (λ form. form.data_endian) }
{
    match cpu {
        Some(form) => match &form.data_endian {
            Some(word) => endian_named(word.as_slice()),
            None => endian_named(form.endian.as_slice()),
        },
        None => Endian::Big,
    }
}

/// The bits of the cpu's word.
fn word_bits_in(cpu: Option<&CpuForm>) -> u8
    ensures { result ≡ spec.word_bits_in (option_copied cpu.entry) }
{
    match cpu {
        Some(form) => size(form.word_bitsize),
        None => 32,
    }
}

/// The bits of the shortest instruction.
fn base_bits_in(isa: Option<&IsaForm>) -> u8
    ensures { result ≡ spec.base_bits_in (option_copied isa.entry) }
{
    match isa {
        Some(form) => size(form.base_insn_bitsize),
        None => 8,
    }
}

/// What these frames say.
fn framed(arch: Option<&ArchForm>, cpu: Option<&CpuForm>, isa: Option<&IsaForm>) -> Framing
    ensures { result ≡ spec.framing_of (option_copied arch.entry) (option_copied cpu.entry) (option_copied isa.entry) }
{
    Framing {
        lsb0: lsb0_in(arch),
        alignment: alignment_in(arch),
        word_bits: word_bits_in(cpu),
        insn_endian: insn_endian_in(cpu),
        data_endian: data_endian_in(cpu),
        base_bits: base_bits_in(isa),
        is_sized: cpu.is_some() && isa.is_some(),
    }
}

/// What the frames of a machine say.
pub fn framing_of(selection: &Selection) -> Framing
    ensures { result ≡ spec.framing (seen selection.now) }
{
    framed(
        selected_arch(selection.elements, selection.machine),
        selected_cpu(selection),
        isa_form(selection),
    )
}
