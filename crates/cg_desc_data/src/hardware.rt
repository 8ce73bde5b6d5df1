//! The hardware of a machine.

ghost use Rattle.std.specs.Prelude.{◌≡◌, ◌++◌, IfOk, OnOk};
ghost use Rattle.std.specs.Option.{option_copied, option_map};
ghost use Rattle.cg_desc_data.specs.Seen.{seen};
ghost use Rattle.cg_desc_data.specs.Hardware as spec;

use crate::extent::mode_or_uint;
use crate::framing::Framing;
use crate::keywords::words;
use crate::members::hardware_member;
use crate::selecting::Selection;
use cg_base::{Form, List, Mode, NoMemory, Text, address_mode, only_natural};
use cg_hw::HardwareForm;
use cg_model::{Hardware, HwKind};
use cg_rtl::first_symbol;
use std::alloc::Global;

/// The kind that a type's word says.
fn kind_named(word: &[u8]) -> HwKind
    ensures { result ≡ spec.kind_named word.now }
{
    match word {
        b"register" => HwKind::Register,
        b"memory" => HwKind::Memory,
        b"pc" => HwKind::Pc,
        b"immediate" => HwKind::Immediate,
        _ => HwKind::Address,
    }
}

/// The word for a mode: `MODE`, or `(MODE n)`.
fn mode_word_of(form: &Form) -> Option<&Text>
    ensures { option_copied result ≡ spec.mode_word_of form.now }
{
    match form.symbol() {
        Some(word) => Some(word),
        None => match form.elements() {
            Some(elements) => first_symbol(elements),
            None => None,
        },
    }
}

/// The word for the mode behind a type's word.
fn mode_word(forms: &[Form]) -> Option<&Text>
    ensures { option_copied result ≡ spec.mode_word forms.now }
{
    match forms {
        [form, ..] => mode_word_of(form),
        _ => None,
    }
}

/// The mode of hardware of this kind.
fn mode_by(framing: &Framing, kind: HwKind, forms: &[Form]) -> Mode
    ensures { result ≡ spec.mode_by framing.now kind forms.now }
{
    match kind {
        HwKind::Register | HwKind::Immediate => mode_or_uint(framing, mode_word(forms)),
        _ => address_mode(framing.word_bits),
    }
}

/// The count that stands in a list of its own, and 1 where there is none.
fn count_in(form: &Form) -> u64
    ensures { result ≡ spec.count_in form.now }
{
    match form.elements() {
        Some(elements) => only_natural(elements).unwrap_or(1),
        None => 1,
    }
}

/// How many cells are written behind a register's type.
fn cells_written(forms: &[Form]) -> u64
    ensures { result ≡ spec.cells_written forms.now }
{
    match forms {
        [_, count, ..] => count_in(count),
        _ => 1,
    }
}

/// How many cells hardware of this kind has.
fn cells_by(kind: HwKind, forms: &[Form]) -> u64
    ensures { result ≡ spec.cells_by kind forms.now }
{
    match kind {
        HwKind::Register => cells_written(forms),
        _ => 0,
    }
}

/// What a type says: its word, and what stands behind it.
fn type_of(form: &HardwareForm) -> (&[u8], &[Form])
    ensures { (result.0.now, result.1.now) ≡ spec.type_of form.now }
{
    match form.kind.headed() {
        Some((word, forms)) => (word.as_slice(), forms),
        None => (&[], &[]),
    }
}

/// How many cells hardware has: as many as are written for a register, one where none are, and none
/// for all else (docs/LANGUAGE.md, "Hardware").
pub fn cells_of(form: &HardwareForm) -> u64
    ensures { result ≡ spec.cells_of form.now }
{
    let (word, forms) = type_of(form);
    cells_by(kind_named(word), forms)
}

/// A count as a machine keeps it: 2^32 - 1 at most.
fn counted(count: u64) -> u32
    ensures { result ≡ spec.counted count }
{
    if count < 4294967295 {
        count as u32
    } else {
        4294967295
    }
}

/// The hardware of a form, without its rules. Its words are those of its indices, else of its values
/// (docs/LANGUAGE.md, "Hardware").
pub fn hardware_of(
    alloc: Global,
    selection: &Selection,
    framing: &Framing,
    form: &HardwareForm,
) -> Result<Hardware, NoMemory>
    ensures { IfOk result (λ hardware. hardware ≡ spec.hardware_of (seen selection.now) framing.now form.now) }
{
    let (word, forms) = type_of(form);
    let kind = kind_named(word);
    Ok(Hardware {
        name: form.name.clone()?,
        kind,
        mode: mode_by(framing, kind, forms),
        count: counted(cells_by(kind, forms)),
        keyword: words(alloc, selection, form)?,
        get: None,
        set: None,
    })
}

/// Hardware that has neither cells nor words.
fn plain_hardware(
    alloc: Global,
    name: &[u8],
    kind: HwKind,
    mode: Mode,
) -> Result<Hardware, NoMemory>
    ensures { IfOk result (λ hardware. hardware ≡ spec.plain_hardware name.now kind mode) }
{
    Ok(Hardware {
        name: Text::of(alloc, name)?,
        kind,
        mode,
        count: 0,
        keyword: None,
        get: None,
        set: None,
    })
}

/// What is built in.
pub fn built_in(alloc: Global, framing: &Framing) -> Result<List<Hardware>, NoMemory>
    ensures { IfOk result (λ list. list ≡ spec.built_in framing.now) }
{
    let address = address_mode(framing.word_bits);
    let mut list = List::new(alloc);
    list.push(plain_hardware(alloc, b"h-memory", HwKind::Memory, address)?)?;
    list.push(plain_hardware(alloc, b"h-sint", HwKind::Immediate, Mode::Si)?)?;
    list.push(plain_hardware(alloc, b"h-uint", HwKind::Immediate, Mode::Usi)?)?;
    list.push(plain_hardware(alloc, b"h-addr", HwKind::Address, address)?)?;
    list.push(plain_hardware(alloc, b"h-iaddr", HwKind::Address, address)?)?;
    Ok(list)
}

/// The hardware of a machine without its rules: what is built in, and then in the order of the
/// description (docs/LANGUAGE.md, "Machines").
pub fn hardware_list(
    alloc: Global,
    selection: &Selection,
    framing: &Framing,
) -> Result<List<Hardware>, NoMemory>
    ensures { IfOk result (λ list. list ≡ spec.hardware_list (seen selection.now) framing.now) }
{
    let mut list = built_in(alloc, framing)?;
    for element in selection.elements {
        if let Some(form) = hardware_member(selection, element) {
            list.push(hardware_of(alloc, selection, framing, form)?)?;
        }
    }
    Ok(list)
}
