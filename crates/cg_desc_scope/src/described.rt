//! What a description says of a machine before its expressions are read.

ghost use Rattle.std.specs.Prelude.{◌≡◌, ◌++◌, map, IfOk, OnOk};
ghost use Rattle.cg_desc_data.specs.Seen.{seen, seen_numbering, seen_numbers};
ghost use Rattle.cg_desc_scope.specs.Described as spec;
ghost use Rattle.cg_desc_scope.specs.Bare.{bare_names, bare_operand};
ghost use Rattle.cg_desc_scope.specs.Seen.{forms_of, seen_described};

use crate::bare::{bare_names, bare_operand};
use crate::first_model;
use crate::texts::error_texts;
use cg_attrs::ModelForm;
use cg_base::{List, NoMemory, Text, Top};
use cg_desc_choices::Written;
use cg_desc_data::{
    Framing, Numbering, Numbers, Selection, constants, field_names, fields_of, framing_of,
    hardware_list, hardware_names, multi_names, multis_of, numbers_of, operand_names, operands_of,
};
use cg_desc_insns::expanded;
use cg_desc_names::Item;
use cg_model::{Field, Hardware, Multi, Operand};
use cg_rtl_resolve::{EnumValue, Rule, Scope};
use std::alloc::Global;

/// What a description says of a machine before its expressions are read: all that their names stand for.
#[derive(Drop)]
pub struct Described<'a> {
    /// What the machine is selected from.
    pub selection: Selection<'a>,
    /// What its frames say.
    pub framing: Framing,
    /// Its first model, by which its instructions take their time.
    pub model: Option<&'a ModelForm>,
    /// The numbers of fields, multi fields and hardware.
    pub numbers: Numbers,
    /// The numbers of operands: those that have forms of their own, and then those that bare fields stand
    /// for.
    pub operand_numbers: Numbering,
    /// Its instructions as they are written, anyof operands replaced by their choices.
    pub written: List<Written>,
    /// Its fields, without their rules.
    pub fields: List<Field>,
    /// Its multi fields, without their rules.
    pub multis: List<Multi>,
    /// Its hardware, without its rules.
    pub hardware: List<Hardware>,
    /// All its operands.
    pub operands: List<Operand>,
}

/// Puts texts behind others. What stands in the list stays in front.
pub fn append(list: &mut List<Text>, texts: &[Text]) -> Result<(), NoMemory>
    ensures { OnOk result (list.new ≡ list.old ++ texts.now) }
{
    for text in texts {
        list.push(text.clone()?)?;
    }
    Ok(())
}

/// The names of all operands.
fn all_operand_names(
    alloc: Global,
    selection: &Selection,
    written: &[Written],
) -> Result<List<Text>, NoMemory>
    ensures { IfOk result (λ names. names ≡ spec.all_operand_names (seen selection.now) written.now) }
{
    let mut names = operand_names(alloc, selection)?;
    let bare = bare_names(alloc, selection.names, written)?;
    append(&mut names, bare.as_slice())?;
    Ok(names)
}

/// A constant as a scope has it.
fn constant_in(item: &Item) -> Result<EnumValue, NoMemory>
    ensures { IfOk result (λ constant. constant ≡ spec.constant_in item.now) }
{
    Ok(EnumValue {
        name: item.name.clone()?,
        value: item.value,
    })
}

/// Constants as a scope has them.
fn scope_constants(alloc: Global, items: &[Item]) -> Result<List<EnumValue>, NoMemory>
    ensures { IfOk result (λ list. list ≡ map spec.constant_in items.now) }
{
    let mut list = List::new(alloc);
    for item in items {
        list.push(constant_in(item)?)?;
    }
    Ok(list)
}

/// The constants of a machine as a scope has them.
fn all_constants(alloc: Global, selection: &Selection) -> Result<List<EnumValue>, NoMemory>
    ensures { IfOk result (λ list. list ≡ spec.scope_constants (seen selection.now)) }
{
    let items = constants(alloc, selection)?;
    scope_constants(alloc, items.as_slice())
}

/// What the names in expressions of a machine stand for where an instruction says what it does, by its frames
/// and its instructions as they are written (docs/LANGUAGE.md, "Names in expressions"). The elements of the
/// selection have these forms, an element for each.
pub fn scope_of(
    alloc: Global,
    selection: &Selection,
    tops: &[Top],
    framing: &Framing,
    written: &[Written],
) -> Result<Scope, NoMemory>
    ensures { IfOk result (λ scope. scope ≡ spec.scope_of (seen selection.now) (forms_of tops.now) framing.now written.now) }
{
    Ok(Scope {
        fields: field_names(alloc, selection)?,
        multis: multi_names(alloc, selection)?,
        hardware: hardware_names(alloc, selection)?,
        operands: all_operand_names(alloc, selection, written)?,
        enums: all_constants(alloc, selection)?,
        texts: error_texts(alloc, selection, tops, written)?,
        word_bits: framing.word_bits,
        own: None,
        rule: Rule::Semantics,
    })
}

/// Puts the operands that bare fields stand for behind others.
fn put_bare(
    list: &mut List<Operand>,
    numbers: &Numbers,
    fields: &[Field],
    multis: &[Multi],
    names: &[Text],
) -> Result<(), NoMemory>
    ensures { OnOk result (list.new ≡ list.old ++ map (bare_operand (seen_numbers numbers.now) fields.now multis.now) names.now) }
{
    for name in names {
        list.push(bare_operand(numbers, fields, multis, name)?)?;
    }
    Ok(())
}

/// All operands of a machine.
fn all_operands(
    alloc: Global,
    selection: &Selection,
    numbers: &Numbers,
    fields: &[Field],
    multis: &[Multi],
    written: &[Written],
) -> Result<List<Operand>, NoMemory>
    ensures { IfOk result (λ operands. operands ≡ spec.all_operands (seen selection.now) (seen_numbers numbers.now) fields.now multis.now written.now) }
{
    let mut operands = operands_of(alloc, selection, numbers)?;
    let bare = bare_names(alloc, selection.names, written)?;
    put_bare(&mut operands, numbers, fields, multis, bare.as_slice())?;
    Ok(operands)
}

/// The numbers of all operands.
fn operand_numbers(
    alloc: Global,
    selection: &Selection,
    written: &[Written],
) -> Result<Numbering, NoMemory>
    ensures { IfOk result (λ numbers. seen_numbering numbers ≡ spec.operand_numbering (seen selection.now) written.now) }
{
    let names = all_operand_names(alloc, selection, written)?;
    Numbering::of(alloc, names.as_slice())
}

/// What these frames, numbers and instructions say.
fn described_by<'a>(
    alloc: Global,
    selection: Selection<'a>,
    framing: Framing,
    numbers: Numbers,
    written: List<Written>,
) -> Result<Described<'a>, NoMemory>
    ensures { IfOk result (λ d. seen_described d ≡ spec.described_by (seen selection.entry) framing (seen_numbers numbers) written) }
{
    let fields = fields_of(alloc, &selection, &framing)?;
    let multis = multis_of(alloc, &selection, &framing, &numbers)?;
    let hardware = hardware_list(alloc, &selection, &framing)?;
    let (known, all) = (fields.as_slice(), written.as_slice());
    let operands = all_operands(alloc, &selection, &numbers, known, multis.as_slice(), all)?;
    let operand_numbers = operand_numbers(alloc, &selection, all)?;
    let model = first_model(&selection);
    Ok(Described {
        selection,
        framing,
        model,
        numbers,
        operand_numbers,
        written,
        fields,
        multis,
        hardware,
        operands,
    })
}

/// What the elements of a selection say of their machine.
pub fn describe<'a>(alloc: Global, selection: Selection<'a>) -> Result<Described<'a>, NoMemory>
    ensures { IfOk result (λ d. seen_described d ≡ spec.described (seen selection.entry)) }
{
    let framing = framing_of(&selection);
    let numbers = numbers_of(alloc, &selection)?;
    let written = expanded(
        alloc,
        selection.names,
        selection.machine,
        selection.isa,
        selection.elements,
    )?;
    described_by(alloc, selection, framing, numbers, written)
}
