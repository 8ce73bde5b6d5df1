//! The machine of a description.

ghost use Rattle.std.specs.Prelude.{◌≡◌, IfOk};
ghost use Rattle.std.specs.Option.{option_copied};
ghost use Rattle.cg_desc_data.specs.Seen.{seen_numbering};
ghost use Rattle.cg_desc_scope.specs.Seen.{seen_described};
ghost use Rattle.cg_desc_machine.specs.Machines as spec;
ghost use Rattle.cg_desc_machine.specs.Rules as rules;
ghost use Rattle.cg_desc_machine.specs.Seen.{base};

use crate::instructions::insns_of;
use crate::macros::macros_of;
use crate::rules::{field_ruled, hardware_ruled, multi_ruled};
use cg_attrs::IsaForm;
use cg_base::{List, NoMemory, Text};
use cg_desc_data::{
    Numbering, built_in, cut, field_member, field_of, hardware_member, hardware_of, isa_form,
    multi_member, multi_of,
};
use cg_desc_scope::{Described, append};
use cg_hw::HardwareForm;
use cg_ifield::{MultiForm, PlainForm};
use cg_model::{Field, Hardware, Machine, Multi, Operand};
use cg_rtl_resolve::Scope;
use std::alloc::Global;

/// A field with its rules, by its form (docs/LANGUAGE.md, "Fields"). Of the scope only the rule changes,
/// and its own mode.
pub fn ruled_field(
    alloc: Global,
    scope: &mut Scope,
    described: &Described,
    form: &PlainForm,
) -> Result<Field, NoMemory>
    ensures value { IfOk result (λ field. field ≡ rules.ruled_field (seen_described described.now) (base scope.old) form.now) }
    ensures kept { base scope.new ≡ base scope.old }
{
    let plain = field_of(&described.framing, form)?;
    field_ruled(alloc, scope, form, plain)
}

/// A multi field with its rules, by its form (docs/LANGUAGE.md, "Fields"). Of the scope only the rule
/// changes, and its own mode.
pub fn ruled_multi(
    alloc: Global,
    scope: &mut Scope,
    described: &Described,
    form: &MultiForm,
) -> Result<Multi, NoMemory>
    ensures value { IfOk result (λ multi. multi ≡ rules.ruled_multi (seen_described described.now) (base scope.old) form.now) }
    ensures kept { base scope.new ≡ base scope.old }
{
    let plain = multi_of(alloc, &described.framing, &described.numbers, form)?;
    multi_ruled(alloc, scope, &described.numbers.fields, form, plain)
}

/// Hardware with its rules, by its form (docs/LANGUAGE.md, "Hardware"). Of the scope only the rule
/// changes, and its own mode.
pub fn ruled_hardware(
    alloc: Global,
    scope: &mut Scope,
    described: &Described,
    form: &HardwareForm,
) -> Result<Hardware, NoMemory>
    ensures value { IfOk result (λ hardware. hardware ≡ rules.ruled_hardware (seen_described described.now) (base scope.old) form.now) }
    ensures kept { base scope.new ≡ base scope.old }
{
    let plain = hardware_of(alloc, &described.selection, &described.framing, form)?;
    hardware_ruled(alloc, scope, form, plain)
}

/// The fields of a machine.
fn ruled_fields(
    alloc: Global,
    scope: &mut Scope,
    described: &Described,
) -> Result<List<Field>, NoMemory>
    ensures value { IfOk result (λ list. list ≡ rules.ruled_fields (seen_described described.now) (base scope.old)) }
    ensures kept { base scope.new ≡ base scope.old }
{
    let mut list = List::new(alloc);
    for element in described.selection.elements {
        if let Some(form) = field_member(&described.selection, element) {
            list.push(ruled_field(alloc, scope, described, form)?)?;
        }
    }
    Ok(list)
}

/// The multi fields of a machine.
fn ruled_multis(
    alloc: Global,
    scope: &mut Scope,
    described: &Described,
) -> Result<List<Multi>, NoMemory>
    ensures value { IfOk result (λ list. list ≡ rules.ruled_multis (seen_described described.now) (base scope.old)) }
    ensures kept { base scope.new ≡ base scope.old }
{
    let mut list = List::new(alloc);
    for element in described.selection.elements {
        if let Some(form) = multi_member(&described.selection, element) {
            list.push(ruled_multi(alloc, scope, described, form)?)?;
        }
    }
    Ok(list)
}

/// The hardware of a machine, the built-in one first.
fn ruled_hardwares(
    alloc: Global,
    scope: &mut Scope,
    described: &Described,
) -> Result<List<Hardware>, NoMemory>
    ensures value { IfOk result (λ list. list ≡ rules.ruled_hardwares (seen_described described.now) (base scope.old)) }
    ensures kept { base scope.new ≡ base scope.old }
{
    let mut list = built_in(alloc, &described.framing)?;
    for element in described.selection.elements {
        if let Some(form) = hardware_member(&described.selection, element) {
            list.push(ruled_hardware(alloc, scope, described, form)?)?;
        }
    }
    Ok(list)
}

/// The name of the bundle field.
fn bundle_name<'a>(isa: Option<&'a IsaForm>) -> Option<&'a Text>
    ensures { option_copied result ≡ spec.bundle_name (option_copied isa.entry) }
{
    match isa {
        Some(form) => form.bundle_field.as_ref(),
        None => None,
    }
}

/// The number of the bundle field.
fn bundle_of(fields: &Numbering, isa: Option<&IsaForm>) -> Option<u16>
    ensures { result ≡ spec.bundle_number (seen_numbering fields.now) (option_copied isa.entry) }
{
    match bundle_name(isa) {
        Some(name) => fields.get(name),
        None => None,
    }
}

/// How many instructions a bundle may have, where one is written.
fn parallel_insns(isa: Option<&IsaForm>) -> Option<i64>
    ensures { result ≡ spec.parallel_insns (option_copied isa.entry) }
{
    match isa {
        Some(form) => form.parallel_insns,
        None => None,
    }
}

/// How many instructions a bundle may have.
fn width_of(isa: Option<&IsaForm>) -> u8
    ensures { result ≡ spec.width_of (option_copied isa.entry) }
{
    if bundle_name(isa).is_none() {
        return 1;
    }
    match parallel_insns(isa) {
        Some(number) => cut(255, number as i128) as u8,
        None => 1,
    }
}

/// Texts in memory of their own.
fn copied(alloc: Global, texts: &[Text]) -> Result<List<Text>, NoMemory>
    ensures { IfOk result (λ list. list ≡ texts.now) }
{
    let mut list = List::new(alloc);
    append(&mut list, texts)?;
    Ok(list)
}

/// Operands in memory of their own.
fn operands_again(alloc: Global, operands: &[Operand]) -> Result<List<Operand>, NoMemory>
    ensures { IfOk result (λ list. list ≡ operands.now) }
{
    let mut list = List::new(alloc);
    for operand in operands {
        list.push(Operand {
            name: operand.name.clone()?,
            hardware: operand.hardware,
            source: operand.source,
        })?;
    }
    Ok(list)
}

/// The machine of a description in the scope of its names (docs/LANGUAGE.md, "Machines"). It is there
/// whatever is wrong with the description: what isn't defined is left out.
pub fn machine_of(
    alloc: Global,
    described: &Described,
    scope: &mut Scope,
) -> Result<Machine, NoMemory>
    ensures value { IfOk result (λ machine. machine ≡ spec.machine_of (seen_described described.now) (base scope.old)) }
    ensures kept { base scope.new ≡ base scope.old }
{
    let isa = isa_form(&described.selection);
    let framing = described.framing;
    let fields = ruled_fields(alloc, scope, described)?;
    let multis = ruled_multis(alloc, scope, described)?;
    let hardware = ruled_hardwares(alloc, scope, described)?;
    let insns = insns_of(alloc, scope, described)?;
    Ok(Machine {
        name: described.selection.machine.clone()?,
        lsb0: framing.lsb0,
        alignment: framing.alignment,
        word_bits: framing.word_bits,
        insn_endian: framing.insn_endian,
        data_endian: framing.data_endian,
        base_bits: framing.base_bits,
        bundle: bundle_of(&described.numbers.fields, isa),
        width: width_of(isa),
        fields,
        multis,
        hardware,
        operands: operands_again(alloc, described.operands.as_slice())?,
        insns,
        macros: macros_of(alloc, described)?,
        texts: copied(alloc, scope.texts.as_slice())?,
    })
}
