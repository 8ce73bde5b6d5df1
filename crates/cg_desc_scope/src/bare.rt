//! Fields that stand bare in formats.

ghost use Rattle.std.specs.Prelude.{◌≡◌, [], ◌++◌, filter, IfOk, OnOk};
ghost use Rattle.std.specs.List.{filter_map, flat_map};
ghost use Rattle.cg_desc_insns.specs.Choices.{slot_name};
ghost use Rattle.cg_desc_names.specs.Table.{known};
ghost use Rattle.cg_desc_data.specs.Seen.{seen_numbers};
ghost use Rattle.cg_desc_scope.specs.Bare as spec;
ghost use Rattle.cg_model.specs.declared.operand.Source.TheVariants as source;

use crate::once::distinct;
use cg_base::{List, Mode, NoMemory, Text, signed};
use cg_desc_choices::{NamedPart, Written, WrittenPart};
use cg_desc_data::{Numbers, field_source};
use cg_desc_elements::{Kind, Namespace};
use cg_desc_names::Names;
use cg_model::{Field, Multi, Operand, Source};
use std::alloc::Global;

/// Whether a slot of this name is no plain operand.
fn is_bare(names: &Names, name: &Text) -> bool
    ensures { result ≡ spec.is_bare (known names.now) name.now }
{
    match names.first(Namespace::Operands, name) {
        Some(standing) => !matches!(standing.kind, Kind::Operand),
        None => true,
    }
}

/// Puts the slots of a format that are no plain operands at the end.
fn put_bare(list: &mut List<Text>, names: &Names, parts: &[WrittenPart]) -> Result<(), NoMemory>
    ensures { OnOk result (list.new ≡ list.old ++ filter (spec.is_bare (known names.now)) (filter_map slot_name parts.now)) }
{
    for part in parts {
        if let NamedPart::Slot(name) = &part.part {
            if is_bare(names, name) {
                list.push(name.clone()?)?;
            }
        }
    }
    Ok(())
}

/// The slots of formats that are no plain operands, in the order of the instructions, as often as they
/// stand (docs/LANGUAGE.md, "Instructions").
pub fn all_bare(alloc: Global, names: &Names, written: &[Written]) -> Result<List<Text>, NoMemory>
    ensures { IfOk result (λ list. list ≡ flat_map (spec.bare_in (known names.now)) written.now) }
{
    let mut list = List::new(alloc);
    for each in written {
        put_bare(&mut list, names, each.parts.as_slice())?;
    }
    Ok(list)
}

/// The names of the fields that stand bare in the formats of instructions, each once, in the order of
/// their first appearance (docs/LANGUAGE.md, "Instructions").
pub fn bare_names(alloc: Global, names: &Names, written: &[Written]) -> Result<List<Text>, NoMemory>
    ensures { IfOk result (λ list. list ≡ spec.bare_names (known names.now) written.now) }
{
    let all = all_bare(alloc, names, written)?;
    distinct(alloc, all.as_slice())
}

/// The mode of a field.
fn field_mode(fields: &[Field], number: u16) -> Mode
    ensures { result ≡ spec.source_mode fields.now [] (source.Field number) }
{
    match fields.get(number as usize) {
        Some(field) => field.mode,
        None => Mode::Usi,
    }
}

/// The mode of a multi field.
fn multi_mode(multis: &[Multi], number: u16) -> Mode
    ensures { result ≡ spec.source_mode [] multis.now (source.Multi number) }
{
    match multis.get(number as usize) {
        Some(multi) => multi.mode,
        None => Mode::Usi,
    }
}

/// The mode of what a value comes from.
fn source_mode(fields: &[Field], multis: &[Multi], source: Source) -> Mode
    ensures { result ≡ spec.source_mode fields.now multis.now source }
{
    match source {
        Source::Field(number) => field_mode(fields, number),
        Source::Multi(number) => multi_mode(multis, number),
        _ => Mode::Usi,
    }
}

/// The operand that a bare field stands for: on `h-sint` where its mode has a sign, and else on `h-uint`
/// (docs/LANGUAGE.md, "Instructions").
pub fn bare_operand(
    numbers: &Numbers,
    fields: &[Field],
    multis: &[Multi],
    name: &Text,
) -> Result<Operand, NoMemory>
    ensures { IfOk result (λ operand. operand ≡ spec.bare_operand (seen_numbers numbers.now) fields.now multis.now name.now) }
{
    let source = field_source(numbers, name);
    let hardware = if signed(source_mode(fields, multis, source)) {
        1
    } else {
        2
    };
    Ok(Operand {
        name: name.clone()?,
        hardware,
        source,
    })
}
