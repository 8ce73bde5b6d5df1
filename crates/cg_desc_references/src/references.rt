//! The names in a form that stand for other elements.

ghost use Rattle.std.specs.Prelude.{◌≡◌, [], ◌∷◌, ◌++◌, OnOk, IfOk};
ghost use Rattle.std.specs.Option.{option_or, option_map, unwrap_or};
ghost use Rattle.std.specs.List.{flat_map};
ghost use Rattle.cg_base.specs.Parts.{headed_in};
ghost use Rattle.cg_insn.specs.Syntax.{pieces_of};
ghost use Rattle.cg_attrs.specs.Clauses.{seen_clause};
ghost use Rattle.cg_attrs.specs.Contents.{only_elements};
ghost use Rattle.cg_desc_references.specs.References.{reference, symbols, attributes, keywords, indices, slots, syntax, constant_in, part, parts_in, parts, listed, unit_first, units, model, names_of_isa, names_of_mach, names_of_arch, names_of_hardware, names_of_operand, names_of_coding, names_of_derived, names_of_insn, names_under, names_by_kind, names_in, references};

use crate::clauses::clauses_of;
use crate::reference::{Place, Reference};
use cg_attrs::{Clause, attrs_among, only_elements};
use cg_base::{Form, List, NoMemory, Stop, Text, headed_in, only, only_word};
use cg_desc_elements::Kind;
use cg_insn::{NamedPiece, pieces};
use std::alloc::Global;

/// Puts a name at the end.
fn put(list: &mut List<Reference>, place: Place, name: &Text) -> Result<(), NoMemory>
    ensures { OnOk result (list.new ≡ list.old ++ reference place name.now ∷ []) }
{
    let model = Text::new(list.allocator());
    list.push(Reference {
        place,
        name: name.clone()?,
        model,
    })
}

/// Puts each symbol among the forms at the end.
fn put_symbols(list: &mut List<Reference>, place: Place, forms: &[Form]) -> Result<(), NoMemory>
    ensures { OnOk result (list.new ≡ list.old ++ symbols place forms.now) }
{
    for form in forms {
        if let Some(name) = form.symbol() {
            put(list, place, name)?;
        }
    }
    Ok(())
}

/// Puts the names of attributes at the end.
fn put_attributes(alloc: Global, list: &mut List<Reference>, forms: &[Form]) -> Result<(), NoMemory>
    ensures { OnOk result (list.new ≡ list.old ++ attributes forms.now) }
{
    let attrs = attrs_among(alloc, forms)?;
    for attr in attrs.as_slice() {
        put(list, Place::Attribute, &attr.name)?;
    }
    Ok(())
}

/// Puts the name of `extern-keyword` at the end.
fn put_keyword(list: &mut List<Reference>, forms: &[Form]) -> Result<(), NoMemory>
    ensures { OnOk result (list.new ≡ list.old ++ keywords (headed_in forms.now)) }
{
    match headed_in(forms) {
        Some((word, names)) => match word.as_slice() {
            b"extern-keyword" => put_symbols(list, Place::Keyword, names),
            _ => Ok(()),
        },
        None => Ok(()),
    }
}

/// Puts the field of an index at the end.
fn put_indices(list: &mut List<Reference>, forms: &[Form]) -> Result<(), NoMemory>
    ensures { OnOk result (list.new ≡ list.old ++ indices forms.now) }
{
    for form in forms {
        if let Some(name) = form.symbol() {
            if name.as_slice() != b"f-nil".as_slice() {
                put(list, Place::AnyField, name)?;
            }
        }
    }
    Ok(())
}

/// Puts the slots of a syntax at the end.
pub fn put_slots(
    list: &mut List<Reference>,
    place: Place,
    pieces: &[NamedPiece],
) -> Result<(), NoMemory>
    ensures { OnOk result (list.new ≡ list.old ++ slots place pieces.now) }
{
    for piece in pieces {
        if let NamedPiece::Slot(name) = piece {
            put(list, place, name)?;
        }
    }
    Ok(())
}

/// The pieces of a syntax, none of what is no syntax.
fn pieces_or_none(alloc: Global, text: &Text) -> Result<List<NamedPiece>, NoMemory>
    ensures { IfOk result (λ list. list ≡ unwrap_or (pieces_of text.now) []) }
{
    match pieces(alloc, text) {
        Ok(list) => Ok(list),
        Err(Stop::Refused(_)) => Ok(List::new(alloc)),
        Err(Stop::NoMemory) => Err(NoMemory),
    }
}

/// Puts the slots of the syntax that stands behind a clause's name at the end.
fn put_syntax(
    alloc: Global,
    list: &mut List<Reference>,
    place: Place,
    forms: &[Form],
) -> Result<(), NoMemory>
    ensures { OnOk result (list.new ≡ list.old ++ syntax place forms.now) }
{
    match only_word(forms) {
        Some(text) => {
            let pieces = pieces_or_none(alloc, text)?;
            put_slots(list, place, pieces.as_slice())
        }
        None => Ok(()),
    }
}

/// Puts the field of `(field number)` at the end.
fn put_constant(list: &mut List<Reference>, forms: &[Form]) -> Result<(), NoMemory>
    ensures { OnOk result (list.new ≡ list.old ++ constant_in forms.now) }
{
    match forms {
        [field, ..] => put_symbols(list, Place::Field, std::slice::from_ref(field)),
        _ => Ok(()),
    }
}

/// Puts the name in a part at the end.
pub fn put_part(list: &mut List<Reference>, place: Place, form: &Form) -> Result<(), NoMemory>
    ensures { OnOk result (list.new ≡ list.old ++ part place form.now) }
{
    match form {
        Form::Symbol(name) => put(list, place, name),
        Form::Items(forms) => put_constant(list, forms.as_slice()),
        _ => Ok(()),
    }
}

/// The one list headed by a symbol that stands there.
#[tactic(auto, unfolding(crate::specs::References::listed))]
fn listed(forms: &[Form]) -> Option<(&Text, &[Form])>
    ensures { option_map (λ x. (x.0.now, x.1.now)) result ≡ listed forms.now }
{
    only(forms)?.headed()
}

/// The parts of a format or an encoding, by what stands behind the clause's name: those behind `+`, in a
/// list of their own or without (docs/LANGUAGE.md, "Instructions").
pub fn parts_in(forms: &[Form]) -> &[Form]
    ensures { result.now ≡ parts_in (option_or (headed_in forms.now) (listed forms.now)) }
{
    match headed_in(forms) {
        Some((_, parts)) => parts,
        None => match listed(forms) {
            Some((_, parts)) => parts,
            None => &[],
        },
    }
}

/// Puts the names in the parts of a format or an encoding at the end.
fn put_parts(list: &mut List<Reference>, place: Place, forms: &[Form]) -> Result<(), NoMemory>
    ensures { OnOk result (list.new ≡ list.old ++ parts place forms.now) }
{
    for form in parts_in(forms) {
        put_part(list, place, form)?;
    }
    Ok(())
}

/// Puts a unit of a model at the end, where it is named first.
fn put_unit(list: &mut List<Reference>, model: &Text, forms: &[Form]) -> Result<(), NoMemory>
    ensures { OnOk result (list.new ≡ list.old ++ unit_first model.now forms.now) }
{
    match forms {
        [first, ..] => match first.symbol() {
            Some(name) => list.push(Reference {
                place: Place::Unit,
                name: name.clone()?,
                model: model.clone()?,
            }),
            None => Ok(()),
        },
        _ => Ok(()),
    }
}

/// Puts the units of a model at the end.
fn put_units(list: &mut List<Reference>, model: &Text, forms: &[Form]) -> Result<(), NoMemory>
    ensures { OnOk result (list.new ≡ list.old ++ units model.now forms.now) }
{
    for form in forms {
        if let Some((_, behind)) = form.headed() {
            put_unit(list, model, behind)?;
        }
    }
    Ok(())
}

/// Puts a model of `timing` and its units at the end.
fn put_model(list: &mut List<Reference>, form: &Form) -> Result<(), NoMemory>
    ensures { OnOk result (list.new ≡ list.old ++ model form.now) }
{
    match form.headed() {
        Some((name, units)) => {
            put(list, Place::Model, name)?;
            put_units(list, name, units)
        }
        None => Ok(()),
    }
}

/// Puts the models of `timing` and their units at the end.
fn put_models(list: &mut List<Reference>, forms: &[Form]) -> Result<(), NoMemory>
    ensures { OnOk result (list.new ≡ list.old ++ flat_map model forms.now) }
{
    for form in forms {
        put_model(list, form)?;
    }
    Ok(())
}

/// Puts the symbols of a clause at the end, where it has this name.
fn put_under(
    list: &mut List<Reference>,
    name: &[u8],
    place: Place,
    clause: Clause<'_>,
) -> Result<(), NoMemory>
    ensures { OnOk result (list.new ≡ list.old ++ names_under name.now place (seen_clause clause.entry)) }
{
    if name == clause.name {
        put_symbols(list, place, clause.content)
    } else {
        Ok(())
    }
}

fn put_of_arch(list: &mut List<Reference>, clause: Clause<'_>) -> Result<(), NoMemory>
    ensures { OnOk result (list.new ≡ list.old ++ names_of_arch (seen_clause clause.entry)) }
{
    match clause.name {
        b"machs" => put_symbols(list, Place::Mach, clause.content),
        b"isas" => put_symbols(list, Place::Isa, clause.content),
        _ => Ok(()),
    }
}

fn put_of_mach(list: &mut List<Reference>, clause: Clause<'_>) -> Result<(), NoMemory>
    ensures { OnOk result (list.new ≡ list.old ++ names_of_mach (seen_clause clause.entry)) }
{
    match clause.name {
        b"cpu" => put_symbols(list, Place::Cpu, clause.content),
        b"isas" => put_symbols(list, Place::Isa, clause.content),
        _ => Ok(()),
    }
}

fn put_of_hardware(list: &mut List<Reference>, clause: Clause<'_>) -> Result<(), NoMemory>
    ensures { OnOk result (list.new ≡ list.old ++ names_of_hardware (seen_clause clause.entry)) }
{
    match clause.name {
        b"indices" => put_keyword(list, clause.content),
        b"values" => put_keyword(list, clause.content),
        _ => Ok(()),
    }
}

fn put_of_operand(list: &mut List<Reference>, clause: Clause<'_>) -> Result<(), NoMemory>
    ensures { OnOk result (list.new ≡ list.old ++ names_of_operand (seen_clause clause.entry)) }
{
    match clause.name {
        b"type" => put_symbols(list, Place::Hardware, clause.content),
        b"index" => put_indices(list, clause.content),
        _ => Ok(()),
    }
}

/// The elements of the one list that stands there, none where it is something else.
fn elements_or_none(forms: &[Form]) -> &[Form]
    ensures { result.now ≡ unwrap_or (only_elements forms.now) [] }
{
    match only_elements(forms) {
        Some(elements) => elements,
        None => &[],
    }
}

#[tactic(auto, unfolding(crate::specs::References::names_of_coding))]
fn put_of_coding(list: &mut List<Reference>, clause: Clause<'_>) -> Result<(), NoMemory>
    ensures { OnOk result (list.new ≡ list.old ++ names_of_coding (seen_clause clause.entry)) }
{
    match clause.name {
        b"base-ifield" => put_symbols(list, Place::AnyField, clause.content),
        b"encoding" => put_parts(list, Place::EncodingPart, clause.content),
        _ => Ok(()),
    }
}

#[tactic(auto, unfolding(crate::specs::References::names_of_derived))]
fn put_of_derived(
    alloc: Global,
    list: &mut List<Reference>,
    clause: Clause<'_>,
) -> Result<(), NoMemory>
    ensures { OnOk result (list.new ≡ list.old ++ names_of_derived (seen_clause clause.entry)) }
{
    match clause.name {
        b"args" => put_symbols(list, Place::Argument, elements_or_none(clause.content)),
        b"syntax" => put_syntax(alloc, list, Place::DerivedSlot, clause.content),
        _ => {
            put_of_coding(list, clause)?;
            Ok(())
        }
    }
}

fn put_of_insn(
    alloc: Global,
    list: &mut List<Reference>,
    clause: Clause<'_>,
) -> Result<(), NoMemory>
    ensures { OnOk result (list.new ≡ list.old ++ names_of_insn (seen_clause clause.entry)) }
{
    match clause.name {
        b"syntax" => put_syntax(alloc, list, Place::Slot, clause.content),
        b"format" => put_parts(list, Place::Part, clause.content),
        b"timing" => put_models(list, clause.content),
        _ => Ok(()),
    }
}

fn put_of_isa(
    list: &mut List<Reference>,
    selected: bool,
    clause: Clause<'_>,
) -> Result<(), NoMemory>
    ensures { OnOk result (list.new ≡ list.old ++ names_of_isa selected (seen_clause clause.entry)) }
{
    if selected {
        put_under(list, b"bundle-field", Place::Field, clause)
    } else {
        Ok(())
    }
}

/// Puts the names in a clause at the end, by the kind of form that it stands in.
fn put_by_kind(
    alloc: Global,
    list: &mut List<Reference>,
    selected: bool,
    kind: Kind,
    clause: Clause<'_>,
) -> Result<(), NoMemory>
    ensures { OnOk result (list.new ≡ list.old ++ names_by_kind selected kind (seen_clause clause.entry)) }
{
    match kind {
        Kind::Isa => put_of_isa(list, selected, clause),
        Kind::Arch => put_of_arch(list, clause),
        Kind::Mach => put_of_mach(list, clause),
        Kind::Model => put_under(list, b"mach", Place::Mach, clause),
        Kind::InsnEnum => put_under(list, b"field", Place::Field, clause),
        Kind::Multi => put_under(list, b"subfields", Place::Field, clause),
        Kind::Hardware => put_of_hardware(list, clause),
        Kind::Operand => put_of_operand(list, clause),
        Kind::Derived => put_of_derived(alloc, list, clause),
        Kind::Anyof => put_under(list, b"choices", Place::Choice, clause),
        Kind::Insn => put_of_insn(alloc, list, clause),
        _ => Ok(()),
    }
}

/// Puts the names in a clause at the end.
pub fn put_names(
    alloc: Global,
    list: &mut List<Reference>,
    selected: bool,
    kind: Kind,
    clause: Clause<'_>,
) -> Result<(), NoMemory>
    ensures { OnOk result (list.new ≡ list.old ++ names_in selected kind (seen_clause clause.entry)) }
{
    match clause.name {
        b"attrs" => put_attributes(alloc, list, clause.content),
        _ => put_by_kind(alloc, list, selected, kind, clause),
    }
}

/// The names in a form that stand for other elements, where the form gives an element of this kind,
/// in the order of their places in the form from left to right (docs/LANGUAGE.md, "Names"). Names in
/// expressions are not among them. `selected` says whether the form is that of the selected
/// instruction set: its `bundle-field` is asked alone.
pub fn references_of(
    alloc: Global,
    selected: bool,
    kind: Kind,
    form: &Form,
) -> Result<List<Reference>, NoMemory>
    ensures { IfOk result (λ list. list ≡ references selected kind form.now) }
{
    let clauses = clauses_of(alloc, kind, form)?;
    let mut list = List::new(alloc);
    for clause in clauses.as_slice() {
        put_names(alloc, &mut list, selected, kind, *clause)?;
    }
    Ok(list)
}
