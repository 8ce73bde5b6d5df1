//! Reading a form that frames a machine.

ghost use Rattle.std.specs.Prelude.{◌≡◌, IfOk};
ghost use Rattle.std.specs.Option.{option_copied};
ghost use Rattle.cg_base.specs.Refusing.{least};
ghost use Rattle.cg_base.specs.Answering.{GivesForm};
ghost use Rattle.cg_attrs.specs.Frames.{arch_of, isa_of, cpu_of, mach_of, model_of, attr_def_of, enum_of, insn_enum_of, keyword_of, symbol_by_place, word_by_place, elements_by_place, elements_or_none, frame_in, frame_of, frame_faults};

use crate::attr::attrs_among;
use crate::frame::{
    ArchForm, AttrForm, CpuForm, EnumForm, Frame, InsnEnumForm, IsaForm, KeywordForm, MachForm,
    ModelForm,
};
use crate::judge::{judged, nth};
use crate::lookup::{
    attrs_at, list_of, optional_flag, optional_form, optional_number, optional_symbol,
    optional_symbols, optional_word, text_or_none, units, wanted_form, wanted_number,
    wanted_symbol, wanted_symbols,
};
use crate::table::Kind;
use cg_base::{Form, NoMemory, Stop, Text, Top, stop_at};
use std::alloc::Global;

fn arch(alloc: Global, elements: &[Form]) -> Result<ArchForm, NoMemory>
    ensures { IfOk result (λ form. form ≡ arch_of elements.now) }
{
    Ok(ArchForm {
        name: wanted_symbol(alloc, elements, b"name")?,
        machs: wanted_symbols(alloc, elements, b"machs")?,
        isas: wanted_symbols(alloc, elements, b"isas")?,
        insn_lsb0: optional_flag(elements, b"insn-lsb0?"),
        default_alignment: optional_symbol(elements, b"default-alignment")?,
        attrs: attrs_at(alloc, elements)?,
    })
}

fn isa(alloc: Global, elements: &[Form]) -> Result<IsaForm, NoMemory>
    ensures { IfOk result (λ form. form ≡ isa_of elements.now) }
{
    Ok(IsaForm {
        name: wanted_symbol(alloc, elements, b"name")?,
        base_insn_bitsize: wanted_number(elements, b"base-insn-bitsize"),
        bundle_field: optional_symbol(elements, b"bundle-field")?,
        parallel_insns: optional_number(elements, b"parallel-insns"),
        attrs: attrs_at(alloc, elements)?,
    })
}

fn cpu(alloc: Global, elements: &[Form]) -> Result<CpuForm, NoMemory>
    ensures { IfOk result (λ form. form ≡ cpu_of elements.now) }
{
    Ok(CpuForm {
        name: wanted_symbol(alloc, elements, b"name")?,
        endian: wanted_symbol(alloc, elements, b"endian")?,
        word_bitsize: wanted_number(elements, b"word-bitsize"),
        insn_endian: optional_symbol(elements, b"insn-endian")?,
        data_endian: optional_symbol(elements, b"data-endian")?,
        attrs: attrs_at(alloc, elements)?,
    })
}

fn mach(alloc: Global, elements: &[Form]) -> Result<MachForm, NoMemory>
    ensures { IfOk result (λ form. form ≡ mach_of elements.now) }
{
    Ok(MachForm {
        name: wanted_symbol(alloc, elements, b"name")?,
        cpu: wanted_symbol(alloc, elements, b"cpu")?,
        isas: optional_symbols(alloc, elements, b"isas")?,
        isa_selector: optional_symbol(elements, b"isa-selector")?,
        attrs: attrs_at(alloc, elements)?,
    })
}

fn model(alloc: Global, elements: &[Form]) -> Result<ModelForm, NoMemory>
    ensures { IfOk result (λ form. form ≡ model_of elements.now) }
{
    Ok(ModelForm {
        name: wanted_symbol(alloc, elements, b"name")?,
        mach: wanted_symbol(alloc, elements, b"mach")?,
        unit: units(alloc, elements)?,
        attrs: attrs_at(alloc, elements)?,
    })
}

fn attr_def(alloc: Global, elements: &[Form]) -> Result<AttrForm, NoMemory>
    ensures { IfOk result (λ form. form ≡ attr_def_of elements.now) }
{
    Ok(AttrForm {
        name: wanted_symbol(alloc, elements, b"name")?,
        kind: wanted_form(alloc, elements, b"type")?,
        applies: wanted_form(alloc, elements, b"for")?,
        default: optional_form(alloc, elements, b"default")?,
        values: optional_form(alloc, elements, b"values")?,
        attrs: attrs_at(alloc, elements)?,
    })
}

fn enumeration(alloc: Global, elements: &[Form]) -> Result<EnumForm, NoMemory>
    ensures { IfOk result (λ form. form ≡ enum_of elements.now) }
{
    Ok(EnumForm {
        name: wanted_symbol(alloc, elements, b"name")?,
        values: wanted_form(alloc, elements, b"values")?,
        prefix: optional_word(elements, b"prefix")?,
        attrs: attrs_at(alloc, elements)?,
    })
}

fn keyword(alloc: Global, elements: &[Form]) -> Result<KeywordForm, NoMemory>
    ensures { IfOk result (λ form. form ≡ keyword_of elements.now) }
{
    Ok(KeywordForm {
        name: wanted_symbol(alloc, elements, b"name")?,
        values: wanted_form(alloc, elements, b"values")?,
        prefix: optional_word(elements, b"prefix")?,
        attrs: attrs_at(alloc, elements)?,
    })
}

/// The text of the argument at a place, a symbol.
#[tactic(auto, unfolding(crate::specs::Frames::symbol_by_place))]
fn symbol_by_place(arguments: &[Form], place: usize) -> Option<&Text>
    ensures { option_copied result ≡ symbol_by_place place arguments.now }
{
    nth(arguments, place)?.symbol()
}

/// The text of the argument at a place, a symbol or a string.
#[tactic(auto, unfolding(crate::specs::Frames::word_by_place))]
fn word_by_place(arguments: &[Form], place: usize) -> Option<&Text>
    ensures { option_copied result ≡ word_by_place place arguments.now }
{
    nth(arguments, place)?.word()
}

/// The elements of the argument at a place, a list.
#[tactic(auto, unfolding(crate::specs::Frames::elements_by_place))]
fn elements_by_place(arguments: &[Form], place: usize) -> Option<&[Form]>
    ensures { option_copied result ≡ elements_by_place place arguments.now }
{
    nth(arguments, place)?.elements()
}

/// The elements of the argument at a place, which is a list.
fn elements_or_none(arguments: &[Form], place: usize) -> &[Form]
    ensures { result.now ≡ elements_or_none place arguments.now }
{
    match elements_by_place(arguments, place) {
        Some(elements) => elements,
        None => &[],
    }
}

fn insn_enum(alloc: Global, arguments: &[Form]) -> Result<InsnEnumForm, NoMemory>
    ensures { IfOk result (λ form. form ≡ insn_enum_of arguments.now) }
{
    Ok(InsnEnumForm {
        name: text_or_none(alloc, symbol_by_place(arguments, 0))?,
        prefix: text_or_none(alloc, word_by_place(arguments, 3))?,
        field: text_or_none(alloc, symbol_by_place(arguments, 4))?,
        values: list_of(alloc, elements_or_none(arguments, 5))?,
        attrs: attrs_among(alloc, elements_or_none(arguments, 2))?,
    })
}

/// What a form without fault says.
fn frame(alloc: Global, kind: Kind, elements: &[Form]) -> Result<Frame, NoMemory>
    ensures { IfOk result (λ frame. frame ≡ frame_in kind elements.now) }
{
    match kind {
        Kind::Arch => Ok(Frame::Arch(arch(alloc, elements)?)),
        Kind::Isa => Ok(Frame::Isa(isa(alloc, elements)?)),
        Kind::Cpu => Ok(Frame::Cpu(cpu(alloc, elements)?)),
        Kind::Mach => Ok(Frame::Mach(mach(alloc, elements)?)),
        Kind::Model => Ok(Frame::Model(model(alloc, elements)?)),
        Kind::AttrDef => Ok(Frame::AttrDef(attr_def(alloc, elements)?)),
        Kind::Enum => Ok(Frame::Enum(enumeration(alloc, elements)?)),
        Kind::InsnEnum => Ok(Frame::InsnEnum(insn_enum(alloc, elements)?)),
        Kind::Keyword => Ok(Frame::Keyword(keyword(alloc, elements)?)),
    }
}

/// A form that frames a machine: `define-arch`, `define-isa`, `define-cpu`, `define-mach`,
/// `define-model`, `define-attr`, `define-enum`, `define-normal-insn-enum` and `define-keyword`.
/// Otherwise the refusal of its least fault, by number and then by place, with the form's file
/// and line (docs/LANGUAGE.md, "Forms and clauses"; docs/REFUSALS.md):
///
/// - E301: another form. Its text is the symbol that heads it, else `form`. Forms that other
///   readers read are among these.
/// - E302: a clause that is not of this form or stands twice, or an element that is no list
///   headed by a symbol, whose text is `clause`; of `define-normal-insn-enum` a seventh argument.
/// - E303: a wanted clause or argument that is absent, in the order of the form's table.
/// - E304: content that is not of its clause's kind.
/// - E307: a clause that is left out, `either` as an endian, and the form `if`.
pub fn read_frame(alloc: Global, top: &Top) -> Result<Frame, Stop>
    ensures { GivesForm top.now.file top.now.line (least (frame_faults top.now.form)) (frame_of top.now.form) result }
{
    match judged::<Kind>(&top.form) {
        Ok((kind, elements)) => Ok(frame(alloc, kind, elements)?),
        Err(fault) => Err(stop_at(alloc, top.file, top.line, fault)),
    }
}
