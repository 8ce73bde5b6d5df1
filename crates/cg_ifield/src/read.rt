//! Reading a form of a field.

ghost use Rattle.std.specs.Prelude.{◌≡◌, IfOk};
ghost use Rattle.cg_base.specs.Refusing.{least};
ghost use Rattle.cg_base.specs.Answering.{GivesForm};
ghost use Rattle.cg_ifield.specs.Fields.{plain_in, multi_in, field_in, field_of, field_faults};

use crate::form::{FieldForm, MultiForm, PlainForm};
use crate::table::FieldKind;
use cg_attrs::{
    attrs_at, judged, optional_form, optional_number, optional_symbol, wanted_form, wanted_number,
    wanted_symbol, wanted_symbols,
};
use cg_base::{Form, NoMemory, Stop, Top, stop_at};
use std::alloc::Global;

fn plain(alloc: Global, elements: &[Form]) -> Result<PlainForm, NoMemory>
    ensures { IfOk result (λ form. form ≡ plain_in elements.now) }
{
    Ok(PlainForm {
        name: wanted_symbol(alloc, elements, b"name")?,
        start: wanted_number(elements, b"start"),
        length: wanted_number(elements, b"length"),
        mode: optional_symbol(elements, b"mode")?,
        word_offset: optional_number(elements, b"word-offset"),
        word_length: optional_number(elements, b"word-length"),
        encode: optional_form(alloc, elements, b"encode")?,
        decode: optional_form(alloc, elements, b"decode")?,
        attrs: attrs_at(alloc, elements)?,
    })
}

fn multi(alloc: Global, elements: &[Form]) -> Result<MultiForm, NoMemory>
    ensures { IfOk result (λ form. form ≡ multi_in elements.now) }
{
    Ok(MultiForm {
        name: wanted_symbol(alloc, elements, b"name")?,
        subfields: wanted_symbols(alloc, elements, b"subfields")?,
        insert: wanted_form(alloc, elements, b"insert")?,
        extract: wanted_form(alloc, elements, b"extract")?,
        mode: optional_symbol(elements, b"mode")?,
        attrs: attrs_at(alloc, elements)?,
    })
}

/// What a form without fault says.
fn field(alloc: Global, kind: FieldKind, elements: &[Form]) -> Result<FieldForm, NoMemory>
    ensures { IfOk result (λ form. form ≡ field_in kind elements.now) }
{
    match kind {
        FieldKind::Plain => Ok(FieldForm::Plain(plain(alloc, elements)?)),
        FieldKind::Multi => Ok(FieldForm::Multi(multi(alloc, elements)?)),
    }
}

/// A form of a field, `define-ifield` or `define-multi-ifield`. Otherwise the refusal of its least
/// fault, by number and then by place, with the form's file and line (docs/LANGUAGE.md, "Fields";
/// docs/REFUSALS.md):
///
/// - E301: another form. Its text is the symbol that heads it, else `form`.
/// - E302: a clause that is not of this form or stands twice, or an element that is no list
///   headed by a symbol, whose text is `clause`.
/// - E303: a wanted clause that is absent, in the order of the form's table; one of `word-offset`
///   and `word-length` where the other stands alone.
/// - E304: content that is not of its clause's kind; `insert` that doesn't set each subfield once
///   and nothing else, `extract` that doesn't set the field itself once; what is at fault inside
///   an expression.
/// - E307: a clause that is left out, what is left out inside an expression, and the form `if`.
pub fn read_field(alloc: Global, top: &Top) -> Result<FieldForm, Stop>
    ensures { GivesForm top.now.file top.now.line (least (field_faults top.now.form)) (field_of top.now.form) result }
{
    match judged::<FieldKind>(&top.form) {
        Ok((kind, elements)) => Ok(field(alloc, kind, elements)?),
        Err(fault) => Err(stop_at(alloc, top.file, top.line, fault)),
    }
}
