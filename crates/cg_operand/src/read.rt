//! Reading a form of an operand.

ghost use Rattle.std.specs.Prelude.{◌≡◌, ◌++◌, [], IfOk};
ghost use Rattle.std.specs.Option.{option_copied, unwrap_or};
ghost use Rattle.std.specs.List.{filter_map};
ghost use Rattle.cg_base.specs.Parts.{symbol_of};
ghost use Rattle.cg_base.specs.Refusing.{least};
ghost use Rattle.cg_base.specs.Answering.{GivesForm};
ghost use Rattle.cg_operand.specs.Operands.{list_at, listed_names, plain_in, derived_in, anyof_in, operand_in, operand_of, operand_faults};

use crate::form::{AnyofOperandForm, DerivedOperandForm, OperandForm, PlainOperandForm};
use crate::table::OperandKind;
use cg_attrs::{
    attrs_at, content_at, judged, only_elements, optional_form, wanted_form, wanted_symbol,
    wanted_symbols, wanted_word,
};
use cg_base::{Form, List, NoMemory, Stop, Text, Top, stop_at};
use std::alloc::Global;

/// The texts of the symbols among the forms.
fn texts(alloc: Global, forms: &[Form]) -> Result<List<Text>, NoMemory>
    ensures { IfOk result (λ copies. copies ≡ filter_map symbol_of forms.now) }
{
    let mut texts = List::new(alloc);
    for form in forms {
        if let Some(text) = form.symbol() {
            texts.push(text.clone()?)?;
        }
    }
    Ok(texts)
}

/// The elements of the one list that stands behind a clause's name.
#[tactic(auto, unfolding(crate::specs::Operands::list_at))]
fn list_at<'a>(elements: &'a [Form], name: &[u8]) -> Option<&'a [Form]>
    ensures { option_copied result ≡ list_at name.now elements.now }
{
    only_elements(content_at(elements, name)?)
}

/// The symbols in the one list behind the name of a clause that stands.
fn listed_names(alloc: Global, elements: &[Form], name: &[u8]) -> Result<List<Text>, NoMemory>
    ensures { IfOk result (λ texts. texts ≡ listed_names name.now elements.now) }
{
    match list_at(elements, name) {
        Some(list) => texts(alloc, list),
        None => Ok(List::new(alloc)),
    }
}

fn plain(alloc: Global, elements: &[Form]) -> Result<PlainOperandForm, NoMemory>
    ensures { IfOk result (λ form. form ≡ plain_in elements.now) }
{
    Ok(PlainOperandForm {
        name: wanted_symbol(alloc, elements, b"name")?,
        kind: wanted_form(alloc, elements, b"type")?,
        index: wanted_form(alloc, elements, b"index")?,
        attrs: attrs_at(alloc, elements)?,
    })
}

fn derived(alloc: Global, elements: &[Form]) -> Result<DerivedOperandForm, NoMemory>
    ensures { IfOk result (λ form. form ≡ derived_in elements.now) }
{
    Ok(DerivedOperandForm {
        name: wanted_symbol(alloc, elements, b"name")?,
        args: listed_names(alloc, elements, b"args")?,
        syntax: wanted_word(alloc, elements, b"syntax")?,
        base_ifield: wanted_symbol(alloc, elements, b"base-ifield")?,
        encoding: wanted_form(alloc, elements, b"encoding")?,
        getter: wanted_form(alloc, elements, b"getter")?,
        setter: wanted_form(alloc, elements, b"setter")?,
        ifield_assertion: optional_form(alloc, elements, b"ifield-assertion")?,
        attrs: attrs_at(alloc, elements)?,
    })
}

fn anyof(alloc: Global, elements: &[Form]) -> Result<AnyofOperandForm, NoMemory>
    ensures { IfOk result (λ form. form ≡ anyof_in elements.now) }
{
    Ok(AnyofOperandForm {
        name: wanted_symbol(alloc, elements, b"name")?,
        choices: wanted_symbols(alloc, elements, b"choices")?,
        attrs: attrs_at(alloc, elements)?,
    })
}

/// What a form without fault says.
fn operand(alloc: Global, kind: OperandKind, elements: &[Form]) -> Result<OperandForm, NoMemory>
    ensures { IfOk result (λ form. form ≡ operand_in kind elements.now) }
{
    match kind {
        OperandKind::Plain => Ok(OperandForm::Plain(plain(alloc, elements)?)),
        OperandKind::Derived => Ok(OperandForm::Derived(derived(alloc, elements)?)),
        OperandKind::Anyof => Ok(OperandForm::Anyof(anyof(alloc, elements)?)),
    }
}

/// A form of an operand, `define-operand`, `define-derived-operand` or `define-anyof-operand`.
/// Otherwise the refusal of its least fault, by number and then by place, with the form's file and
/// line (docs/LANGUAGE.md, "Operands"; docs/REFUSALS.md):
///
/// - E301: another form. Its text is the symbol that heads it, else `form`.
/// - E302: a clause that is not of this form or stands twice, or an element that is no list
///   headed by a symbol, whose text is `clause`.
/// - E303: a wanted clause that is absent, in the order of the form's table.
/// - E304: content that is not of its clause's kind; what is at fault inside an expression.
/// - E307: a clause that is left out, what is left out inside an expression, and the form `if`.
pub fn read_operand(alloc: Global, top: &Top) -> Result<OperandForm, Stop>
    ensures { GivesForm top.now.file top.now.line (least (operand_faults top.now.form)) (operand_of top.now.form) result }
{
    match judged::<OperandKind>(&top.form) {
        Ok((kind, elements)) => Ok(operand(alloc, kind, elements)?),
        Err(fault) => Err(stop_at(alloc, top.file, top.line, fault)),
    }
}
