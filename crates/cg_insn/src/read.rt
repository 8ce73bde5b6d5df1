//! Reading a form of an instruction.

ghost use Rattle.std.specs.Prelude.{◌≡◌, IfOk};
ghost use Rattle.cg_base.specs.Refusing.{least};
ghost use Rattle.cg_base.specs.Answering.{GivesForm};
ghost use Rattle.cg_insn.specs.Instructions.{instruction_in, expansions_in, macro_in, insn_in, insn_of, insn_faults};

use crate::form::{InsnForm, InstructionForm, MacroForm};
use crate::table::InsnKind;
use cg_attrs::{
    attrs_at, content_at, judged, list_of, optional_form, wanted_form, wanted_symbol, wanted_word,
};
use cg_base::{Form, NoMemory, Stop, Top, stop_at};
use std::alloc::Global;

fn instruction(alloc: Global, elements: &[Form]) -> Result<InstructionForm, NoMemory>
    ensures { IfOk result (λ form. form ≡ instruction_in elements.now) }
{
    Ok(InstructionForm {
        name: wanted_symbol(alloc, elements, b"name")?,
        syntax: wanted_word(alloc, elements, b"syntax")?,
        format: wanted_form(alloc, elements, b"format")?,
        semantics: wanted_form(alloc, elements, b"semantics")?,
        timing: optional_form(alloc, elements, b"timing")?,
        ifield_assertion: optional_form(alloc, elements, b"ifield-assertion")?,
        attrs: attrs_at(alloc, elements)?,
    })
}

/// What stands behind the name of the clause `expansions`, however it is spelled.
fn expansions(alloc: Global, elements: &[Form]) -> Result<Form, NoMemory>
    ensures { IfOk result (λ form. form ≡ expansions_in elements.now) }
{
    match content_at(elements, b"expansions") {
        Some(content) => list_of(alloc, content),
        None => wanted_form(alloc, elements, b"expansion"),
    }
}

fn macro_instruction(alloc: Global, elements: &[Form]) -> Result<MacroForm, NoMemory>
    ensures { IfOk result (λ form. form ≡ macro_in elements.now) }
{
    Ok(MacroForm {
        name: wanted_symbol(alloc, elements, b"name")?,
        syntax: wanted_word(alloc, elements, b"syntax")?,
        expansions: expansions(alloc, elements)?,
        attrs: attrs_at(alloc, elements)?,
    })
}

/// What a form without fault says.
fn insn(alloc: Global, kind: InsnKind, elements: &[Form]) -> Result<InsnForm, NoMemory>
    ensures { IfOk result (λ form. form ≡ insn_in kind elements.now) }
{
    match kind {
        InsnKind::Instruction => Ok(InsnForm::Instruction(instruction(alloc, elements)?)),
        InsnKind::Macro => Ok(InsnForm::Macro(macro_instruction(alloc, elements)?)),
    }
}

/// A form of an instruction, `define-insn` or `define-macro-insn`. Otherwise the refusal of its
/// least fault, by number and then by place, with the form's file and line (docs/LANGUAGE.md,
/// "Instructions"; docs/REFUSALS.md):
///
/// - E301: another form. Its text is the symbol that heads it, else `form`.
/// - E302: a clause that is not of this form or stands twice, `expansion` beside `expansions`
///   among them, or an element that is no list headed by a symbol, whose text is `clause`.
/// - E303: a wanted clause that is absent, in the order of the form's table.
/// - E304: content that is not of its clause's kind, a string that is no syntax among it; what is
///   at fault inside an expression.
/// - E307: what is left out inside an expression, and the form `if`.
pub fn read_insn(alloc: Global, top: &Top) -> Result<InsnForm, Stop>
    ensures { GivesForm top.now.file top.now.line (least (insn_faults top.now.form)) (insn_of top.now.form) result }
{
    match judged::<InsnKind>(&top.form) {
        Ok((kind, elements)) => Ok(insn(alloc, kind, elements)?),
        Err(fault) => Err(stop_at(alloc, top.file, top.line, fault)),
    }
}
