//! Each form handed to the reader of its head.

ghost use Rattle.std.specs.Prelude.{◌≡◌};
ghost use Rattle.cg_base.specs.Refusing.{least};
ghost use Rattle.cg_base.specs.Answering.{GivesForm};
ghost use Rattle.cg_desc_elements.specs.Heads.{reader_named};
ghost use Rattle.cg_desc_elements.specs.Reading.{said_to, faults_to, seen_reader, reader_under, reader_for, element_of, element_faults, GivesElements};

use crate::element::Element;
use cg_attrs::{Named, kind_among, named, read_frame};
use cg_base::{Fault, Form, Forms, List, Stop, Top, refusals, stop_at};
use cg_hw::read_hardware;
use cg_ifield::read_field;
use cg_insn::read_insn;
use cg_operand::read_operand;
use std::alloc::Global;

/// What reads a form.
#[derive(Clone, Copy)]
pub enum Reader {
    /// `read_frame`.
    Frames,
    /// `read_field`.
    Fields,
    /// `read_hardware`.
    Hardware,
    /// `read_operand`.
    Operands,
    /// `read_insn`.
    Insns,
}

/// The symbols that head forms, and the reader of each.
static HEADS: [Named<Reader>; 17] = [
    named!(b"define-arch", Reader::Frames),
    named!(b"define-isa", Reader::Frames),
    named!(b"define-cpu", Reader::Frames),
    named!(b"define-mach", Reader::Frames),
    named!(b"define-model", Reader::Frames),
    named!(b"define-attr", Reader::Frames),
    named!(b"define-enum", Reader::Frames),
    named!(b"define-normal-insn-enum", Reader::Frames),
    named!(b"define-keyword", Reader::Frames),
    named!(b"define-ifield", Reader::Fields),
    named!(b"define-multi-ifield", Reader::Fields),
    named!(b"define-hardware", Reader::Hardware),
    named!(b"define-operand", Reader::Operands),
    named!(b"define-derived-operand", Reader::Operands),
    named!(b"define-anyof-operand", Reader::Operands),
    named!(b"define-insn", Reader::Insns),
    named!(b"define-macro-insn", Reader::Insns),
];

/// The reader of the forms that a symbol heads.
#[tactic(auto, unfolding(crate::specs::Heads::reader_named))]
fn reader_named(head: &[u8]) -> Option<Reader>
    ensures { result ≡ reader_named head.now }
{
    kind_among(HEADS.as_slice(), head)
}

/// What a form says to a reader.
fn read_by(alloc: Global, reader: Reader, top: &Top) -> Result<Element, Stop>
    ensures { GivesForm top.now.file top.now.line (least (faults_to reader top.now.form)) (said_to reader top.now.form) result }
{
    match reader {
        Reader::Frames => Ok(Element::Frame(read_frame(alloc, top)?)),
        Reader::Fields => Ok(Element::Field(read_field(alloc, top)?)),
        Reader::Hardware => Ok(Element::Hardware(read_hardware(alloc, top)?)),
        Reader::Operands => Ok(Element::Operand(read_operand(alloc, top)?)),
        Reader::Insns => Ok(Element::Insn(read_insn(alloc, top)?)),
    }
}

/// The reader of the forms that this symbol heads, or the fault of its forms.
fn reader_under(head: &[u8]) -> Result<Reader, Fault<'_>>
    ensures { seen_reader result ≡ reader_under head.now }
{
    match head {
        b"if" => Err(THE_FORM_IF),
        _ => match reader_named(head) {
            Some(reader) => Ok(reader),
            None => Err(Fault {
                number: refusals::NO_FORM,
                text: head,
            }),
        },
    }
}

/// The reader of a form, or the fault of a form that none reads.
fn reader_for(form: &Form) -> Result<Reader, Fault<'_>>
    ensures { seen_reader result ≡ reader_for form.now }
{
    match form.headed() {
        Some((head, _)) => reader_under(head.as_slice()),
        None => Err(NO_HEAD),
    }
}

/// The fault of the form `if`, which is left out.
const THE_FORM_IF: Fault<'static> = Fault {
    number: refusals::LEFT_OUT,
    text: b"if",
};

/// The fault of a form that no symbol heads.
const NO_HEAD: Fault<'static> = Fault {
    number: refusals::NO_FORM,
    text: b"form",
};

/// What a form says, by the reader of the symbol that heads it (docs/LANGUAGE.md, "Forms and
/// clauses"). Otherwise the refusal of its least fault, by number and then by place, with its file
/// and line (docs/REFUSALS.md): E301 where no reader has its head, with that symbol, or `form` where
/// no symbol heads it; E307 for `if`; and what its reader refuses.
pub fn element_of(alloc: Global, top: &Top) -> Result<Element, Stop>
    ensures { GivesForm top.now.file top.now.line (least (element_faults top.now.form)) (element_of top.now.form) result }
{
    match reader_for(&top.form) {
        Ok(reader) => Ok(read_by(alloc, reader, top)?),
        Err(fault) => Err(stop_at(alloc, top.file, top.line, fault)),
    }
}

/// What a description's forms say, an element for each, in order. Otherwise the refusal of the first
/// form that has one, as `element_of` gives it (docs/REFUSALS.md).
pub fn elements(alloc: Global, forms: &Forms) -> Result<List<Element>, Stop>
    ensures { GivesElements forms.now.tops result }
{
    let mut elements = List::new(alloc);
    for top in forms.tops.as_slice() {
        elements.push(element_of(alloc, top)?)?;
    }
    Ok(elements)
}
