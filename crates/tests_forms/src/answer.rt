use cg_attrs::{read_attrs, read_frame};
use cg_base::{Form, List, NoMemory, Refusal, Stop, Text, Top, decimal};
use cg_hw::read_hardware;
use cg_ifield::read_field;
use cg_insn::{NamedPiece, pieces, read_insn};
use cg_operand::read_operand;
use cg_rtl::check_rtl;
use std::alloc::Global;

/// A reader of forms, and what else is judged by a form's head.
#[derive(Clone, Copy)]
enum Judge {
    Frame,
    Field,
    Hardware,
    Operand,
    Insn,
    Rtl,
    Attributes,
    Pieces,
}

/// A word, and what it asks for.
struct Head {
    name: &'static [u8],
    judge: Judge,
}

macro_rules! head {
    ($name:expr, $judge:expr) => {
        Head {
            name: $name,
            judge: $judge,
        }
    };
}

/// The heads of forms that aren't read as frames.
static HEADS: [Head; 11] = [
    head!(b"define-ifield", Judge::Field),
    head!(b"define-multi-ifield", Judge::Field),
    head!(b"define-hardware", Judge::Hardware),
    head!(b"define-operand", Judge::Operand),
    head!(b"define-derived-operand", Judge::Operand),
    head!(b"define-anyof-operand", Judge::Operand),
    head!(b"define-insn", Judge::Insn),
    head!(b"define-macro-insn", Judge::Insn),
    head!(b"rtl", Judge::Rtl),
    head!(b"attributes", Judge::Attributes),
    head!(b"pieces", Judge::Pieces),
];

/// What judges a form.
fn judge_of(form: &Form) -> Judge {
    if let Some((name, _)) = form.headed() {
        for head in &HEADS {
            if head.name == name.as_slice() {
                return head.judge;
            }
        }
    }
    Judge::Frame
}

/// The refusal of an answer, if it is one.
fn refusal_of<T: Drop>(answer: Result<T, Stop>) -> Result<Option<Refusal>, NoMemory> {
    match answer {
        Ok(_) => Ok(None),
        Err(Stop::Refused(refusal)) => Ok(Some(refusal)),
        Err(Stop::NoMemory) => Err(NoMemory),
    }
}

/// The refusal of the shape of the expression behind a head.
fn refusal_of_rtl(alloc: Global, form: &Form) -> Result<Option<Refusal>, NoMemory> {
    match form.elements() {
        Some([_, expression]) => refusal_of(check_rtl(alloc, expression)),
        _ => Ok(None),
    }
}

/// The refusal of the attributes behind a head.
fn refusal_of_attributes(alloc: Global, form: &Form) -> Result<Option<Refusal>, NoMemory> {
    let mut attributes = List::new(alloc);
    if let Some((_, rest)) = form.headed() {
        for attribute in rest {
            attributes.push(attribute.clone()?)?;
        }
    }
    refusal_of(read_attrs(alloc, &Form::Items(attributes)))
}

/// Puts the pieces of a syntax at the end of a text, each behind a blank.
fn put_pieces(pieces: &[NamedPiece], printed: &mut Text) -> Result<(), NoMemory> {
    for piece in pieces {
        match piece {
            NamedPiece::Literal(text) => {
                printed.append(b" [")?;
                printed.append(text.as_slice())?;
                printed.append(b"]")?;
            }
            NamedPiece::Slot(name) => {
                printed.append(b" $")?;
                printed.append(name.as_slice())?;
            }
        }
    }
    Ok(())
}

/// Puts `ok` at the end of a text, or the number and the text of a refusal.
fn put_refusal(
    alloc: Global,
    refusal: Option<Refusal>,
    printed: &mut Text,
) -> Result<(), NoMemory> {
    match refusal {
        Some(refusal) => {
            printed.append(b" E")?;
            let number = decimal(alloc, i128::from(refusal.number))?;
            printed.append(number.as_slice())?;
            printed.append(b" ")?;
            printed.append(refusal.text.as_slice())
        }
        None => printed.append(b" ok"),
    }
}

/// Puts the pieces of the syntax behind a head at the end of a text, or its refusal.
fn put_syntax(alloc: Global, form: &Form, printed: &mut Text) -> Result<(), NoMemory> {
    let Some([_, Form::Str(syntax)]) = form.elements() else {
        return Ok(());
    };
    match pieces(alloc, syntax) {
        Ok(pieces) => {
            printed.append(b" ok")?;
            put_pieces(pieces.as_slice(), printed)
        }
        Err(Stop::Refused(refusal)) => put_refusal(alloc, Some(refusal), printed),
        Err(Stop::NoMemory) => Err(NoMemory),
    }
}

/// The refusal of a form by what judges it, if it has one.
fn refusal(alloc: Global, judge: Judge, top: &Top) -> Result<Option<Refusal>, NoMemory> {
    match judge {
        Judge::Frame => refusal_of(read_frame(alloc, top)),
        Judge::Field => refusal_of(read_field(alloc, top)),
        Judge::Hardware => refusal_of(read_hardware(alloc, top)),
        Judge::Operand => refusal_of(read_operand(alloc, top)),
        Judge::Insn => refusal_of(read_insn(alloc, top)),
        Judge::Rtl => refusal_of_rtl(alloc, &top.form),
        Judge::Attributes => refusal_of_attributes(alloc, &top.form),
        Judge::Pieces => Ok(None),
    }
}

/// Puts the number of a form's line and what it is answered at the end of a text.
pub fn put_answer(alloc: Global, top: &Top, printed: &mut Text) -> Result<(), NoMemory> {
    let line = decimal(alloc, i128::from(top.line))?;
    printed.append(line.as_slice())?;
    match judge_of(&top.form) {
        Judge::Pieces => put_syntax(alloc, &top.form, printed)?,
        judge => put_refusal(alloc, refusal(alloc, judge, top)?, printed)?,
    }
    printed.append(b"\n")
}
