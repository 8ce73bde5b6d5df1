use cg_attrs::Attr;
use cg_base::{Form, List, Text};

/// The form of an instruction (docs/LANGUAGE.md, "Instructions").
#[derive(Debug, Drop)]
pub enum InsnForm {
    /// `define-insn`.
    Instruction(InstructionForm),
    /// `define-macro-insn`.
    Macro(MacroForm),
}

/// `define-insn`: an instruction of the machine. A clause that may be absent is an `Option`. A
/// `Form` is the list of the elements behind a clause's name.
#[derive(Debug, Drop)]
pub struct InstructionForm {
    /// Its name.
    pub name: Text,
    /// How it is written: a syntax.
    pub syntax: Text,
    /// Its parts: one list `(+ part ..)`, or `+` and parts.
    pub format: Form,
    /// What it does: one expression.
    pub semantics: Form,
    /// For each model the units that it takes, as `(model (unit name ..) ..)`.
    pub timing: Option<Form>,
    /// When its format is meant: one expression.
    pub ifield_assertion: Option<Form>,
    /// Its attributes.
    pub attrs: List<Attr>,
}

/// `define-macro-insn`: another way of writing an instruction. A `Form` is the list of the elements
/// behind a clause's name.
#[derive(Debug, Drop)]
pub struct MacroForm {
    /// Its name.
    pub name: Text,
    /// How it is written: a syntax.
    pub syntax: Text,
    /// What it stands for: one list `(emit insn item ..)`. The clause may be spelled `expansion`.
    pub expansions: Form,
    /// Its attributes.
    pub attrs: List<Attr>,
}
