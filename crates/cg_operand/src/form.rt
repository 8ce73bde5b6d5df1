use cg_attrs::Attr;
use cg_base::{Form, List, Text};

/// The form of an operand (docs/LANGUAGE.md, "Operands").
#[derive(Debug, Drop)]
pub enum OperandForm {
    /// `define-operand`.
    Plain(PlainOperandForm),
    /// `define-derived-operand`.
    Derived(DerivedOperandForm),
    /// `define-anyof-operand`.
    Anyof(AnyofOperandForm),
}

/// `define-operand`: hardware with an index or a value. A `Form` is the list of the elements behind
/// a clause's name.
#[derive(Debug, Drop)]
pub struct PlainOperandForm {
    /// Its name.
    pub name: Text,
    /// What stands behind the name of the clause `type`: the name of its hardware, a symbol.
    pub kind: Form,
    /// The name of the field that holds its index or its value, `f-nil` for none, or a number.
    pub index: Form,
    /// Its attributes.
    pub attrs: List<Attr>,
}

/// `define-derived-operand`: a way to write and to encode an operand, made of others. A clause that
/// may be absent is an `Option`. A `Form` is the list of the elements behind a clause's name.
#[derive(Debug, Drop)]
pub struct DerivedOperandForm {
    /// Its name.
    pub name: Text,
    /// The names of the operands that it is made of.
    pub args: List<Text>,
    /// How it is written: literals, and slots for the operands.
    pub syntax: Text,
    /// The name of a field, which has no effect.
    pub base_ifield: Text,
    /// Its parts of an instruction's format: one list, which `+` heads.
    pub encoding: Form,
    /// How it is read: one expression.
    pub getter: Form,
    /// How it is written to: one expression, in which `newval` is the value.
    pub setter: Form,
    /// What has to hold of an instruction's fields: one expression.
    pub ifield_assertion: Option<Form>,
    /// Its attributes.
    pub attrs: List<Attr>,
}

/// `define-anyof-operand`: any of several operands.
#[derive(Debug, Drop)]
pub struct AnyofOperandForm {
    /// Its name.
    pub name: Text,
    /// The names of the operands that it may be.
    pub choices: List<Text>,
    /// Its attributes.
    pub attrs: List<Attr>,
}
