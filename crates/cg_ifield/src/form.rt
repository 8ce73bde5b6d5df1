use cg_attrs::Attr;
use cg_base::{Form, List, Text};

/// The form of a field (docs/LANGUAGE.md, "Fields").
#[derive(Debug, Drop)]
pub enum FieldForm {
    /// `define-ifield`.
    Plain(PlainForm),
    /// `define-multi-ifield`.
    Multi(MultiForm),
}

/// `define-ifield`: bits of an instruction. A clause that may be absent is an `Option`. A `Form` is
/// the list of the elements behind a clause's name.
#[derive(Debug, Drop)]
pub struct PlainForm {
    /// Its name.
    pub name: Text,
    /// The number of its first bit, from 0 to 65,535.
    pub start: i64,
    /// Its bits, any number.
    pub length: i64,
    /// Its mode, but `VOID`; where it is absent, or `DFLT`, `UINT` is meant.
    pub mode: Option<Text>,
    /// The bits of the instruction before its word, a multiple of 8 from 0 to 65,528. It stands
    /// exactly where `word_length` does.
    pub word_offset: Option<i64>,
    /// The bits of its word, a multiple of 8 from 8 to 64.
    pub word_length: Option<i64>,
    /// How a value becomes the field's bits: one list of `(value pc)` and an expression.
    pub encode: Option<Form>,
    /// How the field's bits become a value: one list of `(value pc)` and an expression.
    pub decode: Option<Form>,
    /// Its attributes.
    pub attrs: List<Attr>,
}

/// `define-multi-ifield`: a field made of others. A `Form` is the list of the elements behind a
/// clause's name.
#[derive(Debug, Drop)]
pub struct MultiForm {
    /// Its name.
    pub name: Text,
    /// The names of the fields that it is made of.
    pub subfields: List<Text>,
    /// How a value sets the subfields, each once: one `set`, or a `sequence` of them.
    pub insert: Form,
    /// How the subfields set its value: one `set` of the field itself.
    pub extract: Form,
    /// Its mode, but `VOID`; where it is absent, or `DFLT`, `UINT` is meant.
    pub mode: Option<Text>,
    /// Its attributes.
    pub attrs: List<Attr>,
}
