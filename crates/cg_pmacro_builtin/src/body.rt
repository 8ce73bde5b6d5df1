use crate::value::Value;
use cg_base::{List, Text};

/// A form in which arguments were put: a form with quoted leaves
/// (docs/LANGUAGE.md, "Macros").
#[derive(Drop)]
pub enum Body {
    /// A quoted leaf: it expands to this form and to nothing else.
    Quoted(Value),
    /// A number.
    Number(i64),
    /// A symbol.
    Symbol(Text),
    /// A string.
    Str(Text),
    /// `#t` or `#f`.
    Flag(bool),
    /// A list.
    Items(List<Body>),
}

/// A macro.
#[derive(Drop)]
pub struct Macro {
    /// Its name; that of a `.pmacro` form is `.pmacro`.
    pub name: Text,
    /// The names that stand for its arguments. None is a macro without arguments.
    pub formals: Option<List<Text>>,
    /// What a call of it is written out as.
    pub body: Body,
}

/// A name and the form that stands for it.
#[derive(Drop)]
pub struct Binding {
    /// The name.
    pub name: Text,
    /// What it is replaced by, as a quoted leaf.
    pub value: Value,
}
