use cg_attrs::Attr;
use cg_base::{Form, List, Text};

/// `define-hardware`: what its clauses say (docs/LANGUAGE.md, "Hardware"). A clause that
/// may be absent is an `Option`. A `Form` is the list of the elements behind a clause's name.
#[derive(Debug, Drop)]
pub struct HardwareForm {
    /// Its name.
    pub name: Text,
    /// What stands behind the name of the clause `type`.
    pub kind: Form,
    /// The words of its indices.
    pub indices: Option<Form>,
    /// The words of its values.
    pub values: Option<Form>,
    /// How it is read: the formals, and an expression.
    pub get: Option<Form>,
    /// How it is written: the formals, and an expression.
    pub set: Option<Form>,
    /// Its attributes.
    pub attrs: List<Attr>,
}
