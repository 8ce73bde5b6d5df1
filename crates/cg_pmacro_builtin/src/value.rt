ghost use Rattle.std.specs.Prelude.{◌≡◌, IfOk};
ghost use Rattle.cg_base.specs.declared.form.Form.TheVariants as form;

use cg_base::{Form, List, NoMemory, Text};
use std::alloc::{AllocError, Global};
use std::marker::Model;
use std::rc::Rc;

/// A form that an expansion gave. Several places may hold it or a part of it, and none of them
/// has a copy of its own. Contracts see the form.
#[cycle(value)]
#[derive(Drop)]
pub struct Value {
    /// Its kind with its content.
    pub node: Node,
}

/// A form whose texts and lists several places may hold.
#[cycle(value)]
#[derive(Drop)]
pub enum Node {
    /// A number.
    Number(i64),
    /// A symbol.
    Symbol(Rc<Text>),
    /// A string.
    Str(Rc<Text>),
    /// `#t` or `#f`.
    Flag(bool),
    /// A list, and how many lists stand one within another in it, itself among them.
    Items(u32, Rc<List<Value>>),
}

/// How many lists may stand one within another in a value. Letting go of a value takes some of
/// the stack for each of them, so that more would be too much for it.
const DEEPEST: u32 = 30_000;

impl Model for Value {
    ghost use Rattle.cg_base.specs.declared.form.Form.{Form as Shown};
    ghost use Rattle.cg_base.specs.contracts.form.Form as shown;
    ghost use Rattle.std.specs.Coded.{codes};

    ghost Value = { Shown };

    ghost coded = { Prim.hlevel (codes, shown.the_row.coded) };

    ghost use Rattle.cg_pmacro_builtin.specs.Values.{form_of};

    ghost view = { λ it. form_of it.node };

    ghost use Rattle.cg_pmacro_builtin.specs.Depths.{lists};

    ghost size = { lists };

    ghost use Rattle.cg_pmacro_builtin.specs.Falls.{elements_fall};

    ghost size_decreases = { λ it h. elements_fall it.node };
}

impl Value {
    /// A number.
    pub fn number(number: i64) -> Value
        ensures { result ≡ form.Number number }
    {
        Value {
            node: Node::Number(number),
        }
    }

    /// A symbol.
    pub fn symbol(alloc: Global, text: Text) -> Result<Value, NoMemory>
        ensures { IfOk result (λ value. value ≡ form.Symbol text) }
    {
        Ok(Value {
            node: Node::Symbol(Rc::new(alloc, text)?),
        })
    }

    /// A string.
    pub fn string(alloc: Global, text: Text) -> Result<Value, NoMemory>
        ensures { IfOk result (λ value. value ≡ form.Str text) }
    {
        Ok(Value {
            node: Node::Str(Rc::new(alloc, text)?),
        })
    }

    /// `#t` or `#f`.
    pub fn flag(flag: bool) -> Value
        ensures { result ≡ form.Flag flag }
    {
        Value {
            node: Node::Flag(flag),
        }
    }

    /// A list. Where it is too deep for the stack, memory counts as run out.
    pub fn list(alloc: Global, values: List<Value>) -> Result<Value, NoMemory>
        ensures { IfOk result (λ value. value ≡ form.Items values) }
    {
        let inner = deepest(values.as_slice());
        if inner >= DEEPEST {
            return Err(NoMemory);
        }
        Ok(Value {
            node: Node::Items(inner + 1, Rc::new(alloc, values)?),
        })
    }

    /// The form, with a copy of all that it holds.
    pub fn form(&self, alloc: Global) -> Result<Form, NoMemory>
        ensures { IfOk result (λ form. form ≡ self.now) }
    {
        match &self.node {
            Node::Number(number) => Ok(Form::Number(*number)),
            Node::Symbol(text) => Ok(Form::Symbol(text.as_ref().clone()?)),
            Node::Str(text) => Ok(Form::Str(text.as_ref().clone()?)),
            Node::Flag(flag) => Ok(Form::Flag(*flag)),
            Node::Items(_, items) => {
                let mut forms = List::new(alloc);
                for item in items.as_ref().as_slice() {
                    forms.push(item.form(alloc)?)?;
                }
                Ok(Form::Items(forms))
            }
        }
    }
}

/// How many lists stand one within another in the deepest of some values.
fn deepest(values: &[Value]) -> u32 {
    let mut most = 0;
    for value in values {
        if let Node::Items(depth, _) = &value.node {
            most = most.max(*depth);
        }
    }
    most
}

/// The same form for one more place. Nothing of it is copied.
impl Clone for Value {
    ghost is_clone = { λ v w. w ≡ v };

    fn clone(&self) -> Result<Value, AllocError> {
        let node = match &self.node {
            Node::Number(number) => Node::Number(*number),
            Node::Symbol(text) => Node::Symbol(text.clone()?),
            Node::Str(text) => Node::Str(text.clone()?),
            Node::Flag(flag) => Node::Flag(*flag),
            Node::Items(depth, items) => Node::Items(*depth, items.clone()?),
        };
        Ok(Value { node })
    }
}
