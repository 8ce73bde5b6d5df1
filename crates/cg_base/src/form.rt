ghost use Rattle.std.specs.Prelude.{◌≡◌};

use crate::{List, Text};
use std::alloc::AllocError;

/// A form: what one number, symbol, string, flag or list of a description stands for
/// (docs/LANGUAGE.md, "Texts and forms").
#[derive(Debug, Drop, PartialEq, Eq)]
pub enum Form {
    /// A number, as `-12`.
    Number(i64),
    /// A symbol, as `f-rd`: the bytes of its token.
    Symbol(Text),
    /// A string, as `"add"`: the bytes between its quotes, with its escapes resolved.
    Str(Text),
    /// `#t` or `#f`.
    Flag(bool),
    /// A list, as `(machs tiny)`: its elements in order.
    Items(List<Form>),
}

/// A form that stands in no other, with its place.
#[derive(Debug, Drop, Clone, PartialEq, Eq)]
pub struct Top {
    /// The form itself.
    pub form: Form,
    /// Which of the description's files it stands in, in the order of reading, the first 0.
    pub file: u16,
    /// The line of the form's first byte, counted from 1. A line past 2^32 - 1 is held as
    /// 2^32 - 1.
    pub line: u32,
}

/// The forms of a description, in order.
#[derive(Debug, Drop, Clone, PartialEq, Eq)]
pub struct Forms {
    /// Each form that stands in no other.
    pub tops: List<Top>,
}

impl Clone for Form {
    ghost is_clone = { λ v w. w ≡ v };

    fn clone(&self) -> Result<Form, AllocError> {
        match self {
            Form::Number(number) => Ok(Form::Number(*number)),
            Form::Symbol(text) => Ok(Form::Symbol(text.clone()?)),
            Form::Str(text) => Ok(Form::Str(text.clone()?)),
            Form::Flag(flag) => Ok(Form::Flag(*flag)),
            Form::Items(items) => {
                let mut copies = List::new(items.allocator());
                for item in items.as_slice() {
                    copies.push_copy(item.clone()?)?;
                }
                Ok(Form::Items(copies))
            }
        }
    }
}
