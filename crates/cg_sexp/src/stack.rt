ghost use Rattle.std.specs.Prelude.{◌≡◌, ◌++◌, ◌∷◌, [], OnOk};
ghost use Rattle.cg_base.specs.Answering.{Stops, Gives, leaving};
ghost use Rattle.cg_base.specs.Refusing.{refusal_at};
ghost use Rattle.cg_sexp.specs.Machine.{put, opened, closed, whole};
ghost use Rattle.cg_sexp.specs.Held.{nest_of};

use cg_base::{Fault, Form, List, NoMemory, Stop, Top, refusals, stop_at};
use std::alloc::Global;

/// How many lists may stand in one another.
const MOST_OPEN: usize = 200;

/// A list that is open: its forms so far, and the line of its `(`.
#[derive(Drop)]
pub struct Open {
    pub forms: List<Form>,
    pub line: u32,
}

/// The forms so far: those that stand in no other, and the lists that are open, the innermost
/// last.
#[derive(Drop)]
pub struct Stack {
    pub alloc: Global,
    pub file: u16,
    pub tops: List<Top>,
    pub lists: Vec<Open>,
}

impl Stack {
    /// A stack without forms.
    pub fn new(alloc: Global, file: u16) -> Stack
        ensures file { result.file ≡ file }
        ensures tops { result.tops ≡ [] }
        ensures lists { result.lists.items ≡ [] }
    {
        Stack {
            alloc,
            file,
            tops: List::new(alloc),
            lists: Vec::new(alloc),
        }
    }

    /// The refusal of a text on this line.
    pub fn refused(&self, line: u32, number: u16, text: &[u8]) -> Stop
        ensures { Stops (λ refusal. refusal ≡ refusal_at self.now.file line (number, text.now)) result }
    {
        stop_at(self.alloc, self.file, line, Fault { number, text })
    }

    /// Puts a form, which begins on this line, into the innermost list.
    pub fn put(&mut self, form: Form, line: u32) -> Result<(), NoMemory>
        ensures { OnOk result (nest_of self.new ≡ put form line (nest_of self.old)) }
    {
        let file = self.file;
        match self.lists.last_mut() {
            Some(list) => list.forms.push(form),
            None => self.tops.push(Top { form, file, line }),
        }
    }

    /// Opens a list, which begins on this line.
    pub fn open(&mut self, line: u32) -> Result<(), Stop>
        ensures { Gives (opened line (nest_of self.old)) (leaving (nest_of self.new) result) }
    {
        if self.lists.len() >= MOST_OPEN {
            return Err(self.refused(line, refusals::DEEP_LIST, b"200"));
        }
        let list = Open {
            forms: List::new(self.alloc),
            line,
        };
        match self.lists.push(list) {
            Ok(()) => Ok(()),
            Err(_) => Err(Stop::NoMemory),
        }
    }

    /// Closes the innermost list, at a `)` on this line.
    pub fn close(&mut self, line: u32) -> Result<(), Stop>
        ensures { Gives (closed line (nest_of self.old)) (leaving (nest_of self.new) result) }
    {
        match self.lists.pop() {
            Some(Open { forms, line }) => {
                self.put(Form::Items(forms.fitted()?), line)?;
                Ok(())
            }
            None => Err(self.refused(line, refusals::NO_LIST_OPEN, b")")),
        }
    }

    /// The forms that stand in no other, where no list is open.
    pub fn whole(self) -> Result<List<Top>, Stop>
        ensures { Gives (whole (nest_of self)) result }
    {
        match self.lists.last() {
            Some(list) => Err(self.refused(list.line, refusals::CUT_OFF, b"list")),
            None => {
                let Stack { tops, .. } = self;
                Ok(tops)
            }
        }
    }
}
