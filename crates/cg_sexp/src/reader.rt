ghost use Rattle.std.specs.Prelude.{◌≡◌, [], ◌∷◌, OnOk};
ghost use Rattle.cg_base.specs.Grammar.{kind_of};
ghost use Rattle.cg_base.specs.Answering.{Stops, Gives, leaving};
ghost use Rattle.cg_base.specs.Faults.{hex_byte};
ghost use Rattle.cg_base.specs.Refusing.{refusal_at};
ghost use Rattle.cg_base.specs.Reading.{ended};
ghost use Rattle.cg_sexp.specs.Machine.{apart, settled, outside_step, string_step, escape_step, comment_step, step, finish, ends, whole, read_all};
ghost use Rattle.cg_sexp.specs.Held.{nest_of, state_of};

use crate::kind::{is_string_byte, kind_at, next_line};
use crate::refused::refused_byte;
use crate::stack::Stack;
use crate::token::{form_of, refused_as};
use cg_base::{Form, Kind, List, Stop, Text, Top, refusals};
use std::alloc::Global;

/// Where the reader stands in a text. The strings hold the line of their `"`.
#[derive(Clone, Copy, Debug, PartialEq, Eq)]
pub enum Mode {
    /// Between forms, or in a token.
    Outside,
    /// In a string.
    Quoted(u32),
    /// In a string, behind `\`.
    Escaping(u32),
    /// In a comment.
    Comment,
}

/// Reads a text byte by byte.
#[derive(Drop)]
pub struct Reader {
    pub mode: Mode,
    /// The bytes so far of a token or string.
    pub held: Text,
    pub line: u32,
    pub stack: Stack,
}

impl Reader {
    /// Ends the token, if there is one.
    fn settle(&mut self) -> Result<(), Stop>
        ensures nest { Gives (settled self.old.held self.old.line (nest_of self.old.stack)) (leaving (nest_of self.new.stack) result) }
        ensures rest { OnOk result (self.new ≡ record self.old { held = []; stack = self.new.stack }) }
    {
        if self.held.len() == 0 {
            return Ok(());
        }
        match form_of(Text::of(self.stack.alloc, self.held.as_slice())?) {
            Ok(form) => {
                self.stack.put(form, self.line)?;
                self.held.clear();
                Ok(())
            }
            Err(fault) => Err(
                self.stack
                    .refused(self.line, refused_as(fault), self.held.as_slice()),
            ),
        }
    }

    /// Takes a byte that stands in no token.
    fn apart(&mut self, byte: u8) -> Result<(), Stop>
        requires mode { self.old.mode ≡ Mode.Outside }
        requires held { self.old.held ≡ [] }
        ensures { Gives (apart (kind_of byte) byte self.old.line (nest_of self.old.stack)) (leaving (state_of self.new) result) }
    {
        match kind_at(byte) {
            Kind::Blank => {
                self.line = next_line(self.line, byte);
                Ok(())
            }
            Kind::Opening => self.stack.open(self.line),
            Kind::Closing => self.stack.close(self.line),
            Kind::Quote => {
                self.mode = Mode::Quoted(self.line);
                Ok(())
            }
            Kind::Semicolon => {
                self.mode = Mode::Comment;
                Ok(())
            }
            Kind::Letter | Kind::Foreign => Err(self.refused_here(byte)),
        }
    }

    /// The refusal of a byte on this line.
    fn refused_here(&self, byte: u8) -> Stop
        ensures { Stops (λ refusal. refusal ≡ refusal_at self.now.stack.file self.now.line (101, hex_byte byte)) result }
    {
        refused_byte(self.stack.alloc, self.stack.file, self.line, byte)
    }

    /// Takes a byte outside strings and comments.
    fn outside(&mut self, byte: u8) -> Result<(), Stop>
        requires { self.old.mode ≡ Mode.Outside }
        ensures { Gives (outside_step self.old.held byte self.old.line (nest_of self.old.stack)) (leaving (state_of self.new) result) }
    {
        if kind_at(byte) == Kind::Letter {
            self.held.push(byte)?;
            return Ok(());
        }
        self.settle()?;
        self.apart(byte)
    }

    /// Takes a byte of a string that began on the line `start`.
    fn string(&mut self, start: u32, byte: u8) -> Result<(), Stop>
        requires { self.old.mode ≡ Mode.Quoted start }
        ensures { Gives (string_step start self.old.held byte self.old.line (nest_of self.old.stack)) (leaving (state_of self.new) result) }
    {
        match byte {
            b'"' => {
                let string = Text::of(self.stack.alloc, self.held.as_slice())?;
                self.stack.put(Form::Str(string), start)?;
                self.held.clear();
                self.mode = Mode::Outside;
                Ok(())
            }
            b'\\' => {
                self.mode = Mode::Escaping(start);
                Ok(())
            }
            _ if is_string_byte(byte) => {
                self.held.push(byte)?;
                self.line = next_line(self.line, byte);
                Ok(())
            }
            _ => Err(self.refused_here(byte)),
        }
    }

    /// Takes a byte that stands behind `\` in a string that began on the line `start`.
    fn escape(&mut self, start: u32, byte: u8) -> Result<(), Stop>
        ensures { Gives (escape_step start self.old.held byte self.old.line (nest_of self.old.stack)) (leaving (state_of self.new) result) }
    {
        match byte {
            b'"' | b'\\' => self.held.push(byte)?,
            b'n' => self.held.push(b'\n')?,
            b't' => self.held.push(b'\t')?,
            b'\n' => {}
            _ => return Err(self.refused_here(b'\\')),
        }
        self.mode = Mode::Quoted(start);
        self.line = next_line(self.line, byte);
        Ok(())
    }

    /// Takes a byte of a comment.
    fn comment(&mut self, byte: u8)
        requires { self.old.mode ≡ Mode.Comment }
        ensures { state_of self.new ≡ comment_step self.old.held byte self.old.line (nest_of self.old.stack) }
    {
        if byte == b'\n' {
            self.mode = Mode::Outside;
            self.line = next_line(self.line, byte);
        }
    }

    fn take(&mut self, byte: u8) -> Result<(), Stop>
        ensures { Gives (step (state_of self.old) byte) (leaving (state_of self.new) result) }
    {
        match self.mode {
            Mode::Outside => self.outside(byte),
            Mode::Quoted(start) => self.string(start, byte),
            Mode::Escaping(start) => self.escape(start, byte),
            Mode::Comment => {
                self.comment(byte);
                Ok(())
            }
        }
    }

    /// Takes the end of the last line, with which the text ends.
    fn end(mut self) -> Result<List<Top>, Stop>
        ensures { Gives (ends (state_of self) (10 ∷ [])) result }
    {
        self.take(b'\n')?;
        self.finish()
    }

    fn finish(mut self) -> Result<List<Top>, Stop>
        ensures { Gives (finish (state_of self)) result }
    {
        match self.mode {
            Mode::Outside => {
                self.settle()?;
                self.whole()
            }
            Mode::Comment => self.whole(),
            Mode::Quoted(start) | Mode::Escaping(start) => Err(
                self.stack.refused(start, refusals::CUT_OFF, b"string"),
            ),
        }
    }

    fn whole(self) -> Result<List<Top>, Stop>
        ensures { Gives (whole (nest_of self.stack)) result }
    {
        let Reader { stack, .. } = self;
        stack.whole()
    }
}

/// The forms that the bytes spell and a line's end behind them, or the first fault.
pub fn read_all(alloc: Global, bytes: &[u8], file: u16) -> Result<List<Top>, Stop>
    ensures { Gives (read_all file (ended bytes.now)) result }
{
    let mut reader = Reader {
        mode: Mode::Outside,
        held: Text::new(alloc),
        line: 1,
        stack: Stack::new(alloc, file),
    };
    for byte in bytes {
        reader.take(*byte)?;
    }
    reader.end()
}
