use crate::case::Case;
use cg_base::{List, NoMemory, Text, read_number};
use cg_io::Entry;
use std::alloc::Global;

/// The lines of a file of cases that were taken so far.
#[derive(Drop)]
pub struct Script {
    alloc: Global,
    /// Texts that lines may be taken from, by name.
    texts: List<Entry>,
    /// The case that is being read.
    case: Case,
    /// The text or file that is being read.
    open: Entry,
    /// Whether that is a file of the case.
    is_file: bool,
    /// What the cases before it were answered.
    pub printed: Text,
}

/// Nothing, under no name.
fn nothing(alloc: Global) -> Entry {
    Entry {
        name: Text::new(alloc),
        bytes: Text::new(alloc),
    }
}

/// The word in front of a line's first blank, and what stands behind that.
fn split(line: &[u8]) -> (&[u8], &[u8]) {
    match line.iter().position(|byte| *byte == b' ') {
        Some(k) => match line.split_at_checked(k) {
            Some((word, rest)) => (word, rest.get(1..).unwrap_or(b"")),
            None => (line, b""),
        },
        None => (line, b""),
    }
}

/// Puts words, which stand one blank apart, at the end of a list.
fn push_words(alloc: Global, words: &mut List<Text>, line: &[u8]) -> Result<(), NoMemory> {
    for word in line.split(|byte| *byte == b' ') {
        words.push(Text::of(alloc, word)?)?;
    }
    Ok(())
}

/// Puts a number at the end of a list, where the text is one.
fn push_number(numbers: &mut List<u64>, text: &[u8]) -> Result<(), NoMemory> {
    match read_number(text) {
        Some(number) => numbers.push(number),
        None => Ok(()),
    }
}

/// Puts a text at the end of another so many times.
fn push_times(text: &mut Text, line: &[u8]) -> Result<(), NoMemory> {
    let (count, piece) = split(line);
    for _ in 0..read_number(count).unwrap_or(0) {
        text.append(piece)?;
    }
    Ok(())
}

/// Puts the bytes of these numbers, which stand one blank apart, at the end of a text.
fn push_bytes(text: &mut Text, line: &[u8]) -> Result<(), NoMemory> {
    for word in line.split(|byte| *byte == b' ') {
        if let Some(number) = read_number(word) {
            text.push((number % 256) as u8)?;
        }
    }
    Ok(())
}

impl Script {
    /// No lines.
    pub fn new(alloc: Global) -> Script {
        Script {
            alloc,
            texts: List::new(alloc),
            case: Case::new(alloc),
            open: nothing(alloc),
            is_file: false,
            printed: Text::new(alloc),
        }
    }

    /// Ends the text or file that is being read, and begins another of this name.
    fn begin(&mut self, name: &[u8], is_file: bool) -> Result<(), NoMemory> {
        let next = Entry {
            name: Text::of(self.alloc, name)?,
            bytes: Text::new(self.alloc),
        };
        let entry = std::mem::replace(&mut self.open, next);
        if self.is_file {
            self.case.files.push(entry)?;
        } else {
            self.texts.push(entry)?;
        }
        self.is_file = is_file;
        Ok(())
    }

    /// Puts the text of this name at the end of what is being read.
    fn insert(&mut self, name: &[u8]) -> Result<(), NoMemory> {
        for text in self.texts.as_slice() {
            if text.name.as_slice() == name {
                self.open.bytes.append(text.bytes.as_slice())?;
            }
        }
        Ok(())
    }

    /// Runs the case that is being read, if there is one, and begins another.
    pub fn run(&mut self) -> Result<(), NoMemory> {
        self.begin(b"", false)?;
        let case = std::mem::replace(&mut self.case, Case::new(self.alloc));
        if case.name.len() == 0 {
            return Ok(());
        }
        case.run(self.alloc, &mut self.printed)
    }

    /// Takes a line of the text or file that is being read.
    fn take_content(&mut self, word: &[u8], rest: &[u8]) -> Result<(), NoMemory> {
        match word {
            b"|" => {
                self.open.bytes.append(rest)?;
                self.open.bytes.push(b'\n')
            }
            b"~" => self.open.bytes.append(rest),
            b"bytes" => push_bytes(&mut self.open.bytes, rest),
            b"times" => push_times(&mut self.open.bytes, rest),
            b"insert" => self.insert(rest),
            _ => Ok(()),
        }
    }

    /// Takes a line.
    fn take(&mut self, line: &[u8]) -> Result<(), NoMemory> {
        let (word, rest) = split(line);
        match word {
            b"case" => {
                self.run()?;
                self.case.name = Text::of(self.alloc, rest)?;
                Ok(())
            }
            b"words" => push_words(self.alloc, &mut self.case.words, rest),
            b"failing-call" => push_number(&mut self.case.failing_calls, rest),
            b"failing-put" => push_number(&mut self.case.failing_puts, rest),
            b"text" => self.begin(rest, false),
            b"file" => self.begin(rest, true),
            _ => self.take_content(word, rest),
        }
    }
}

/// Takes the lines of a file of cases.
pub fn each_line(script: &mut Script, bytes: &[u8]) -> Result<(), NoMemory> {
    for line in bytes.split(|byte| *byte == b'\n') {
        script.take(line)?;
    }
    Ok(())
}
