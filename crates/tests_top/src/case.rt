use cg_base::{List, NoMemory, Text, decimal};
use cg_io::{Entry, MemFiles, MemSink};
use cg_top::cgen;
use std::alloc::Global;

/// What the top call is asked, and over what.
#[derive(Drop)]
pub struct Case {
    /// What is printed in front of the answer. A case without a name is none.
    pub name: Text,
    /// The words behind the program's name.
    pub words: List<Text>,
    /// The files, of which the later of one name stands.
    pub files: List<Entry>,
    /// The numbers of the calls of the files that fail, counted from 0.
    pub failing_calls: List<u64>,
    /// The numbers of the calls of the sink that fail, counted from 0.
    pub failing_puts: List<u64>,
}

impl Case {
    /// A case without a name, words and files.
    pub fn new(alloc: Global) -> Case {
        Case {
            name: Text::new(alloc),
            words: List::new(alloc),
            files: List::new(alloc),
            failing_calls: List::new(alloc),
            failing_puts: List::new(alloc),
        }
    }

    /// Puts the case's name, the status and what was written at the end of a text.
    pub fn run(self, alloc: Global, printed: &mut Text) -> Result<(), NoMemory> {
        let mut files = MemFiles::new(alloc, self.files, self.failing_calls)?;
        let mut sink = MemSink::new(alloc, self.failing_puts)?;
        let status = cgen(alloc, self.words.as_slice(), &mut files, &mut sink);
        printed.append(b"case ")?;
        printed.append(self.name.as_slice())?;
        printed.append(b"\nstatus ")?;
        printed.append(decimal(alloc, i128::from(status))?.as_slice())?;
        printed.append(b"\n")?;
        printed.append(sink.wrote())?;
        Ok(())
    }
}
