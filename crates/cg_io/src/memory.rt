ghost use Rattle.std.specs.Prelude.{◌≡◌, ◌≤◌, [], ◌∷◌, ◌++◌, Some, true, false, IfOk, OnOk, OnErr, IsErrOf};
ghost use Rattle.std.specs.Option.{option_copied};
ghost use Rattle.std.specs.FinMap as map;
ghost use Rattle.cg_io.specs.Calls.{no_calls, will_fail, after_call, faults_of};
ghost use Rattle.cg_io.specs.Memory.{held_by, read_from, AnswersOrNoMemory};

use crate::calls::Calls;
use crate::past::Past;
use crate::{FileFault, Files, WriteFault};
use cg_base::{List, NoMemory, Text};
use std::alloc::Global;
use std::marker::Model;

/// A file: its name and its bytes.
#[derive(Debug, Drop)]
pub struct Entry {
    pub name: Text,
    pub bytes: Text,
}

/// Files in memory. They tell what they hold and what they were asked for, and those calls fail whose numbers they were
/// given: the first call of `read` or `write` has number 0, the next 1, whatever it answers.
#[derive(Drop)]
pub struct MemFiles {
    /// The files, of which the last of a name stands.
    entries: List<Entry>,
    calls: Calls,
    past: Past,
}

impl Model for MemFiles {
    ghost use Rattle.cg_io.specs.Memory.{MemoryFiles, files_code, held_by};

    ghost Value = { MemoryFiles };

    ghost coded = { files_code };

    ghost view = { λ files.
        record { held = held_by files.entries; calls = files.calls; asked = files.past.asked } };
}

/// The bytes of the last entry of a name.
fn newest<'a>(entries: &'a [Entry], name: &[u8]) -> Option<&'a [u8]>
    ensures { option_copied result ≡ map.get (held_by entries.now) name.now }
{
    let mut rest = entries;
    while let Some((last, front)) = rest.split_last() {
        if name == last.name.as_slice() {
            return Some(last.bytes.as_slice());
        }
        rest = front;
    }
    None
}

impl MemFiles {
    /// Files with these entries, of which the later of one name stands, whose calls with these
    /// numbers fail.
    pub fn new(
        _alloc: Global,
        entries: List<Entry>,
        failing: List<u64>,
    ) -> Result<MemFiles, NoMemory>
        ensures { IfOk result (λ files.
            files ≡ record { held = held_by entries; calls = no_calls failing; asked = [] }) }
    {
        Ok(MemFiles {
            entries,
            calls: Calls::new(failing),
            past: Past::new(),
        })
    }

    /// The bytes under a name. None exactly where there are none. It counts as no call.
    pub fn held(&self, name: &Text) -> Option<&[u8]>
        ensures { option_copied result ≡ map.get self.now.held name.now }
    {
        newest(self.entries.as_slice(), name.as_slice())
    }
}

impl Files for MemFiles {
    ghost held = { λ files. Some files.held };

    ghost asked = { λ files. Some files.asked };

    ghost faults = { λ files. faults_of files.calls };

    fn read(&mut self, alloc: Global, name: &Text, limit: u64) -> Result<Vec<u8>, FileFault>
        // Exactly those calls fail whose numbers were given, and they alone raise the count.
        ensures fails { will_fail self.old.calls ≡ true → IsErrOf result FileFault.Failed }
        ensures answers { will_fail self.old.calls ≡ false →
            AnswersOrNoMemory result (read_from self.old.held name.now limit) }
        ensures counted { self.new ≡ record self.old {
          calls = after_call self.old.calls;
          asked = self.old.asked ++ (name.now, limit) ∷ [];
        } }
        ensures later { faults_of self.old.calls ≤ faults_of self.new.calls }
    {
        self.past = self.past.with(name, &limit);
        if self.calls.count() {
            return Err(FileFault::Failed);
        }
        match newest(self.entries.as_slice(), name.as_slice()) {
            None => Err(FileFault::Missing),
            Some(bytes) => {
                if bytes.len() as u64 > limit {
                    return Err(FileFault::TooLong);
                }
                Ok(Vec::from_slice(alloc, bytes)?)
            }
        }
    }

    fn write(&mut self, alloc: Global, name: &Text, bytes: &[u8]) -> Result<(), WriteFault>
        ensures ok { OnOk result (self.new.held ≡ map.insert self.old.held name.now bytes.now) }
        ensures err { OnErr result (self.new.held ≡ self.old.held) }
        // Exactly those calls fail whose numbers were given, and they alone raise the count.
        ensures fails { will_fail self.old.calls ≡ true → IsErrOf result WriteFault.Failed }
        ensures only { IsErrOf result WriteFault.Failed → will_fail self.old.calls ≡ true }
        ensures counted { self.new.calls ≡ after_call self.old.calls }
        ensures asked { self.new.asked ≡ self.old.asked }
        ensures later { faults_of self.old.calls ≤ faults_of self.new.calls }
    {
        if self.calls.count() {
            return Err(WriteFault::Failed);
        }
        let entry = Entry {
            name: Text::of(alloc, name.as_slice())?,
            bytes: Text::of(alloc, bytes)?,
        };
        self.entries.push(entry)?;
        Ok(())
    }
}
