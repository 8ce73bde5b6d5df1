ghost use Rattle.std.specs.Prelude.{◌≡◌, ◌≤◌, [], ◌++◌, Some, true, IfOk, OnOk, OnErr, IsErrOf};
ghost use Rattle.cg_io.specs.Calls.{no_calls, will_fail, after_call, faults_of};

use crate::calls::Calls;
use crate::{Sink, WriteFault};
use cg_base::{List, NoMemory};
use std::alloc::Global;
use std::marker::Model;

/// A sink in memory. It tells what was put, and those calls of `put` fail whose numbers it was
/// given: the first has number 0, the next 1, whatever it answers.
#[derive(Debug, Drop)]
pub struct MemSink {
    wrote: Vec<u8>,
    calls: Calls,
}

impl Model for MemSink {
    ghost use Rattle.cg_io.specs.Memory.{MemorySink, sink_code};

    ghost Value = { MemorySink };

    ghost coded = { sink_code };

    ghost view = { λ sink. record { wrote = sink.wrote.items; calls = sink.calls } };
}

impl MemSink {
    /// A sink that was given nothing, whose calls with these numbers fail.
    pub fn new(alloc: Global, failing: List<u64>) -> Result<MemSink, NoMemory>
        ensures { IfOk result (λ sink.
            sink ≡ record { wrote = []; calls = no_calls failing }) }
    {
        Ok(MemSink {
            wrote: Vec::new(alloc),
            calls: Calls::new(failing),
        })
    }

    /// The bytes that were put, in order.
    pub fn wrote(&self) -> &[u8]
        ensures { result.now ≡ self.now.wrote }
    {
        self.wrote.as_slice()
    }
}

impl Sink for MemSink {
    ghost wrote = { λ sink. Some sink.wrote };

    ghost faults = { λ sink. faults_of sink.calls };

    fn put(&mut self, piece: &[u8]) -> Result<(), WriteFault>
        ensures ok { OnOk result (self.new.wrote ≡ self.old.wrote ++ piece.now) }
        ensures err { OnErr result (self.new.wrote ≡ self.old.wrote) }
        // Exactly those calls fail whose numbers were given, and they alone raise the count.
        ensures fails { will_fail self.old.calls ≡ true → IsErrOf result WriteFault.Failed }
        ensures only { IsErrOf result WriteFault.Failed → will_fail self.old.calls ≡ true }
        ensures counted { self.new.calls ≡ after_call self.old.calls }
        ensures later { faults_of self.old.calls ≤ faults_of self.new.calls }
    {
        if self.calls.count() {
            return Err(WriteFault::Failed);
        }
        self.wrote.extend_from_slice(piece)?;
        Ok(())
    }
}
