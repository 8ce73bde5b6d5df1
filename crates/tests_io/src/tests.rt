use cg_base::{List, NoMemory, Text};
use cg_io::{Entry, FileFault, Files, HostFiles, HostSink, MemFiles, MemSink, Sink, WriteFault};
use std::alloc::Global;
use std::io::Write;
use std::test::Fail;
use std::{fs, io};

/// A list of these numbers.
fn numbers(alloc: Global, all: &[u64]) -> Result<List<u64>, NoMemory> {
    let mut list = List::new(alloc);
    for number in all {
        list.push(*number)?;
    }
    Ok(list)
}

/// A call of files, and what it answers.
#[derive(Clone, Copy)]
enum Call {
    /// Reads a name with a limit.
    Read(&'static [u8], u64, Result<&'static [u8], FileFault>),
    /// Writes bytes under a name.
    Write(&'static [u8], &'static [u8], Result<(), WriteFault>),
}

/// Whether the call is answered so.
fn is_answered<F: Files>(files: &mut F, alloc: Global, call: &Call) -> Result<bool, NoMemory> {
    match call {
        Call::Read(name, limit, want) => {
            let name = Text::of(alloc, *name)?;
            Ok(match (files.read(alloc, &name, *limit), want) {
                (Ok(bytes), Ok(wanted)) => bytes.as_slice() == *wanted,
                (Err(fault), Err(wanted)) => fault == *wanted,
                _ => false,
            })
        }
        Call::Write(name, bytes, want) => {
            let name = Text::of(alloc, *name)?;
            Ok(files.write(alloc, &name, *bytes) == *want)
        }
    }
}

/// The number of the first call that isn't answered so.
fn first_fault<F: Files>(
    files: &mut F,
    alloc: Global,
    calls: &[Call],
) -> Result<Option<usize>, NoMemory> {
    for number in 0..calls.len() {
        if !is_answered(files, alloc, &calls[number])? {
            return Ok(Some(number));
        }
    }
    Ok(None)
}

/// Calls of files in memory that have `a` twice and `b`, and whose calls 1 and 3 fail.
static IN_MEMORY: [Call; 7] = [
    Call::Read(b"a", 3, Ok(b"new")),
    Call::Read(b"a", 3, Err(FileFault::Failed)),
    Call::Read(b"a", 2, Err(FileFault::TooLong)),
    Call::Write(b"b", b"lost", Err(WriteFault::Failed)),
    Call::Write(b"b", b"kept", Ok(())),
    Call::Read(b"b", 4, Ok(b"kept")),
    Call::Read(b"c", 4, Err(FileFault::Missing)),
];

/// Calls of the host's files. The last byte of a long text is read in a second piece.
static OF_THE_HOST: [Call; 8] = [
    Call::Write(b"written_by_a_test", &[7; 5000], Ok(())),
    Call::Read(b"written_by_a_test", 5000, Ok(&[7; 5000])),
    Call::Read(b"written_by_a_test", 4999, Err(FileFault::TooLong)),
    Call::Read(b"no such file", 5000, Err(FileFault::Missing)),
    Call::Read(b"no path \xff", 5000, Err(FileFault::Missing)),
    Call::Read(b".", 5000, Err(FileFault::Failed)),
    Call::Write(b"no such folder/file", b"", Err(WriteFault::Failed)),
    // A second writing leaves nothing of the first.
    Call::Write(b"written_by_a_test", b"short", Ok(())),
];

#[test]
fn files_in_memory_fail_at_the_given_calls(rt: HostRuntime) -> Result<(), Fail> {
    let alloc = rt.alloc();
    let mut entries = List::new(alloc);
    for (name, bytes) in [(b"a", b"old"), (b"b", b"   "), (b"a", b"new")] {
        entries.push(Entry {
            name: Text::of(alloc, name)?,
            bytes: Text::of(alloc, bytes)?,
        })?;
    }
    let mut files = MemFiles::new(alloc, entries, numbers(alloc, &[1, 3, 3])?)?;
    assert_eq!(rt; first_fault(&mut files, alloc, &IN_MEMORY)?, None);
    assert!(rt; files.held(&Text::of(alloc, b"b")?) == Some(b"kept".as_slice()));
    assert!(rt; files.held(&Text::of(alloc, b"c")?).is_none());
    Ok(())
}

#[test]
fn files_of_the_host(rt: HostRuntime) -> Result<(), Fail> {
    let alloc = rt.alloc();
    let mut files = HostFiles::new(&rt);
    assert_eq!(rt; first_fault(&mut files, alloc, &OF_THE_HOST)?, None);
    let short = [Call::Read(b"written_by_a_test", 5, Ok(b"short"))];
    assert_eq!(rt; first_fault(&mut files, alloc, &short)?, None);
    fs::remove_file(&rt, "written_by_a_test")?;
    Ok(())
}

/// A writer that takes two bytes at a time, up to a number of them, and then none.
#[derive(Drop)]
struct Full {
    taken: Vec<u8>,
    room: usize,
}

impl Write for Full {
    fn write(&mut self, buf: &[u8]) -> io::Result<usize> {
        let count = buf.len().min(2).min(self.room);
        self.taken.extend_from_slice(&buf[..count])?;
        self.room -= count;
        Ok(count)
    }

    fn flush(&mut self) -> io::Result<()> {
        Ok(())
    }
}

/// Whether the pieces are answered so, each in its turn.
fn are_put<K: Sink>(sink: &mut K, pieces: &[(&[u8], Result<(), WriteFault>)]) -> bool {
    for (piece, want) in pieces {
        if sink.put(*piece) != *want {
            return false;
        }
    }
    true
}

#[test]
fn sinks_fail_and_go_on(rt: HostRuntime) -> Result<(), Fail> {
    let alloc = rt.alloc();
    let mut sink = MemSink::new(alloc, numbers(alloc, &[1])?)?;
    let failed = Err(WriteFault::Failed);
    assert!(rt;
        are_put(
            &mut sink,
            &[(b"one ", Ok(())), (b"two ", failed), (b"three", Ok(()))]
        )
    );
    assert!(rt; sink.wrote() == b"one three".as_slice());

    let mut writer = Full {
        taken: Vec::new(alloc),
        room: 8,
    };
    let mut sink = HostSink::new(&mut writer);
    // Of nothing, nothing is to be taken.
    assert!(rt;
        are_put(
            &mut sink,
            &[
                (b"hello", Ok(())),
                (b" world", failed),
                (b"", Ok(())),
                (b"!", failed)
            ]
        )
    );
    assert!(rt; writer.taken.as_slice() == b"hello wo".as_slice());
    Ok(())
}
