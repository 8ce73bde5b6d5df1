ghost use Rattle.std.specs.Prelude.{◌≡◌, ◌≤◌, ◌∷◌, [], Some, IfOk};
ghost use Rattle.std.specs.Option.{option_map};
ghost use Rattle.cg_base.specs.Counts.{Rose};
ghost use Rattle.cg_io.specs.Held.{appended};
ghost use Rattle.cg_top.specs.Own.{own_file, own_asked, IsOwn, seen_own};

use crate::asking::Command;
use cg_base::{NoMemory, Text};
use cg_io::{FileFault, Files};
use cg_top_include::Fetched;
use std::alloc::Global;

/// The most bytes that a source may have.
const SOURCE_LIMIT: u64 = 4_194_304;

/// The most bytes that an image may have.
const IMAGE_LIMIT: u64 = 1_048_576;

/// What came of reading the file that a command reads besides the description.
#[derive(Debug, Drop)]
pub enum Own {
    /// Its bytes, or none where there is no such file.
    Bytes(Vec<u8>),
    /// Its name, where it can't be read.
    Unread(Text),
}

/// A file that a command reads besides the description.
#[derive(Clone, Copy)]
struct OwnFile<'a> {
    /// Its name.
    name: &'a Text,
    /// The most bytes that it may have.
    limit: u64,
}

/// The file that a command reads besides the description, where the description was read.
fn own_file<'a>(command: &'a Command, fetched: &Fetched) -> Option<OwnFile<'a>>
    ensures { option_map (λ file. (file.name.now, file.limit)) result ≡ own_file command.now fetched.now }
{
    match (command, fetched) {
        (Command::Assemble(it), Fetched::Read(_, _)) => Some(OwnFile {
            name: &it.source,
            limit: SOURCE_LIMIT,
        }),
        (Command::ListImage(it), Fetched::Read(_, _)) => Some(OwnFile {
            name: &it.image,
            limit: IMAGE_LIMIT,
        }),
        _ => None,
    }
}

/// Reads a command's own file.
fn read_own<F: Files>(
    alloc: Global,
    name: &Text,
    limit: u64,
    files: &mut F,
) -> Result<Own, NoMemory>
    ensures own { IfOk result (λ own. IsOwn (Some (name.now, limit)) (F.held files.old) (Rose (F.faults files.old) (F.faults files.new)) (seen_own own)) }
    ensures asked { F.asked files.new ≡ appended (F.asked files.old) ((name.now, limit) ∷ []) }
    ensures held { F.held files.new ≡ F.held files.old }
    ensures later { F.faults files.old ≤ F.faults files.new }
{
    match files.read(alloc, name, limit) {
        Ok(bytes) => Ok(Own::Bytes(bytes)),
        Err(FileFault::Missing) => Ok(Own::Unread(name.clone()?)),
        Err(FileFault::TooLong) => Ok(Own::Unread(name.clone()?)),
        Err(FileFault::Failed) => Ok(Own::Unread(name.clone()?)),
        Err(FileFault::NoMemory) => Err(NoMemory),
    }
}

/// Reads the file of a command's own, where it has one and the description was read.
#[tactic(auto, using(crate::proofs::OwnLemmas::nothing_asked))]
pub fn fetch_own<F: Files>(
    alloc: Global,
    command: &Command,
    fetched: &Fetched,
    files: &mut F,
) -> Result<Own, NoMemory>
    ensures own { IfOk result (λ own. IsOwn (own_file command.now fetched.now) (F.held files.old) (Rose (F.faults files.old) (F.faults files.new)) (seen_own own)) }
    ensures asked { F.asked files.new ≡ appended (F.asked files.old) (own_asked (own_file command.now fetched.now)) }
    ensures held { F.held files.new ≡ F.held files.old }
    ensures later { F.faults files.old ≤ F.faults files.new }
{
    match own_file(command, fetched) {
        Some(file) => Ok(read_own(alloc, file.name, file.limit, files)?),
        None => Ok(Own::Bytes(Vec::new(alloc))),
    }
}
