//! The program: the top call over the files of the host and the standard output.
#![tactic(auto)]

use cg_base::{List, NoMemory, Text};
use cg_io::{HostFiles, HostSink};
use cg_top::cgen;
use std::alloc::Global;
use std::env::{Env, FillError};
use std::process::ExitCode;

/// The word at this place, its bytes as they are, or None past the last. Place 0 has the
/// program's name.
fn word_at(rt: &HostRuntime, alloc: Global, place: usize) -> Result<Option<Text>, NoMemory> {
    let mut room = Vec::new(alloc);
    let mut size = 256usize;
    for _ in 0..usize::BITS {
        room.resize(size, 0u8)?;
        match rt.arg(place, room.as_mut_slice()) {
            Ok(len) => return Ok(Some(Text::of(alloc, &room.as_slice()[..len])?)),
            Err(FillError::NotPresent) => return Ok(None),
            Err(FillError::TooLong) => size = size.saturating_add(size),
        }
    }
    Err(NoMemory)
}

/// The words behind the program's name.
fn words(rt: &HostRuntime, alloc: Global) -> Result<List<Text>, NoMemory> {
    let mut words = List::new(alloc);
    for place in 1..usize::MAX {
        match word_at(rt, alloc, place)? {
            Some(word) => words.push(word)?,
            None => break,
        }
    }
    Ok(words)
}

/// Ends with the status of the top call, and with 4 where the words find no memory.
fn main(rt: HostRuntime) -> ExitCode {
    let alloc = rt.alloc();
    let Ok(words) = words(&rt, alloc) else {
        return ExitCode::from(4);
    };
    let mut out = HostSink::new(rt.stdout());
    let mut files = HostFiles::new(rt);
    ExitCode::from(cgen(alloc, words.as_slice(), &mut files, &mut out))
}
