//! Reads descriptions from a file, each a list behind the name of a machine, and prints the instructions that
//! each has once choices are put in.
//! So a case is data, and is proved nothing of by itself.
#![tactic(auto)]

mod answer;
mod showing;

use crate::answer::put_answer;
use cg_base::{Forms, NoMemory, Text};
use cg_io::{Files, HostFiles, HostSink, Sink};
use cg_sexp::read;
use std::alloc::Global;
use std::process::ExitCode;

/// The most bytes that the file of forms may have.
const MOST: u64 = 4_194_304;

/// The forms of the file, or None where it can't be read.
fn forms(rt: HostRuntime, alloc: Global) -> Option<Forms> {
    let name = Text::of(alloc, b"cases.txt").ok()?;
    let bytes = HostFiles::new(rt).read(alloc, &name, MOST).ok()?;
    read(alloc, bytes.as_slice(), 0).ok()
}

/// What the forms are answered, line by line.
fn answers(alloc: Global, forms: &Forms) -> Result<Text, NoMemory> {
    let mut printed = Text::new(alloc);
    for top in forms.tops.as_slice() {
        put_answer(alloc, top, &mut printed)?;
    }
    Ok(printed)
}

/// Prints what all forms are answered, and ends with 1 where it can't.
fn main(rt: HostRuntime) -> ExitCode {
    let alloc = rt.alloc();
    let mut out = HostSink::new(rt.stdout());
    let Some(forms) = forms(rt, alloc) else {
        return ExitCode::from(1);
    };
    match answers(alloc, &forms) {
        Ok(text) => match out.put(text.as_slice()) {
            Ok(()) => ExitCode::from(0),
            Err(_) => ExitCode::from(1),
        },
        Err(NoMemory) => ExitCode::from(1),
    }
}
