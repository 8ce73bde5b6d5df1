//! Judges the expressions of a file on a machine made by hand, and prints what is answered: the mode, or
//! the first fault of names or modes.
#![tactic(auto)]

mod answer;
mod machine;

use crate::answer::put_answer;
use crate::machine::machine;
use cg_base::{Forms, NoMemory, Text};
use cg_io::{Files, HostFiles, HostSink, Sink};
use cg_model::Machine;
use cg_sexp::read;
use std::alloc::Global;
use std::process::ExitCode;

/// The most bytes that a file may have.
const MOST: u64 = 4_194_304;

/// The forms of a file, or None where it can't be read.
fn forms(rt: HostRuntime, alloc: Global, name: &[u8]) -> Option<Forms> {
    let name = Text::of(alloc, name).ok()?;
    let bytes = HostFiles::new(rt).read(alloc, &name, MOST).ok()?;
    read(alloc, bytes.as_slice(), 0).ok()
}

/// What the expressions are answered, a line each.
fn answers(alloc: Global, machine: &Machine, forms: &Forms) -> Result<Text, NoMemory> {
    let mut printed = Text::new(alloc);
    for top in forms.tops.as_slice() {
        put_answer(alloc, machine, top, &mut printed)?;
    }
    Ok(printed)
}

/// What all is answered over the machine with these rules.
fn judged(alloc: Global, rules: &Forms, cases: &Forms) -> Result<Text, NoMemory> {
    let Ok(machine) = machine(alloc, rules) else {
        return Err(NoMemory);
    };
    answers(alloc, &machine, cases)
}

/// Prints what all expressions are answered, and ends with 1 where it can't.
fn main(rt: HostRuntime) -> ExitCode {
    let alloc = rt.alloc();
    let mut out = HostSink::new(rt.stdout());
    let Some(rules) = forms(rt, alloc, b"rules.txt") else {
        return ExitCode::from(1);
    };
    let Some(cases) = forms(rt, alloc, b"cases.txt") else {
        return ExitCode::from(1);
    };
    match judged(alloc, &rules, &cases) {
        Ok(text) => match out.put(text.as_slice()) {
            Ok(()) => ExitCode::from(0),
            Err(_) => ExitCode::from(1),
        },
        Err(NoMemory) => ExitCode::from(1),
    }
}
