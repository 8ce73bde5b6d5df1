//! Runs the top call on the cases of a file, over files and a sink in memory, and prints what each
//! case is answered. So a case is data, and is proved nothing of by itself.
#![tactic(auto)]

mod case;
mod script;

use crate::script::{Script, each_line};
use cg_base::Text;
use cg_io::{Files, HostFiles, HostSink, Sink};
use std::process::ExitCode;

/// The most bytes that the file of cases may have.
const MOST: u64 = 4_194_304;

/// What all cases are answered, or None where their file can't be read or there is no memory.
fn answers(rt: HostRuntime) -> Option<Text> {
    let alloc = rt.alloc();
    let name = Text::of(alloc, b"cases.txt").ok()?;
    let bytes = HostFiles::new(rt).read(alloc, &name, MOST).ok()?;
    let mut script = Script::new(alloc);
    each_line(&mut script, bytes.as_slice()).ok()?;
    script.run().ok()?;
    Some(script.printed)
}

/// Prints what all cases are answered, and ends with 1 where it can't.
fn main(rt: HostRuntime) -> ExitCode {
    let mut out = HostSink::new(rt.stdout());
    match answers(rt) {
        Some(text) => match out.put(text.as_slice()) {
            Ok(()) => ExitCode::from(0),
            Err(_) => ExitCode::from(1),
        },
        None => ExitCode::from(7),
    }
}
