//! Carries out what a file says of machines, a line at a time: it makes them by hand, judges whether they are sound,
//! and prints what their instructions and pure expressions are answered. So a case is data, and is proved nothing of
//! by itself.
#![tactic(auto)]

mod allowed;
mod asking;
mod building;
mod ends;
mod rules;
mod sound;
mod values;
mod words;

use crate::asking::put_answer;
use crate::building::{Building, put_element};
use crate::words::word_at;
use cg_base::{List, NoMemory, Text, decimal};
use std::alloc::Global;
use std::fs;
use std::io::Write;
use std::process::ExitCode;

/// The words of a line.
fn words_of(alloc: Global, line: &str) -> Result<List<Text>, NoMemory> {
    let mut words = List::new(alloc);
    for word in line.split_whitespace() {
        words.push(Text::of(alloc, word.as_bytes())?)?;
    }
    Ok(words)
}

/// Puts what a line is answered behind its number, where it asks.
fn put_line(
    alloc: Global,
    number: u64,
    words: &[Text],
    building: &mut Building,
    printed: &mut Text,
) -> Result<(), NoMemory> {
    if put_element(alloc, words, building)? {
        return Ok(());
    }
    let digits = decimal(alloc, i128::from(number))?;
    printed.append(digits.as_slice())?;
    put_answer(alloc, &building.machine, words, printed)?;
    printed.push(b'\n')
}

/// Whether a line says something: it has words, and the first isn't `;`.
fn says(words: &[Text]) -> bool {
    !words.is_empty() && word_at(words, 0) != b";".as_slice()
}

/// Carries out all lines.
fn carried_out(alloc: Global, script: &str) -> Result<Text, NoMemory> {
    let mut printed = Text::new(alloc);
    let mut building = Building::new(alloc, &[]);
    let mut number = 0u64;
    for line in script.lines() {
        number = number.saturating_add(1);
        let words = words_of(alloc, line)?;
        let words = words.as_slice();
        if word_at(words, 0) == b"machine".as_slice() {
            building = Building::new(alloc, words);
        } else if says(words) {
            put_line(alloc, number, words, &mut building, &mut printed)?;
        }
    }
    Ok(printed)
}

/// Prints what the file's lines are answered, and ends with 1 where it can't.
fn main(rt: HostRuntime) -> ExitCode {
    let alloc = rt.alloc();
    let Ok(script) = fs::read_to_string(&rt, "cases.txt") else {
        return ExitCode::from(1);
    };
    let Ok(text) = carried_out(alloc, script.as_str()) else {
        return ExitCode::from(1);
    };
    match rt.stdout().write_all(text.as_slice()) {
        Ok(()) => ExitCode::from(0),
        Err(_) => ExitCode::from(1),
    }
}
