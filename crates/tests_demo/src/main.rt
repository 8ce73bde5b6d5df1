//! Prints, for some numbers, how long the two texts of the made example are, what they come to
//! under a checksum, and a line of each. tools/demo compares what is printed with the reference.
#![tactic(auto)]

use cg_base::{NoMemory, Text, decimal, hex};
use cg_demo::demo;
use std::alloc::Global;
use std::io::Write;
use std::process::ExitCode;

/// The first number of each kind: the smallest machines, the largest, and the largest numbers.
static NUMBERS: [u64; 8] = [
    0,
    1,
    7,
    960,
    961,
    123_456_789,
    9_223_372_036_854_775_808,
    18_446_744_073_709_551_615,
];

/// The FNV-1a checksum of 64 bits.
fn checksum(bytes: &[u8]) -> u64 {
    let mut sum: u64 = 14_695_981_039_346_656_037;
    for byte in bytes {
        sum = (sum ^ u64::from(*byte)).wrapping_mul(1_099_511_628_211);
    }
    sum
}

/// The last bytes of a text, at most 48.
fn ending(bytes: &[u8]) -> &[u8] {
    let (_, last) = bytes.split_at(bytes.len().saturating_sub(48));
    last
}

/// Puts a number and a blank at the end of a text.
fn put_number(alloc: Global, printed: &mut Text, number: u64) -> Result<(), NoMemory> {
    printed.append(decimal(alloc, i128::from(number))?.as_slice())?;
    printed.append(b" ")
}

/// Puts the length, the checksum and the ending of a text at the end of another.
fn put_digest(alloc: Global, printed: &mut Text, text: &Text) -> Result<(), NoMemory> {
    put_number(alloc, printed, text.len() as u64)?;
    printed.append(hex(alloc, checksum(text.as_slice()))?.as_slice())?;
    printed.append(b"\n")?;
    printed.append(ending(text.as_slice()))
}

/// What is printed of the example of one number.
fn put_example(alloc: Global, printed: &mut Text, number: u64) -> Result<(), NoMemory> {
    let example = demo(alloc, number)?;
    put_number(alloc, printed, number)?;
    put_digest(alloc, printed, &example.description)?;
    put_digest(alloc, printed, &example.source)
}

/// What is printed of all examples.
fn examples(alloc: Global) -> Result<Text, NoMemory> {
    let mut printed = Text::new(alloc);
    for number in &NUMBERS {
        put_example(alloc, &mut printed, *number)?;
    }
    Ok(printed)
}

/// Prints the examples, and ends with 1 where it can't.
fn main(rt: HostRuntime) -> ExitCode {
    let mut out = rt.stdout();
    let Ok(text) = examples(rt.alloc()) else {
        return ExitCode::from(1);
    };
    match out.write_all(text.as_slice()) {
        Ok(()) => ExitCode::from(0),
        Err(_) => ExitCode::from(1),
    }
}
