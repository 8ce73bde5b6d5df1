//! Carries out what a file says of buses and their devices, a line at a time, and prints what each
//! call answers. So a case is data, and is proved nothing of by itself.
#![tactic(auto)]

mod answers;
mod command;
mod counted;

ghost use Rattle.std.specs.Prelude.{◌≡◌, ◌≤◌, ◌<◌, ◌^◌, true};

use crate::answers::{put_access, put_attached, put_count, put_detached, put_line};
use crate::command::{Command, Kind, read_command};
use crate::counted::Counted;
use cg_base::{NoMemory, Text};
use cg_bus::{Bus, Console, Device, Recorder, Slot, Ticker};
use std::alloc::Global;
use std::fs;
use std::io::Write;
use std::process::ExitCode;
use std::rc::Rc;

/// Whether a number fits so many bytes, from 1 to 8.
fn fits(width: u8, value: u64) -> bool
    ensures from { result ≡ true → 1 ≤ width }
    ensures to { result ≡ true → width ≤ 8 }
    ensures fits { result ≡ true → value < 256 ^ width }
{
    match width {
        1 => value < 0x100,
        2 => value < 0x1_0000,
        3 => value < 0x100_0000,
        4 => value < 0x1_0000_0000,
        5 => value < 0x100_0000_0000,
        6 => value < 0x1_0000_0000_0000,
        7 => value < 0x100_0000_0000_0000,
        8 => true,
        _ => false,
    }
}

/// Asks a bus, and puts the answer at the end of a text.
fn ask(
    alloc: Global,
    bus: &mut Bus,
    command: &Command,
    printed: &mut Text,
) -> Result<(), NoMemory> {
    match command {
        Command::Read { address, width } if fits(*width, 0) => {
            put_access(alloc, printed, bus.read(*address, *width))
        }
        Command::Write {
            address,
            width,
            value,
        } if fits(*width, *value) => match bus.write(*address, *width, *value) {
            Ok(()) => put_access(alloc, printed, Ok(*value)),
            Err(fault) => put_access(alloc, printed, Err(fault)),
        },
        Command::Holds { address, width } if fits(*width, 0) => {
            let held = bus.holds(*address, *width);
            put_line(printed, if held { b"holds" } else { b"nowhere" })
        }
        _ => put_line(printed, b"?"),
    }
}

/// Carries out all lines of a script.
fn carried_out(alloc: Global, script: &str) -> Result<Text, NoMemory> {
    let mut printed = Text::new(alloc);
    let mut bus = Bus::new(alloc, 32, 1024)?;
    let counter = Rc::new(alloc, ())?;
    for line in script.lines() {
        match read_command(alloc, line)? {
            None => {}
            Some(Command::Bus { word_bits, ram }) if 1 <= word_bits && word_bits <= 64 => bus =
                Bus::new(alloc, word_bits, ram)?,
            Some(Command::Alive) => put_count(alloc, &mut printed, Rc::strong_count(&counter))?,
            Some(Command::Attach { kind, range }) if bus.len() < 100 => {
                let device: Box<dyn Device> = match kind {
                    Kind::Console => Box::new(alloc, Console::new(alloc)?)?,
                    Kind::Ticker => Box::new(alloc, Ticker::new())?,
                    Kind::Counted => Box::new(alloc, Counted::new(counter.clone()?))?,
                    Kind::Recorder {
                        answers,
                        failing,
                        room,
                    } => { Box::new(alloc, Recorder::new(alloc, answers, failing, room)?)? }
                };
                let slot = Slot {
                    below_top: range.below_top,
                    len: range.len,
                    device,
                };
                put_attached(alloc, &mut printed, bus.attach(slot))?;
            }
            Some(Command::Detach { k }) => put_detached(alloc, &mut printed, bus.detach(k))?,
            Some(command) => ask(alloc, &mut bus, &command, &mut printed)?,
        }
    }
    Ok(printed)
}

/// Prints what the file's calls answer, and ends with 1 where it can't.
fn main(rt: HostRuntime) -> ExitCode {
    let alloc = rt.alloc();
    let Ok(script) = fs::read_to_string(&rt, "cases.txt") else {
        return ExitCode::from(1);
    };
    let Ok(text) = carried_out(alloc, script.as_str()) else {
        return ExitCode::from(1);
    };
    match rt.stdout().write_all(text.as_slice()) {
        Ok(()) => ExitCode::from(0),
        Err(_) => ExitCode::from(1),
    }
}
