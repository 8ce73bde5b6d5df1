use cg_base::{List, NoMemory, read_number};
use cg_bus::Range;
use std::alloc::Global;

/// A device that a line attaches.
#[derive(Drop)]
pub(crate) enum Kind {
    Console,
    Ticker,
    /// A device of the tests', whose drops are counted.
    Counted,
    Recorder {
        answers: List<u64>,
        failing: List<u64>,
        room: u32,
    },
}

/// What a line asks for.
#[derive(Drop)]
pub(crate) enum Command {
    /// A new bus in place of the old.
    Bus { word_bits: u8, ram: u64 },
    Attach { kind: Kind, range: Range },
    Detach { k: u32 },
    Read { address: u64, width: u8 },
    Write { address: u64, width: u8, value: u64 },
    Holds { address: u64, width: u8 },
    /// How many counted devices are there.
    Alive,
}

/// The lowest 8 bits of a number.
fn byte(number: u64) -> u8 {
    (number % 0x100) as u8
}

/// The lowest 32 bits of a number.
fn word(number: u64) -> u32 {
    (number % 0x1_0000_0000) as u32
}

/// Where a slot stands.
fn range(below_top: u64, len: u64) -> Range {
    Range { below_top, len }
}

/// A list of these numbers.
fn list(alloc: Global, numbers: &[u64]) -> Result<List<u64>, NoMemory> {
    let mut list = List::new(alloc);
    for number in numbers {
        list.push(*number)?;
    }
    Ok(list)
}

/// A line of two numbers that attaches a device, of no more than one word.
fn attached(name: &[u8], range: Range) -> Option<Command> {
    let kind = if name == b"console".as_slice() {
        Kind::Console
    } else if name == b"ticker".as_slice() {
        Kind::Ticker
    } else if name == b"counted".as_slice() {
        Kind::Counted
    } else {
        return None;
    };
    Some(Command::Attach { kind, range })
}

/// A line that attaches a recorder: its place, its room, the number of the one call that fails,
/// and its answers.
fn recorder(
    alloc: Global,
    range: Range,
    room: u32,
    failing: u64,
    answers: &[u64],
) -> Result<Command, NoMemory> {
    let kind = Kind::Recorder {
        answers: list(alloc, answers)?,
        failing: list(alloc, &[failing])?,
        room,
    };
    Ok(Command::Attach { kind, range })
}

/// A line that asks the bus.
fn asked(name: &[u8], address: u64, width: u8) -> Option<Command> {
    if name == b"read".as_slice() {
        Some(Command::Read { address, width })
    } else if name == b"holds".as_slice() {
        Some(Command::Holds { address, width })
    } else {
        None
    }
}

/// What a name and numbers ask for. None where they ask for nothing.
fn named(alloc: Global, name: &[u8], numbers: &[u64]) -> Result<Option<Command>, NoMemory> {
    Ok(match numbers {
        [] if name == b"alive".as_slice() => Some(Command::Alive),
        [k] if name == b"detach".as_slice() => Some(Command::Detach { k: word(*k) }),
        [bits, ram] if name == b"bus".as_slice() => Some(Command::Bus {
            word_bits: byte(*bits),
            ram: *ram,
        }),
        [first, second] => match asked(name, *first, byte(*second)) {
            Some(command) => Some(command),
            None => attached(name, range(*first, *second)),
        },
        [address, width, value] if name == b"write".as_slice() => Some(Command::Write {
            address: *address,
            width: byte(*width),
            value: *value,
        }),
        [below_top, len, room, failing, answers @ ..] if name == b"recorder".as_slice() => Some(
            recorder(
                alloc,
                range(*below_top, *len),
                word(*room),
                *failing,
                answers,
            )?,
        ),
        _ => None,
    })
}

/// What a line asks for. None where it is empty, or asks for nothing.
pub(crate) fn read_command(alloc: Global, line: &str) -> Result<Option<Command>, NoMemory> {
    let mut words = line.split_whitespace();
    let Some(name) = words.next() else {
        return Ok(None);
    };
    let mut numbers = List::new(alloc);
    for word in words {
        if let Some(number) = read_number(word.as_bytes()) {
            numbers.push(number)?;
        }
    }
    named(alloc, name.as_bytes(), numbers.as_slice())
}
