ghost use Rattle.std.specs.Prelude.{◌≡◌, ◌<◌};
ghost use Rattle.std.specs.Char.{digit_char};
ghost use Rattle.cg_base.specs.Answering.{Stops};
ghost use Rattle.cg_base.specs.Faults.{hex_byte};
ghost use Rattle.cg_base.specs.Refusing.{refusal_at};

use cg_base::{Fault, Stop, refusals, stop_at};
use std::alloc::Global;

fn digit(value: u8) -> u8
    requires { value < 16 }
    ensures { result ≡ digit_char value }
{
    if value < 10 {
        b'0' + value
    } else {
        b'a' + (value - 10)
    }
}

/// The refusal of a byte that has no place on this line.
pub fn refused_byte(alloc: Global, file: u16, line: u32, byte: u8) -> Stop
    ensures { Stops (λ refusal. refusal ≡ refusal_at file line (101, hex_byte byte)) result }
{
    let digits = [digit(byte / 16), digit(byte % 16)];
    let fault = Fault {
        number: refusals::STRANGE_TOKEN,
        text: digits.as_slice(),
    };
    stop_at(alloc, file, line, fault)
}
