ghost use Rattle.std.specs.Prelude.{◌≡◌, ◌%◌, ◌<◌, ◌≤◌, ◌^◌, [], None};
ghost use Rattle.cg_base.specs.Accesses.Law.{TickerLaw};

use crate::device::{Device, DeviceFailed};
use crate::width::lowest;

/// Answers a number that each read raises by 1, and that a write sets. It goes on at 0 behind
/// 2^64 - 1, never fails and shows nothing. docs/RUNNING.md, "Devices".
#[derive(Drop)]
pub struct Ticker {
    next: u64,
}

impl Ticker {
    /// A ticker that answers 0 next.
    pub fn new() -> Ticker
        ensures { result.next ≡ 0 }
    {
        Ticker { next: 0 }
    }
}

impl Device for Ticker {
    ghost state = { λ t. record {
      past = None;
      shown = [];
      faults = 0;
      law = TickerLaw;
      tick = t.next;
    } };

    fn read(&mut self, _offset: u64, width: u8) -> Result<u64, DeviceFailed> {
        let value = lowest(self.next, width);
        self.next = self.next.wrapping_add(1);
        Ok(value)
    }

    fn write(&mut self, _offset: u64, _width: u8, value: u64) -> Result<(), DeviceFailed> {
        self.next = value;
        Ok(())
    }

    fn shown(&self) -> &[u8] {
        &[]
    }

    fn failed(&self) -> u64 {
        0
    }
}
