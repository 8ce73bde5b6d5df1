ghost use Rattle.std.specs.Prelude.{◌≡◌, ◌%◌, ◌<◌, ◌≤◌, ◌^◌, [], None, length, IfOk, vec_capacity};
ghost use Rattle.cg_base.specs.Accesses.Law.{ConsoleLaw};

use crate::device::{Device, DeviceFailed};
use cg_base::NoMemory;
use std::alloc::Global;

/// The most bytes that a console shows.
const ROOM: usize = 65536;

/// Shows the lowest byte of each value that is written to it, up to 65,536 bytes, and answers 0
/// to each read. A write past the last byte fails. docs/RUNNING.md, "Devices".
#[derive(Drop)]
pub struct Console {
    shown: Vec<u8>,
    faults: u64,
    ghost room: { 65536 ≤ vec_capacity shown },
    ghost most: { length shown.items ≤ 65536 },
}

impl Console {
    /// A console that shows nothing yet. Its memory is taken here.
    pub fn new(alloc: Global) -> Result<Console, NoMemory>
        ensures { IfOk result (λ c. (c.shown.items ≡ []) × (c.faults ≡ 0)) }
    {
        let shown = Vec::with_capacity(alloc, ROOM)?;
        Ok(Console { shown, faults: 0 })
    }
}

impl Device for Console {
    ghost state = { λ c. record {
      past = None;
      shown = c.shown.items;
      faults = c.faults;
      law = ConsoleLaw;
      tick = 0;
    } };

    #[tactic(auto, using(crate::proofs::Powers::byte_power_pos))]
    fn read(&mut self, _offset: u64, _width: u8) -> Result<u64, DeviceFailed> {
        Ok(0)
    }

    fn write(&mut self, _offset: u64, _width: u8, value: u64) -> Result<(), DeviceFailed> {
        if self.shown.len() < ROOM {
            self.shown.push((value % 256) as u8).unwrap();
            Ok(())
        } else {
            self.faults = self.faults.saturating_add(1);
            Err(DeviceFailed)
        }
    }

    fn shown(&self) -> &[u8] {
        self.shown.as_slice()
    }

    fn failed(&self) -> u64 {
        self.faults
    }
}
