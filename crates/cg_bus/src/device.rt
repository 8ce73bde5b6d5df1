ghost use Rattle.std.specs.Prelude.{◌≡◌, ◌<◌, ◌≤◌, ◌^◌};
ghost use Rattle.cg_base.specs.Accesses.{DeviceState, Reads, Writes};

use thiserror::Error;

/// A device didn't do what it was asked.
#[derive(Clone, Copy, Debug, PartialEq, Eq, Error)]
#[error("a device failed")]
pub struct DeviceFailed;

/// What answers the reads and writes of a program at some addresses. docs/RUNNING.md, "Devices".
pub trait Device: Drop {
    /// All that is known of the device.
    ghost state: { Self → DeviceState };

    /// Reads a number of `width` bytes, from `offset` addresses behind the device's first.
    fn read(&mut self, offset: u64, width: u8) -> Result<u64, DeviceFailed>
        requires from { 1 ≤ width }
        requires to { width ≤ 8 }
        ensures { Reads (state self.old) (state self.new) offset width result };

    /// Writes a number of `width` bytes, from `offset` addresses behind the device's first.
    fn write(&mut self, offset: u64, width: u8, value: u64) -> Result<(), DeviceFailed>
        requires from { 1 ≤ width }
        requires to { width ≤ 8 }
        requires fits { value < 256 ^ width }
        ensures { Writes (state self.old) (state self.new) offset width value result };

    /// The bytes that the device shows, as a summary prints them.
    fn shown(&self) -> &[u8]
        ensures { result.now ≡ (state self.now).shown };

    /// How many accesses failed. It never falls, and stays at 2^64 - 1.
    fn failed(&self) -> u64
        ensures { result ≡ (state self.now).faults };
}
