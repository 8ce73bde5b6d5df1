ghost use Rattle.std.specs.Prelude.{◌≡◌};
ghost use Rattle.cg_bus.specs.Slots.{range_of};

use crate::device::Device;
use crate::range::Range;

/// A device and where it stands: its first address is 2 to the power of the bits of a word, less
/// `below_top`. docs/RUNNING.md, "Devices".
#[derive(Drop)]
pub struct Slot {
    /// How far the first address is below the top of the address space.
    pub below_top: u64,
    /// How many addresses the slot has.
    pub len: u64,
    /// The device that answers there.
    pub device: Box<dyn Device>,
}

impl Slot {
    /// Where the slot stands.
    pub fn range(&self) -> Range
        ensures { result ≡ range_of self.now }
    {
        Range {
            below_top: self.below_top,
            len: self.len,
        }
    }
}
