ghost use Rattle.std.specs.Prelude.{[], None};
ghost use Rattle.cg_base.specs.Accesses.Law.{NoLaw};

use cg_bus::{Device, DeviceFailed};
use std::rc::Rc;

/// A device that fails at each access. Whoever holds a clone of its counter knows whether it is
/// there still.
#[derive(Drop)]
pub(crate) struct Counted {
    _counter: Rc<()>,
    faults: u64,
}

impl Counted {
    /// A device that holds this clone of the counter.
    pub(crate) fn new(counter: Rc<()>) -> Counted {
        Counted {
            _counter: counter,
            faults: 0,
        }
    }
}

impl Device for Counted {
    ghost state = { λ d. record { past = None; shown = []; faults = d.faults; law = NoLaw; tick = 0 } };

    #[tactic(auto, using(cg_bus::proofs::Powers::byte_power_pos))]
    fn read(&mut self, _offset: u64, _width: u8) -> Result<u64, DeviceFailed> {
        self.faults = self.faults.saturating_add(1);
        Err(DeviceFailed)
    }

    fn write(&mut self, _offset: u64, _width: u8, _value: u64) -> Result<(), DeviceFailed> {
        self.faults = self.faults.saturating_add(1);
        Err(DeviceFailed)
    }

    fn shown(&self) -> &[u8] {
        &[]
    }

    fn failed(&self) -> u64 {
        self.faults
    }
}
