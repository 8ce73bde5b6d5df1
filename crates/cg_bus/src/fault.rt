use thiserror::Error;

/// Why an access wasn't made, or failed.
#[derive(Clone, Copy, Debug, PartialEq, Eq, Error)]
pub enum BusFault {
    /// The access doesn't lie whole in one slot. No device was asked.
    #[error("no device has these addresses")]
    Nowhere,
    /// The device that was asked failed.
    #[error("a device failed")]
    DeviceFailed,
}

/// Why a slot wasn't attached.
#[derive(Clone, Copy, Debug, PartialEq, Eq, Error)]
pub enum AttachFault {
    /// The slot has no addresses, reaches out of the address space, or meets RAM or another slot.
    #[error("a slot meets something else")]
    Overlap {
        /// The slot's first address, modulo 2 to the power of the bits of a word.
        first: u64,
        /// How many addresses the slot has.
        len: u64,
    },
    /// Memory ran out.
    #[error("memory ran out")]
    NoMemory,
}
