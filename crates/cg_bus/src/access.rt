/// An access that a device was asked for.
#[derive(Clone, Copy)]
pub struct Access {
    /// Whether it was a write.
    pub write: bool,
    /// How many addresses behind the device's first it began.
    pub offset: u64,
    /// How many bytes wide it was, from 1 to 8.
    pub width: u8,
    /// What was written or read. 0 where a read failed.
    pub value: u64,
    /// Whether the device failed.
    pub failed: bool,
}
