//! Devices, and the bus on which they stand at addresses of their own.
#![tactic(auto)]

mod access;
mod bus;
mod console;
mod device;
mod fault;
mod range;
mod recorder;
mod recording;
mod slot;
mod ticker;
mod width;

pub use access::Access;
pub use bus::Bus;
pub use console::Console;
pub use device::{Device, DeviceFailed};
pub use fault::{AttachFault, BusFault};
pub use range::Range;
pub use recorder::Recorder;
pub use slot::Slot;
pub use ticker::Ticker;
