//! Where a program's bytes come from and go to: named files and one sink, by what they mean.
//! Beside the two traits stand files and a sink in memory, and those of the host.
#![tactic(auto)]

mod calls;
mod files;
mod host;
mod memory;
mod past;
mod sink;

pub use files::{FileFault, Files, Sink, WriteFault};
pub use host::{HostFiles, HostSink};
pub use memory::{Entry, MemFiles};
pub use sink::MemSink;
