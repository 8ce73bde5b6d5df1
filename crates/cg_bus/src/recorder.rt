ghost use Rattle.std.specs.Prelude.{◌≤◌, length, vec_capacity};

use crate::access::Access;
use cg_base::List;

/// Gives the answers that it was handed, fails where it was told to, and keeps what it was asked.
/// docs/RUNNING.md, "Devices".
#[derive(Drop)]
pub struct Recorder {
    /// What the reads answer, in order.
    pub(crate) answers: List<u64>,
    /// The numbers of the calls that fail.
    pub(crate) failing: List<u64>,
    /// How many accesses there is room for.
    pub(crate) room: u32,
    /// The accesses so far, as far as there is room.
    pub(crate) past: Vec<Access>,
    /// How many of these were reads.
    pub(crate) reads: usize,
    /// Whether all accesses so far are there.
    pub(crate) whole: bool,
    /// How many accesses failed. It stays at 2^64 - 1.
    pub(crate) faults: u64,
    ghost taken: { room ≤ vec_capacity past },
    ghost most: { length past.items ≤ room },
    ghost among: { reads ≤ length past.items },
}
