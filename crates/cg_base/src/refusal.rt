ghost use Rattle.std.specs.Prelude.{◌≡◌};
ghost use Rattle.cg_base.specs.declared.refusal.Stop.TheVariants.{NoMemory};

use crate::Text;
use std::alloc::{AllocError, AllocFailed};

/// Memory ran out. It is the one answer that no clause ties to a cause.
#[derive(Clone, Copy, Debug, PartialEq, Eq)]
pub struct NoMemory;

impl From<AllocError> for NoMemory {
    fn from(_: AllocError) -> Self {
        NoMemory
    }
}

impl<T: Drop> From<AllocFailed<T>> for NoMemory {
    fn from(_: AllocFailed<T>) -> Self {
        NoMemory
    }
}

/// Why a description or a source is refused. docs/REFUSALS.md has a row for each number.
#[derive(Debug, Drop, Clone, PartialEq, Eq)]
pub struct Refusal {
    /// Which refusal it is, as 101 for `E101`.
    pub number: u16,
    /// Which of the description's files it speaks of, in the order of reading, the first 0.
    pub file: u16,
    /// The line in that file, counted from 1, or 0 where no line is meant. A line past
    /// 2^32 - 1 is held as 2^32 - 1.
    pub line: u32,
    /// What is at fault: a token, a name, a number.
    pub text: Text,
    /// More of it, or no bytes.
    pub other: Text,
}

/// Why a call stopped without its answer.
#[derive(Debug, Drop, Clone, PartialEq, Eq)]
pub enum Stop {
    /// What was given is at fault.
    Refused(Refusal),
    /// Memory ran out.
    NoMemory,
}

impl From<NoMemory> for Stop {
    ghost from_gives = { λ _ stop. stop ≡ NoMemory };

    fn from(_: NoMemory) -> Self {
        Stop::NoMemory
    }
}
