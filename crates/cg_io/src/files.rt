ghost use Rattle.std.specs.Prelude.{◌≡◌, ◌⊎◌, ◌≤◌, ℕ, List, [], ◌∷◌, Option, length, is_some, IfOk, OnOk, OnErr, IsErrOf};
ghost use Rattle.cg_io.specs.Asking.{Asking};
ghost use Rattle.cg_base.specs.Counts.{Rose};
ghost use Rattle.cg_io.specs.Held.{Held, HasBytes, Lacks, HasMore, written, KeepsOthers, appended, AppendsFront};

use cg_base::{NoMemory, Text};
use std::alloc::{AllocError, Global};
use thiserror::Error;

/// Why a file wasn't read. docs/RUNNING.md, "Statuses", says which status each makes.
#[derive(Clone, Copy, Debug, PartialEq, Eq, Error)]
pub enum FileFault {
    /// There is no file of this name.
    #[error("there is no such file")]
    Missing,
    /// The file has more bytes than the reader allows.
    #[error("the file is longer than is allowed")]
    TooLong,
    /// The file couldn't be read, for a reason outside of the program.
    #[error("the file couldn't be read")]
    Failed,
    /// Memory ran out.
    #[error("memory ran out")]
    NoMemory,
}

/// Why bytes weren't written whole. docs/RUNNING.md, "Statuses", says which status each makes.
#[derive(Clone, Copy, Debug, PartialEq, Eq, Error)]
pub enum WriteFault {
    /// The bytes couldn't be written, for a reason outside of the program.
    #[error("the bytes couldn't be written")]
    Failed,
    /// Memory ran out.
    #[error("memory ran out")]
    NoMemory,
}

impl From<NoMemory> for FileFault {
    ghost use Rattle.std.specs.Prelude.{◌≡◌};
    ghost use Rattle.cg_io.specs.declared.files.FileFault.TheVariants.{NoMemory};

    ghost from_gives = { λ _ fault. fault ≡ NoMemory };

    fn from(_: NoMemory) -> Self {
        FileFault::NoMemory
    }
}

impl From<AllocError> for FileFault {
    ghost use Rattle.std.specs.Prelude.{◌≡◌};
    ghost use Rattle.cg_io.specs.declared.files.FileFault.TheVariants.{NoMemory};

    ghost from_gives = { λ _ fault. fault ≡ NoMemory };

    fn from(_: AllocError) -> Self {
        FileFault::NoMemory
    }
}

impl From<NoMemory> for WriteFault {
    ghost use Rattle.std.specs.Prelude.{◌≡◌};
    ghost use Rattle.cg_io.specs.declared.files.WriteFault.TheVariants.{NoMemory};

    ghost from_gives = { λ _ fault. fault ≡ NoMemory };

    fn from(_: NoMemory) -> Self {
        WriteFault::NoMemory
    }
}

impl From<AllocError> for WriteFault {
    ghost use Rattle.std.specs.Prelude.{◌≡◌};
    ghost use Rattle.cg_io.specs.declared.files.WriteFault.TheVariants.{NoMemory};

    ghost from_gives = { λ _ fault. fault ≡ NoMemory };

    fn from(_: AllocError) -> Self {
        WriteFault::NoMemory
    }
}

/// Named files. A name is any bytes, and two names are one where their bytes are equal.
pub trait Files {
    /// Which bytes stand under which name, where the object tells it.
    ghost held: { Self → Option Held };

    /// Which names `read` was asked for so far, each with its limit, in order, where the object
    /// tells it. A call has asked whatever it answers, also where memory ran out.
    ghost asked: { Self → Option (List Asking) };

    /// How many calls have met a fault of the outside. It never falls, and stays at 2^64 - 1.
    ghost faults: { Self → ℕ };

    /// The bytes under a name, at most `limit` of them. Missing comes where no file has the
    /// name, TooLong where its bytes are more than `limit`, and Failed where the outside failed.
    fn read(&mut self, alloc: Global, name: &Text, limit: u64) -> Result<Vec<u8>, FileFault>
        ensures bound { IfOk result (λ bytes. length bytes.items ≤ limit) }
        ensures bytes { IfOk result (λ bytes. HasBytes (held self.old) name.now bytes.items) }
        ensures missing { IsErrOf result FileFault.Missing →
            Lacks (held self.old) name.now ⊎ Rose (faults self.old) (faults self.new) }
        ensures long { IsErrOf result FileFault.TooLong →
            HasMore (held self.old) name.now limit ⊎ Rose (faults self.old) (faults self.new) }
        ensures failed { IsErrOf result FileFault.Failed →
            Rose (faults self.old) (faults self.new) }
        ensures asked { asked self.new ≡ appended (asked self.old) ((name.now, limit) ∷ []) }
        ensures same { held self.new ≡ held self.old }
        ensures later { faults self.old ≤ faults self.new };

    /// Puts bytes under a name, in place of those that stood there. After Failed, which comes
    /// where the outside failed, this name's bytes are left open.
    fn write(&mut self, alloc: Global, name: &Text, bytes: &[u8]) -> Result<(), WriteFault>
        ensures ok { OnOk result (held self.new ≡ written (held self.old) name.now bytes.now) }
        ensures failed { IsErrOf result WriteFault.Failed →
            Rose (faults self.old) (faults self.new)
            × KeepsOthers (held self.old) (held self.new) name.now }
        ensures memory { IsErrOf result WriteFault.NoMemory → held self.new ≡ held self.old }
        ensures asked { asked self.new ≡ asked self.old }
        ensures tells { is_some (held self.new) ≡ is_some (held self.old) }
        ensures later { faults self.old ≤ faults self.new };
}

/// What takes bytes in order, as the standard output does.
pub trait Sink {
    /// The bytes that were put so far, where the object tells it.
    ghost wrote: { Self → Option (List ℕ) };

    /// How many calls have met a fault of the outside. It never falls, and stays at 2^64 - 1.
    ghost faults: { Self → ℕ };

    /// Puts a piece at the end. Failed comes where the outside failed.
    fn put(&mut self, piece: &[u8]) -> Result<(), WriteFault>
        ensures ok { OnOk result (wrote self.new ≡ appended (wrote self.old) piece.now) }
        ensures err { OnErr result (AppendsFront (wrote self.old) (wrote self.new) piece.now) }
        ensures failed { IsErrOf result WriteFault.Failed →
            Rose (faults self.old) (faults self.new) }
        ensures tells { is_some (wrote self.new) ≡ is_some (wrote self.old) }
        ensures later { faults self.old ≤ faults self.new };
}
