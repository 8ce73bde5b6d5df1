ghost use Rattle.std.specs.Prelude.{◌≡◌};
ghost use Rattle.cg_pmacro_builtin.specs.declared.fault.Halt.TheVariants.{NoMemory as OutOfMemory};
ghost use Rattle.cg_pmacro_builtin.specs.Reports.{IsHalt};

use cg_base::{NoMemory, Text};
use std::alloc::{AllocError, Global};

/// Why an expansion stopped without its form.
#[derive(Debug, Drop)]
pub enum Halt {
    /// The description is at fault (docs/REFUSALS.md, 201 to 207 and 307).
    Faulty {
        /// The number of its refusal, as 201 for `E201`.
        number: u16,
        /// The text of its refusal: the macro, or what the refusal's row says.
        text: Text,
    },
    /// Memory ran out.
    NoMemory,
}

impl From<NoMemory> for Halt {
    ghost from_gives = { λ _ halt. halt ≡ OutOfMemory };

    fn from(_: NoMemory) -> Self {
        Halt::NoMemory
    }
}

impl From<AllocError> for Halt {
    ghost from_gives = { λ _ halt. halt ≡ OutOfMemory };

    fn from(_: AllocError) -> Self {
        Halt::NoMemory
    }
}

/// What the fault of that number with that text comes to.
#[inline(never)]
pub fn faulty(alloc: Global, number: u16, text: &[u8]) -> Halt
    ensures { IsHalt (number, text.now) result }
{
    match Text::of(alloc, text) {
        Ok(text) => Halt::Faulty { number, text },
        Err(_) => Halt::NoMemory,
    }
}
