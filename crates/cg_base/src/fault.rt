ghost use Rattle.std.specs.Prelude.{◌≡◌, IfOk};
ghost use Rattle.cg_base.specs.Refusing.{seen_fault, refusal_at};
ghost use Rattle.cg_base.specs.Answering.{Stops};

use crate::{NoMemory, Refusal, Stop, Text};
use std::alloc::Global;

/// What is at fault in a text, a form or a description (docs/REFUSALS.md).
#[derive(Clone, Copy, Debug)]
pub struct Fault<'a> {
    /// The number of its refusal, as 304 for `E304`.
    pub number: u16,
    /// The text of its refusal.
    pub text: &'a [u8],
}

/// The refusal of a fault on this line of this file.
pub fn refusal_at(
    alloc: Global,
    file: u16,
    line: u32,
    fault: Fault<'_>,
) -> Result<Refusal, NoMemory>
    ensures { IfOk result (λ refusal. refusal ≡ refusal_at file line (seen_fault fault.entry)) }
{
    Ok(Refusal {
        number: fault.number,
        file,
        line,
        text: Text::of(alloc, fault.text)?,
        other: Text::new(alloc),
    })
}

/// The same as what stops a call, which is want of memory where there is none for the refusal.
pub fn stop_at(alloc: Global, file: u16, line: u32, fault: Fault<'_>) -> Stop
    ensures { Stops (λ refusal. refusal ≡ refusal_at file line (seen_fault fault.entry)) result }
{
    match refusal_at(alloc, file, line, fault) {
        Ok(refusal) => Stop::Refused(refusal),
        Err(NoMemory) => Stop::NoMemory,
    }
}
