//! Limits that are passed.

ghost use Rattle.std.specs.Prelude.{◌≡◌, pos, IfOk};
ghost use Rattle.std.specs.Fmt.{signed_decimal};
ghost use Rattle.std.specs.Option.{option_map};
ghost use Rattle.cg_base.specs.Refusing.{first};
ghost use Rattle.cg_desc_fault_count.specs.Passing.{seen_passed};
ghost use Rattle.cg_model_faults.specs.E308.{passing, too_many};
ghost use Rattle.cg_desc_fault_report.specs.Saying.{saying};

use cg_base::{NoMemory, Text};
use cg_desc_fault_report::Saying;
use std::alloc::Global;

/// A limit that is passed, and the count that passes it.
#[derive(Clone, Copy)]
pub(crate) struct Passed {
    limit: u64,
    count: u128,
}

/// What is passed first, if anything is, or want of memory.
pub(crate) type Found = Result<Option<Passed>, NoMemory>;

/// The limit that is passed by what makes so many before so many now.
pub(crate) fn passing(limit: u64, before: u64, now: u128) -> Option<Passed>
    ensures { option_map seen_passed result ≡ first (passing limit before now) }
{
    if before <= limit && (limit as u128) < now {
        Some(Passed { limit, count: now })
    } else {
        None
    }
}

/// The limit of one element that is passed.
pub(crate) fn too_many(limit: u64, count: usize) -> Option<Passed>
    ensures { option_map seen_passed result ≡ first (too_many limit count) }
{
    passing(limit, 0, count as u128)
}

/// The decimal digits of a count.
fn digits(alloc: Global, count: u128) -> Result<Text, NoMemory>
    ensures { IfOk result (λ text. text ≡ signed_decimal (pos count)) }
{
    let digits = format!(in alloc; "{count}")?;
    Text::of(alloc, digits.as_bytes())
}

/// What is said of a limit that is passed.
pub(crate) fn passed_said(alloc: Global, passed: Passed) -> Result<Saying, NoMemory>
    ensures { IfOk result (λ said. said ≡ saying (signed_decimal (pos passed.limit)) (signed_decimal (pos passed.count))) }
{
    Ok(Saying {
        text: digits(alloc, passed.limit as u128)?,
        other: digits(alloc, passed.count)?,
    })
}
