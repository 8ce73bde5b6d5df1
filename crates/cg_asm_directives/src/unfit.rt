//! Numbers of directives that don't fit.

ghost use Rattle.std.specs.Prelude.{◌≡◌, IfOk};
ghost use Rattle.cg_asm_directives.specs.Faulting as spec;

use crate::order::{Width, width_bytes};
use cg_base::{NoMemory, Refusal, Text, decimal};
use cg_syntax_fit::is_within;
use std::alloc::Global;

/// A number that does not fit so many bytes.
pub fn unfit_in(width: Width, number: i128) -> Option<i128>
    ensures { result ≡ spec.unfit_in width number }
{
    if is_within(8 * width_bytes(width), number) {
        return None;
    }
    Some(number)
}

/// The refusal of this number for a number of a directive: it says both. File and line are 0.
pub fn unfit_refusal(
    alloc: Global,
    number: u16,
    name: &Text,
    value: i128,
) -> Result<Refusal, NoMemory>
    ensures { IfOk result (λ refusal. refusal ≡ spec.unfit_refusal number name.now value) }
{
    Ok(Refusal {
        number,
        file: 0,
        line: 0,
        text: name.clone()?,
        other: decimal(alloc, value)?,
    })
}
