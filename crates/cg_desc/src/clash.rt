//! Instructions that match the same bytes, where they stand in a description.

ghost use Rattle.std.specs.Prelude.{◌≡◌, take, IfOk};
ghost use Rattle.std.specs.Option.{option_copied};
ghost use Rattle.cg_desc_scope.specs.Seen.{seen_described};
ghost use Rattle.cg_desc.specs.Answering as spec;
ghost use Rattle.cg_desc_insns.specs.Named.{numbered};

use cg_base::{NoMemory, Refusal, Top};
use cg_desc_check::clash_refusal;
use cg_desc_scope::Described;
use cg_model::{Clash, Machine};
use std::alloc::Global;

/// The form of this number; forms are numbered from 1.
fn numbered(tops: &[Top], number: usize) -> Option<&Top>
    ensures { option_copied result ≡ numbered tops.now number }
{
    if number == 0 {
        None
    } else {
        tops.get(number - 1)
    }
}

/// The form of the instruction of a number.
fn top_of<'a>(described: &Described, tops: &'a [Top], number: usize) -> Option<&'a Top>
    ensures { option_copied result ≡ spec.top_of (seen_described described.now) tops.now number }
{
    match described.written.get(number) {
        Some(written) => numbered(tops, written.form),
        None => None,
    }
}

/// A refusal at a form, where there is one.
fn clash_at(top: Option<&Top>, refusal: Refusal) -> Refusal
    ensures { result ≡ spec.clash_at (option_copied top.entry) refusal }
{
    match top {
        Some(top) => {
            let mut refusal = refusal;
            refusal.file = top.file;
            refusal.line = top.line;
            refusal
        }
        None => refusal,
    }
}

/// The refusal of a description of which two instructions match the same bytes: E501 at the form of the
/// second (docs/REFUSALS.md).
pub(crate) fn clash_of(
    alloc: Global,
    described: &Described,
    tops: &[Top],
    machine: &Machine,
    clash: &Clash,
) -> Result<Refusal, NoMemory>
    ensures { IfOk result (λ refusal. refusal ≡ spec.clash_of (seen_described described.now) tops.now machine.now clash.now.first clash.now.second (take clash.now.len clash.now.bytes)) }
{
    let refusal = clash_refusal(alloc, machine, clash)?;
    let top = top_of(described, tops, usize::from(clash.second));
    Ok(clash_at(top, refusal))
}
