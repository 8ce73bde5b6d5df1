ghost use Rattle.std.specs.Prelude.{◌≡◌, Some};
ghost use Rattle.std.specs.Option.{option_copied, option_map};
ghost use Rattle.cg_base.specs.Answering.{GivesForm};
ghost use Rattle.cg_base.specs.Refusing.{first, least, seen_fault};
ghost use Rattle.cg_rtl.specs.Shapes.{texts, faults_in, wrong_in, left_out_in, rtl_faults};

use crate::faults::{Flaw, Walk, expression};
use cg_base::{Fault, Form, Stop, refusal_at, refusals};
use std::alloc::Global;

/// The first fault of one kind of an expression that no function holds.
#[tactic(auto, unfolding(crate::specs::Shapes::faults_in))]
fn first_in(wanted: Flaw, form: &Form) -> Option<&[u8]>
    ensures { option_copied result ≡ first (texts wanted (faults_in form.now)) }
{
    let walk = Walk {
        wanted,
        depth: u64::MAX,
    };
    expression(walk, b"rtl", form)
}

/// The text of the first wrong shape in an expression, E304: the head of the innermost function
/// that has it or holds it, and `rtl` where there is none (docs/REFUSALS.md).
pub fn first_wrong_in(form: &Form) -> Option<&[u8]>
    ensures { option_copied result ≡ first (wrong_in form.now) }
{
    first_in(Flaw::Wrong, form)
}

/// The text of the first function in an expression that is left out of the language, E307: its
/// name. In such a function nothing is judged (docs/REFUSALS.md).
pub fn first_left_out_in(form: &Form) -> Option<&[u8]>
    ensures { option_copied result ≡ first (left_out_in form.now) }
{
    first_in(Flaw::LeftOut, form)
}

/// The least fault of an expression's shape.
fn fault_of(form: &Form) -> Option<Fault<'_>>
    ensures { option_map seen_fault result ≡ least (rtl_faults form.now) }
{
    if let Some(text) = first_wrong_in(form) {
        return Some(Fault {
            number: refusals::WRONG_KIND,
            text,
        });
    }
    if let Some(text) = first_left_out_in(form) {
        return Some(Fault {
            number: refusals::LEFT_OUT,
            text,
        });
    }
    None
}

/// Judges the shape of an expression alone: E304 where one in it is wrong, else E307 where a
/// function in it is left out, each the first of its kind; file and line are 0.
pub fn check_rtl(alloc: Global, form: &Form) -> Result<(), Stop>
    ensures { GivesForm 0 0 (least (rtl_faults form.now)) (Some tt) result }
{
    match fault_of(form) {
        Some(fault) => Err(Stop::Refused(refusal_at(alloc, 0, 0, fault)?)),
        None => Ok(()),
    }
}
