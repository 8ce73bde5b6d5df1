ghost use Rattle.std.specs.Prelude.{◌≡◌, [], Some, IfOk};
ghost use Rattle.std.specs.Option.{option_copied, option_map};
ghost use Rattle.cg_base.specs.Answering.{GivesForm};
ghost use Rattle.cg_base.specs.Refusing.{first, least, seen_fault};
ghost use Rattle.cg_rtl_resolve.specs.Names.{names_lacking, lacks_to, lacks_of, rtl_to, rtl_of, name_faults};

use crate::around::Around;
use crate::build::{Walk, expression};
use crate::missing;
use crate::scope::{Lack, Scope};
use cg_base::{Fault, Form, NoMemory, Stop, refusal_at, refusals};
use cg_model::Rtl;
use std::alloc::Global;

/// The first name that stands for nothing, in the wanted way, so many lists inwards.
#[tactic(auto, using(crate::proofs::Places::names_outside))]
fn lacking_to<'a>(
    alloc: Global,
    wanted: Lack,
    form: &'a Form,
    scope: &Scope,
    depth: u64,
) -> Option<&'a [u8]>
    ensures { option_copied result ≡ first (names_lacking wanted (lacks_to depth scope.now [] form.now)) }
{
    let around = Around::Outside;
    let walk = Walk {
        alloc,
        scope,
        around: &around,
        depth,
    };
    missing::expression(&walk, wanted, form)
}

/// The first name of an expression that stands for nothing, in the wanted way.
#[tactic(auto, unfolding(crate::specs::Names::lacks_of))]
fn first_lacking<'a>(alloc: Global, wanted: Lack, form: &'a Form, scope: &Scope) -> Option<&'a [u8]>
    ensures { option_copied result ≡ first (names_lacking wanted (lacks_of scope.now form.now)) }
{
    lacking_to(alloc, wanted, form, scope, u64::MAX)
}

/// The least fault of an expression's names.
fn fault_of<'a>(alloc: Global, form: &'a Form, scope: &Scope) -> Option<Fault<'a>>
    ensures { option_map seen_fault result ≡ least (name_faults scope.now form.now) }
{
    if let Some(text) = first_lacking(alloc, Lack::Undefined, form, scope) {
        return Some(Fault {
            number: refusals::UNDEFINED_NAME,
            text,
        });
    }
    if let Some(text) = first_lacking(alloc, Lack::Unknown, form, scope) {
        return Some(Fault {
            number: refusals::OUTSIDE_RULE,
            text,
        });
    }
    None
}

/// An expression with its names as numbers, so many lists inwards.
#[tactic(auto, using(crate::proofs::Places::names_outside))]
fn built_to(alloc: Global, form: &Form, scope: &Scope, depth: u64) -> Result<Rtl, NoMemory>
    ensures { IfOk result (λ rtl. rtl ≡ rtl_to depth scope.now [] form.now) }
{
    let around = Around::Outside;
    let walk = Walk {
        alloc,
        scope,
        around: &around,
        depth,
    };
    let rtl = expression(&walk, form)?;
    Ok(rtl)
}

/// An expression with its names as numbers, whatever is wrong with it: what stands for nothing, or has a
/// wrong shape, stands for `(nop)`, and an error text that isn't among the scope's is numbered 0.
#[tactic(auto, unfolding(crate::specs::Names::rtl_of))]
pub fn built(alloc: Global, form: &Form, scope: &Scope) -> Result<Rtl, NoMemory>
    ensures { IfOk result (λ rtl. rtl ≡ rtl_of scope.now form.now) }
{
    built_to(alloc, form, scope, u64::MAX)
}

/// An expression with its names as numbers (docs/LANGUAGE.md, "Names in expressions"). The first E306
/// is refused, else the first E405, each with the name; file and line are 0. What has a wrong shape
/// or is left out, as `check_rtl` says, stands for `(nop)`, and an error text that isn't among the
/// scope's is numbered 0.
pub fn resolve(alloc: Global, form: &Form, scope: &Scope) -> Result<Rtl, Stop>
    ensures { GivesForm 0 0 (least (name_faults scope.now form.now)) (Some (rtl_of scope.now form.now)) result }
{
    match fault_of(alloc, form, scope) {
        Some(fault) => Err(Stop::Refused(refusal_at(alloc, 0, 0, fault)?)),
        None => Ok(built(alloc, form, scope)?),
    }
}
