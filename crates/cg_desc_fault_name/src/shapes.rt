//! Expressions in which choices were put.

ghost use Rattle.std.specs.Prelude.{◌≡◌, ◌++◌, OnOk};
ghost use Rattle.std.specs.List.{flat_map};
ghost use Rattle.std.specs.Option.{option_copied, option_or};
ghost use Rattle.cg_base.specs.Refusing.{first};
ghost use Rattle.cg_rtl.specs.Shapes.{wrong_in, left_out_in};
ghost use Rattle.cg_desc_fault_name.specs.Shapes as spec;
ghost use Rattle.cg_desc_fault_report.specs.Subject.{all_lent};

use crate::words::put_of_literals;
use cg_base::{Form, List, NoMemory};
use cg_desc_choices::Written;
use cg_desc_fault_report::{Placed, only_text, put_at};
use cg_rtl::{first_left_out_in, first_wrong_in};
use std::alloc::Global;

/// The head of the first function of a wrong shape in an expression, and else the first that is left out.
fn first_flaw(form: &Form) -> Option<&[u8]>
    ensures { option_copied result ≡ option_or (first (wrong_in form.now)) (first (left_out_in form.now)) }
{
    match first_wrong_in(form) {
        Some(head) => Some(head),
        None => first_left_out_in(form),
    }
}

/// Puts the head of the first function in an expression that is wrong or left out at the end.
fn put_shape(alloc: Global, list: &mut List<Placed>, form: &Form) -> Result<(), NoMemory>
    ensures { OnOk result (list.new ≡ list.old ++ spec.wrong_shape form.now) }
{
    match first_flaw(form) {
        Some(head) => put_at(list, List::new(alloc), only_text(alloc, head)?),
        None => Ok(()),
    }
}

/// The same of the expression of a clause that may be absent.
fn put_where(alloc: Global, list: &mut List<Placed>, form: Option<&Form>) -> Result<(), NoMemory>
    ensures { OnOk result (list.new ≡ list.old ++ spec.wrong_where (option_copied form.entry)) }
{
    match form {
        Some(form) => put_shape(alloc, list, form),
        None => Ok(()),
    }
}

/// The same of the own assertions of instructions.
fn put_assertions(
    alloc: Global,
    list: &mut List<Placed>,
    insns: &[&Written],
) -> Result<(), NoMemory>
    ensures { OnOk result (list.new ≡ list.old ++ flat_map spec.wrong_assertion (all_lent insns.now)) }
{
    for written in insns {
        put_where(alloc, list, written.assertion.as_ref())?;
    }
    Ok(())
}

/// The same of what instructions do.
fn put_all_semantics(
    alloc: Global,
    list: &mut List<Placed>,
    insns: &[&Written],
) -> Result<(), NoMemory>
    ensures { OnOk result (list.new ≡ list.old ++ flat_map spec.wrong_semantics (all_lent insns.now)) }
{
    for written in insns {
        put_shape(alloc, list, &written.semantics)?;
    }
    Ok(())
}

/// Puts the head of the first function of a wrong shape at the end for each expression of a form's
/// instructions that has one, in the clause of this name.
fn put_of_shapes(
    alloc: Global,
    list: &mut List<Placed>,
    insns: &[&Written],
    name: &[u8],
) -> Result<(), NoMemory>
    ensures { OnOk result (list.new ≡ list.old ++ spec.of_shapes (all_lent insns.now) name.now) }
{
    match name {
        b"ifield-assertion" => put_assertions(alloc, list, insns),
        b"semantics" => put_all_semantics(alloc, list, insns),
        _ => Ok(()),
    }
}

/// Puts what is wrong with the instructions of a form once choices are put in at the end, in the clause of
/// this name.
#[tactic(auto, unfolding(crate::specs::Shapes::of_choices))]
pub(crate) fn put_of_choices(
    alloc: Global,
    list: &mut List<Placed>,
    insns: &[&Written],
    name: &[u8],
) -> Result<(), NoMemory>
    ensures { OnOk result (list.new ≡ list.old ++ spec.of_choices (all_lent insns.now) name.now) }
{
    put_of_literals(alloc, list, insns, name)?;
    put_of_shapes(alloc, list, insns, name)
}
