//! What a refusal says, and of which place.

ghost use Rattle.std.specs.Prelude.{◌≡◌, ◌∷◌, [], ◌++◌, IfOk, OnOk};
ghost use Rattle.std.specs.Option.{option_copied};
ghost use Rattle.cg_base.specs.Refusing.{first};
ghost use Rattle.cg_desc_fault_report.specs.Saying as spec;

use cg_base::{List, NoMemory, Refusal, Text, Top};
use cg_desc_check_machine::said_text;
use cg_model::Machine;
use cg_model_faults::MachineFault;
use std::alloc::Global;

/// What a refusal says (docs/REFUSALS.md).
#[derive(Debug, Drop)]
pub struct Saying {
    /// What is at fault.
    pub text: Text,
    /// More of it, or no bytes.
    pub other: Text,
}

/// What is said of a place in a clause.
#[derive(Debug, Drop)]
pub struct Placed {
    /// The places of elements in their lists, from the outermost list inwards, each counted from 0.
    pub place: List<usize>,
    /// What is said.
    pub said: Saying,
}

/// These two texts.
pub fn texts_said(alloc: Global, text: &[u8], other: &[u8]) -> Result<Saying, NoMemory>
    ensures { IfOk result (λ said. said ≡ spec.saying text.now other.now) }
{
    Ok(Saying {
        text: Text::of(alloc, text)?,
        other: Text::of(alloc, other)?,
    })
}

/// This text alone.
pub fn only_text(alloc: Global, text: &[u8]) -> Result<Saying, NoMemory>
    ensures { IfOk result (λ said. said ≡ spec.only_text text.now) }
{
    texts_said(alloc, text, &[])
}

/// What a fault of a machine's data says of an element of this name.
pub fn fault_said(
    alloc: Global,
    machine: &Machine,
    own: &[u8],
    fault: MachineFault,
) -> Result<Saying, NoMemory>
    ensures { IfOk result (λ said. said ≡ spec.fault_said machine.now own.now fault) }
{
    Ok(Saying {
        text: said_text(alloc, machine, own, fault.text)?,
        other: said_text(alloc, machine, own, fault.other)?,
    })
}

/// The refusal of this number that says so of a form, on the form's line of its file.
pub fn refusal_of(top: &Top, number: u16, said: Saying) -> Refusal
    ensures { result ≡ spec.refusal_of top.now.file top.now.line (number, said) }
{
    Refusal {
        number,
        file: top.file,
        line: top.line,
        text: said.text,
        other: said.other,
    }
}

/// Puts what is said of a place at the end.
pub fn put_at(list: &mut List<Placed>, place: List<usize>, said: Saying) -> Result<(), NoMemory>
    ensures { OnOk result (list.new ≡ list.old ++ spec.placed place said ∷ []) }
{
    list.push(Placed { place, said })
}

/// Puts copies of elements behind others.
pub fn put_copies<T: Copy + Drop>(list: &mut List<T>, items: &[T]) -> Result<(), NoMemory>
    ensures { OnOk result (list.new ≡ list.old ++ items.now) }
{
    for item in items {
        list.push(*item)?;
    }
    Ok(())
}

/// The place that an inner place is, where what it is in stands at an outer one.
pub fn joined_place(
    alloc: Global,
    outer: &[usize],
    inner: &[usize],
) -> Result<List<usize>, NoMemory>
    ensures { IfOk result (λ place. place ≡ outer.now ++ inner.now) }
{
    let mut place = List::new(alloc);
    put_copies(&mut place, outer)?;
    put_copies(&mut place, inner)?;
    Ok(place)
}

/// Whether a place stands before another: a list before what is in it, and what is in it from left to
/// right.
pub fn is_before(one: &[usize], other: &[usize]) -> bool
    ensures { result ≡ spec.is_before one.now other.now }
{
    for k in 0..other.len() {
        if k >= one.len() {
            return true;
        }
        if one[k] != other[k] {
            return one[k] < other[k];
        }
    }
    false
}

/// The earlier of two, and of one place the former.
fn earlier<'a>(former: &'a Placed, latter: Option<&'a Placed>) -> &'a Placed
    ensures { result.now ≡ spec.earlier former.now (option_copied latter.entry) }
{
    match latter {
        Some(latter) => {
            if is_before(latter.place.as_slice(), former.place.as_slice()) {
                latter
            } else {
                former
            }
        }
        None => former,
    }
}

/// The earliest, and of one place the first. None exactly where nothing is said.
#[tactic(auto, using(crate::proofs::Earliest::earliest_rules))]
fn earliest(list: &[Placed]) -> Option<&Placed>
    ensures { option_copied result ≡ spec.earliest list.now }
{
    let mut best = None;
    let mut rest = list;
    while let Some((last, front)) = rest.split_last() {
        best = Some(earlier(last, best));
        rest = front;
    }
    best
}

/// What is said of the earliest place, and of one place what is said first. None exactly where nothing
/// is said.
pub fn earliest_said(list: &List<Placed>) -> Result<Option<Saying>, NoMemory>
    ensures { IfOk result (λ said. said ≡ first (spec.earliest_said list.now)) }
{
    match earliest(list.as_slice()) {
        Some(placed) => Ok(Some(Saying {
            text: placed.said.text.clone()?,
            other: placed.said.other.clone()?,
        })),
        None => Ok(None),
    }
}
