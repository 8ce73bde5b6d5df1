//! What slots are given, in the format's order.

ghost use Rattle.std.specs.Prelude.{◌≡◌, ◌<◌, length, slice_get, Some, IfOk};
ghost use Rattle.cg_syntax_choose.specs.Ordering as spec;
ghost use Rattle.cg_model_source.specs.Choosing as choosing;

use cg_base::{List, NoMemory};
use cg_model::Given;
use cg_model_source::Sum;
use cg_syntax_fit::{Sums, copied_sum};
use cg_syntax_split::Filled;
use std::alloc::Global;

/// What the slot of a number is given: what is written in it.
fn sum_at(alloc: Global, slot: usize, found: &[Filled]) -> Result<Sum, NoMemory>
    ensures { IfOk result (λ sum. sum ≡ spec.filled_sum slot found.now) }
{
    for each in found {
        if each.slot as usize == slot {
            return copied_sum(alloc, &each.sum);
        }
    }
    Ok(Sum {
        number: 0,
        terms: List::new(alloc),
    })
}

/// What each of so many slots is given, in the format's order.
pub(crate) fn sums_of(alloc: Global, operands: &[u16], found: &[Filled]) -> Result<Sums, NoMemory>
    ensures { IfOk result (λ sums. sums ≡ spec.filled_sums 0 operands.now found.now) }
{
    let mut sums = Sums::new(alloc);
    for slot in 0..operands.len() {
        let sum = sum_at(alloc, slot, found)?;
        sums.push(sum)?;
    }
    Ok(sums)
}

/// What a macro instruction gives a slot: a number of its own, or what is written in its own slot.
fn given_sum(alloc: Global, given: Given, found: &[Filled]) -> Result<Sum, NoMemory>
    ensures { IfOk result (λ sum. sum ≡ spec.given_one found.now given) }
{
    match given {
        Given::Number(number) => Ok(Sum {
            number: number as i128,
            terms: List::new(alloc),
        }),
        Given::Slot(slot) => Ok(sum_at(alloc, slot as usize, found)?),
    }
}

/// What a macro instruction gives each slot of the instruction that it emits.
#[tactic(auto, using(crate::proofs::OrderLemmas::giving))]
pub(crate) fn given_sums(alloc: Global, given: &[Given], found: &[Filled]) -> Result<Sums, NoMemory>
    ensures { IfOk result (λ sums. sums ≡ spec.given_all found.now given.now) }
{
    let mut sums = Sums::new(alloc);
    for each in given {
        sums.push(given_sum(alloc, *each, found)?)?;
    }
    Ok(sums)
}

/// The number of a sum that has no label.
fn known(sum: &Sum) -> Option<i128>
    ensures { result ≡ choosing.known sum.now }
{
    match sum.terms.as_slice() {
        [] => Some(sum.number),
        _ => None,
    }
}

/// The sum at a place that there is, counted from 0.
pub fn sum_there(sums: &Sums, k: usize) -> &Sum
    requires { k < length sums.now }
    ensures { slice_get sums.now k ≡ Some result.now }
{
    match sums.get(k) {
        Some(sum) => sum,
        None => unreachable!(),
    }
}

/// The numbers of sums, where they have no labels (docs/ASSEMBLY.md, "Choice").
pub fn known_all(alloc: Global, sums: &Sums) -> Result<Vec<Option<i128>>, NoMemory>
    ensures { IfOk result (λ numbers. numbers.items ≡ choosing.known_all sums.now) }
{
    let mut numbers = Vec::new(alloc);
    for k in 0..sums.len() {
        numbers.push(known(sum_there(sums, k)))?;
    }
    Ok(numbers)
}
