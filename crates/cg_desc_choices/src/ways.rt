//! All ways to choose for several anyof operands.

ghost use Rattle.std.specs.Prelude.{◌≡◌, ◌≤◌, ◌++◌, map, take, length, OnOk, IfOk};
ghost use Rattle.std.specs.List.{flat_map};
ghost use Rattle.cg_desc_choices.specs.Choices.{seen_chosen};
ghost use Rattle.cg_desc_choices.specs.Ways.{and_chosen, with_each, ways, most, each_choice};
ghost use Rattle.cg_desc_choices.specs.Walking.{seen_way};

use crate::choosing::with_choices;
use crate::written::{Anyof, Choice, Chosen, Written};
use cg_base::{List, NoMemory, Text};
use std::alloc::Global;

/// One instruction more than a machine may have.
const MOST: usize = 4097;

/// What is chosen so far, and one choice more.
fn and_chosen<'a>(
    alloc: Global,
    operand: &'a Text,
    way: &[Chosen<'a>],
    choice: &'a Choice,
) -> Result<List<Chosen<'a>>, NoMemory>
    ensures { IfOk result (λ new. map seen_chosen new ≡ and_chosen operand.now (map seen_chosen way.now) choice.now) }
{
    let mut new = List::new(alloc);
    for each in way {
        new.push(*each)?;
    }
    new.push(Chosen { operand, choice })?;
    Ok(new)
}

/// Puts what is chosen so far, with each choice of an operand more, at the end, as long as there are
/// not too many.
fn put_each<'a>(
    alloc: Global,
    list: &mut List<List<Chosen<'a>>>,
    anyof: &'a Anyof,
    way: &[Chosen<'a>],
) -> Result<(), NoMemory>
    requires { length list.old ≤ most }
    ensures { OnOk result (map seen_way list.new ≡ take most (map seen_way list.old ++ with_each anyof.now (map seen_chosen way.now))) }
{
    for choice in anyof.choices.as_slice() {
        if list.len() >= MOST {
            return Ok(());
        }
        list.push(and_chosen(alloc, &anyof.operand, way, choice)?)?;
    }
    Ok(())
}

/// Each way so far with each choice of one operand more.
fn next_ways<'a>(
    alloc: Global,
    so_far: &[List<Chosen<'a>>],
    anyof: &'a Anyof,
) -> Result<List<List<Chosen<'a>>>, NoMemory>
    ensures { IfOk result (λ list. map seen_way list ≡ take most (flat_map (with_each anyof.now) (map seen_way so_far.now))) }
{
    let mut list = List::new(alloc);
    for way in so_far {
        put_each(alloc, &mut list, anyof, way.as_slice())?;
    }
    Ok(list)
}

/// The first ways to choose, at most one more than a machine may have instructions.
fn first_ways<'a>(alloc: Global, anyofs: &'a [Anyof]) -> Result<List<List<Chosen<'a>>>, NoMemory>
    ensures { IfOk result (λ list. map seen_way list ≡ take most (ways anyofs.now)) }
{
    let mut so_far = List::new(alloc);
    so_far.push(List::new(alloc))?;
    for anyof in anyofs {
        so_far = next_ways(alloc, so_far.as_slice(), anyof)?;
    }
    Ok(so_far)
}

/// Puts the instructions that one becomes at the end, one for each way to choose for these operands of
/// its format. The first operand's choices vary slowest. Of more than 4,096 the first 4,097 stand
/// there (docs/LANGUAGE.md, "Choices").
#[tactic(auto, unfolding(crate::specs::Ways::each_choice))]
pub fn each_choice(
    alloc: Global,
    list: &mut List<Written>,
    anyofs: &[Anyof],
    instruction: &Written,
) -> Result<(), NoMemory>
    ensures { OnOk result (list.new ≡ list.old ++ each_choice anyofs.now instruction.now) }
{
    let ways = first_ways(alloc, anyofs)?;
    for way in ways.as_slice() {
        list.push(with_choices(alloc, way.as_slice(), instruction)?)?;
    }
    Ok(())
}
