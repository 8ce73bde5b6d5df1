//! Which texts stand before.

ghost use Rattle.std.specs.Prelude.{◌≡◌, IfOk, OnOk};
ghost use Rattle.cg_desc_fault_count.specs.Known as spec;

use cg_base::{NoMemory, Text};
use cg_desc_check_element::add;
use indexmap::IndexMap;
use std::alloc::Global;

/// Texts that stand before.
#[derive(Drop)]
pub struct Known {
    pub(crate) texts: IndexMap<Text, ()>,
}

/// No texts, told text by text.
#[tactic(auto, unfolding(crate::specs::Known::IsNothing))]
fn no_texts(alloc: Global) -> Known
    ensures { spec.IsNothing (spec.seen_known result) }
{
    Known {
        texts: IndexMap::new(alloc),
    }
}

/// No texts.
#[tactic(auto, using(crate::proofs::Standing::nothing_is))]
pub(crate) fn none(alloc: Global) -> Known
    ensures { spec.seen_known result ≡ spec.nothing }
{
    no_texts(alloc)
}

/// Says that a text stands before, told text by text.
#[tactic(auto, unfolding(crate::specs::Known::IsWithOne))]
fn insert(known: &mut Known, text: Text) -> Result<(), NoMemory>
    ensures { OnOk result (spec.IsWithOne (spec.seen_known known.old) text (spec.seen_known known.new)) }
{
    known.texts.insert(text, ())?;
    Ok(())
}

/// Says that a text stands before.
#[tactic(auto, using(crate::proofs::Standing::with_one_is))]
fn put(known: &mut Known, text: Text) -> Result<(), NoMemory>
    ensures { OnOk result (spec.seen_known known.new ≡ spec.with_one (spec.seen_known known.old) text) }
{
    insert(known, text)
}

/// Whether a text stands before.
fn has(known: &Known, text: &Text) -> bool
    ensures { result ≡ spec.seen_known known.now text.now }
{
    known.texts.get(text).is_some()
}

/// How many more a text is: none where it stands before.
fn count_new(known: &Known, text: &Text) -> u64
    ensures { result ≡ spec.new_one (spec.seen_known known.now) text.now }
{
    if has(known, text) { 0 } else { 1 }
}

/// Says that a text stands before, and how many more it is.
fn put_new(known: &mut Known, text: &Text) -> Result<u64, NoMemory>
    ensures count { IfOk result (λ count. count ≡ spec.new_one (spec.seen_known known.old) text.now) }
    ensures now { OnOk result (spec.seen_known known.new ≡ spec.with_one (spec.seen_known known.old) text.now) }
{
    let count = count_new(known, text);
    put(known, text.clone()?)?;
    Ok(count)
}

/// Says that texts stand before, and how many of them didn't, each counted once.
pub(crate) fn put_all(known: &mut Known, texts: &[Text]) -> Result<u64, NoMemory>
    ensures count { IfOk result (λ count. count ≡ spec.count_new (spec.seen_known known.old) texts.now) }
    ensures now { OnOk result (spec.seen_known known.new ≡ spec.with_all (spec.seen_known known.old) texts.now) }
{
    let mut count = 0;
    for text in texts {
        count = add(count, put_new(known, text)?)?;
    }
    Ok(count)
}
