//! Texts of which each is kept once.

ghost use Rattle.std.specs.Prelude.{◌≡◌, ℕ, List, [], ◌∷◌, ◌++◌, ◌||◌, is_some, IfOk, OnOk};
ghost use Rattle.indexmap.specs.IndexMap.{get};
ghost use Rattle.cg_base.specs.Texts.{same_text, is_among};
ghost use Rattle.cg_desc_insns.specs.Choices.{distinct};
ghost use Rattle.cg_desc_scope.specs.Once.{with_once, Knows};

use cg_base::{List, NoMemory, Text};
use indexmap::IndexMap;
use std::alloc::Global;

/// Says that a text stands among others.
fn add(known: &mut IndexMap<Text, ()>, text: Text) -> Result<(), NoMemory>
    ensures { OnOk result ((other : List ℕ) → is_some (get same_text known.new other) ≡ is_some (get same_text known.old other) || same_text text other) }
{
    known.insert(text, ())?;
    Ok(())
}

/// Puts a text at the end, and says that it stands there.
#[tactic(auto, using(crate::proofs::Among::among_rules), unfolding(crate::specs::Once::Knows))]
fn put(list: &mut List<Text>, known: &mut IndexMap<Text, ()>, text: &Text) -> Result<(), NoMemory>
    requires { Knows list.old (get same_text known.old) }
    ensures put { OnOk result (list.new ≡ list.old ++ text.now ∷ []) }
    ensures known { OnOk result (Knows list.new (get same_text known.new)) }
{
    list.push(text.clone()?)?;
    add(known, text.clone()?)
}

/// Whether a text stands there.
#[tactic(auto, unfolding(crate::specs::Once::Knows))]
fn is_known(list: &List<Text>, known: &IndexMap<Text, ()>, text: &Text) -> bool
    requires { Knows list.now (get same_text known.now) }
    ensures { result ≡ is_among list.now text.now }
{
    known.get(text).is_some()
}

/// Puts a text at the end, where it doesn't stand yet.
#[tactic(auto, unfolding(crate::specs::Once::with_once))]
fn put_once(
    list: &mut List<Text>,
    known: &mut IndexMap<Text, ()>,
    text: &Text,
) -> Result<(), NoMemory>
    requires { Knows list.old (get same_text known.old) }
    ensures put { OnOk result (list.new ≡ with_once list.old text.now) }
    ensures known { OnOk result (Knows list.new (get same_text known.new)) }
{
    if is_known(list, known, text) {
        return Ok(());
    }
    put(list, known, text)
}

/// The texts, each once, where it stands first.
#[tactic(auto, using(crate::proofs::Among::once_rules), unfolding(crate::specs::Once::Knows))]
pub fn distinct(alloc: Global, texts: &[Text]) -> Result<List<Text>, NoMemory>
    ensures { IfOk result (λ list. list ≡ distinct texts.now) }
{
    let mut list = List::new(alloc);
    let mut known = IndexMap::new(alloc);
    for text in texts {
        put_once(&mut list, &mut known, text)?;
    }
    Ok(list)
}
