//! The words of a machine.

ghost use Rattle.std.specs.Prelude.{◌≡◌, [], map, IfOk, OnOk};
ghost use Rattle.cg_base.specs.Texts.{same_text};
ghost use Rattle.indexmap.specs.IndexSet.{insert_key};
ghost use Rattle.cg_model.specs.Words.{lower, named_values};
ghost use Rattle.cg_model_source.specs.Spelling as spec;
ghost use Rattle.cg_syntax_spelling.specs.Lowered.{put_words, SameKeywords};

use crate::character::lower;
use cg_base::{NoMemory, Text};
use cg_model::{Hardware, Machine, NamedValue};
use indexmap::IndexSet;
use std::alloc::Global;
use std::marker::Model;

/// The words of a machine's hardware, none of which is a label. Contracts see them as a list, in small
/// letters.
#[derive(Drop)]
pub struct Keywords {
    words: IndexSet<Text>,
}

impl Model for Keywords {
    ghost use Rattle.std.specs.Prelude.{List, ℕ};
    ghost use Rattle.cg_syntax_spelling.specs.Lowered.{AreLowered};

    ghost Value = { List (List ℕ) };

    ghost view = { λ it. it.words.keys };

    ghost invariant = { λ it. AreLowered it.words.keys };
}

/// A text in small letters.
fn lowered(alloc: Global, text: &[u8]) -> Result<Text, NoMemory>
    ensures { IfOk result (λ lowered. lowered ≡ map lower text.now) }
{
    let mut lowered = Text::new(alloc);
    for byte in text {
        lowered.push(lower(*byte))?;
    }
    Ok(lowered)
}

impl Keywords {
    /// Whether a text is one of the words, letter case aside.
    #[tactic(auto, using(crate::proofs::Known::known))]
    pub fn has(&self, alloc: Global, text: &[u8]) -> Result<bool, NoMemory>
        ensures { IfOk result (λ has. has ≡ spec.is_keyword self.now text.now) }
    {
        let text = lowered(alloc, text)?;
        Ok(self.words.contains(&text))
    }
}

/// Puts a word to others, where it isn't among them.
fn put_word(words: &mut IndexSet<Text>, word: Text) -> Result<(), NoMemory>
    ensures { OnOk result (words.new.keys ≡ insert_key same_text words.old.keys word) }
{
    words.insert(word)?;
    Ok(())
}

/// Puts the words of hardware to others.
#[tactic(auto, using(crate::proofs::Known::word_step))]
fn put_words(
    alloc: Global,
    words: &mut IndexSet<Text>,
    listed: &[NamedValue],
) -> Result<(), NoMemory>
    ensures { OnOk result (words.new.keys ≡ put_words words.old.keys (map (λ w. w.word) listed.now)) }
{
    for each in listed {
        put_word(words, lowered(alloc, each.word.as_slice())?)?;
    }
    Ok(())
}

/// The words of hardware.
fn words_of(hardware: &Hardware) -> &[NamedValue]
    ensures { result.now ≡ named_values hardware.now.keyword }
{
    match &hardware.keyword {
        Some(keyword) => keyword.words.as_slice(),
        None => &[],
    }
}

/// The words of all hardware.
#[tactic(auto, using(crate::proofs::Known::hardware_step))]
fn all_words(alloc: Global, machine: &Machine) -> Result<IndexSet<Text>, NoMemory>
    ensures { IfOk result (λ words. words.keys ≡ put_words [] (spec.keywords machine.now)) }
{
    let mut words = IndexSet::new(alloc);
    for hardware in machine.hardware.as_slice() {
        put_words(alloc, &mut words, words_of(hardware))?;
    }
    Ok(words)
}

/// The words of a machine: a name that is one of them, letter case aside, is no label
/// (docs/ASSEMBLY.md, "Sums").
#[tactic(auto, using(crate::proofs::Known::same_words, crate::proofs::Known::are_lowered))]
pub fn keywords_of(alloc: Global, machine: &Machine) -> Result<Keywords, NoMemory>
    ensures { IfOk result (λ keywords. SameKeywords keywords (spec.keywords machine.now)) }
{
    let words = all_words(alloc, machine)?;
    Ok(Keywords { words })
}
