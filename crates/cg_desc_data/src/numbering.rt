//! The numbers of a machine's elements.

ghost use Rattle.std.specs.Prelude.{◌≡◌, ℕ, List, IfOk, OnOk};
ghost use Rattle.std.specs.Option.{option_or};
ghost use Rattle.indexmap.specs.IndexMap.{get};
ghost use Rattle.cg_base.specs.Texts.{same_text};
ghost use Rattle.cg_desc_data.specs.Seen.{seen, seen_numbering, seen_numbers};
ghost use Rattle.cg_desc_data.specs.Numbering as spec;

use crate::members::{field_names, hardware_names, multi_names};
use crate::selecting::Selection;
use cg_base::{NoMemory, Text};
use indexmap::IndexMap;
use std::alloc::Global;

/// The numbers of names of one kind.
#[derive(Drop)]
pub struct Numbering {
    pub(crate) numbers: IndexMap<Text, u16>,
}

/// The numbers of the names of fields, multi fields and hardware (docs/LANGUAGE.md, "Machines").
#[derive(Drop)]
pub struct Numbers {
    /// Those of fields.
    pub fields: Numbering,
    /// Those of multi fields.
    pub multis: Numbering,
    /// Those of hardware, the built-in ones first.
    pub hardware: Numbering,
}

/// The number of the element at a place: 65,535 at most.
pub fn short(place: usize) -> u16
    ensures { result ≡ spec.short place }
{
    if place < 65535 { place as u16 } else { 65535 }
}

/// Says the number of a name, where that isn't said yet.
fn add(numbers: &mut IndexMap<Text, u16>, name: Text, number: u16) -> Result<(), NoMemory>
    ensures { OnOk result ((other : List ℕ) → get same_text numbers.new other ≡ option_or (get same_text numbers.old other) (spec.at_name name number other)) }
{
    if numbers.get(&name).is_none() {
        numbers.insert(name, number)?;
    }
    Ok(())
}

/// The numbers of names by their places.
#[tactic(auto, unfolding(crate::specs::Numbering::Keeps))]
fn numbers_by_name(alloc: Global, names: &[Text]) -> Result<IndexMap<Text, u16>, NoMemory>
    ensures { IfOk result (λ numbers. spec.Keeps names.now (get same_text numbers)) }
{
    let mut numbers = IndexMap::new(alloc);
    for (place, name) in names.iter().enumerate() {
        add(&mut numbers, name.clone()?, short(place))?;
    }
    Ok(numbers)
}

impl Numbering {
    /// The numbers of these names: each has its first place, from 0, or 65,535 where that is above.
    #[tactic(auto, using(crate::proofs::Counting::numbered_is))]
    pub fn of(alloc: Global, names: &[Text]) -> Result<Numbering, NoMemory>
        ensures { IfOk result (λ numbering. seen_numbering numbering ≡ spec.numbered names.now) }
    {
        Ok(Numbering {
            numbers: numbers_by_name(alloc, names)?,
        })
    }

    /// The number of a name. None exactly where it isn't among those that were numbered.
    pub fn get(&self, name: &Text) -> Option<u16>
        ensures { result ≡ seen_numbering self.now name.now }
    {
        self.numbers.get(name).copied()
    }
}

/// The numbers of a machine's fields, multi fields and hardware.
pub fn numbers_of(alloc: Global, selection: &Selection) -> Result<Numbers, NoMemory>
    ensures { IfOk result (λ numbers. seen_numbers numbers ≡ spec.numbers (seen selection.now)) }
{
    let fields = field_names(alloc, selection)?;
    let multis = multi_names(alloc, selection)?;
    let hardware = hardware_names(alloc, selection)?;
    Ok(Numbers {
        fields: Numbering::of(alloc, fields.as_slice())?,
        multis: Numbering::of(alloc, multis.as_slice())?,
        hardware: Numbering::of(alloc, hardware.as_slice())?,
    })
}
