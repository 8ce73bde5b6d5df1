//! Labels and their addresses.

ghost use Rattle.std.specs.Prelude.{◌≡◌, [], ◌+ℤ◌, ◌-ℤ◌, pos, if◌then◌else◌, IfOk, OnOk};
ghost use Rattle.std.specs.Option.{option_copied, option_map};
ghost use Rattle.cg_asm_directives.specs.Faulting.{told_first};
ghost use Rattle.cg_asm_labels.specs.Labelling.{IsNew};
ghost use Rattle.cg_base.specs.Texts.{seen_text};
ghost use Rattle.cg_model_source.specs.Sourcing.{address_of, labels_with};
ghost use Rattle.cg_model_source.specs.E604.{undefined_terms, undefined_sums};
ghost use Rattle.cg_model_source.specs.E605.{number_with, numbers_with};
ghost use Rattle.cg_syntax.specs.Faulting.{said_alone};

use cg_base::{NoMemory, Text};
use cg_model_source::{Sum, Term};
use cg_syntax_choose::sum_there;
use cg_syntax_fit::Sums;
use indexmap::IndexMap;
use std::alloc::Global;
use std::marker::Model;

/// The labels of a source, with the addresses of their lines. Contracts see them as a list, the last line
/// first.
#[derive(Drop)]
pub struct Labels {
    addresses: IndexMap<Text, u128>,
}

impl Model for Labels {
    ghost use Rattle.std.specs.Prelude.{List as Listed};
    ghost use Rattle.cg_asm_labels.specs.Labelling.{labels_in, KnowsAll};
    ghost use Rattle.cg_model_source.specs.Sourcing.{Label};

    ghost Value = { Listed Label };

    ghost view = { λ it. labels_in it.addresses };

    ghost invariant = { λ it. KnowsAll it.addresses };
}

impl Labels {
    /// No labels.
    #[tactic(auto, using(crate::proofs::LabelLemmas::none_known))]
    pub fn new(alloc: Global) -> Labels
        ensures { result ≡ [] }
    {
        Labels {
            addresses: IndexMap::new(alloc),
        }
    }

    /// The address of a label.
    pub fn address(&self, name: &Text) -> Option<u128>
        ensures { result ≡ address_of self.now name.now }
    {
        self.addresses.get(name).copied()
    }

    /// Defines a label, if there is one. It isn't defined yet.
    #[tactic(auto, using(crate::proofs::LabelLemmas::defining))]
    pub fn define(
        &mut self,
        alloc: Global,
        label: Option<&[u8]>,
        address: u128,
    ) -> Result<(), NoMemory>
        requires { IsNew self.old (option_map seen_text label) }
        ensures { OnOk result (self.new ≡ labels_with (option_map seen_text label.entry) address self.old) }
    {
        if let Some(name) = label {
            self.addresses.insert(Text::of(alloc, name)?, address)?;
        }
        Ok(())
    }

    /// The first of these labels that isn't defined.
    #[tactic(auto, using(crate::proofs::LabelLemmas::next_term))]
    fn first_undefined<'a>(&self, terms: &'a [Term]) -> Option<&'a Text>
        ensures { option_map (said_alone 604) (option_copied result) ≡ told_first (undefined_terms self.now terms.now) }
    {
        for term in terms {
            if self.address(&term.label).is_none() {
                return Some(&term.label);
            }
        }
        None
    }

    /// The first label of a sum that isn't defined.
    pub fn undefined_of<'a>(&self, sum: &'a Sum) -> Option<&'a Text>
        ensures { option_map (said_alone 604) (option_copied result) ≡ told_first (undefined_terms self.now sum.now.terms) }
    {
        self.first_undefined(sum.terms.as_slice())
    }

    /// The first label of sums that isn't defined.
    pub fn undefined_in<'a>(&self, sums: &'a Sums) -> Option<&'a Text>
        ensures { option_map (said_alone 604) (option_copied result) ≡ told_first (undefined_sums self.now sums.now) }
    {
        for k in 0..sums.len() {
            if let Some(label) = self.undefined_of(sum_there(sums, k)) {
                return Some(label);
            }
        }
        None
    }

    /// The number of a sum, with the addresses of its labels. One that isn't defined counts 0.
    pub fn number_with(&self, sum: &Sum) -> Result<i128, NoMemory>
        ensures { IfOk result (λ number. number ≡ number_with self.now sum.now) }
    {
        let mut number = sum.number;
        for term in sum.terms.as_slice() {
            let address = self.address(&term.label).unwrap_or(0);
            number = plus_address(number, term.minus, address)?;
        }
        Ok(number)
    }

    /// The numbers of sums, with the addresses of their labels.
    pub fn numbers_with(&self, alloc: Global, sums: &Sums) -> Result<Vec<Option<i128>>, NoMemory>
        ensures { IfOk result (λ numbers. numbers.items ≡ numbers_with self.now sums.now) }
    {
        let mut numbers = Vec::new(alloc);
        for k in 0..sums.len() {
            let number = self.number_with(sum_there(sums, k))?;
            numbers.push(Some(number))?;
        }
        Ok(numbers)
    }
}

/// A number and an address, which is added or taken off. A line has 4,096 bytes at most, so no sum of it
/// comes near the ends of 128 bits.
fn plus_address(number: i128, minus: bool, address: u128) -> Result<i128, NoMemory>
    ensures { IfOk result (λ sum. sum ≡ (if minus then number -ℤ pos address else number +ℤ pos address)) }
{
    let address = i128::try_from(address).ok().ok_or(NoMemory)?;
    if minus {
        return number.checked_sub(address).ok_or(NoMemory);
    }
    number.checked_add(address).ok_or(NoMemory)
}
