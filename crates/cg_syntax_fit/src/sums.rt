//! What the slots of an instruction are given.

ghost use Rattle.std.specs.Prelude.{◌≡◌, [], ◌∷◌, ◌++◌, ◌<◌, ◌≤◌, length, slice_get, IfOk, OnOk, OnErr, OnSome, IfNone};
ghost use Rattle.std.specs.Option.{option_copied};

use cg_base::{List, NoMemory};
use cg_model_source::{Sum, Term};
use smallvec::SmallVec;
use std::alloc::Global;
use std::default::MadeWith;
use std::marker::Model;

/// A sum that is held with others.
#[derive(Drop)]
struct Held {
    sum: Sum,
}

impl MadeWith<Global> for Held {
    fn made_with(alloc: Global) -> Held {
        Held {
            sum: Sum {
                number: 0,
                terms: List::new(alloc),
            },
        }
    }
}

/// What the slots of an instruction are given, in the format's order. Up to four take no memory of their
/// own. Contracts see the list of them.
#[derive(Drop)]
pub struct Sums {
    held: SmallVec<Held, 4>,
}

impl Model for Sums {
    ghost use Rattle.std.specs.Prelude.{List as Listed, map};
    ghost use Rattle.cg_model_source.specs.declared.written.Sum.{Sum};

    ghost Value = { Listed Sum };

    ghost view = { λ s. map (λ h. h.sum) s.held.items };
}

impl Sums {
    /// No sums. It takes no memory.
    pub fn new(alloc: Global) -> Sums
        ensures { result ≡ [] }
    {
        Sums {
            held: SmallVec::new(alloc),
        }
    }

    /// How many there are.
    pub fn len(&self) -> usize
        ensures { result ≡ length self.now }
    {
        self.held.len()
    }

    /// The sum at place `i`, counted from 0. None exactly past the end.
    pub fn get(&self, i: usize) -> Option<&Sum>
        ensures value { option_copied result ≡ slice_get self.now i }
        ensures within { OnSome result (i < length self.now) }
        ensures past { IfNone result (length self.now ≤ i) }
    {
        match self.held.as_slice().get(i) {
            Some(held) => Some(&held.sum),
            None => None,
        }
    }

    /// Puts a sum at the end. Where there is no memory for it, the others stay as they were.
    pub fn push(&mut self, sum: Sum) -> Result<(), NoMemory>
        ensures ok { OnOk result (self.new ≡ self.old ++ sum ∷ []) }
        ensures err { OnErr result (self.new ≡ self.old) }
    {
        self.held.push(Held { sum })?;
        Ok(())
    }
}

/// The labels of a sum once more.
fn copied_terms(alloc: Global, terms: &[Term]) -> Result<List<Term>, NoMemory>
    ensures { IfOk result (λ copies. copies ≡ terms.now) }
{
    let mut copies = List::new(alloc);
    for term in terms {
        copies.push(Term {
            label: term.label.clone()?,
            minus: term.minus,
        })?;
    }
    Ok(copies)
}

/// A sum once more.
pub fn copied_sum(alloc: Global, sum: &Sum) -> Result<Sum, NoMemory>
    ensures { IfOk result (λ copy. copy ≡ sum.now) }
{
    Ok(Sum {
        number: sum.number,
        terms: copied_terms(alloc, sum.terms.as_slice())?,
    })
}
