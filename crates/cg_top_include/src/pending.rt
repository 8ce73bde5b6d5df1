ghost use Rattle.std.specs.Prelude.{◌≡◌, ◌++◌, ◌∷◌, [], OnOk, OnSome, IfSome, IfNone};

use cg_base::{List, NoMemory, Top};
use std::alloc::Global;
use std::marker::Model;

/// Forms that are still to be passed, of which the first is taken first. Contracts see their list.
#[derive(Debug, Drop)]
pub struct Pending {
    /// The last form first.
    stack: Vec<Top>,
}

impl Model for Pending {
    ghost use Rattle.std.specs.Prelude.{List as Listed, reverse};
    ghost use Rattle.std.specs.Coded.{codes};
    ghost use Rattle.cg_base.specs.declared.form.Top.{Top as Shown};
    ghost use Rattle.cg_base.specs.contracts.form.Top as shown;

    ghost Value = { Listed Shown };

    ghost coded = { Prim.hlevel (codes, shown.the_row.coded) };

    ghost view = { λ it. reverse it.stack.items };
}

impl Pending {
    /// No forms.
    pub fn new(alloc: Global) -> Pending
        ensures { result ≡ [] }
    {
        Pending {
            stack: Vec::new(alloc),
        }
    }

    /// Takes the first form. None exactly where there is none.
    pub fn next(&mut self) -> Option<Top>
        ensures first { IfSome result (λ top. self.old ≡ top ∷ self.new) }
        ensures none { IfNone result (self.old ≡ []) }
        ensures left { IfNone result (self.new ≡ []) }
    {
        self.stack.pop()
    }

    /// Puts forms in front.
    pub fn put_in_front(&mut self, tops: List<Top>) -> Result<(), NoMemory>
        ensures { OnOk result (self.new ≡ tops ++ self.old) }
    {
        for top in tops.into_vec().into_iter().rev() {
            self.stack.push(top)?;
        }
        Ok(())
    }
}
