//! What was asked of files. It exists only in proofs, takes no memory, and does nothing at run
//! time.
ghost use Rattle.std.specs.Prelude.{◌≡◌, ◌++◌, ◌∷◌, []};
ghost use base.Fml.{ftrue};
ghost use Rattle.cg_io.specs.Asking.{Asking, askings_code};
ghost use Rattle.std.specs.Prelude.{List as Listed};

use cg_base::Text;
use std::marker::Model;

/// The names that were asked for, each with its limit, in order.
#[derive(Drop)]
pub(crate) struct Past {
    ghost asked: { Listed Asking } by { askings_code },
}

impl Model for Past {
    ghost also_owns = { λ _. ftrue };
}

impl Past {
    /// Nothing was asked for.
    pub(crate) fn new() -> Past
        ensures { result.asked ≡ [] }
    {
        Past {}
    }

    /// One more name was asked for, with this limit.
    pub(crate) fn with(&self, _name: &Text, _limit: &u64) -> Past
        ensures { result.asked ≡ self.now.asked ++ (_name.now, _limit.now) ∷ [] }
    {
        Past {}
    }
}
