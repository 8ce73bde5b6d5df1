ghost use Rattle.std.specs.Prelude.{◌≡◌, ◌⊎◌, List as Listed, ℕ};
ghost use Rattle.cg_base.specs.declared.form.Forms.{Forms as Formed};
ghost use Rattle.cg_base.specs.declared.refusal.Refusal.{Refusal as Refused};
ghost use Rattle.cg_base.specs.Answering.{Answered};
ghost use Rattle.cg_base.specs.Reading.{Reads, IsFault};

use crate::reader::read_all;
use cg_base::{Forms, Stop};
use std::alloc::Global;

/// The one list of forms that a text spells, each with its file and line, or the refusal of the
/// first fault in the text, E101 to E105 (docs/LANGUAGE.md, "Texts and forms"; docs/REFUSALS.md).
#[tactic(auto, using(crate::proofs::Laws::list_found, crate::proofs::Laws::fault_found))]
pub fn read(alloc: Global, bytes: &[u8], file: u16) -> Result<Forms, Stop>
    ensures { Answered (Reads bytes.now file) (IsFault bytes.now file) result }
{
    let tops = read_all(alloc, bytes, file)?;
    Ok(Forms { tops })
}

/// Nothing is done here. The clauses are the laws that make `read` the one reading: a text has a
/// list of forms exactly where it has no fault, and one list or one first fault at most.
#[tactic(auto, using(crate::proofs::Laws::one_fault))]
pub fn one_reading()
    ensures one_list { (bytes : Listed ℕ) (file : ℕ) (a b : Formed) → Reads bytes file a → Reads bytes file b → a ≡ b }
    ensures one_fault { (bytes : Listed ℕ) (file : ℕ) (q r : Refused) → IsFault bytes file q → IsFault bytes file r → q ≡ r }
    ensures not_both { (bytes : Listed ℕ) (file : ℕ) (a : Formed) (r : Refused) → Reads bytes file a → IsFault bytes file r → ⊥ }
    ensures list_or_fault { (bytes : Listed ℕ) (file : ℕ) → ((a : Formed) × Reads bytes file a) ⊎ ((r : Refused) × IsFault bytes file r) }
{}
