ghost use Rattle.std.specs.Prelude.{◌≡◌, ℕ, ◌+◌, ◌^◌, ◌≤◌, List as Listed, length, Some, Ok};
ghost use Rattle.cg_io.specs.Asking.{Asking};
ghost use Rattle.cg_io.specs.Held.{Held};
ghost use Rattle.cg_model.specs.Clashing.{AreBytes};
ghost use Rattle.cg_model_source.specs.Imaging.{image};
ghost use Rattle.cg_model_source.specs.Sourcing.{only_set};
ghost use Rattle.cg_model_faults.specs.Accepted.{IsAccepted};
ghost use Rattle.cg_top.specs.declared.asking.Command.TheVariants.{ListImage};
ghost use Rattle.cg_top.specs.declared.asking.Listing.{Listing};
ghost use Rattle.cg_top.specs.declared.replies.Reply.{Reply as Replied};
ghost use Rattle.cg_top.specs.Answer.{Answer};
ghost use Rattle.cg_top.specs.Replies.{performed};
ghost use Rattle.cg_top.specs.Top.{text_of};

use cg_list_laws::listings_give_back;
use cg_model::Machine;
use cg_model_laws::accepted_is_sound;
use cg_syntax::accepted_is_ready;

/// A law of the definitions: over files that tell what they hold, words are answered in one way
/// alone where no fault comes, and one list of names and limits is read for it.
pub fn one_answer()
    ensures { (words : Listed (Listed ℕ)) (files : Held) (reads more : Listed Asking) (reply other : Replied) → Answer words (Some files) ⊥ reads reply → Answer words (Some files) ⊥ more other → (reads ≡ more) × (reply ≡ other) }
{}

/// A law of the definitions: over files that tell what they hold, words have an answer in which no
/// fault comes.
pub fn some_answer()
    ensures { (words : Listed (Listed ℕ)) (files : Held) → (reads : Listed Asking) × (reply : Replied) × Answer words (Some files) ⊥ reads reply }
{}

/// A law of the definitions (docs/ASSEMBLY.md, "Listings"): what is printed of an image of at most 1 MiB that
/// ends within the machine's addresses is source whose image at the same base is this image again.
pub fn printed_listings_give_back(machine: &Machine)
    requires { IsAccepted machine.now }
    ensures { (it : Listing) (bytes : Listed ℕ) → AreBytes bytes → length bytes ≤ 2 ^ 20 → it.base + length bytes ≤ 2 ^ machine.now.word_bits → image (only_set machine.now) it.base (text_of (performed (ListImage it) machine.now bytes).lines) ≡ Ok bytes }
{
    accepted_is_sound(machine);
    accepted_is_ready(machine);
    listings_give_back(machine);
}
