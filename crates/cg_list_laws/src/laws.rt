ghost use Rattle.std.specs.Prelude.{◌≡◌, ℕ, ◌+◌, ◌^◌, ◌≤◌, List, length, Some, slice_get, Ok};
ghost use Rattle.cg_model.specs.Clashing.{AreBytes};
ghost use Rattle.cg_model.specs.Formed.{IsFormed};
ghost use Rattle.cg_model_source.specs.Imaging as spec;
ghost use Rattle.cg_model_source.specs.Listing.{Decoder, listing};
ghost use Rattle.cg_model.specs.Sound.{IsSound};
ghost use Rattle.cg_model_source.specs.Sourcing.{only_set};
ghost use Rattle.cg_model.specs.declared.field.Field.{Field};

use cg_model::Machine;

/// A law of the definitions (docs/ASSEMBLY.md, "Listings"): an image of at most 1 MiB that ends within the
/// machine's addresses is listed as source whose image at the same base is this image again, whichever way
/// its bytes are decoded.
#[tactic(auto, using(crate::proofs::Assembled::listing_gives_back))]
pub fn listings_give_back(machine: &Machine)
    requires formed { IsFormed machine.now }
    requires sound { IsSound machine.now }
    requires bundle { (k : ℕ) (f : Field) → machine.now.bundle ≡ Some k → slice_get machine.now.fields k ≡ Some f → f.word_offset + f.word_bits ≤ machine.now.base_bits }
    ensures { (f : Decoder) (base : ℕ) (bytes : List ℕ) → AreBytes bytes → length bytes ≤ 2 ^ 20 → base + length bytes ≤ 2 ^ machine.now.word_bits → spec.image (only_set machine.now) base (listing machine.now f base bytes) ≡ Ok bytes }
{}
