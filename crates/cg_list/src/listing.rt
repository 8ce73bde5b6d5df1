ghost use Rattle.std.specs.Prelude.{◌≡◌, ◌+◌, ◌^◌, ◌≤◌, length, IfOk, Ok};
ghost use Rattle.cg_syntax_choose.specs.Indexing.{IsIndex, GivesAll};
ghost use Rattle.cg_model.specs.Clashing.{decoded_to};
ghost use Rattle.cg_model.specs.Formed.{IsFormed};
ghost use Rattle.cg_model_source.specs.Imaging as spec;
ghost use Rattle.cg_model_source.specs.Listing.{listing};
ghost use Rattle.cg_model.specs.Sound.{IsSound};
ghost use Rattle.cg_model_source.specs.Sourcing.{only_set};
ghost use Rattle.cg_syntax.specs.Laying.{HasBundleBit};
ghost use Rattle.cg_tree.specs.Finding.{found, IsTight};

use crate::line::line_at;
use cg_base::{NoMemory, Text};
use cg_model::Machine;
use cg_syntax::Index;
use cg_tree::Tree;
use std::alloc::Global;

/// The lines of an image that begins at a base, whose addresses count modulo 2^bits of the cpu's word.
#[tactic(auto, using(crate::proofs::Listed::listing_steps))]
fn lines_from(
    alloc: Global,
    machine: &Machine,
    index: &Index,
    tree: &Tree,
    base: u64,
    image: &[u8],
) -> Result<Text, NoMemory>
    requires sound { IsSound machine.now }
    requires given { GivesAll machine.now }
    requires bit { HasBundleBit machine.now }
    requires index { IsIndex machine.now index.now }
    ensures { IfOk result (λ text. text ≡ listing machine.now (found tree.now machine.now) base image.now) }
{
    let mut text = Text::new(alloc);
    let mut skipped = 0;
    for k in 0..image.len() {
        if skipped > 0 {
            skipped -= 1;
        } else {
            let address = base.wrapping_add(k as u64);
            let line = line_at(alloc, machine, index, tree, address, &image[k..])?;
            text.append(line.text.as_slice())?;
            skipped = line.size.saturating_sub(1);
        }
    }
    Ok(text)
}

/// The listing of an image that begins at a base (docs/ASSEMBLY.md, "Listings"): for each place the
/// bundle that decodes there by the tree, as the statement that gives its bytes, or else the bytes
/// as they are. Addresses count modulo 2^bits of the cpu's word. An image of at most 1 MiB that ends
/// within them is what its listing gives at this base. The index was built from the machine, and the
/// tree from this machine or another. NoMemory where memory runs out.
#[tactic(auto, using(crate::proofs::Listed::lawful))]
pub fn list(
    alloc: Global,
    machine: &Machine,
    index: &Index,
    tree: &Tree,
    base: u64,
    image: &[u8],
) -> Result<Text, NoMemory>
    requires sound { IsSound machine.now }
    requires given { GivesAll machine.now }
    requires bit { HasBundleBit machine.now }
    requires index { IsIndex machine.now index.now }
    ensures listed { IfOk result (λ text. text ≡ listing machine.now (found tree.now machine.now) base image.now) }
    ensures decoded { IsTight tree.now machine.now → IfOk result (λ text. text ≡ listing machine.now (decoded_to machine.now) base image.now) }
    ensures back { IsFormed machine.now → length image.now ≤ 2 ^ 20 → base + length image.now ≤ 2 ^ machine.now.word_bits → IfOk result (λ text. spec.image (only_set machine.now) base text ≡ Ok image.now) }
{
    Ok(lines_from(alloc, machine, index, tree, base, image)?)
}
