ghost use Rattle.std.specs.Prelude.{◌≡◌, None};
ghost use Rattle.std.specs.List.{filter_map};
ghost use Rattle.cg_desc_laws_forms.specs.Sizes.{AreKept};
ghost use Rattle.cg_desc_data.specs.Seen.{seen};
ghost use Rattle.cg_desc_elements.specs.Reading.{element_at, first_refusal};

use cg_base::Top;
use cg_desc_data::Selection;

/// A law of the definitions: where none of the forms is refused by itself, the machine's word and its
/// shortest instruction have sizes that are allowed, so have the words of its fields, and the modes of its
/// fields, multi fields and hardware are those of values (docs/LANGUAGE.md, "Allowed values").
#[tactic(auto, using(crate::proofs::Kept::kept))]
pub fn sizes_are_kept(selection: &Selection, tops: &[Top])
    requires clear { first_refusal tops.now ≡ None }
    requires elements { (seen selection.now).elements ≡ filter_map element_at tops.now }
    ensures { AreKept (seen selection.now) }
{}
