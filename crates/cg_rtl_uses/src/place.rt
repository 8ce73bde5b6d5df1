//! Places in an expression.

ghost use Rattle.std.specs.Prelude.{◌≡◌, ◌∷◌, [], ◌++◌, OnOk};
ghost use Rattle.cg_rtl_uses.specs.Uses.{here, inside};
ghost use Rattle.cg_rtl_uses.specs.Seen.{places_of, under};

use crate::uses::{PlacedUse, Use};
use cg_base::{List, NoMemory};
use std::alloc::Global;

/// A place in an expression, from the outermost list inwards.
#[derive(Clone, Copy)]
pub(crate) enum Path<'a> {
    /// The whole expression.
    Root,
    /// The element of this number, counted from 0, of the list at that place.
    Inside(&'a Path<'a>, usize),
}

/// Puts the numbers of a place at the end.
#[tactic(auto, using(crate::proofs::Paths::path_rules))]
fn put_places(list: &mut List<usize>, path: &Path) -> Result<(), NoMemory>
    ensures { OnOk result (list.new ≡ list.old ++ places_of path.now) }
{
    match path {
        Path::Root => Ok(()),
        Path::Inside(outer, number) => {
            put_places(list, outer)?;
            list.push(*number)?;
            Ok(())
        }
    }
}

/// Puts what stands at a place at the end.
#[tactic(auto, using(crate::proofs::Paths::path_rules))]
pub(crate) fn put(
    alloc: Global,
    list: &mut List<PlacedUse>,
    path: &Path,
    what: Use,
) -> Result<(), NoMemory>
    ensures { OnOk result (list.new ≡ list.old ++ under (places_of path.now) (here what ∷ [])) }
{
    let mut place = List::new(alloc);
    put_places(&mut place, path)?;
    list.push(PlacedUse { place, what })?;
    Ok(())
}

/// Puts what stands at an element of the list at a place at the end.
#[tactic(auto, using(crate::proofs::Paths::path_rules))]
pub(crate) fn put_inside(
    alloc: Global,
    list: &mut List<PlacedUse>,
    path: &Path,
    number: usize,
    what: Use,
) -> Result<(), NoMemory>
    ensures { OnOk result (list.new ≡ list.old ++ under (places_of path.now) (inside number (here what) ∷ [])) }
{
    let inner = Path::Inside(path, number);
    put(alloc, list, &inner, what)?;
    Ok(())
}
