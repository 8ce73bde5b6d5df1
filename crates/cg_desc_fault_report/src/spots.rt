//! Places in a syntax and in a format.

ghost use Rattle.std.specs.Prelude.{◌≡◌, ◌∷◌, [], ◌++◌, IfOk, OnOk};
ghost use Rattle.cg_desc_fault_report.specs.Spots as spec;

use crate::saying::{Placed, Saying, fault_said, put_at};
use cg_base::{List, NoMemory};
use cg_desc_choices::{Spot, Written, WrittenPart};
use cg_desc_insns::own_spot;
use cg_model::Machine;
use cg_model_faults::MachineFault;
use std::alloc::Global;

/// The place of what stands at a spot: parts and pieces are counted from 1.
pub fn place_at(alloc: Global, spot: Spot) -> Result<List<usize>, NoMemory>
    ensures { IfOk result (λ place. place ≡ spec.place_at spot) }
{
    let mut place = List::new(alloc);
    match spot.item.checked_add(1) {
        Some(item) => place.push(item)?,
        None => return Err(NoMemory),
    }
    place.push(spot.inner)?;
    Ok(place)
}

/// Puts what is said of a spot at the end.
pub fn put_at_spot(
    alloc: Global,
    list: &mut List<Placed>,
    spot: Spot,
    said: Saying,
) -> Result<(), NoMemory>
    ensures { OnOk result (list.new ≡ list.old ++ spec.at_spot spot said ∷ []) }
{
    let place = place_at(alloc, spot)?;
    put_at(list, place, said)
}

/// The spot of the part at a place, and the first where there is none.
pub fn part_spot(parts: &[WrittenPart], place: usize) -> Spot
    ensures { result ≡ spec.part_spot parts.now place }
{
    match parts.get(place) {
        Some(part) => part.spot,
        None => own_spot(0),
    }
}

/// The spot at a place among these, and that of the first where there is none.
pub fn spot_among(spots: &[Spot], place: usize) -> Spot
    ensures { result ≡ spec.spot_among spots.now place }
{
    match spots.get(place) {
        Some(spot) => *spot,
        None => own_spot(0),
    }
}

/// Puts a fault of an instruction's format at the end, if there is one: it stands at its part.
pub fn put_at_part(
    alloc: Global,
    list: &mut List<Placed>,
    machine: &Machine,
    written: &Written,
    fault: Option<MachineFault>,
) -> Result<(), NoMemory>
    ensures { OnOk result (list.new ≡ list.old ++ spec.first_at (spec.at_part machine.now written.now) fault) }
{
    match fault {
        Some(fault) => {
            let said = fault_said(alloc, machine, written.name.as_slice(), fault)?;
            let spot = part_spot(written.parts.as_slice(), fault.place);
            put_at_spot(alloc, list, spot, said)
        }
        None => Ok(()),
    }
}

/// Puts a fault of a syntax at the end, if there is one, of an element of this name: it stands at its
/// piece, by the spots of those pieces that a machine keeps.
pub fn put_at_piece(
    alloc: Global,
    list: &mut List<Placed>,
    machine: &Machine,
    own: &[u8],
    spots: &[Spot],
    fault: Option<MachineFault>,
) -> Result<(), NoMemory>
    ensures { OnOk result (list.new ≡ list.old ++ spec.first_at (spec.at_piece machine.now own.now spots.now) fault) }
{
    match fault {
        Some(fault) => {
            let said = fault_said(alloc, machine, own, fault)?;
            put_at_spot(alloc, list, spot_among(spots, fault.place), said)
        }
        None => Ok(()),
    }
}
