ghost use Rattle.std.specs.Prelude.{◌≡◌, ◌<◌, ◌^◌, nat_lt};
ghost use Rattle.cg_base.specs.Refusing.{first};
ghost use Rattle.cg_model_faults.specs.E311.{unfit_at, unfit_constants};

use cg_base::refusals;
use cg_model::{Machine, Part};
use cg_model_faults::{MachineFault, Said};

/// Whether a number has at most so many bits.
#[tactic(auto, using(crate::proofs::Walks::fits_long))]
fn fits(value: u64, length: u8) -> bool
    ensures { result ≡ nat_lt value (2 ^ length) }
{
    if length >= 64 {
        return true;
    }
    value < 1 << length
}

/// The fault of one part, at its place.
fn unfit(machine: &Machine, place: usize, part: Part) -> Option<MachineFault>
    ensures { result ≡ first (unfit_at machine.now place part) }
{
    let Part::Constant { field, value } = part else {
        return None;
    };
    let k = field as usize;
    if fits(value, machine.fields.get(k)?.length) {
        return None;
    }
    Some(MachineFault {
        number: refusals::WIDE_CONSTANT,
        place,
        text: Said::Field(k),
        other: Said::Count(value),
    })
}

/// E311: a constant of a format isn't from 0 to 2^length - 1 of its field. The place is that of the
/// part.
#[tactic(auto, using(crate::proofs::Walks::first_rules))]
pub fn first_unfit(machine: &Machine, parts: &[Part]) -> Option<MachineFault>
    ensures { result ≡ first (unfit_constants machine.now parts.now) }
{
    for place in 0..parts.len() {
        if let Some(fault) = unfit(machine, place, parts[place]) {
            return Some(fault);
        }
    }
    None
}
