ghost use Rattle.std.specs.Prelude.{◌≡◌, ◌<◌, slice_get, MatchOption};
ghost use Rattle.cg_tree.specs.Growing.{AreDone, IsNext};
ghost use Rattle.cg_tree.specs.Telling.{IsOne};
ghost use Rattle.cg_tree.specs.Telling as spec;

use crate::bits::{is_set, lowest};
use crate::table::constant_at;
use cg_code_mask::Constants;

/// The bits that are constants of an instruction, or of any of some.
#[derive(Clone, Copy)]
struct Told {
    /// Those that are 0.
    zeros: u128,
    /// Those that are 1.
    ones: u128,
}

/// The bits that are constants of the instruction of a number.
fn told_by(table: &[Constants], k: u16) -> Told
    ensures zeros { result.zeros ≡ spec.zeros_of (slice_get table.now k) }
    ensures ones { result.ones ≡ spec.ones_of (slice_get table.now k) }
{
    match table.get(k as usize) {
        Some(own) => Told {
            zeros: own.cover ^ (own.cover & own.value),
            ones: own.cover & own.value,
        },
        None => Told { zeros: 0, ones: 0 },
    }
}

/// The bits that tell two of some candidates apart: a constant 0 of one and a constant 1 of another.
#[tactic(auto, using(crate::proofs::Masks::mask_rules))]
fn telling(table: &[Constants], candidates: &[u16]) -> u128
    ensures { result ≡ spec.telling table.now candidates.now }
{
    let mut zeros = 0;
    let mut ones = 0;
    for k in candidates {
        let own = told_by(table, *k);
        zeros |= own.zeros;
        ones |= own.ones;
    }
    zeros & ones
}

/// How many candidates are looked at, at most, where bits are compared.
const SAMPLE: usize = 64;

/// Whether the candidate at a place, which is counted from 0, has this for a constant bit.
fn has_at(table: &[Constants], candidates: &[u16], place: usize, bit: u8, constant: bool) -> bool {
    match candidates.get(place) {
        Some(k) => constant_at(table, *k, bit) == Some(constant),
        None => false,
    }
}

/// How many of a sample of candidates have this for a constant bit.
fn count_with(table: &[Constants], candidates: &[u16], bit: u8, constant: bool) -> usize {
    let step = candidates.len() / SAMPLE + 1;
    (0..SAMPLE.min(candidates.len()))
        .filter(|n| has_at(table, candidates, n.saturating_mul(step), bit, constant))
        .count()
}

/// How many pairs of a sample of candidates a bit tells apart.
fn pairs_told(table: &[Constants], candidates: &[u16], bit: u8) -> usize {
    let zeros = count_with(table, candidates, bit, false);
    let ones = count_with(table, candidates, bit, true);
    zeros.saturating_mul(ones)
}

/// Of the bits that tell candidates apart, the lowest that tells the most pairs of a sample apart.
#[tactic(auto, using(crate::proofs::Beyond::one_there))]
fn best_of(table: &[Constants], candidates: &[u16], told: u128) -> u8
    requires { 0 < told }
    ensures { IsOne told result }
{
    let mut best = lowest(told);
    let mut most = 0;
    for bit in 0..128 {
        if is_set(told, bit) {
            let pairs = pairs_told(table, candidates, bit);
            if most < pairs {
                best = bit;
                most = pairs;
            }
        }
    }
    best
}

/// The bit to ask next of some candidates. None where no bit tells two of them apart, or no leaf
/// may be parted any more.
#[tactic(auto, using(crate::proofs::Masks::next_rules))]
pub(crate) fn next_bit(table: &[Constants], candidates: &[u16], room: u32) -> Option<u8>
    ensures { MatchOption result
        (AreDone table.now candidates.now room)
        (λ bit. IsNext table.now candidates.now room bit) }
{
    if room == 0 {
        return None;
    }
    let told = telling(table, candidates);
    if told == 0 {
        return None;
    }
    Some(best_of(table, candidates, told))
}
