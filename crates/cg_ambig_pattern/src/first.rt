ghost use Rattle.std.specs.Prelude.{◌≡◌, ◌<◌, length, MatchOption};
ghost use Rattle.cg_ambig_pattern.specs.First.{AreSound, NoClash, IsFirst, NoneWith, IsFirstWith};

use crate::pairs::{Judge, Pattern, least_among};
use crate::ways::ways_of;

/// An instruction and a number that it matches together with another.
#[derive(Clone, Copy)]
pub struct With {
    /// The number of the instruction.
    pub second: usize,
    /// The least number that both match.
    pub number: u128,
}

/// Two instructions and the least number that both match.
#[derive(Clone, Copy)]
pub struct Found {
    /// The number of the first.
    pub first: usize,
    /// The number of the second, which stands behind the first.
    pub second: usize,
    /// The least number that both match.
    pub number: u128,
}

/// The first instruction behind number `i` that matches a number together with it.
#[tactic(auto, using(crate::proofs::InOrder::behind))]
pub fn first_with<J: Judge>(judge: &J, patterns: &[Pattern], i: usize) -> Option<With>
    requires ready { J.ready judge.now }
    requires sound { AreSound patterns.now (J.asserted judge.now) }
    requires within { i < length patterns.now }
    ensures { MatchOption result
        (NoneWith patterns.now (J.asserted judge.now) i)
        (λ x. IsFirstWith patterns.now (J.asserted judge.now) i x.second x.number) }
{
    let first = &patterns[i];
    let ways = ways_of(judge, i, first);
    for second in i + 1..patterns.len() {
        if let Some(number) = least_among(judge, i, first, &ways, second, &patterns[second]) {
            return Some(With { second, number });
        }
    }
    None
}

/// The first two instructions that match the same number, and the least such number.
#[tactic(auto, using(crate::proofs::InOrder::pairs))]
pub fn first_pair<J: Judge>(judge: &J, patterns: &[Pattern]) -> Option<Found>
    requires ready { J.ready judge.now }
    requires sound { AreSound patterns.now (J.asserted judge.now) }
    ensures { MatchOption result
        (NoClash patterns.now (J.asserted judge.now))
        (λ x. IsFirst patterns.now (J.asserted judge.now) x.first x.second x.number) }
{
    for first in 0..patterns.len() {
        if let Some(with) = first_with(judge, patterns, first) {
            return Some(Found {
                first,
                second: with.second,
                number: with.number,
            });
        }
    }
    None
}
