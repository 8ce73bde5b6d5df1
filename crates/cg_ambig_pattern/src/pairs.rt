ghost use Rattle.std.specs.Prelude.{◌≡◌, ℕ, ◌≤◌, Bool, false, not, ◌==◌, MatchOption};
ghost use Rattle.cg_ambig_pattern.specs.Together.{Covers, Depends, Both, Never, IsLeast, both_meet, contradictions};
ghost use Rattle.cg_ambig_pattern.specs.Ways.{HasWays, always, standing as standing_way};

use crate::search::{Test, least};
use crate::ways::Ways;

/// What a format says of the bits of a number, and which bits an assertion asks for.
#[derive(Clone, Copy)]
pub struct Pattern {
    /// Whether bytes are decoded to it.
    pub decodable: bool,
    /// The bits that a constant covers.
    pub cover: u128,
    /// The constants in place.
    pub value: u128,
    /// The bits that the assertion names.
    pub named: u128,
}

/// The assertions of some instructions.
pub trait Judge {
    /// Which numbers meet the assertion of an instruction.
    ghost asserted: { Self → ℕ → ℕ → Bool };

    /// When it can be asked.
    ghost ready: { Self → Type 0 };

    /// Whether the number meets the assertion of instruction `i`.
    fn meets(&self, i: usize, number: u128) -> bool
        requires { ready self.now }
        ensures { result ≡ asserted self.now i number };
}

/// The assertions of two instructions.
#[derive(Drop)]
struct Pair<'a, J> {
    judge: &'a J,
    first: usize,
    second: usize,
}

impl<J: Judge> Test for Pair<'_, J> {
    ghost passes = { λ p. both_meet (J.asserted p.judge.now p.first) (J.asserted p.judge.now p.second) };

    ghost ready = { λ p. J.ready p.judge.now };

    fn test(&self, number: u128) -> bool {
        self.judge.meets(self.first, number) && self.judge.meets(self.second, number)
    }
}

/// The assertion of one instruction.
#[derive(Drop)]
struct One<'a, J> {
    judge: &'a J,
    i: usize,
}

impl<J: Judge> Test for One<'_, J> {
    ghost passes = { λ x. both_meet always (J.asserted x.judge.now x.i) };

    ghost ready = { λ x. J.ready x.judge.now };

    fn test(&self, number: u128) -> bool {
        self.judge.meets(self.i, number)
    }
}

/// Whether constants of two instructions contradict each other.
fn contradicts(p: &Pattern, q: &Pattern) -> bool
    ensures { result ≡ not (contradictions p.now q.now == 0) }
{
    (p.value ^ q.value) & p.cover & q.cover != 0
}

/// The least number of two instructions that passes a test, which is that both assertions are met.
#[tactic(auto, using(crate::proofs::Together::pairs))]
fn least_of_both<T: Test>(test: &T, p: &Pattern, q: &Pattern) -> Option<u128>
    requires ready { T.ready test.now }
    requires first_covers { Covers p.now }
    requires second_covers { Covers q.now }
    ensures { (a b : ℕ → Bool) → T.passes test.now ≡ both_meet a b → Depends a p.now.named → Depends b q.now.named
        → MatchOption result (Never (Both p.now q.now a b)) (λ w. IsLeast (Both p.now q.now a b) w) }
{
    if !p.decodable {
        return None;
    }
    if !q.decodable {
        return None;
    }
    if contradicts(p, q) {
        return None;
    }
    let cover = p.cover | q.cover;
    let free = ((p.named | q.named) | cover) ^ cover;
    least(test, p.value | q.value, free)
}

/// The least number that two instructions both match: the least of the numbers that have the
/// constants of both in place, some setting of the bits that their assertions name and no constant
/// covers, and 0 elsewhere. Where constants contradict each other there is none.
#[tactic(auto, using(crate::proofs::Together::pairs))]
pub fn least_of_pair<J: Judge>(
    judge: &J,
    i: usize,
    p: &Pattern,
    j: usize,
    q: &Pattern,
) -> Option<u128>
    requires ready { J.ready judge.now }
    requires first_covers { Covers p.now }
    requires second_covers { Covers q.now }
    requires first_depends { Depends (J.asserted judge.now i) p.now.named }
    requires second_depends { Depends (J.asserted judge.now j) q.now.named }
    ensures { MatchOption result
        (Never (Both p.now q.now (J.asserted judge.now i) (J.asserted judge.now j)))
        (λ w. IsLeast (Both p.now q.now (J.asserted judge.now i) (J.asserted judge.now j)) w) }
{
    let pair = Pair {
        judge,
        first: i,
        second: j,
    };
    least_of_both(&pair, p, q)
}

/// An instruction whose named bits are set in one way.
fn standing(p: &Pattern, setting: u128) -> Pattern
    ensures { result ≡ standing_way p.now setting }
{
    Pattern {
        decodable: p.decodable,
        cover: p.cover | p.named,
        value: p.value | (setting & p.named),
        named: 0,
    }
}

/// Whether some number is one of the second's and of the first's in one of its ways.
#[tactic(auto, using(crate::proofs::Meeting::meeting))]
fn can_meet<J: Judge>(judge: &J, p: &Pattern, ways: &Ways, j: usize, q: &Pattern) -> bool
    requires ready { J.ready judge.now }
    requires few { ways.now.count ≤ 256 }
    requires first_covers { Covers p.now }
    requires second_covers { Covers q.now }
    requires second_depends { Depends (J.asserted judge.now j) q.now.named }
    ensures { (a : ℕ → Bool) → HasWays p.now a ways.now → result ≡ false → Never (Both p.now q.now a (J.asserted judge.now j)) }
{
    for k in 0..ways.count {
        let first = standing(p, ways.numbers[k]);
        if least_of_both(&One { judge, i: j }, &first, q).is_some() {
            return true;
        }
    }
    false
}

/// The least number that two instructions both match, where the first's ways are known. Constants
/// that contradict each other are told first, and the assertion of the first isn't asked again
/// before there is such a number.
#[tactic(auto, using(crate::proofs::Meeting::among))]
pub fn least_among<J: Judge>(
    judge: &J,
    i: usize,
    p: &Pattern,
    ways: &Ways,
    j: usize,
    q: &Pattern,
) -> Option<u128>
    requires ready { J.ready judge.now }
    requires few { ways.now.count ≤ 256 }
    requires ways { HasWays p.now (J.asserted judge.now i) ways.now }
    requires first_covers { Covers p.now }
    requires second_covers { Covers q.now }
    requires first_depends { Depends (J.asserted judge.now i) p.now.named }
    requires second_depends { Depends (J.asserted judge.now j) q.now.named }
    ensures { MatchOption result
        (Never (Both p.now q.now (J.asserted judge.now i) (J.asserted judge.now j)))
        (λ w. IsLeast (Both p.now q.now (J.asserted judge.now i) (J.asserted judge.now j)) w) }
{
    if contradicts(p, q) {
        return None;
    }
    if !can_meet(judge, p, ways, j, q) {
        return None;
    }
    least_of_pair(judge, i, p, j, q)
}
