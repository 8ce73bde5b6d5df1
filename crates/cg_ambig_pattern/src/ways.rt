ghost use Rattle.std.specs.Prelude.{◌≡◌, ◌+◌, ◌^◌, ◌<◌, ◌≤◌, count_ones};
ghost use Rattle.cg_ambig_pattern.specs.Together.{Depends};
ghost use Rattle.cg_ambig_pattern.specs.Ways.{Has, Keeps, Gathered, HasWays, is_way};

use crate::pairs::{Judge, Pattern};
use crate::search::{Test, highest_bit};

/// The settings of the bits that an instruction's assertion names with which bytes can be the
/// instruction's: 256 at most. They are found once for an instruction, and serve all pairs that it
/// is the first of.
#[derive(Drop)]
pub struct Ways {
    /// How many there are.
    pub count: usize,
    /// They stand in front.
    pub numbers: [u128; 256],
}

/// The settings that an instruction can have.
#[derive(Drop)]
struct Own<'a, J> {
    judge: &'a J,
    i: usize,
    pattern: Pattern,
}

impl<J: Judge> Test for Own<'_, J> {
    ghost passes = { λ x. is_way x.pattern (J.asserted x.judge.now x.i) };

    ghost ready = { λ x. J.ready x.judge.now };

    fn test(&self, number: u128) -> bool {
        let p = &self.pattern;
        self.judge.meets(self.i, number) && (number ^ p.value) & p.cover & p.named == 0
    }
}

/// One number more.
#[tactic(auto, using(crate::proofs::Gathering::pushing))]
fn push(ways: &mut Ways, number: u128)
    requires { ways.old.count < 256 }
    ensures more { ways.new.count ≡ ways.old.count + 1 }
    ensures kept { Keeps ways.old ways.new }
    ensures has { Has ways.new number }
{
    ways.numbers[ways.count] = number;
    ways.count += 1;
}

/// Adds each number that passes, among `value` with some of the bits of `free` added.
#[tactic(auto, using(crate::proofs::Gathering::gathering))]
fn gather<T: Test>(test: &T, value: u128, free: u128, ways: &mut Ways)
    requires ready { T.ready test.now }
    requires within { value + free < 2 ^ 128 }
    requires room { ways.old.count + 2 ^ count_ones free ≤ 256 }
    ensures { Gathered (T.passes test.now) value free ways.old ways.new }
{
    if free == 0 {
        if test.test(value) {
            push(ways, value);
        }
        return;
    }
    let top = highest_bit(free);
    let rest = free - top;
    gather(test, value, rest, ways);
    gather(test, value + top, rest, ways);
}

/// The settings that instruction `i` can have.
#[tactic(auto, using(crate::proofs::Gathering::finding))]
pub fn ways_of<J: Judge>(judge: &J, i: usize, p: &Pattern) -> Ways
    requires ready { J.ready judge.now }
    requires depends { Depends (J.asserted judge.now i) p.now.named }
    requires few { count_ones p.now.named ≤ 8 }
    ensures few { result.count ≤ 256 }
    ensures all { HasWays p.now (J.asserted judge.now i) result }
{
    let mut ways = Ways {
        count: 0,
        numbers: [0; 256],
    };
    let own = Own {
        judge,
        i,
        pattern: *p,
    };
    gather(&own, 0, p.named, &mut ways);
    ways
}
