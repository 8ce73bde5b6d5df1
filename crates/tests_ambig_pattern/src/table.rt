//! Tables of patterns, and the assertions of their instructions.

ghost use Rattle.std.specs.Prelude.{◌≡◌, ◌/◌, ◌%◌, ◌^◌, ◌==◌, true, if◌then◌else◌};
ghost use Rattle.tests_ambig_pattern.specs.Tables.{IsFit};

use cg_ambig_pattern::{Found, Judge, Pattern, first_pair};

/// The bits that assertions name.
const NAMED: u128 = 0xff << 112;

/// A kind of table.
#[derive(Clone, Copy)]
pub(crate) enum Table {
    /// All constants contradict each other, and nothing is asserted.
    Apart,
    /// 16 constants, each with 256 assertions.
    Groups,
    /// The same, but the last has no constants.
    Met,
}

/// The instruction of a number asserts that 8 bits are the lowest 8 of the number, or nothing.
#[derive(Drop)]
pub(crate) struct Asked {
    /// Whether it asserts anything.
    pub asked: bool,
}

impl Judge for Asked {
    ghost asserted = { λ x i w. if x.asked then (w / 2 ^ 112) % 256 == i % 256 else true };

    ghost ready = { λ x. Unit {0} };

    fn meets(&self, i: usize, number: u128) -> bool {
        if self.asked {
            (number >> 112) % 256 == (i as u128) % 256
        } else {
            true
        }
    }
}

/// The pattern of a number.
fn pattern(kind: Table, number: u16) -> Pattern {
    let group = (number / 256) as u128;
    let (cover, value, named) = match kind {
        Table::Apart => (0xffff << 112, (number as u128) << 112, 0),
        Table::Groups => (0xf << 124, group << 124, NAMED),
        Table::Met => {
            if number == 4095 {
                (0, 0, NAMED)
            } else {
                (0xf << 124, group << 124, NAMED)
            }
        }
    };
    Pattern {
        decodable: true,
        cover,
        value,
        named,
    }
}

/// A table of a kind.
pub(crate) fn patterns_of(kind: Table) -> [Pattern; 4096] {
    let mut patterns = [pattern(kind, 0); 4096];
    let mut next = 0u16;
    for place in patterns.iter_mut() {
        *place = pattern(kind, next);
        next = next.wrapping_add(1);
    }
    patterns
}

/// Whether a pattern covers its constants and names the bits that assertions name.
fn is_sound(asked: bool, pattern: &Pattern) -> bool
    ensures { result ≡ true → IsFit asked pattern.now }
{
    let named = if asked { NAMED } else { 0 };
    pattern.value & pattern.cover == pattern.value && pattern.named == named
}

/// The first two patterns that meet. A table that isn't sound has none.
#[tactic(auto, using(crate::proofs::Tables::tables))]
pub(crate) fn search(judge: &Asked, patterns: &[Pattern]) -> Option<Found> {
    for k in 0..patterns.len() {
        if !is_sound(judge.asked, &patterns[k]) {
            return None;
        }
    }
    first_pair(judge, patterns)
}
