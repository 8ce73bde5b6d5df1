ghost use Rattle.std.specs.Prelude.{◌≡◌, ◌<◌};
ghost use Rattle.cg_tree.specs.Telling.{IsOne};
ghost use Rattle.cg_tree.specs.Trees as spec;

/// Whether a bit of a number is 1. A number has 128 bits, and those past them are 0.
#[tactic(auto, using(crate::proofs::Beyond::beyond))]
pub(crate) fn is_set(number: u128, bit: u8) -> bool
    ensures { result ≡ spec.is_set number bit }
{
    if bit >= 128 {
        return false;
    }
    (number >> bit) % 2 == 1
}

/// The lowest bit of a number that is 1.
#[tactic(auto, using(crate::proofs::Beyond::lowest_rules))]
pub(crate) fn lowest(number: u128) -> u8
    requires { 0 < number }
    ensures { IsOne number result }
{
    number.trailing_zeros() as u8
}
