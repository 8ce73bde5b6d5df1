ghost use Rattle.std.specs.Prelude.{◌≡◌, ℕ, ◌+◌, ◌^◌, ◌<◌, Bool, true, MatchOption};
ghost use Rattle.cg_ambig_pattern.specs.Settings.{IsHighest, NoSetting, IsLeastSetting};

/// A test of a number.
pub trait Test {
    /// Which numbers pass.
    ghost passes: { Self → ℕ → Bool };

    /// When it can be asked.
    ghost ready: { Self → Type 0 };

    /// Whether the number passes.
    fn test(&self, number: u128) -> bool
        requires { ready self.now }
        ensures { result ≡ passes self.now number };
}

/// The highest bit of a number that isn't 0.
#[tactic(auto, using(std::proofs::lemmas::Nat::leading_length, crate::proofs::Settings::highest))]
pub fn highest_bit(bits: u128) -> u128
    requires { 0 < bits }
    ensures { IsHighest result bits }
{
    1 << (127 - bits.leading_zeros())
}

/// The least number that passes, among `value` with some of the bits of `free` added.
#[tactic(auto, using(crate::proofs::Settings::by_halves))]
pub fn least<T: Test>(test: &T, value: u128, free: u128) -> Option<u128>
    requires ready { T.ready test.now }
    requires within { value + free < 2 ^ 128 }
    ensures { MatchOption result (NoSetting (T.passes test.now) value free) (λ w. IsLeastSetting (T.passes test.now) value free w) }
{
    if free == 0 {
        return if test.test(value) { Some(value) } else { None };
    }
    let top = highest_bit(free);
    let rest = free - top;
    match least(test, value, rest) {
        Some(found) => Some(found),
        None => least(test, value + top, rest),
    }
}
