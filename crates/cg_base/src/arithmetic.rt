//! The steps of the operations, on numbers of so many bits, from 1 to 64.

ghost use Rattle.std.specs.Prelude.{◌≡◌, ◌+◌, ◌-◌, ◌*◌, ◌/◌, ◌%◌, ◌^◌, ◌<◌, ◌≤◌, ◌+ℤ◌, ◌-ℤ◌, pos, nat_lt, nat_le, if◌then◌else◌, unsigned_abs, int_div, int_rem, min};
ghost use Rattle.std.specs.Int.{int_shr};
ghost use Rattle.cg_base.specs.Operations.{as_signed, wrapped, rotated, overflows};

/// The lowest bits of a number.
#[tactic(auto, using(crate::proofs::Words::lowest_bits))]
pub(crate) fn low(bits: u8, a: u64) -> u64
    requires some { 1 ≤ bits }
    requires few { bits ≤ 64 }
    ensures { result ≡ a % 2 ^ bits }
{
    a & (u64::MAX >> (64 - bits))
}

/// The number that the bits stand for where the highest is a sign.
pub(crate) fn as_signed(bits: u8, a: u64) -> i64
    requires some { 1 ≤ bits }
    requires few { bits ≤ 64 }
    requires fits { a < 2 ^ bits }
    ensures { result ≡ as_signed bits a }
{
    if bits == 1 || a < 1 << (bits - 1) {
        a as i64
    } else {
        (a as i128 - (1 << bits)) as i64
    }
}

/// A number modulo 2^bits.
#[tactic(auto, using(crate::proofs::Words::wrapped_cast))]
pub(crate) fn wrapped(bits: u8, z: i64) -> u64
    requires some { 1 ≤ bits }
    requires few { bits ≤ 64 }
    ensures { result ≡ wrapped bits z }
{
    low(bits, z.cast_unsigned())
}

#[tactic(auto, using(crate::proofs::Words::lowest_of_sum))]
pub(crate) fn sum(bits: u8, a: u64, b: u64, carry: u64) -> u64
    requires some { 1 ≤ bits }
    requires few { bits ≤ 64 }
    ensures { result ≡ wrapped bits (pos (a + b + carry)) }
{
    low(bits, a.wrapping_add(b).wrapping_add(carry))
}

#[tactic(auto, using(crate::proofs::Words::lowest_of_difference))]
pub(crate) fn difference(bits: u8, a: u64, b: u64, borrow: u64) -> u64
    requires some { 1 ≤ bits }
    requires few { bits ≤ 64 }
    ensures { result ≡ wrapped bits (pos a -ℤ pos (b + borrow)) }
{
    low(bits, a.wrapping_sub(b).wrapping_sub(borrow))
}

#[tactic(auto, using(crate::proofs::Words::lowest_of_lowest))]
pub(crate) fn product(bits: u8, a: u64, b: u64) -> u64
    requires some { 1 ≤ bits }
    requires few { bits ≤ 64 }
    ensures { result ≡ wrapped bits (pos (a * b)) }
{
    low(bits, a.wrapping_mul(b))
}

/// The quotient with signs, towards zero.
#[tactic(auto, using(crate::proofs::Words::wrapped_quotient, crate::proofs::Words::read_not_zero))]
pub(crate) fn quotient(bits: u8, a: u64, b: u64) -> u64
    requires some { 1 ≤ bits }
    requires few { bits ≤ 64 }
    requires left { a < 2 ^ bits }
    requires right { b < 2 ^ bits }
    requires nonzero { 0 < b }
    ensures { result ≡ wrapped bits (int_div (as_signed bits a) (as_signed bits b)) }
{
    wrapped(bits, as_signed(bits, a).wrapping_div(as_signed(bits, b)))
}

/// The remainder of that quotient.
#[tactic(auto, using(crate::proofs::Words::read_not_zero))]
pub(crate) fn remainder(bits: u8, a: u64, b: u64) -> u64
    requires some { 1 ≤ bits }
    requires few { bits ≤ 64 }
    requires left { a < 2 ^ bits }
    requires right { b < 2 ^ bits }
    requires nonzero { 0 < b }
    ensures { result ≡ wrapped bits (int_rem (as_signed bits a) (as_signed bits b)) }
{
    wrapped(bits, as_signed(bits, a).wrapping_rem(as_signed(bits, b)))
}

/// The number without its sign.
pub(crate) fn magnitude(bits: u8, a: u64) -> u64
    requires some { 1 ≤ bits }
    requires few { bits ≤ 64 }
    requires fits { a < 2 ^ bits }
    ensures { result ≡ wrapped bits (pos (unsigned_abs (as_signed bits a))) }
{
    low(bits, as_signed(bits, a).unsigned_abs())
}

/// Shifted to the left. No bit is left from the number's bits on.
#[tactic(auto, using(crate::proofs::Words::lowest_of_lowest))]
pub(crate) fn shifted_left(bits: u8, a: u64, count: u64) -> u64
    requires some { 1 ≤ bits }
    requires few { bits ≤ 64 }
    ensures { result ≡ (if nat_lt count bits then wrapped bits (pos (a * 2 ^ count)) else 0) }
{
    if count < u64::from(bits) {
        low(bits, a << count)
    } else {
        0
    }
}

/// Shifted to the right, with zeros behind. No bit is left from the number's bits on.
pub(crate) fn shifted_right(bits: u8, a: u64, count: u64) -> u64
    requires few { bits ≤ 64 }
    ensures { result ≡ (if nat_lt count bits then a / 2 ^ count else 0) }
{
    if count < u64::from(bits) {
        a >> count
    } else {
        0
    }
}

/// Shifted to the right, with signs behind. Only signs are left from the number's bits on.
pub(crate) fn shifted_right_signed(bits: u8, a: u64, count: u64) -> u64
    requires some { 1 ≤ bits }
    requires few { bits ≤ 64 }
    requires fits { a < 2 ^ bits }
    ensures { result ≡ wrapped bits (int_shr (as_signed bits a) (min count bits)) }
{
    let count = count.min(u64::from(bits));
    wrapped(bits, (as_signed(bits, a) as i128 >> count) as i64)
}

/// The bits, of which the highest `n` have gone behind the others.
#[tactic(auto, using(crate::proofs::Words::rotated_parts, crate::proofs::Words::rotated_fits))]
pub(crate) fn rotated(bits: u8, n: u8, a: u64) -> u64
    requires some { 1 ≤ bits }
    requires few { bits ≤ 64 }
    requires within { n ≤ bits }
    requires fits { a < 2 ^ bits }
    ensures value { result ≡ rotated bits n a }
    ensures fits { result < 2 ^ bits }
{
    if n == 0 || n == bits {
        a
    } else {
        (low(bits - n, a) << n) | (a >> (bits - n))
    }
}

/// The sum with signs and a carry, before any bit is lost.
pub(crate) fn signed_sum(bits: u8, a: u64, b: u64, carry: u64) -> i128
    requires some { 1 ≤ bits }
    requires few { bits ≤ 64 }
    requires left { a < 2 ^ bits }
    requires right { b < 2 ^ bits }
    ensures { result ≡ as_signed bits a +ℤ as_signed bits b +ℤ pos carry }
{
    as_signed(bits, a) as i128 + as_signed(bits, b) as i128 + carry as i128
}

/// The difference with signs and a borrow, before any bit is lost.
pub(crate) fn signed_difference(bits: u8, a: u64, b: u64, borrow: u64) -> i128
    requires some { 1 ≤ bits }
    requires few { bits ≤ 64 }
    requires left { a < 2 ^ bits }
    requires right { b < 2 ^ bits }
    ensures { result ≡ as_signed bits a -ℤ as_signed bits b -ℤ pos borrow }
{
    as_signed(bits, a) as i128 - as_signed(bits, b) as i128 - borrow as i128
}

/// Whether the sum of two numbers and a carry needs more bits.
pub(crate) fn carries(bits: u8, a: u64, b: u64, carry: u64) -> bool
    requires few { bits ≤ 64 }
    ensures { result ≡ nat_le (2 ^ bits) (a + b + carry) }
{
    a as u128 + b as u128 + carry as u128 >= 1 << bits
}

/// Whether the second number and the borrow are more than the first number.
pub(crate) fn borrows(a: u64, b: u64, borrow: u64) -> bool
    ensures { result ≡ nat_lt a (b + borrow) }
{
    (a as u128) < b as u128 + borrow as u128
}

/// Whether a number needs more bits, where the highest is a sign.
pub(crate) fn overflows(bits: u8, z: i128) -> bool
    requires some { 1 ≤ bits }
    requires few { bits ≤ 64 }
    ensures { result ≡ overflows bits z }
{
    if bits == 1 {
        z < 0 || z > 1
    } else {
        let half = 1 << (bits - 1);
        z < -half || z > half - 1
    }
}
