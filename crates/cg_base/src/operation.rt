ghost use Rattle.std.specs.Prelude.{◌≡◌, ◌≢◌, ◌^◌, ◌<◌, ◌≤◌, false, IfOk, MatchResult};
ghost use Rattle.cg_base.specs.Modes.{bits_of};
ghost use Rattle.cg_base.specs.Operations.{unary_value, binary_answer, ternary_value, converted, takes_count};

use crate::arithmetic::{
    as_signed, borrows, carries, difference, low, magnitude, overflows, product, quotient,
    remainder, rotated, shifted_left, shifted_right, shifted_right_signed, signed_difference,
    signed_sum, sum, wrapped,
};
use crate::{Mode, bits, signed};
use thiserror::Error;

/// An operation on one value (docs/LANGUAGE.md, "Operations").
#[derive(Clone, Copy, Debug, PartialEq, Eq)]
pub enum UnaryOp {
    /// `neg`: 0 less the value.
    Neg,
    /// `inv`: each bit the other way.
    Inv,
    /// `not`: 1 where the value is 0, else 0.
    Not,
    /// `abs`: without its sign. That of the least value is the least value.
    Abs,
}

/// An operation on two values (docs/LANGUAGE.md, "Operations").
#[derive(Clone, Copy, Debug, PartialEq, Eq)]
pub enum BinaryOp {
    /// `add`.
    Add,
    /// `sub`.
    Sub,
    /// `mul`.
    Mul,
    /// `div`: with signs, towards zero. The least value by -1 is the least value.
    Div,
    /// `udiv`: without signs.
    Udiv,
    /// `mod`: the remainder of `div`, which has the dividend's sign.
    Mod,
    /// `umod`: without signs.
    Umod,
    /// `and`.
    And,
    /// `or`.
    Or,
    /// `xor`.
    Xor,
    /// `sll`: to the left. From the mode's bits on, 0.
    Sll,
    /// `srl`: to the right, zeros behind. From the mode's bits on, 0.
    Srl,
    /// `sra`: to the right, signs behind. From the mode's bits on, only signs.
    Sra,
    /// `rol`: around to the left, by the count modulo the mode's bits.
    Rol,
    /// `ror`: around to the right, by the count modulo the mode's bits.
    Ror,
    /// `eq`: 1 or 0, as all that follow.
    Eq,
    /// `ne`.
    Ne,
    /// `lt`: with signs.
    Lt,
    /// `le`: with signs.
    Le,
    /// `gt`: with signs.
    Gt,
    /// `ge`: with signs.
    Ge,
    /// `ltu`: without signs.
    Ltu,
    /// `leu`: without signs.
    Leu,
    /// `gtu`: without signs.
    Gtu,
    /// `geu`: without signs.
    Geu,
}

/// An operation on two values and a carry (docs/LANGUAGE.md, "Operations").
#[derive(Clone, Copy, Debug, PartialEq, Eq)]
pub enum TernaryOp {
    /// `addc`: a + b + c.
    Addc,
    /// `subc`: a - b - c.
    Subc,
    /// `add-cflag`: 1 where a + b + c needs a bit more, else 0.
    AddCflag,
    /// `add-oflag`: 1 where a + b + c, with signs, needs a bit more, else 0.
    AddOflag,
    /// `sub-cflag`: 1 where a is less than b + c, without signs, else 0.
    SubCflag,
    /// `sub-oflag`: 1 where a - b - c, with signs, needs a bit more, else 0.
    SubOflag,
}

/// A divisor is 0.
#[derive(Clone, Copy, Debug, PartialEq, Eq, Error)]
#[error("division by zero")]
pub struct DivideByZero;

/// What an operation on one value gives: again a value of the mode.
#[tactic(auto, using(crate::proofs::Widths::some_bits))]
pub fn unary(op: UnaryOp, mode: Mode, a: u64) -> u64
    requires mode { mode ≢ Mode.Void }
    requires fits { a < 2 ^ bits_of mode }
    ensures value { result ≡ unary_value op (bits_of mode) a }
    ensures fits { result < 2 ^ bits_of mode }
{
    let width = bits(mode);
    match op {
        UnaryOp::Neg => difference(width, 0, a, 0),
        UnaryOp::Inv => low(width, !a),
        UnaryOp::Not => u64::from(a == 0),
        UnaryOp::Abs => magnitude(width, a),
    }
}

/// What an operation on two values gives: again a value of the mode. The count of a shift or a
/// rotation may be any number. `DivideByZero` comes where one of the four that divide has the
/// divisor 0.
#[tactic(auto, using(crate::proofs::Widths::some_bits))]
pub fn binary(op: BinaryOp, mode: Mode, a: u64, b: u64) -> Result<u64, DivideByZero>
    requires mode { mode ≢ Mode.Void }
    requires left { a < 2 ^ bits_of mode }
    requires right { takes_count op ≡ false → b < 2 ^ bits_of mode }
    ensures answer { result ≡ binary_answer op (bits_of mode) a b }
    ensures fits { IfOk result (λ value. value < 2 ^ bits_of mode) }
{
    let width = bits(mode);
    match op {
        BinaryOp::Add => Ok(sum(width, a, b, 0)),
        BinaryOp::Sub => Ok(difference(width, a, b, 0)),
        BinaryOp::Mul => Ok(product(width, a, b)),
        BinaryOp::Div => Ok(quotient(width, a, divisor(b)?)),
        BinaryOp::Udiv => Ok(a / divisor(b)?),
        BinaryOp::Mod => Ok(remainder(width, a, divisor(b)?)),
        BinaryOp::Umod => Ok(a % divisor(b)?),
        BinaryOp::And => Ok(a & b),
        BinaryOp::Or => Ok(a | b),
        BinaryOp::Xor => Ok(a ^ b),
        BinaryOp::Sll => Ok(shifted_left(width, a, b)),
        BinaryOp::Srl => Ok(shifted_right(width, a, b)),
        BinaryOp::Sra => Ok(shifted_right_signed(width, a, b)),
        BinaryOp::Rol => Ok(rotated(width, (b % width as u64) as u8, a)),
        BinaryOp::Ror => Ok(rotated(width, width - (b % width as u64) as u8, a)),
        BinaryOp::Eq => Ok(u64::from(a == b)),
        BinaryOp::Ne => Ok(u64::from(a != b)),
        BinaryOp::Lt => Ok(u64::from(as_signed(width, a) < as_signed(width, b))),
        BinaryOp::Le => Ok(u64::from(as_signed(width, a) <= as_signed(width, b))),
        BinaryOp::Gt => Ok(u64::from(as_signed(width, a) > as_signed(width, b))),
        BinaryOp::Ge => Ok(u64::from(as_signed(width, a) >= as_signed(width, b))),
        BinaryOp::Ltu => Ok(u64::from(a < b)),
        BinaryOp::Leu => Ok(u64::from(a <= b)),
        BinaryOp::Gtu => Ok(u64::from(a > b)),
        BinaryOp::Geu => Ok(u64::from(a >= b)),
    }
}

/// The divisor, where it isn't 0.
fn divisor(b: u64) -> Result<u64, DivideByZero>
    ensures { MatchResult result (λ d. (d ≡ b) × (0 < b)) (λ _. b ≡ 0) }
{
    if b == 0 { Err(DivideByZero) } else { Ok(b) }
}

/// What an operation on two values and a carry, which is 0 or 1, gives: again a value of the mode.
#[tactic(auto, using(crate::proofs::Widths::some_bits))]
pub fn ternary(op: TernaryOp, mode: Mode, a: u64, b: u64, c: u64) -> u64
    requires mode { mode ≢ Mode.Void }
    requires left { a < 2 ^ bits_of mode }
    requires right { b < 2 ^ bits_of mode }
    requires carry { c ≤ 1 }
    ensures value { result ≡ ternary_value op (bits_of mode) a b c }
    ensures fits { result < 2 ^ bits_of mode }
{
    let width = bits(mode);
    match op {
        TernaryOp::Addc => sum(width, a, b, c),
        TernaryOp::Subc => difference(width, a, b, c),
        TernaryOp::AddCflag => u64::from(carries(width, a, b, c)),
        TernaryOp::AddOflag => u64::from(overflows(width, signed_sum(width, a, b, c))),
        TernaryOp::SubCflag => u64::from(borrows(a, b, c)),
        TernaryOp::SubOflag => u64::from(overflows(width, signed_difference(width, a, b, c))),
    }
}

/// The value of one mode in another: extended by the sign of its own mode, or cut.
#[tactic(auto, using(crate::proofs::Widths::some_bits))]
pub fn convert(from: Mode, to: Mode, a: u64) -> u64
    requires from { from ≢ Mode.Void }
    requires to { to ≢ Mode.Void }
    requires fits { a < 2 ^ bits_of from }
    ensures value { result ≡ converted from to a }
    ensures fits { result < 2 ^ bits_of to }
{
    if signed(from) {
        wrapped(bits(to), as_signed(bits(from), a))
    } else {
        low(bits(to), a)
    }
}
