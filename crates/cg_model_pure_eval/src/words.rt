ghost use Rattle.std.specs.Prelude.{◌≡◌, ◌≢◌, ◌≤◌, ◌<◌, ◌^◌, ◌+◌, ◌*◌, ◌/◌, ◌==◌, Some, true, false, unsigned_abs, drop, take};
ghost use Rattle.std.specs.List.{list_any};
ghost use Rattle.cg_base.specs.Modes.{bits_of, is_signed};
ghost use Rattle.cg_base.specs.Operations.{takes_count, flag as flag_of};
ghost use Rattle.cg_model.specs.Operators.{kind_of, keeps_mode};
ghost use Rattle.cg_model.specs.declared.rtl.Rtl.{out-Rtl};
ghost use Rattle.cg_model.specs.Values as values;
ghost use Rattle.cg_model_pure_eval.specs.Branching as branching;
ghost use Rattle.cg_model_pure_eval.specs.Carrying.{carried_mode};
ghost use Rattle.cg_model_pure_eval.specs.Carrying as specs;
ghost use Rattle.cg_model_pure_eval.specs.Joining as joining;
ghost use Rattle.cg_model_pure_eval.specs.Parting.{IsInside, part_at, part_verdict};
ghost use Rattle.cg_model_pure_eval.specs.Typed.{Fits, HasBits, IsIn};
ghost use Rattle.cg_model_pure_eval.specs.Typing.{agreed, in_mode, unary_at, binary_at, ternary_at};

use crate::typed::{Answer, Typed};
use cg_base::{BinaryOp, Mode, TernaryOp, UnaryOp, bits, convert};
use cg_model::{Kind, Rtl};
use cg_modes_leaf::verdict::{Verdict, agrees, valued};

/// The number that an expression has, modulo 2^bits of a mode.
#[tactic(auto, unfolding(crate::specs::Typing::in_mode), using(crate::proofs::Bounds::word_rules))]
pub fn number(mode: Mode, rtl: &Rtl) -> Typed
    requires bits { mode ≢ Mode.Void }
    ensures mode { result.mode ≡ mode }
    ensures value { result.value ≡ in_mode mode rtl.now }
    ensures fits { result.value < 2 ^ bits_of mode }
{
    let value = match bits(mode) {
        64 => rtl.number.cast_unsigned(),
        few => rtl.number.cast_unsigned() % (1 << few),
    };
    Typed { mode, value }
}

/// An operand's value where a mode leads with which it has to agree (docs/LANGUAGE.md, "Modes of
/// expressions"): E404 where it has no bits, and E401 with both modes where it has more or fewer.
#[tactic(auto, using(crate::proofs::Laws::pure_rules))]
pub fn agreed(mode: Mode, a: Typed) -> Answer
    requires fits { a.value < 2 ^ bits_of a.mode }
    ensures value { result ≡ agreed mode a }
    ensures mode { IsIn result mode }
    ensures fits { Fits result }
    ensures bits { HasBits result }
{
    valued(a.mode)?;
    agrees(mode, a.mode)?;
    Ok(Typed {
        mode,
        value: a.value,
    })
}

/// Whether a value is 0.
#[tactic(auto, unfolding(crate::specs::Typing::unary_at), using(crate::proofs::Bounds::flag_fits))]
pub fn inverted(a: Typed) -> Typed
    requires bits { a.mode ≢ Mode.Void }
    requires fits { a.value < 2 ^ bits_of a.mode }
    ensures mode { result.mode ≡ Mode.Bi }
    ensures value { result.value ≡ unary_at UnaryOp.Not a.mode a.value }
    ensures fits { result.value < 2 ^ bits_of Mode.Bi }
{
    Typed {
        mode: Mode::Bi,
        value: cg_base::unary(UnaryOp::Not, a.mode, a.value),
    }
}

/// An operation on one value that stays in its mode.
#[tactic(auto, unfolding(crate::specs::Typing::unary_at))]
pub fn unary(op: UnaryOp, a: Typed) -> Typed
    requires bits { a.mode ≢ Mode.Void }
    requires fits { a.value < 2 ^ bits_of a.mode }
    ensures mode { result.mode ≡ a.mode }
    ensures value { result.value ≡ unary_at op a.mode a.value }
    ensures fits { result.value < 2 ^ bits_of a.mode }
{
    Typed {
        mode: a.mode,
        value: cg_base::unary(op, a.mode, a.value),
    }
}

/// An operation on two values that stays in their mode. A quotient by 0 is 0: no pure expression
/// has one.
#[tactic(auto, unfolding(crate::specs::Typing::binary_at), using(crate::proofs::Bounds::word_rules))]
pub fn binary(op: BinaryOp, a: Typed, b: u64) -> Typed
    requires bits { a.mode ≢ Mode.Void }
    requires left { a.value < 2 ^ bits_of a.mode }
    requires right { takes_count op ≡ false → b < 2 ^ bits_of a.mode }
    ensures mode { result.mode ≡ a.mode }
    ensures value { result.value ≡ binary_at op a.mode a.value b }
    ensures fits { result.value < 2 ^ bits_of a.mode }
{
    let value = match cg_base::binary(op, a.mode, a.value, b) {
        Ok(value) => value,
        Err(_) => 0,
    };
    Typed {
        mode: a.mode,
        value,
    }
}

/// A comparison of two values.
#[tactic(auto, unfolding(crate::specs::Typing::binary_at), using(crate::proofs::Bounds::word_rules))]
pub fn compared(op: BinaryOp, a: Typed, b: u64) -> Typed
    requires bits { a.mode ≢ Mode.Void }
    requires left { a.value < 2 ^ bits_of a.mode }
    requires right { b < 2 ^ bits_of a.mode }
    requires kind { kind_of op ≡ Kind.Comparison }
    ensures mode { result.mode ≡ Mode.Bi }
    ensures value { result.value ≡ binary_at op a.mode a.value b }
    ensures fits { result.value < 2 ^ bits_of Mode.Bi }
{
    let value = match cg_base::binary(op, a.mode, a.value, b) {
        Ok(value) => value,
        Err(_) => 0,
    };
    Typed {
        mode: Mode::Bi,
        value,
    }
}

/// An operation on two values and a carry.
#[tactic(auto, unfolding(crate::specs::Typing::ternary_at), using(crate::proofs::Bounds::word_rules))]
fn ternary(op: TernaryOp, a: Typed, b: u64, carry: u64) -> Typed
    requires bits { a.mode ≢ Mode.Void }
    requires left { a.value < 2 ^ bits_of a.mode }
    requires right { b < 2 ^ bits_of a.mode }
    requires carry { carry < 2 }
    requires keeps { keeps_mode op ≡ true }
    ensures mode { result.mode ≡ a.mode }
    ensures value { result.value ≡ ternary_at op a.mode a.value b carry }
    ensures fits { result.value < 2 ^ bits_of a.mode }
{
    Typed {
        mode: a.mode,
        value: cg_base::ternary(op, a.mode, a.value, b, carry),
    }
}

/// A flag of two values and a carry.
#[tactic(auto, unfolding(crate::specs::Typing::ternary_at), using(crate::proofs::Bounds::word_rules))]
fn flagged(op: TernaryOp, a: Typed, b: u64, carry: u64) -> Typed
    requires bits { a.mode ≢ Mode.Void }
    requires left { a.value < 2 ^ bits_of a.mode }
    requires right { b < 2 ^ bits_of a.mode }
    requires carry { carry < 2 }
    requires keeps { keeps_mode op ≡ false }
    ensures mode { result.mode ≡ Mode.Bi }
    ensures value { result.value ≡ ternary_at op a.mode a.value b carry }
    ensures fits { result.value < 2 ^ bits_of Mode.Bi }
{
    Typed {
        mode: Mode::Bi,
        value: cg_base::ternary(op, a.mode, a.value, b, carry),
    }
}

/// An operation on two values and a carry, in their mode or, where it is a flag, in one bit.
pub fn carried(op: TernaryOp, a: Typed, b: u64, carry: u64) -> Typed
    requires bits { a.mode ≢ Mode.Void }
    requires left { a.value < 2 ^ bits_of a.mode }
    requires right { b < 2 ^ bits_of a.mode }
    requires carry { carry < 2 }
    ensures mode { result.mode ≡ carried_mode op a.mode }
    ensures value { result.value ≡ ternary_at op a.mode a.value b carry }
    ensures fits { result.value < 2 ^ bits_of (carried_mode op a.mode) }
{
    match op {
        TernaryOp::Addc | TernaryOp::Subc => ternary(op, a, b, carry),
        TernaryOp::AddCflag | TernaryOp::AddOflag | TernaryOp::SubCflag | TernaryOp::SubOflag =>
            flagged(op, a, b, carry),
    }
}

/// The mode that is wanted of the operands beside a carry.
pub fn carried_want(op: TernaryOp, want: Option<Mode>) -> Option<Mode>
    ensures { result ≡ specs.carried_want op want }
{
    match op {
        TernaryOp::Addc | TernaryOp::Subc => want,
        TernaryOp::AddCflag | TernaryOp::AddOflag | TernaryOp::SubCflag | TernaryOp::SubOflag =>
            None,
    }
}

/// A mode of the same bits whose highest bit is a sign, where it has more than one.
fn with_sign(mode: Mode) -> Mode
    ensures some { mode ≢ Mode.Void → result ≢ Mode.Void }
    ensures bits { bits_of result ≡ bits_of mode }
    ensures sign { mode ≢ Mode.Bi → mode ≢ Mode.Void → is_signed result ≡ true }
    ensures one { mode ≡ Mode.Bi → result ≡ Mode.Bi }
{
    match mode {
        Mode::Uqi => Mode::Qi,
        Mode::Uhi => Mode::Hi,
        Mode::Usi => Mode::Si,
        Mode::Udi => Mode::Di,
        Mode::Bi | Mode::Qi | Mode::Hi | Mode::Si | Mode::Di | Mode::Void => mode,
    }
}

/// A value extended by its highest bit.
#[tactic(auto, using(crate::proofs::Bounds::word_rules))]
pub fn extended(to: Mode, a: Typed) -> Typed
    requires to { to ≢ Mode.Void }
    requires from { a.mode ≢ Mode.Void }
    requires fits { a.value < 2 ^ bits_of a.mode }
    ensures mode { result.mode ≡ to }
    ensures value { result.value ≡ values.extended_to (Some to) a.mode a.value }
    ensures fits { result.value < 2 ^ bits_of to }
{
    Typed {
        mode: to,
        value: convert(with_sign(a.mode), to, a.value),
    }
}

/// A value with zeros in front.
#[tactic(auto, using(crate::proofs::Bounds::wider_fits))]
pub fn widened(to: Mode, a: Typed) -> Typed
    requires wider { bits_of a.mode ≤ bits_of to }
    requires fits { a.value < 2 ^ bits_of a.mode }
    ensures mode { result.mode ≡ to }
    ensures value { result.value ≡ a.value }
    ensures fits { result.value < 2 ^ bits_of to }
{
    Typed {
        mode: to,
        value: a.value,
    }
}

/// The lowest bits of a value.
#[tactic(auto, using(crate::proofs::Bounds::word_rules))]
pub fn cut(to: Mode, a: u64) -> Typed
    requires to { to ≢ Mode.Void }
    ensures mode { result.mode ≡ to }
    ensures value { result.value ≡ values.cut_to (Some to) a }
    ensures fits { result.value < 2 ^ bits_of to }
{
    let value = ((a as u128) % (1 << bits(to))) as u64;
    Typed { mode: to, value }
}

/// Whether a value has a part of the number that an expression has.
#[tactic(auto, unfolding(crate::specs::Parting::part_verdict), using(crate::proofs::Parts::part_inside))]
pub fn inside(rtl: &Rtl, to: Mode, from: Mode) -> Verdict
    ensures mode { result ≡ part_verdict rtl.now to from }
    ensures inside { IsInside result rtl.now to from }
{
    cg_modes_leaf::verdict::part(rtl, to, from)
}

/// The part of a value of the number that an expression has, the most significant one being 0.
#[tactic(auto, unfolding(crate::specs::Parting::part_at), using(crate::proofs::Bounds::word_rules))]
pub fn part(rtl: &Rtl, to: Mode, a: Typed) -> Typed
    requires to { to ≢ Mode.Void }
    requires fits { a.value < 2 ^ bits_of a.mode }
    requires inside { (unsigned_abs (out-Rtl rtl.now).number + 1) * bits_of to ≤ bits_of a.mode }
    ensures mode { result.mode ≡ to }
    ensures value { result.value ≡ part_at rtl.now to a.mode a.value }
    ensures fits { result.value < 2 ^ bits_of to }
{
    let behind = bits(a.mode) as u64 - (rtl.number.unsigned_abs() + 1) * bits(to) as u64;
    cut(to, ((a.value as u128) >> behind) as u64)
}

/// A part behind those that stand already in a value that has room for it.
#[tactic(auto, unfolding(crate::specs::Joining::behind), using(crate::proofs::Bounds::word_rules))]
pub fn behind(whole: Mode, part: Mode, before: u64, value: u64) -> u64
    requires room { joining.behind part before value < 2 ^ bits_of whole }
    ensures value { result ≡ joining.behind part before value }
{
    (((before as u128) << bits(part)) + value as u128) as u64
}

/// Whether every value holds so far, or some does, with one more.
pub fn held_with(every: bool, held: bool, value: u64) -> bool
    ensures { result ≡ joining.held_with every held value }
{
    if every {
        held && value != 0
    } else {
        held || value != 0
    }
}

/// A value of one bit.
#[tactic(auto, using(crate::proofs::Bounds::flag_fits))]
pub fn flag(held: bool) -> Typed
    ensures mode { result.mode ≡ Mode.Bi }
    ensures value { result.value ≡ flag_of held }
    ensures fits { result.value < 2 ^ bits_of Mode.Bi }
{
    Typed {
        mode: Mode::Bi,
        value: if held { 1 } else { 0 },
    }
}

/// No value, which counts as 0.
#[tactic(auto, using(crate::proofs::Bounds::nothing_fits))]
pub fn nothing(mode: Mode) -> Typed
    ensures mode { result.mode ≡ mode }
    ensures value { result.value ≡ 0 }
    ensures fits { result.value < 2 ^ bits_of mode }
{
    Typed { mode, value: 0 }
}

/// The mode that is wanted of a value that is taken from among several.
pub fn taken_want(loose: bool, mode: Mode, want: Option<Mode>) -> Option<Mode>
    ensures { result ≡ branching.taken_want loose mode want }
{
    if loose { Some(mode) } else { want }
}

/// Whether one of some numbers is a value, modulo 2^bits of the value's mode.
#[tactic(auto, unfolding(crate::specs::Typing::in_mode))]
fn any_names(tests: &[Rtl], a: Typed) -> bool
    requires bits { a.mode ≢ Mode.Void }
    ensures { result ≡ list_any (values.names_value (bits_of a.mode) a.value) tests.now }
{
    for test in tests {
        if number(a.mode, test).value == a.value {
            return true;
        }
    }
    false
}

/// Whether an arm names a value.
#[tactic(auto, using(crate::proofs::Bounds::taken_least))]
pub fn names(arm: &Rtl, a: Typed) -> bool
    requires bits { a.mode ≢ Mode.Void }
    ensures { result ≡ values.is_named (out-Rtl arm.now) (bits_of a.mode) a.value }
{
    let items = arm.items.as_slice();
    let count = arm.number.unsigned_abs().min(items.len() as u64) as usize;
    any_names(&items[..count], a)
}
