ghost use Rattle.std.specs.Prelude.{◌≡◌, ◌≢◌, ◌≤◌, ◌*◌, length, true};
ghost use Rattle.cg_base.specs.Modes.{bits_of};
ghost use Rattle.cg_model.specs.declared.rtl.Rtl.{out-Rtl};
ghost use Rattle.cg_model_pure_eval.specs.Branching.{taken_typed};
ghost use Rattle.cg_model_pure_eval.specs.Carrying.{carry_listed};
ghost use Rattle.cg_model_pure_eval.specs.Choosing as choosing;
ghost use Rattle.cg_model_pure_eval.specs.Joining.{part_typed, parts_typed, filled_typed, held_typed};
ghost use Rattle.cg_model_pure_eval.specs.Parting.{value_typed};
ghost use Rattle.cg_model_pure_eval.specs.Seen.{all_had, each_had};
ghost use Rattle.cg_model_pure_eval.specs.Typed.{Fits, HasBits, IsIn};
ghost use Rattle.cg_model_pure_eval.specs.Typing.{typed, any_typed, operand_typed};

use crate::around::Around;
use crate::leads::{leading_one, leading_two};
use crate::typed::{Answer, Typed};
use crate::{leaf, words};
use cg_base::{Mode, TernaryOp, UnaryOp, refusals};
use cg_model::{Kind, Machine, Op, Rtl};
use cg_modes::mode_within;
use cg_modes_leaf::leaf::{ends_with_else, is_else, last_loose};
use cg_modes_leaf::named as names;
use cg_modes_leaf::verdict::{
    any_mode, fault, given, is_loose, narrower, no_shape, parts, same_bits, stated, valued, wider,
};

/// What a pure expression gives, with its mode, or why it has none.
#[cycle(pure)]
#[tactic(auto, using(crate::proofs::Laws::had_items))]
pub fn eval<A: Around>(rtl: &Rtl, machine: &Machine, around: &A, want: Option<Mode>) -> Answer
    requires ready { A.ready around.now machine.now }
    requires had { all_had machine.now (A.seen around.now machine.now) rtl.now ≡ true }
    ensures value { result ≡ typed machine.now (A.seen around.now machine.now).around rtl.now want }
    ensures fits { Fits result }
{
    match rtl.op {
        Op::Number => leaf::number(rtl, machine, around, want),
        Op::Value => leaf::value(rtl, machine, around, want),
        Op::Pc => leaf::pc(rtl, machine, around, want),
        Op::FieldRef => leaf::field(rtl, machine, around, want),
        Op::MultiRef => leaf::multi(rtl, machine, around, want),
        Op::Unary => unary(rtl, machine, around, want),
        Op::Binary => binary(rtl, machine, around, want),
        Op::Ternary => ternary(rtl, machine, around, want),
        Op::AndIf => andif(rtl, machine, around, want),
        Op::OrIf => orif(rtl, machine, around, want),
        Op::Subword => subword(rtl, machine, around, want),
        Op::Join => join(rtl, machine, around, want),
        Op::If => conditional(rtl, machine, around, want),
        Op::Cond => cond(rtl, machine, around, want),
        Op::Case => case(rtl, machine, around, want),
        Op::Arm => arm(rtl, machine, around, want),
        Op::Ext => ext(rtl, machine, around, want),
        Op::Zext => zext(rtl, machine, around, want),
        Op::Trunc => trunc(rtl, machine, around, want),
        Op::Local
        | Op::OperandRef
        | Op::Index
        | Op::NewVal
        | Op::IndexOf
        | Op::Sequence
        | Op::Declare
        | Op::Parallel
        | Op::Set
        | Op::Reg
        | Op::RawReg
        | Op::Mem
        | Op::Delay
        | Op::Nop
        | Op::Error
        | Op::Halt => leaf::nothing(rtl, machine, around, want),
    }
}

/// An expression of which any mode will do.
#[cycle(pure)]
#[tactic(auto, unfolding(crate::specs::Typing::typed, crate::specs::Typing::any_typed), using(crate::proofs::Laws::pure_rules))]
fn any<A: Around>(rtl: &Rtl, machine: &Machine, around: &A) -> Answer
    requires ready { A.ready around.now machine.now }
    requires had { all_had machine.now (A.seen around.now machine.now) rtl.now ≡ true }
    ensures value { result ≡ any_typed machine.now (A.seen around.now machine.now).around rtl.now }
    ensures fits { Fits result }
    ensures bits { HasBits result }
{
    let x = eval(rtl, machine, around, any_mode(rtl))?;
    valued(x.mode)?;
    Ok(x)
}

/// A value of which no mode is wanted.
#[cycle(pure)]
#[tactic(auto, unfolding(crate::specs::Typing::typed, crate::specs::Parting::value_typed), using(crate::proofs::Laws::pure_rules))]
fn value<A: Around>(rtl: &Rtl, machine: &Machine, around: &A) -> Answer
    requires ready { A.ready around.now machine.now }
    requires had { all_had machine.now (A.seen around.now machine.now) rtl.now ≡ true }
    ensures value { result ≡ value_typed machine.now (A.seen around.now machine.now).around rtl.now }
    ensures fits { Fits result }
    ensures bits { HasBits result }
{
    let x = eval(rtl, machine, around, None)?;
    valued(x.mode)?;
    Ok(x)
}

/// An operand where a mode leads, in that mode.
#[cycle(pure)]
#[tactic(auto, using(crate::proofs::Rules::operand_rules))]
fn operand<A: Around>(
    rtl: &Rtl,
    machine: &Machine,
    around: &A,
    mode: Mode,
    want: Option<Mode>,
) -> Answer
    requires ready { A.ready around.now machine.now }
    requires had { all_had machine.now (A.seen around.now machine.now) rtl.now ≡ true }
    ensures value { result ≡ operand_typed machine.now (A.seen around.now machine.now).around mode want rtl.now }
    ensures mode { IsIn result mode }
    ensures fits { Fits result }
    ensures bits { HasBits result }
{
    if is_loose(rtl) {
        let own = leaf::fits_mode(rtl, mode)?;
        Ok(words::number(own, rtl))
    } else {
        let x = eval(rtl, machine, around, want)?;
        words::agreed(mode, x)
    }
}

#[cycle(pure)]
#[tactic(auto, unfolding(crate::specs::Typing::unary_typed), using(crate::proofs::Rules::unary_rules))]
fn unary<A: Around>(rtl: &Rtl, machine: &Machine, around: &A, want: Option<Mode>) -> Answer
    requires ready { A.ready around.now machine.now }
    requires op { (out-Rtl rtl.now).op ≡ Op.Unary }
    requires had { each_had machine.now (A.seen around.now machine.now) (out-Rtl rtl.now).items ≡ true }
    ensures value { result ≡ typed machine.now (A.seen around.now machine.now).around rtl.now want }
    ensures fits { Fits result }
{
    let [x] = rtl.items.as_slice() else {
        return Err(no_shape());
    };
    match names::unary(rtl.number) {
        Some(UnaryOp::Not) => {
            let a = any(x, machine, around)?;
            Ok(words::inverted(a))
        }
        Some(op) => {
            given(rtl.mode)?;
            let mode = leading_one(x, machine, rtl.mode, want)?;
            let a = operand(x, machine, around, mode, rtl.mode.or(want))?;
            Ok(words::unary(op, a))
        }
        None => Err(no_shape()),
    }
}

#[cycle(pure)]
#[tactic(auto, unfolding(crate::specs::Typing::binary_typed, crate::specs::Typing::kind_typed), using(crate::proofs::Rules::binary_rules))]
fn binary<A: Around>(rtl: &Rtl, machine: &Machine, around: &A, want: Option<Mode>) -> Answer
    requires ready { A.ready around.now machine.now }
    requires op { (out-Rtl rtl.now).op ≡ Op.Binary }
    requires had { each_had machine.now (A.seen around.now machine.now) (out-Rtl rtl.now).items ≡ true }
    ensures value { result ≡ typed machine.now (A.seen around.now machine.now).around rtl.now want }
    ensures fits { Fits result }
{
    let [x, y] = rtl.items.as_slice() else {
        return Err(no_shape());
    };
    let op = match names::binary(rtl.number) {
        Some(op) => op,
        None => return Err(no_shape()),
    };
    given(rtl.mode)?;
    match names::kind(op) {
        Kind::Arithmetic => {
            let mode = leading_two(x, y, machine, rtl.mode, want)?;
            let a = operand(x, machine, around, mode, rtl.mode.or(want))?;
            let b = operand(y, machine, around, mode, rtl.mode.or(want))?;
            Ok(words::binary(op, a, b.value))
        }
        Kind::Shift => {
            let mode = leading_one(x, machine, rtl.mode, want)?;
            let a = operand(x, machine, around, mode, rtl.mode.or(want))?;
            let b = any(y, machine, around)?;
            Ok(words::binary(op, a, b.value))
        }
        Kind::Comparison => {
            let mode = leading_two(x, y, machine, rtl.mode, None)?;
            let a = operand(x, machine, around, mode, rtl.mode)?;
            let b = operand(y, machine, around, mode, rtl.mode)?;
            Ok(words::compared(op, a, b.value))
        }
    }
}

#[cycle(pure)]
#[tactic(auto, unfolding(crate::specs::Typing::ext_typed), using(crate::proofs::Rules::resize_rules))]
fn ext<A: Around>(rtl: &Rtl, machine: &Machine, around: &A, want: Option<Mode>) -> Answer
    requires ready { A.ready around.now machine.now }
    requires op { (out-Rtl rtl.now).op ≡ Op.Ext }
    requires had { each_had machine.now (A.seen around.now machine.now) (out-Rtl rtl.now).items ≡ true }
    ensures value { result ≡ typed machine.now (A.seen around.now machine.now).around rtl.now want }
    ensures fits { Fits result }
{
    let [x] = rtl.items.as_slice() else {
        return Err(no_shape());
    };
    let to = stated(rtl.mode)?;
    let a = any(x, machine, around)?;
    wider(to, a.mode)?;
    Ok(words::extended(to, a))
}

#[cycle(pure)]
#[tactic(auto, unfolding(crate::specs::Typing::zext_typed), using(crate::proofs::Rules::resize_rules))]
fn zext<A: Around>(rtl: &Rtl, machine: &Machine, around: &A, want: Option<Mode>) -> Answer
    requires ready { A.ready around.now machine.now }
    requires op { (out-Rtl rtl.now).op ≡ Op.Zext }
    requires had { each_had machine.now (A.seen around.now machine.now) (out-Rtl rtl.now).items ≡ true }
    ensures value { result ≡ typed machine.now (A.seen around.now machine.now).around rtl.now want }
    ensures fits { Fits result }
{
    let [x] = rtl.items.as_slice() else {
        return Err(no_shape());
    };
    let to = stated(rtl.mode)?;
    let a = any(x, machine, around)?;
    wider(to, a.mode)?;
    Ok(words::widened(to, a))
}

#[cycle(pure)]
#[tactic(auto, unfolding(crate::specs::Typing::trunc_typed), using(crate::proofs::Rules::resize_rules))]
fn trunc<A: Around>(rtl: &Rtl, machine: &Machine, around: &A, want: Option<Mode>) -> Answer
    requires ready { A.ready around.now machine.now }
    requires op { (out-Rtl rtl.now).op ≡ Op.Trunc }
    requires had { each_had machine.now (A.seen around.now machine.now) (out-Rtl rtl.now).items ≡ true }
    ensures value { result ≡ typed machine.now (A.seen around.now machine.now).around rtl.now want }
    ensures fits { Fits result }
{
    let [x] = rtl.items.as_slice() else {
        return Err(no_shape());
    };
    let to = stated(rtl.mode)?;
    let a = any(x, machine, around)?;
    narrower(to, a.mode)?;
    Ok(words::cut(to, a.value))
}

#[cycle(pure)]
#[tactic(auto, unfolding(crate::specs::Carrying::ternary_typed), using(crate::proofs::Rules::ternary_rules))]
fn ternary<A: Around>(rtl: &Rtl, machine: &Machine, around: &A, want: Option<Mode>) -> Answer
    requires ready { A.ready around.now machine.now }
    requires op { (out-Rtl rtl.now).op ≡ Op.Ternary }
    requires had { each_had machine.now (A.seen around.now machine.now) (out-Rtl rtl.now).items ≡ true }
    ensures value { result ≡ typed machine.now (A.seen around.now machine.now).around rtl.now want }
    ensures fits { Fits result }
{
    let [_x, _y, _c] = rtl.items.as_slice() else {
        return Err(no_shape());
    };
    let op = match names::ternary(rtl.number) {
        Some(op) => op,
        None => return Err(no_shape()),
    };
    given(rtl.mode)?;
    carried(rtl, op, machine, around, words::carried_want(op, want))
}

/// Two operands that agree, and a carry of one bit.
#[cycle(pure)]
#[tactic(auto, unfolding(crate::specs::Carrying::carry_typed))]
fn carried<A: Around>(
    rtl: &Rtl,
    op: TernaryOp,
    machine: &Machine,
    around: &A,
    want: Option<Mode>,
) -> Answer
    requires ready { A.ready around.now machine.now }
    requires had { each_had machine.now (A.seen around.now machine.now) (out-Rtl rtl.now).items ≡ true }
    ensures value { result ≡ carry_listed machine.now (A.seen around.now machine.now).around op (out-Rtl rtl.now).mode (out-Rtl rtl.now).items want }
    ensures fits { Fits result }
{
    let [x, y, c] = rtl.items.as_slice() else {
        return Err(no_shape());
    };
    let mode = leading_two(x, y, machine, rtl.mode, want)?;
    let a = operand(x, machine, around, mode, rtl.mode.or(want))?;
    let b = operand(y, machine, around, mode, rtl.mode.or(want))?;
    let carry = operand(c, machine, around, Mode::Bi, Some(Mode::Bi))?;
    Ok(words::carried(op, a, b.value, carry.value))
}

#[cycle(pure)]
#[tactic(auto, unfolding(crate::specs::Parting::subword_typed), using(crate::proofs::Parts::subword_law))]
fn subword<A: Around>(rtl: &Rtl, machine: &Machine, around: &A, want: Option<Mode>) -> Answer
    requires ready { A.ready around.now machine.now }
    requires op { (out-Rtl rtl.now).op ≡ Op.Subword }
    requires had { each_had machine.now (A.seen around.now machine.now) (out-Rtl rtl.now).items ≡ true }
    ensures value { result ≡ typed machine.now (A.seen around.now machine.now).around rtl.now want }
    ensures fits { Fits result }
{
    let [x] = rtl.items.as_slice() else {
        return Err(no_shape());
    };
    let to = stated(rtl.mode)?;
    let a = value(x, machine, around)?;
    words::inside(rtl, to, a.mode)?;
    Ok(words::part(rtl, to, a))
}

/// The values of several expressions, of which all must hold or one.
#[cycle(pure)]
#[tactic(auto, unfolding(crate::specs::Joining::held_typed))]
fn holds<A: Around>(items: &[Rtl], machine: &Machine, around: &A, every: bool) -> Answer
    requires ready { A.ready around.now machine.now }
    requires had { each_had machine.now (A.seen around.now machine.now) items.now ≡ true }
    ensures value { result ≡ held_typed machine.now (A.seen around.now machine.now).around every every items.now }
    ensures fits { Fits result }
{
    let mut held = every;
    for item in items {
        let a = any(item, machine, around)?;
        held = words::held_with(every, held, a.value);
    }
    Ok(words::flag(held))
}

#[cycle(pure)]
#[tactic(auto, using(crate::proofs::Joins::andif_law))]
fn andif<A: Around>(rtl: &Rtl, machine: &Machine, around: &A, _want: Option<Mode>) -> Answer
    requires ready { A.ready around.now machine.now }
    requires op { (out-Rtl rtl.now).op ≡ Op.AndIf }
    requires had { each_had machine.now (A.seen around.now machine.now) (out-Rtl rtl.now).items ≡ true }
    ensures value { result ≡ typed machine.now (A.seen around.now machine.now).around rtl.now _want }
    ensures fits { Fits result }
{
    holds(rtl.items.as_slice(), machine, around, true)
}

#[cycle(pure)]
#[tactic(auto, using(crate::proofs::Joins::orif_law))]
fn orif<A: Around>(rtl: &Rtl, machine: &Machine, around: &A, _want: Option<Mode>) -> Answer
    requires ready { A.ready around.now machine.now }
    requires op { (out-Rtl rtl.now).op ≡ Op.OrIf }
    requires had { each_had machine.now (A.seen around.now machine.now) (out-Rtl rtl.now).items ≡ true }
    ensures value { result ≡ typed machine.now (A.seen around.now machine.now).around rtl.now _want }
    ensures fits { Fits result }
{
    holds(rtl.items.as_slice(), machine, around, false)
}

/// A part that is joined with others, in their mode.
#[cycle(pure)]
#[tactic(auto, unfolding(crate::specs::Typing::typed, crate::specs::Joining::part_typed), using(crate::proofs::Laws::pure_rules))]
fn part<A: Around>(rtl: &Rtl, machine: &Machine, around: &A, mode: Mode) -> Answer
    requires ready { A.ready around.now machine.now }
    requires had { all_had machine.now (A.seen around.now machine.now) rtl.now ≡ true }
    ensures value { result ≡ part_typed machine.now (A.seen around.now machine.now).around mode rtl.now }
    ensures mode { IsIn result mode }
    ensures fits { Fits result }
{
    let x = eval(rtl, machine, around, Some(mode))?;
    valued(x.mode)?;
    same_bits(mode, x.mode)?;
    Ok(Typed {
        mode,
        value: x.value,
    })
}

/// Parts side by side, for which there is room.
#[cycle(pure)]
#[tactic(auto, unfolding(crate::specs::Joining::parts_typed), using(crate::proofs::Rooms::room_rules))]
fn joined<A: Around>(items: &[Rtl], machine: &Machine, around: &A, to: Mode, mode: Mode) -> Answer
    requires ready { A.ready around.now machine.now }
    requires had { each_had machine.now (A.seen around.now machine.now) items.now ≡ true }
    requires room { bits_of mode * length items.now ≤ bits_of to }
    ensures value { result ≡ parts_typed machine.now (A.seen around.now machine.now).around to mode 0 items.now }
    ensures fits { Fits result }
{
    let mut value = 0;
    for item in items {
        let a = part(item, machine, around, mode)?;
        value = words::behind(to, mode, value, a.value);
    }
    Ok(Typed { mode: to, value })
}

/// Parts that fill a value of another mode.
#[cycle(pure)]
#[tactic(auto, unfolding(crate::specs::Joining::filled_typed), using(crate::proofs::Rooms::parts_fill))]
fn filled<A: Around>(items: &[Rtl], machine: &Machine, around: &A, to: Mode, mode: Mode) -> Answer
    requires ready { A.ready around.now machine.now }
    requires had { each_had machine.now (A.seen around.now machine.now) items.now ≡ true }
    ensures value { result ≡ filled_typed machine.now (A.seen around.now machine.now).around to mode items.now }
    ensures fits { Fits result }
{
    if parts(to, mode) as usize != items.len() {
        return Err(fault(refusals::WRONG_MODE));
    }
    joined(items, machine, around, to, mode)
}

#[cycle(pure)]
#[tactic(auto, unfolding(crate::specs::Joining::join_typed), using(crate::proofs::Rules::join_rules))]
fn join<A: Around>(rtl: &Rtl, machine: &Machine, around: &A, want: Option<Mode>) -> Answer
    requires ready { A.ready around.now machine.now }
    requires op { (out-Rtl rtl.now).op ≡ Op.Join }
    requires had { each_had machine.now (A.seen around.now machine.now) (out-Rtl rtl.now).items ≡ true }
    ensures value { result ≡ typed machine.now (A.seen around.now machine.now).around rtl.now want }
    ensures fits { Fits result }
{
    let [first, rest @ ..] = rtl.items.as_slice() else {
        return Err(no_shape());
    };
    let to = stated(rtl.mode)?;
    let mode = mode_within(machine, first, None)?;
    filled(rest, machine, around, to, mode)
}

/// The value that is taken from among several, where a mode leads.
#[cycle(pure)]
#[tactic(auto, unfolding(crate::specs::Branching::taken_typed))]
fn taken<A: Around>(
    rtl: &Rtl,
    loose: bool,
    machine: &Machine,
    around: &A,
    mode: Mode,
    want: Option<Mode>,
) -> Answer
    requires ready { A.ready around.now machine.now }
    requires had { all_had machine.now (A.seen around.now machine.now) rtl.now ≡ true }
    ensures value { result ≡ taken_typed machine.now (A.seen around.now machine.now).around loose mode want rtl.now }
    ensures fits { Fits result }
{
    let x = eval(rtl, machine, around, words::taken_want(loose, mode, want))?;
    same_bits(mode, x.mode)?;
    Ok(Typed {
        mode,
        value: x.value,
    })
}

#[cycle(pure)]
#[tactic(auto, unfolding(crate::specs::Branching::if_typed), using(crate::proofs::Branches::if_law))]
fn conditional<A: Around>(rtl: &Rtl, machine: &Machine, around: &A, want: Option<Mode>) -> Answer
    requires ready { A.ready around.now machine.now }
    requires op { (out-Rtl rtl.now).op ≡ Op.If }
    requires had { each_had machine.now (A.seen around.now machine.now) (out-Rtl rtl.now).items ≡ true }
    ensures value { result ≡ typed machine.now (A.seen around.now machine.now).around rtl.now want }
    ensures fits { Fits result }
{
    let [test, x, y] = rtl.items.as_slice() else {
        let mode = mode_within(machine, rtl, want)?;
        return Ok(words::nothing(mode));
    };
    let a = value(test, machine, around)?;
    let mode = mode_within(machine, rtl, want)?;
    if a.value == 0 {
        taken(y, is_loose(y), machine, around, mode, rtl.mode.or(want))
    } else {
        taken(x, is_loose(x), machine, around, mode, rtl.mode.or(want))
    }
}

/// The test of an arm.
#[cycle(pure)]
#[tactic(auto, using(crate::proofs::Laws::had_items))]
fn tested<A: Around>(arm: &Rtl, machine: &Machine, around: &A) -> Answer
    requires ready { A.ready around.now machine.now }
    requires had { all_had machine.now (A.seen around.now machine.now) arm.now ≡ true }
    ensures value { result ≡ choosing.test_typed machine.now (A.seen around.now machine.now).around arm.now }
    ensures fits { Fits result }
{
    first_test(arm, machine, around)
}

/// The first item of an arm.
#[cycle(pure)]
#[tactic(auto, unfolding(crate::specs::Choosing::test_typed), using(crate::proofs::Typings::typing_rules))]
fn first_test<A: Around>(arm: &Rtl, machine: &Machine, around: &A) -> Answer
    requires ready { A.ready around.now machine.now }
    requires had { each_had machine.now (A.seen around.now machine.now) (out-Rtl arm.now).items ≡ true }
    ensures value { result ≡ choosing.test_typed machine.now (A.seen around.now machine.now).around arm.now }
    ensures fits { Fits result }
{
    let [test, ..] = arm.items.as_slice() else {
        return Err(no_shape());
    };
    value(test, machine, around)
}

/// The first arm whose test isn't 0.
#[cycle(pure)]
#[tactic(auto, unfolding(crate::specs::Choosing::first_held), using(crate::proofs::Laws::had_items))]
fn first_held<A: Around>(
    arms: &[Rtl],
    machine: &Machine,
    around: &A,
    mode: Mode,
    want: Option<Mode>,
) -> Answer
    requires ready { A.ready around.now machine.now }
    requires had { each_had machine.now (A.seen around.now machine.now) arms.now ≡ true }
    ensures value { result ≡ choosing.first_held machine.now (A.seen around.now machine.now).around mode want arms.now }
    ensures fits { Fits result }
{
    for arm in arms {
        if is_else(arm) {
            return Ok(taken(arm, last_loose(arm), machine, around, mode, want)?);
        }
        let test = tested(arm, machine, around)?;
        if test.value != 0 {
            return Ok(taken(arm, last_loose(arm), machine, around, mode, want)?);
        }
    }
    Ok(words::nothing(mode))
}

#[cycle(pure)]
#[tactic(auto, unfolding(crate::specs::Choosing::cond_typed), using(crate::proofs::Choices::cond_law))]
fn cond<A: Around>(rtl: &Rtl, machine: &Machine, around: &A, want: Option<Mode>) -> Answer
    requires ready { A.ready around.now machine.now }
    requires op { (out-Rtl rtl.now).op ≡ Op.Cond }
    requires had { each_had machine.now (A.seen around.now machine.now) (out-Rtl rtl.now).items ≡ true }
    ensures value { result ≡ typed machine.now (A.seen around.now machine.now).around rtl.now want }
    ensures fits { Fits result }
{
    let mode = mode_within(machine, rtl, want)?;
    let arms = rtl.items.as_slice();
    if ends_with_else(arms, 0) {
        first_held(arms, machine, around, mode, rtl.mode.or(want))
    } else {
        Ok(words::nothing(mode))
    }
}

/// The first arm that names a value.
#[cycle(pure)]
#[tactic(auto, unfolding(crate::specs::Choosing::first_named))]
fn first_named<A: Around>(
    arms: &[Rtl],
    machine: &Machine,
    around: &A,
    a: Typed,
    mode: Mode,
    want: Option<Mode>,
) -> Answer
    requires ready { A.ready around.now machine.now }
    requires had { each_had machine.now (A.seen around.now machine.now) arms.now ≡ true }
    requires bits { a.mode ≢ Mode.Void }
    ensures value { result ≡ choosing.first_named machine.now (A.seen around.now machine.now).around (bits_of a.mode) a.value mode want arms.now }
    ensures fits { Fits result }
{
    for arm in arms {
        if is_else(arm) {
            return Ok(taken(arm, last_loose(arm), machine, around, mode, want)?);
        }
        if words::names(arm, a) {
            return Ok(taken(arm, last_loose(arm), machine, around, mode, want)?);
        }
    }
    Ok(words::nothing(mode))
}

/// The arm that names a value, where the last is taken if none does.
#[cycle(pure)]
#[tactic(auto, unfolding(crate::specs::Choosing::named_typed))]
fn named<A: Around>(
    arms: &[Rtl],
    machine: &Machine,
    around: &A,
    a: Typed,
    mode: Mode,
    want: Option<Mode>,
) -> Answer
    requires ready { A.ready around.now machine.now }
    requires had { each_had machine.now (A.seen around.now machine.now) arms.now ≡ true }
    requires bits { a.mode ≢ Mode.Void }
    ensures value { result ≡ choosing.named_typed machine.now (A.seen around.now machine.now).around a mode want arms.now }
    ensures fits { Fits result }
{
    if ends_with_else(arms, 0) {
        first_named(arms, machine, around, a, mode, want)
    } else {
        Ok(words::nothing(mode))
    }
}

#[cycle(pure)]
#[tactic(auto, unfolding(crate::specs::Choosing::case_typed), using(crate::proofs::Rules::case_rules))]
fn case<A: Around>(rtl: &Rtl, machine: &Machine, around: &A, want: Option<Mode>) -> Answer
    requires ready { A.ready around.now machine.now }
    requires op { (out-Rtl rtl.now).op ≡ Op.Case }
    requires had { each_had machine.now (A.seen around.now machine.now) (out-Rtl rtl.now).items ≡ true }
    ensures value { result ≡ typed machine.now (A.seen around.now machine.now).around rtl.now want }
    ensures fits { Fits result }
{
    let [test, arms @ ..] = rtl.items.as_slice() else {
        return Err(no_shape());
    };
    let a = value(test, machine, around)?;
    let mode = mode_within(machine, rtl, want)?;
    named(arms, machine, around, a, mode, rtl.mode.or(want))
}

/// The expression of a number among some.
#[cycle(pure)]
#[tactic(auto, unfolding(crate::specs::Choosing::at_typed))]
fn at<A: Around>(
    items: &[Rtl],
    machine: &Machine,
    around: &A,
    want: Option<Mode>,
    number: u64,
) -> Answer
    requires ready { A.ready around.now machine.now }
    requires had { each_had machine.now (A.seen around.now machine.now) items.now ≡ true }
    ensures value { result ≡ choosing.at_typed machine.now (A.seen around.now machine.now).around want number items.now }
    ensures fits { Fits result }
{
    let mut left = number;
    for item in items {
        if left == 0 {
            return Ok(eval(item, machine, around, want)?);
        }
        left -= 1;
    }
    Err(no_shape())
}

/// The last expression of an arm.
#[cycle(pure)]
#[tactic(auto, using(crate::proofs::Choices::arm_rules))]
fn arm<A: Around>(rtl: &Rtl, machine: &Machine, around: &A, want: Option<Mode>) -> Answer
    requires ready { A.ready around.now machine.now }
    requires op { (out-Rtl rtl.now).op ≡ Op.Arm }
    requires had { each_had machine.now (A.seen around.now machine.now) (out-Rtl rtl.now).items ≡ true }
    ensures value { result ≡ typed machine.now (A.seen around.now machine.now).around rtl.now want }
    ensures fits { Fits result }
{
    let items = rtl.items.as_slice();
    if rtl.number.unsigned_abs() < items.len() as u64 {
        at(items, machine, around, want, items.len() as u64 - 1)
    } else {
        Err(no_shape())
    }
}
