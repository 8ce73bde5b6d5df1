ghost use Rattle.std.specs.Prelude.{◌≡◌, ◌≤◌, ◌<◌, ◌+◌, [], ◌∷◌, map, take, drop, length, get_or, min, unsigned_abs, Some, true};
ghost use Rattle.cg_model.specs.declared.rtl.Rtl.{out-Rtl};
ghost use Rattle.cg_model.specs.Checked as spec;
ghost use Rattle.cg_model.specs.Checked.{checked, mode_in};
ghost use Rattle.cg_modes_leaf.specs.Firm.{firm_place};
ghost use Rattle.cg_modes_leaf.specs.Scope.{locals_of};
ghost use Rattle.cg_modes.specs.Arms as Arms;
ghost use Rattle.cg_modes.specs.Carried as Carried;
ghost use Rattle.cg_modes.specs.Carried.{carried, assigned, either};

use cg_base::{Mode, TernaryOp, UnaryOp, bits, refusals};
use cg_model::{Kind, Machine, ModeFault, Op, Rtl};
use cg_modes_leaf::scope::Scope;
use cg_modes_leaf::verdict::{
    Verdict, address, agrees, any_mode, fault, given, is_loose, meets, memory, narrower, no_shape,
    part, parts, same_bits, shifted, stated, valued, wider, without_else, word,
};
use cg_modes_leaf::{leaf, named};

/// The mode of an expression that stands alone, of which this mode is wanted or none, or its first
/// fault (docs/LANGUAGE.md, "Modes"): E401 with both modes, E402, E403 or E404 by the first place
/// from left to right, else E406 where the expression is too large, and 304 for what is no
/// expression of the language. Each expression in it is judged once, no rule is gone through for
/// more than 4,096 nodes, and no memory is taken.
#[tactic(auto, using(cg_modes_leaf::proofs::Scopes::scope_rules))]
pub fn mode_of(machine: &Machine, rtl: &Rtl, want: Option<Mode>) -> Result<Mode, ModeFault>
    ensures { result ≡ spec.mode_of machine.now rtl.now want }
{
    let mode = judge(rtl, machine, &Scope::Outside, want)?;
    if cg_modes_leaf::is_small(machine, rtl) {
        Ok(mode)
    } else {
        Err(fault(refusals::LARGE_EXPRESSION))
    }
}

/// The mode of an expression outside of any `sequence`, or its first fault (docs/LANGUAGE.md,
/// "Modes"), as `mode_of` gives it but for E406: how large it is, isn't asked. Each expression in
/// it is judged once.
#[tactic(auto, using(cg_modes_leaf::proofs::Scopes::scope_rules))]
pub fn mode_within(machine: &Machine, rtl: &Rtl, want: Option<Mode>) -> Result<Mode, ModeFault>
    ensures { result ≡ mode_in machine.now rtl.now [] want }
{
    judge(rtl, machine, &Scope::Outside, want)
}

/// The mode of an expression among the locals around it, or its first fault, as `mode_within` gives it
/// where there are none.
pub fn mode_among(
    machine: &Machine,
    rtl: &Rtl,
    scope: &Scope,
    want: Option<Mode>,
) -> Result<Mode, ModeFault>
    ensures { result ≡ mode_in machine.now rtl.now (locals_of scope.now) want }
{
    judge(rtl, machine, scope, want)
}

/// The mode of an expression among locals.
#[cycle(modes)]
#[tactic(auto, using(crate::proofs::Laws::around_rules))]
fn judge(rtl: &Rtl, machine: &Machine, scope: &Scope, want: Option<Mode>) -> Verdict
    ensures { result ≡ mode_in machine.now rtl.now (locals_of scope.now) want }
{
    match rtl.op {
        Op::Number => leaf::number(machine, rtl.mode, want, rtl.number),
        Op::Local => leaf::local(scope, rtl.number),
        Op::OperandRef => leaf::operand_ref(machine, rtl.number),
        Op::Value | Op::NewVal => Ok(rtl.mode.unwrap_or(Mode::Void)),
        Op::Index | Op::IndexOf => Ok(Mode::Usi),
        Op::Pc => Ok(address(machine)),
        Op::FieldRef => leaf::field(machine, rtl.number),
        Op::MultiRef => leaf::multi(machine, rtl.number),
        Op::Unary => unary(rtl, machine, scope, want),
        Op::Binary => binary(rtl, machine, scope, want),
        Op::Ternary => ternary(rtl, machine, scope, want),
        Op::AndIf | Op::OrIf => {
            each_any(rtl.items.as_slice(), machine, scope)?;
            Ok(Mode::Bi)
        }
        Op::Ext | Op::Zext | Op::Trunc => widened(rtl, machine, scope, want),
        Op::Declare => stated(rtl.mode),
        Op::Set => set(rtl, machine, scope, want),
        Op::Reg | Op::RawReg => {
            each_any(rtl.items.as_slice(), machine, scope)?;
            leaf::hardware(machine, rtl.number)
        }
        Op::Mem => mem(rtl, machine, scope, want),
        Op::Parallel => each_dropped(rtl.items.as_slice(), machine, &Scope::Parallel(&*scope)),
        Op::Delay => delay(rtl, machine, scope, want),
        Op::Sequence => sequence(rtl, machine, scope, want),
        Op::If => conditional(rtl, machine, scope, want),
        Op::Nop => Ok(Mode::Void),
        Op::Error => Ok(rtl.mode.or(want).unwrap_or(Mode::Void)),
        Op::Halt => halt(rtl, machine, scope, want),
        Op::Subword => subword(rtl, machine, scope, want),
        Op::Join => join(rtl, machine, scope, want),
        Op::Cond => cond(rtl, machine, scope, want),
        Op::Case => case(rtl, machine, scope, want),
        Op::Arm => arm(rtl, machine, scope, want),
    }
}

/// The mode of an expression of which any mode will do.
#[cycle(modes)]
#[tactic(auto, using(crate::proofs::Laws::mode_rules))]
fn any(rtl: &Rtl, machine: &Machine, scope: &Scope) -> Verdict
    ensures { result ≡ spec.judged_any (locals_of scope.now) (checked machine.now rtl.now) }
{
    let mode = judge(rtl, machine, scope, any_mode(rtl))?;
    valued(mode)
}

/// The mode of a value of which none is wanted.
#[cycle(modes)]
#[tactic(auto, using(crate::proofs::Laws::mode_rules))]
fn value(rtl: &Rtl, machine: &Machine, scope: &Scope) -> Verdict
    ensures { result ≡ spec.judged_value (locals_of scope.now) (checked machine.now rtl.now) }
{
    let mode = judge(rtl, machine, scope, None)?;
    valued(mode)
}

#[cycle(modes)]
#[tactic(auto, using(crate::proofs::Laws::mode_rules))]
fn each_any(items: &[Rtl], machine: &Machine, scope: &Scope) -> Verdict
    ensures { result ≡ spec.each_any (locals_of scope.now) (map (checked machine.now) items.now) }
{
    for item in items {
        any(item, machine, scope)?;
    }
    Ok(Mode::Void)
}

/// Expressions whose values are dropped.
#[cycle(modes)]
#[tactic(auto, using(crate::proofs::Laws::mode_rules))]
fn each_dropped(items: &[Rtl], machine: &Machine, scope: &Scope) -> Verdict
    ensures { result ≡ spec.each_dropped (locals_of scope.now) (map (checked machine.now) items.now) }
{
    for item in items {
        judge(item, machine, scope, None)?;
    }
    Ok(Mode::Void)
}

/// An operand where a mode leads.
#[cycle(modes)]
#[tactic(auto, using(crate::proofs::Laws::mode_rules))]
fn operand(rtl: &Rtl, machine: &Machine, scope: &Scope, mode: Mode, want: Option<Mode>) -> Verdict
    ensures { result ≡ spec.operand (locals_of scope.now) mode want (checked machine.now rtl.now) }
{
    if is_loose(rtl) {
        judge(rtl, machine, scope, Some(mode))
    } else {
        let own = judge(rtl, machine, scope, want)?;
        valued(own)?;
        agrees(mode, own)
    }
}

/// The mode of an operand that stands alone.
#[cycle(modes)]
#[tactic(auto, using(crate::proofs::Laws::mode_rules))]
fn alone(
    x: &Rtl,
    machine: &Machine,
    scope: &Scope,
    written: Option<Mode>,
    want: Option<Mode>,
) -> Verdict
    ensures { result ≡ spec.operands machine.now (locals_of scope.now) written want (checked machine.now x.now ∷ []) }
{
    match written {
        Some(mode) => {
            operand(x, machine, scope, mode, Some(mode))?;
            Ok(mode)
        }
        None => {
            if is_loose(x) {
                let mode = want.unwrap_or(word(machine));
                judge(x, machine, scope, Some(mode))?;
                Ok(mode)
            } else {
                let mode = judge(x, machine, scope, want)?;
                valued(mode)
            }
        }
    }
}

/// The mode that the first two items agree on. The first that isn't loose leads; it is judged once.
#[cycle(modes)]
#[tactic(auto, using(crate::proofs::Laws::mode_rules))]
fn pair(
    items: &[Rtl],
    machine: &Machine,
    scope: &Scope,
    written: Option<Mode>,
    want: Option<Mode>,
) -> Verdict
    requires two { 2 ≤ length items.now }
    ensures { result ≡ spec.operands machine.now (locals_of scope.now) written want (map (checked machine.now) (take 2 items.now)) }
{
    let x = &items[0];
    let y = &items[1];
    match written {
        Some(mode) => {
            operand(x, machine, scope, mode, Some(mode))?;
            operand(y, machine, scope, mode, Some(mode))?;
            Ok(mode)
        }
        None => {
            if !is_loose(x) {
                let mode = judge(x, machine, scope, want)?;
                valued(mode)?;
                operand(y, machine, scope, mode, want)?;
                Ok(mode)
            } else if !is_loose(y) {
                let mode = judge(y, machine, scope, want)?;
                judge(x, machine, scope, Some(mode))?;
                valued(mode)
            } else {
                let mode = want.unwrap_or(word(machine));
                judge(x, machine, scope, Some(mode))?;
                judge(y, machine, scope, Some(mode))?;
                Ok(mode)
            }
        }
    }
}

/// The mode that two operands agree on, with a carry behind them.
#[cycle(modes)]
#[tactic(auto, using(crate::proofs::Laws::mode_rules))]
fn with_carry(rtl: &Rtl, machine: &Machine, scope: &Scope, want: Option<Mode>) -> Verdict
    requires three { length (out-Rtl rtl.now).items ≡ 3 }
    ensures { result ≡ carried machine.now rtl.now (locals_of scope.now) want }
{
    let items = rtl.items.as_slice();
    let mode = pair(items, machine, scope, rtl.mode, want)?;
    operand(&items[2], machine, scope, Mode::Bi, Some(Mode::Bi))?;
    Ok(mode)
}

#[cycle(modes)]
#[tactic(auto, using(crate::proofs::Laws::mode_rules))]
fn unary(rtl: &Rtl, machine: &Machine, scope: &Scope, want: Option<Mode>) -> Verdict
    requires op { (out-Rtl rtl.now).op ≡ Op.Unary }
    ensures { result ≡ mode_in machine.now rtl.now (locals_of scope.now) want }
{
    let [x] = rtl.items.as_slice() else {
        return Err(no_shape());
    };
    match named::unary(rtl.number) {
        Some(UnaryOp::Not) => {
            any(x, machine, scope)?;
            Ok(Mode::Bi)
        }
        Some(_) => {
            given(rtl.mode)?;
            alone(x, machine, scope, rtl.mode, want)
        }
        None => Err(no_shape()),
    }
}

#[cycle(modes)]
#[tactic(auto, using(crate::proofs::Laws::mode_rules))]
fn binary(rtl: &Rtl, machine: &Machine, scope: &Scope, want: Option<Mode>) -> Verdict
    requires op { (out-Rtl rtl.now).op ≡ Op.Binary }
    ensures { result ≡ mode_in machine.now rtl.now (locals_of scope.now) want }
{
    let items = rtl.items.as_slice();
    if items.len() != 2 {
        return Err(no_shape());
    }
    let op = match named::binary(rtl.number) {
        Some(op) => op,
        None => return Err(no_shape()),
    };
    given(rtl.mode)?;
    match named::kind(op) {
        Kind::Arithmetic => pair(items, machine, scope, rtl.mode, want),
        Kind::Shift => shift(rtl, machine, scope, want),
        Kind::Comparison => {
            pair(items, machine, scope, rtl.mode, None)?;
            Ok(Mode::Bi)
        }
    }
}

#[cycle(modes)]
#[tactic(auto, using(crate::proofs::Laws::mode_rules))]
fn shift(rtl: &Rtl, machine: &Machine, scope: &Scope, want: Option<Mode>) -> Verdict
    ensures { result ≡ Carried.shifted machine.now rtl.now (locals_of scope.now) want }
{
    let [x, count] = rtl.items.as_slice() else {
        return Err(no_shape());
    };
    shifted(
        alone(x, machine, scope, rtl.mode, want),
        any(count, machine, scope),
    )
}

#[cycle(modes)]
#[tactic(auto, using(crate::proofs::Laws::mode_rules))]
fn ternary(rtl: &Rtl, machine: &Machine, scope: &Scope, want: Option<Mode>) -> Verdict
    requires op { (out-Rtl rtl.now).op ≡ Op.Ternary }
    ensures { result ≡ mode_in machine.now rtl.now (locals_of scope.now) want }
{
    if rtl.items.len() != 3 {
        return Err(no_shape());
    }
    let op = match named::ternary(rtl.number) {
        Some(op) => op,
        None => return Err(no_shape()),
    };
    given(rtl.mode)?;
    match op {
        TernaryOp::Addc | TernaryOp::Subc => with_carry(rtl, machine, scope, want),
        _ => {
            with_carry(rtl, machine, scope, None)?;
            Ok(Mode::Bi)
        }
    }
}

#[cycle(modes)]
#[tactic(auto, using(crate::proofs::Laws::mode_rules))]
fn widened(rtl: &Rtl, machine: &Machine, scope: &Scope, want: Option<Mode>) -> Verdict
    ensures ext { (out-Rtl rtl.now).op ≡ Op.Ext → result ≡ mode_in machine.now rtl.now (locals_of scope.now) want }
    ensures zext { (out-Rtl rtl.now).op ≡ Op.Zext → result ≡ mode_in machine.now rtl.now (locals_of scope.now) want }
    ensures trunc { (out-Rtl rtl.now).op ≡ Op.Trunc → result ≡ mode_in machine.now rtl.now (locals_of scope.now) want }
{
    let [x] = rtl.items.as_slice() else {
        return Err(no_shape());
    };
    let to = stated(rtl.mode)?;
    let from = any(x, machine, scope)?;
    match rtl.op {
        Op::Trunc => narrower(to, from),
        _ => wider(to, from),
    }
}

#[cycle(modes)]
#[tactic(auto, using(crate::proofs::Laws::mode_rules))]
fn set(rtl: &Rtl, machine: &Machine, scope: &Scope, want: Option<Mode>) -> Verdict
    requires op { (out-Rtl rtl.now).op ≡ Op.Set }
    ensures { result ≡ mode_in machine.now rtl.now (locals_of scope.now) want }
{
    let items = rtl.items.as_slice();
    if items.len() != 2 {
        return Err(no_shape());
    }
    let place = &items[0];
    if leaf::is_place(place, machine, scope) {
        assign(rtl, machine, scope)
    } else {
        Err(fault(refusals::NO_LOCAL))
    }
}

#[cycle(modes)]
#[tactic(auto, using(crate::proofs::Laws::mode_rules))]
fn assign(rtl: &Rtl, machine: &Machine, scope: &Scope) -> Verdict
    ensures { result ≡ assigned machine.now rtl.now (locals_of scope.now) }
{
    let [place, value] = rtl.items.as_slice() else {
        return Err(no_shape());
    };
    let mode = judge(place, machine, scope, None)?;
    operand(value, machine, scope, mode, Some(mode))?;
    Ok(Mode::Void)
}

/// The first so many expressions, whose values are dropped.
#[cycle(modes)]
#[tactic(auto, using(crate::proofs::Laws::order_rules))]
fn first_dropped(items: &[Rtl], machine: &Machine, scope: &Scope, count: usize) -> Verdict
    requires { count ≤ length items.now }
    ensures { result ≡ spec.each_dropped (locals_of scope.now) (map (checked machine.now) (take count items.now)) }
{
    for i in 0..count {
        judge(&items[i], machine, scope, None)?;
    }
    Ok(Mode::Void)
}

/// The expressions from a place on, of which the last has the wanted mode.
#[cycle(modes)]
#[tactic(auto, using(crate::proofs::Laws::order_rules))]
fn in_order(
    items: &[Rtl],
    machine: &Machine,
    scope: &Scope,
    want: Option<Mode>,
    from: usize,
) -> Verdict
    requires { from ≤ length items.now }
    ensures { result ≡ spec.in_order (locals_of scope.now) want (map (checked machine.now) (drop from items.now)) }
{
    for i in from..items.len() {
        if i + 1 == items.len() {
            return judge(&items[i], machine, scope, want);
        }
        judge(&items[i], machine, scope, None)?;
    }
    Err(no_shape())
}

#[cycle(modes)]
#[tactic(auto, using(crate::proofs::Laws::around_rules))]
fn sequence(rtl: &Rtl, machine: &Machine, scope: &Scope, want: Option<Mode>) -> Verdict
    requires op { (out-Rtl rtl.now).op ≡ Op.Sequence }
    ensures { result ≡ mode_in machine.now rtl.now (locals_of scope.now) want }
{
    let items = rtl.items.as_slice();
    let count = rtl.number.unsigned_abs().min(items.len() as u64) as usize;
    first_dropped(items, machine, scope, count)?;
    let inner = Scope::Sequence(&*scope, &items[..count]);
    in_order(items, machine, &inner, want, count)
}

#[cycle(modes)]
#[tactic(auto, using(crate::proofs::Laws::mode_rules))]
fn mem(rtl: &Rtl, machine: &Machine, scope: &Scope, want: Option<Mode>) -> Verdict
    requires op { (out-Rtl rtl.now).op ≡ Op.Mem }
    ensures { result ≡ mode_in machine.now rtl.now (locals_of scope.now) want }
{
    let [place] = rtl.items.as_slice() else {
        return Err(no_shape());
    };
    match rtl.mode {
        None => Err(no_shape()),
        Some(mode) => {
            memory(mode)?;
            let wanted = address(machine);
            operand(place, machine, scope, wanted, Some(wanted))?;
            Ok(mode)
        }
    }
}

#[cycle(modes)]
#[tactic(auto, using(crate::proofs::Laws::delay_rules))]
fn delay(rtl: &Rtl, machine: &Machine, scope: &Scope, want: Option<Mode>) -> Verdict
    requires op { (out-Rtl rtl.now).op ≡ Op.Delay }
    ensures { result ≡ mode_in machine.now rtl.now (locals_of scope.now) want }
{
    let [x] = rtl.items.as_slice() else {
        return Err(no_shape());
    };
    if rtl.number < 1 || rtl.number > 8 {
        return Err(fault(refusals::WRONG_MODE));
    }
    let mode = judge(x, machine, scope, None)?;
    if bits(mode) == 0 && !cg_modes_leaf::delays(x, machine) {
        Ok(Mode::Void)
    } else {
        Err(fault(refusals::WRONG_MODE))
    }
}

#[cycle(modes)]
#[tactic(auto, using(crate::proofs::Laws::mode_rules))]
fn halt(rtl: &Rtl, machine: &Machine, scope: &Scope, want: Option<Mode>) -> Verdict
    requires op { (out-Rtl rtl.now).op ≡ Op.Halt }
    ensures { result ≡ mode_in machine.now rtl.now (locals_of scope.now) want }
{
    let [x] = rtl.items.as_slice() else {
        return Err(no_shape());
    };
    any(x, machine, scope)?;
    Ok(Mode::Void)
}

/// One of several values, where a mode leads that has no fault.
#[cycle(modes)]
#[tactic(auto, using(crate::proofs::Laws::mode_rules))]
fn turn(
    rtl: &Rtl,
    machine: &Machine,
    scope: &Scope,
    written: Option<Mode>,
    mode: Mode,
    want: Option<Mode>,
) -> Verdict
    ensures { result ≡ spec.choice_turn (locals_of scope.now) written (Ok mode) want (spec.plain_choice (checked machine.now rtl.now)) }
{
    if is_loose(rtl) {
        judge(rtl, machine, scope, Some(mode))
    } else {
        let own = judge(rtl, machine, scope, want)?;
        meets(written, mode, own)
    }
}

/// The mode that the two values of an `if` agree on.
#[cycle(modes)]
#[tactic(auto, using(crate::proofs::Laws::mode_rules))]
fn either(rtl: &Rtl, machine: &Machine, scope: &Scope, want: Option<Mode>) -> Verdict
    requires three { length (out-Rtl rtl.now).items ≡ 3 }
    ensures { result ≡ either machine.now rtl.now (locals_of scope.now) want }
{
    let x = &rtl.items.as_slice()[1];
    let y = &rtl.items.as_slice()[2];
    match rtl.mode {
        Some(mode) => {
            turn(x, machine, scope, Some(mode), mode, Some(mode))?;
            turn(y, machine, scope, Some(mode), mode, Some(mode))?;
            Ok(mode)
        }
        None => {
            if !is_loose(x) {
                let mode = judge(x, machine, scope, want)?;
                turn(y, machine, scope, None, mode, want)?;
                Ok(mode)
            } else if !is_loose(y) {
                let mode = judge(y, machine, scope, want)?;
                judge(x, machine, scope, Some(mode))?;
                Ok(mode)
            } else {
                let mode = want.unwrap_or(word(machine));
                judge(x, machine, scope, Some(mode))?;
                judge(y, machine, scope, Some(mode))?;
                Ok(mode)
            }
        }
    }
}

#[cycle(modes)]
#[tactic(auto, using(crate::proofs::Laws::mode_rules))]
fn conditional(rtl: &Rtl, machine: &Machine, scope: &Scope, want: Option<Mode>) -> Verdict
    requires op { (out-Rtl rtl.now).op ≡ Op.If }
    ensures { result ≡ mode_in machine.now rtl.now (locals_of scope.now) want }
{
    match rtl.items.as_slice() {
        [test, x] => without_else(value(test, machine, scope), judge(x, machine, scope, None)),
        [test, _x, _y] => {
            value(test, machine, scope)?;
            either(rtl, machine, scope, want)
        }
        _ => Err(no_shape()),
    }
}

#[cycle(modes)]
#[tactic(auto, using(crate::proofs::Laws::mode_rules))]
fn subword(rtl: &Rtl, machine: &Machine, scope: &Scope, want: Option<Mode>) -> Verdict
    requires op { (out-Rtl rtl.now).op ≡ Op.Subword }
    ensures { result ≡ mode_in machine.now rtl.now (locals_of scope.now) want }
{
    let [x] = rtl.items.as_slice() else {
        return Err(no_shape());
    };
    let to = stated(rtl.mode)?;
    let from = value(x, machine, scope)?;
    part(rtl, to, from)
}

#[cycle(modes)]
#[tactic(auto, using(crate::proofs::Laws::mode_rules, crate::proofs::Arms::join_rules))]
fn join(rtl: &Rtl, machine: &Machine, scope: &Scope, want: Option<Mode>) -> Verdict
    requires op { (out-Rtl rtl.now).op ≡ Op.Join }
    ensures { result ≡ mode_in machine.now rtl.now (locals_of scope.now) want }
{
    let items = rtl.items.as_slice();
    if items.is_empty() {
        return Err(no_shape());
    }
    let to = stated(rtl.mode)?;
    let part = judge(&items[0], machine, scope, None)?;
    fill(items, machine, scope, to, part)
}

/// Operands behind the first item that fill a value.
#[cycle(modes)]
#[tactic(auto, using(crate::proofs::Laws::mode_rules, crate::proofs::Arms::join_rules))]
fn fill(items: &[Rtl], machine: &Machine, scope: &Scope, to: Mode, part: Mode) -> Verdict
    requires { 1 ≤ length items.now }
    ensures { result ≡ Arms.filled machine.now (locals_of scope.now) to part (drop 1 items.now) }
{
    if parts(to, part) as usize != items.len() - 1 {
        return Err(fault(refusals::WRONG_MODE));
    }
    each_part(items, machine, scope, part)?;
    Ok(to)
}

#[cycle(modes)]
#[tactic(auto, using(crate::proofs::Laws::mode_rules, crate::proofs::Arms::join_rules))]
fn each_part(items: &[Rtl], machine: &Machine, scope: &Scope, part: Mode) -> Verdict
    requires { 1 ≤ length items.now }
    ensures { result ≡ spec.each_part (locals_of scope.now) part (map (checked machine.now) (drop 1 items.now)) }
{
    for i in 1..items.len() {
        part_turn(&items[i], machine, scope, part)?;
    }
    Ok(part)
}

/// A part that is joined with others.
#[cycle(modes)]
#[tactic(auto, using(crate::proofs::Laws::mode_rules, crate::proofs::Arms::join_rules))]
fn part_turn(rtl: &Rtl, machine: &Machine, scope: &Scope, part: Mode) -> Verdict
    ensures { result ≡ spec.part_turn (locals_of scope.now) part (checked machine.now rtl.now) }
{
    let own = judge(rtl, machine, scope, Some(part))?;
    valued(own)?;
    same_bits(part, own)
}

/// The first so many expressions, which are tests.
#[cycle(modes)]
#[tactic(auto, using(crate::proofs::Laws::mode_rules, crate::proofs::Arms::front_rules))]
fn first_tests(items: &[Rtl], machine: &Machine, scope: &Scope, count: usize) -> Verdict
    requires { count ≤ length items.now }
    ensures { result ≡ spec.each_value (locals_of scope.now) (map (checked machine.now) (take count items.now)) }
{
    for i in 0..count {
        value(&items[i], machine, scope)?;
    }
    Ok(Mode::Void)
}

/// The expressions from a place on but the last.
#[cycle(modes)]
#[tactic(auto, using(crate::proofs::Laws::order_rules, crate::proofs::Arms::front_rules))]
fn all_but_last(items: &[Rtl], machine: &Machine, scope: &Scope, from: usize) -> Verdict
    requires { from ≤ length items.now }
    ensures { result ≡ spec.all_but_last (locals_of scope.now) (map (checked machine.now) (drop from items.now)) }
{
    if from == items.len() {
        return Err(no_shape());
    }
    for i in from..items.len() - 1 {
        judge(&items[i], machine, scope, None)?;
    }
    Ok(Mode::Void)
}

/// An arm's expressions but its tests and the last.
#[cycle(modes)]
#[tactic(auto, using(crate::proofs::Laws::mode_rules, crate::proofs::Arms::front_rules))]
fn front(arm: &Rtl, machine: &Machine, scope: &Scope, count: usize) -> Verdict
    requires { count ≡ min (unsigned_abs (out-Rtl arm.now).number) (length (out-Rtl arm.now).items) }
    ensures { result ≡ (checked machine.now arm.now).front (locals_of scope.now) }
{
    if leaf::is_arm(arm) {
        all_but_last(arm.items.as_slice(), machine, scope, count)
    } else {
        Err(no_shape())
    }
}

/// What is judged in front of an arm's value.
#[cycle(modes)]
#[tactic(auto, using(crate::proofs::Laws::mode_rules, crate::proofs::Arms::front_rules))]
fn before(arm: &Rtl, machine: &Machine, scope: &Scope, tested: bool) -> Verdict
    ensures { result ≡ Arms.before machine.now tested (locals_of scope.now) arm.now }
{
    let items = arm.items.as_slice();
    let count = arm.number.unsigned_abs().min(items.len() as u64) as usize;
    if tested {
        first_tests(items, machine, scope, count)?;
        front(arm, machine, scope, count)
    } else {
        front(arm, machine, scope, count)
    }
}

#[cycle(modes)]
#[tactic(auto, using(crate::proofs::Laws::mode_rules, crate::proofs::Arms::turn_rules))]
fn arm(rtl: &Rtl, machine: &Machine, scope: &Scope, want: Option<Mode>) -> Verdict
    requires op { (out-Rtl rtl.now).op ≡ Op.Arm }
    ensures { result ≡ mode_in machine.now rtl.now (locals_of scope.now) want }
{
    let items = rtl.items.as_slice();
    if rtl.number.unsigned_abs() < items.len() as u64 {
        judge(&items[items.len() - 1], machine, scope, want)
    } else {
        Err(no_shape())
    }
}

/// An arm's value at its turn. That of the arm that leads isn't judged again.
#[cycle(modes)]
#[tactic(auto, using(crate::proofs::Laws::mode_rules, crate::proofs::Arms::turn_rules))]
fn arm_turn(
    arm: &Rtl,
    machine: &Machine,
    scope: &Scope,
    written: Option<Mode>,
    lead: Verdict,
    want: Option<Mode>,
    kept: bool,
) -> Verdict
    requires kept { kept ≡ true → Arms.arm_turn machine.now (locals_of scope.now) written lead want arm.now ≡ lead }
    ensures { result ≡ Arms.arm_turn machine.now (locals_of scope.now) written lead want arm.now }
{
    if kept {
        lead
    } else if leaf::last_loose(arm) {
        match lead {
            Ok(mode) => judge(arm, machine, scope, Some(mode)),
            Err(_) => Ok(Mode::Void),
        }
    } else {
        let own = judge(arm, machine, scope, want)?;
        let mode = lead?;
        meets(written, mode, own)
    }
}

/// The arms from a place on, of which the one at `first` leads.
#[cycle(modes)]
#[tactic(auto, using(crate::proofs::Laws::mode_rules, crate::proofs::Arms::choice_rules))]
fn each_arm(
    items: &[Rtl],
    machine: &Machine,
    scope: &Scope,
    tested: bool,
    written: Option<Mode>,
    lead: Verdict,
    want: Option<Mode>,
    from: usize,
    first: usize,
) -> Verdict
    requires within { from ≤ length items.now }
    requires kept { (d : Rtl) → first < length items.now → Arms.arm_turn machine.now (locals_of scope.now) written lead want (get_or items.now first d) ≡ lead }
    ensures { result ≡ Arms.walked machine.now (locals_of scope.now) tested written lead want (drop from items.now) }
{
    for i in from..items.len() {
        let arm = &items[i];
        before(arm, machine, scope, tested)?;
        arm_turn(arm, machine, scope, written, lead, want, i == first)?;
    }
    lead
}

/// The mode that leads where none is written.
#[cycle(modes)]
#[tactic(auto, using(crate::proofs::Laws::mode_rules, crate::proofs::Arms::choice_rules))]
fn led(
    items: &[Rtl],
    machine: &Machine,
    scope: &Scope,
    tested: bool,
    want: Option<Mode>,
    from: usize,
    first: usize,
) -> Verdict
    requires within { from ≤ length items.now }
    requires first { first ≡ from + firm_place (drop from items.now) }
    ensures { result ≡ Arms.led machine.now (locals_of scope.now) tested want (drop from items.now) }
{
    if first < items.len() {
        judge(&items[first], machine, scope, want)
    } else {
        Ok(want.unwrap_or(word(machine)))
    }
}

/// The mode that arms agree on of which one is taken.
#[cycle(modes)]
#[tactic(auto, using(crate::proofs::Laws::mode_rules, crate::proofs::Arms::choice_rules))]
fn chosen(
    items: &[Rtl],
    machine: &Machine,
    scope: &Scope,
    tested: bool,
    written: Option<Mode>,
    want: Option<Mode>,
    from: usize,
) -> Verdict
    requires within { from ≤ length items.now }
    ensures { result ≡ Arms.chosen machine.now (locals_of scope.now) tested written want (drop from items.now) }
{
    match written {
        Some(mode) => {
            let count = items.len();
            each_arm(
                items,
                machine,
                scope,
                tested,
                Some(mode),
                Ok(mode),
                Some(mode),
                from,
                count,
            )
        }
        None => {
            let first = leaf::first_firm(items, from);
            let lead = led(items, machine, scope, tested, want, from, first);
            each_arm(items, machine, scope, tested, None, lead, want, from, first)
        }
    }
}

/// Arms of which none need be taken.
#[cycle(modes)]
#[tactic(auto, using(crate::proofs::Laws::mode_rules, crate::proofs::Arms::arm_rules))]
fn valueless(items: &[Rtl], machine: &Machine, scope: &Scope, tested: bool, from: usize) -> Verdict
    requires within { from ≤ length items.now }
    ensures { result ≡ Arms.valueless machine.now (locals_of scope.now) tested (drop from items.now) }
{
    for i in from..items.len() {
        let arm = &items[i];
        before(arm, machine, scope, tested)?;
        judge(arm, machine, scope, None)?;
    }
    Ok(Mode::Void)
}

/// Arms with `else` or without.
#[cycle(modes)]
#[tactic(auto, using(crate::proofs::Laws::mode_rules, crate::proofs::Arms::arm_rules))]
fn arms(
    items: &[Rtl],
    machine: &Machine,
    scope: &Scope,
    tested: bool,
    written: Option<Mode>,
    want: Option<Mode>,
    from: usize,
) -> Verdict
    requires within { from ≤ length items.now }
    ensures { result ≡ Arms.armed machine.now (locals_of scope.now) tested written want (drop from items.now) }
{
    if leaf::ends_with_else(items, from) {
        chosen(items, machine, scope, tested, written, want, from)
    } else {
        valueless(items, machine, scope, tested, from)
    }
}

#[cycle(modes)]
#[tactic(auto, using(crate::proofs::Laws::mode_rules, crate::proofs::Arms::arm_rules))]
fn cond(rtl: &Rtl, machine: &Machine, scope: &Scope, want: Option<Mode>) -> Verdict
    requires op { (out-Rtl rtl.now).op ≡ Op.Cond }
    ensures { result ≡ mode_in machine.now rtl.now (locals_of scope.now) want }
{
    arms(
        rtl.items.as_slice(),
        machine,
        scope,
        true,
        rtl.mode,
        want,
        0,
    )
}

#[cycle(modes)]
#[tactic(auto, using(crate::proofs::Laws::mode_rules, crate::proofs::Arms::arm_rules))]
fn case(rtl: &Rtl, machine: &Machine, scope: &Scope, want: Option<Mode>) -> Verdict
    requires op { (out-Rtl rtl.now).op ≡ Op.Case }
    ensures { result ≡ mode_in machine.now rtl.now (locals_of scope.now) want }
{
    let items = rtl.items.as_slice();
    if items.is_empty() {
        return Err(no_shape());
    }
    value(&items[0], machine, scope)?;
    arms(items, machine, scope, false, rtl.mode, want, 1)
}
