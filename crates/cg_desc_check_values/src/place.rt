ghost use Rattle.std.specs.Prelude.{◌≡◌, ◌<◌};
ghost use Rattle.cg_desc_check_values.specs.Places as spec;
ghost use Rattle.cg_model.specs.Formed.{stands_at};
ghost use Rattle.cg_model.specs.declared.rtl.Rtl.{out-Rtl};

use cg_model::{Op, Rtl};

/// As what an item of an expression stands.
#[derive(Clone, Copy)]
pub(crate) enum Place {
    /// An expression of its own.
    Expression,
    /// A number that a `case` names.
    Named,
    /// A declared local, or the mode of a `join`'s parts.
    Declared,
    /// An arm, of a `case` or of a `cond`, and the last or not.
    Arm { of_case: bool, is_last: bool },
}

/// Whether an operation may stand so.
#[tactic(auto, unfolding(cg_model::specs::Formed::stands_at))]
pub(crate) fn stands_at(op: Op, place: Place) -> bool
    ensures { result ≡ stands_at op (spec.as_of place) }
{
    match op {
        Op::Arm => matches!(place, Place::Arm { .. }),
        Op::Declare => matches!(place, Place::Declared),
        Op::Number => matches!(place, Place::Expression | Place::Named),
        _ => matches!(place, Place::Expression),
    }
}

/// Whether an expression that is no arm may have so many items.
fn has_items(rtl: &Rtl, len: usize) -> bool
    ensures { result ≡ spec.has_items (out-Rtl rtl.now).op (out-Rtl rtl.now).number len }
{
    match rtl.op {
        Op::Unary | Op::Ext | Op::Zext | Op::Trunc | Op::Subword => len == 1,
        Op::Mem | Op::Delay | Op::Halt => len == 1,
        Op::Binary | Op::Set => len == 2,
        Op::Ternary => len == 3,
        Op::If => len >= 2 && len <= 3,
        Op::AndIf | Op::OrIf | Op::Case => len >= 2,
        Op::Join => len > 1,
        Op::Cond | Op::Parallel => len >= 1,
        Op::Sequence => rtl.number >= 0 && (rtl.number as u64) < len as u64,
        Op::Reg | Op::RawReg => len <= 1,
        _ => len == 0,
    }
}

/// Whether an arm with so many tests or names may have so many items.
fn has_arm_items(of_case: bool, is_last: bool, rtl: &Rtl, len: usize) -> bool
    ensures { result ≡ spec.has_arm_items of_case is_last (out-Rtl rtl.now).number len }
{
    let number = rtl.number;
    if number == 0 {
        return is_last && len > 0;
    }
    if number < 0 {
        return false;
    }
    if of_case {
        return (number as u64) < len as u64;
    }
    number == 1 && len > 1
}

/// Whether it may, where it stands as this.
pub(crate) fn counts(rtl: &Rtl, place: Place, len: usize) -> bool
    ensures { result ≡ spec.counts (out-Rtl rtl.now).op (out-Rtl rtl.now).number (spec.as_of place) len }
{
    match place {
        Place::Arm { of_case, is_last } => has_arm_items(of_case, is_last, rtl, len),
        _ => has_items(rtl, len),
    }
}

/// As what the item of a place must stand in an arm.
fn arm_item_place(of_case: bool, rtl: &Rtl, k: usize) -> Place
    ensures { spec.as_of result ≡ spec.arm_item_place of_case (out-Rtl rtl.now).number k }
{
    let number = rtl.number;
    if of_case && number >= 0 && (k as u64) < number as u64 {
        Place::Named
    } else {
        Place::Expression
    }
}

/// As what the item of a place must stand in an expression of so many items that is no arm.
fn item_place(rtl: &Rtl, len: usize, k: usize) -> Place
    requires { k < len }
    ensures { spec.as_of result ≡ spec.item_place (out-Rtl rtl.now).op (out-Rtl rtl.now).number len k }
{
    let number = rtl.number;
    match rtl.op {
        Op::Join if k == 0 => Place::Declared,
        Op::Sequence if number >= 0 && (k as u64) < number as u64 => Place::Declared,
        Op::Cond => Place::Arm {
            of_case: false,
            is_last: k + 1 == len,
        },
        Op::Case if k > 0 => Place::Arm {
            of_case: true,
            is_last: k + 1 == len,
        },
        _ => Place::Expression,
    }
}

/// The same of an item of an expression that stands as this itself.
pub(crate) fn place_of(rtl: &Rtl, place: Place, len: usize, k: usize) -> Place
    requires { k < len }
    ensures { spec.as_of result ≡ spec.place_of (out-Rtl rtl.now).op (out-Rtl rtl.now).number (spec.as_of place) len k }
{
    match place {
        Place::Arm { of_case, .. } => arm_item_place(of_case, rtl, k),
        _ => item_place(rtl, len, k),
    }
}
