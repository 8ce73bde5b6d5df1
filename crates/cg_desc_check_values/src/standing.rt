ghost use Rattle.std.specs.Prelude.{◌≡◌, nat_le};
ghost use Rattle.cg_desc_check_values.specs.Places.{as_of, is_head};
ghost use Rattle.cg_model.specs.Formed as formed;
ghost use Rattle.cg_model.specs.declared.rtl.Rtl.{out-Rtl};
ghost use Rattle.std.specs.List.{list_all};

use crate::place::{Place, counts, place_of, stands_at};
use cg_model::{Op, Rtl};

/// Whether an operation must have a mode.
#[tactic(auto, unfolding(cg_model::specs::Formed::is_moded))]
fn is_moded(op: Op) -> bool
    ensures { result ≡ formed.is_moded op }
{
    matches!(
        op,
        Op::Value
            | Op::NewVal
            | Op::Ext
            | Op::Zext
            | Op::Trunc
            | Op::Subword
            | Op::Join
            | Op::Mem
            | Op::Declare
    )
}

/// Whether the number of an operation says something.
#[tactic(auto, unfolding(cg_model::specs::Formed::is_numbered))]
fn is_numbered(op: Op) -> bool
    ensures { result ≡ formed.is_numbered op }
{
    match op {
        Op::Number | Op::Local | Op::OperandRef | Op::FieldRef | Op::MultiRef => true,
        Op::IndexOf | Op::Unary | Op::Binary | Op::Ternary | Op::Subword => true,
        Op::Sequence | Op::Arm | Op::Reg | Op::RawReg | Op::Delay | Op::Error => true,
        _ => false,
    }
}

/// Whether an expression has a mode where it must, and 0 for its number where that says nothing.
fn is_head(rtl: &Rtl) -> bool
    ensures { result ≡ is_head (out-Rtl rtl.now).op (out-Rtl rtl.now).mode (out-Rtl rtl.now).number }
{
    if is_moded(rtl.op) && rtl.mode.is_none() {
        return false;
    }
    is_numbered(rtl.op) || rtl.number == 0
}

/// Whether an expression may stand as this, by its operations and how many items they have.
#[tactic(auto, using(crate::proofs::Items::standing_rules))]
fn stands(rtl: &Rtl, place: Place) -> bool
    ensures { result ≡ formed.stands rtl.now (as_of place) }
{
    let items = rtl.items.as_slice();
    if !stands_at(rtl.op, place) || !is_head(rtl) {
        return false;
    }
    if !counts(rtl, place, items.len()) {
        return false;
    }
    for k in 0..items.len() {
        if !stands(&items[k], place_of(rtl, place, items.len(), k)) {
            return false;
        }
    }
    true
}

/// Whether an expression has at most so many levels.
#[tactic(auto, using(crate::proofs::Items::depth_rules))]
fn is_shallow(rtl: &Rtl, levels: u8) -> bool
    ensures { result ≡ nat_le (formed.depth rtl.now) levels }
{
    if levels == 0 {
        return false;
    }
    for item in rtl.items.as_slice() {
        if !is_shallow(item, levels - 1) {
            return false;
        }
    }
    true
}

/// Whether an expression may stand alone.
pub(crate) fn is_expression(rtl: &Rtl) -> bool
    ensures { result ≡ formed.is_formed rtl.now }
{
    stands(rtl, Place::Expression) && is_shallow(rtl, 64)
}

/// The same of one that may be absent.
pub(crate) fn is_expression_where(rtl: &Option<Rtl>) -> bool
    ensures { result ≡ formed.is_formed_where rtl.now }
{
    match rtl {
        Some(rtl) => is_expression(rtl),
        None => true,
    }
}

/// The same of each of some.
pub(crate) fn are_expressions(rtls: &[Rtl]) -> bool
    ensures { result ≡ list_all formed.is_formed rtls.now }
{
    for rtl in rtls {
        if !is_expression(rtl) {
            return false;
        }
    }
    true
}
