ghost use Rattle.std.specs.Prelude.{◌≡◌, not, slice_get};
ghost use Rattle.cg_base.specs.Refusing.{first};
ghost use Rattle.cg_model.specs.Operators.{at_number, binary_ops};
ghost use Rattle.cg_model.specs.Pure.{is_pure_binary};
ghost use Rattle.cg_model.specs.Sound.{has_rules};
ghost use Rattle.cg_model_faults.specs.declared.fault.Said.TheVariants.{Own, Nothing};
ghost use Rattle.cg_model_faults.specs.Finding.{at_place};
ghost use Rattle.cg_model.specs.declared.rtl.Rtl.{out-Rtl};
ghost use Rattle.cg_model_faults.specs.E306 as e306;
ghost use Rattle.cg_model_faults.specs.E315 as spec;

use crate::names::is_among;
use crate::walk::{NodeRule, first_in};
use cg_base::refusals;
use cg_desc_check_format::bits_covered;
use cg_model::{Field, Machine, Op, Rtl};
use cg_model_faults::{MachineFault, Purpose, Said};

/// Whether the operation on two numbers of a place divides: the fourth to the seventh do.
#[tactic(auto, using(crate::proofs::Dividing::dividing, crate::proofs::Dividing::dividing_from))]
fn divides_at(place: usize) -> bool
    ensures { result ≡ not (is_pure_binary (slice_get binary_ops place)) }
{
    place >= 3 && place <= 6
}

/// Whether an operation on two numbers divides.
fn is_dividing(rtl: &Rtl) -> bool
    ensures { result ≡ not (is_pure_binary (at_number binary_ops (out-Rtl rtl.now).number)) }
{
    if rtl.number < 0 {
        return false;
    }
    divides_at(rtl.number as usize)
}

/// Whether an expression is impure by its outermost node.
#[tactic(auto, unfolding(cg_model_faults::specs::E315::is_impure))]
fn is_impure(rtl: &Rtl) -> bool
    ensures { result ≡ spec.is_impure (out-Rtl rtl.now).op (out-Rtl rtl.now).number }
{
    match rtl.op {
        Op::Binary => is_dividing(rtl),
        Op::OperandRef => true,
        Op::IndexOf => true,
        Op::Sequence => true,
        Op::Parallel => true,
        Op::Set => true,
        Op::Reg => true,
        Op::RawReg => true,
        Op::Mem => true,
        Op::Delay => true,
        Op::Error => true,
        Op::Halt => true,
        _ => false,
    }
}

/// Whether a field has a rule.
fn has_rules(field: &Field) -> bool
    ensures { result ≡ has_rules field.now }
{
    field.encode.is_some() || field.decode.is_some()
}

/// Whether an expression names one of some fields.
#[tactic(auto, using(crate::proofs::Nodes::node_rules))]
fn names_one(fields: &[u16], rtl: &Rtl) -> bool
    ensures { result ≡ e306.names fields.now (out-Rtl rtl.now).number }
{
    if rtl.number < 0 {
        return false;
    }
    is_among(fields, rtl.number as usize)
}

/// Whether the field that an expression names has a rule.
fn is_ruled(machine: &Machine, rtl: &Rtl) -> bool
    ensures { result ≡ spec.is_ruled (at_number machine.now.fields (out-Rtl rtl.now).number) }
{
    if rtl.number < 0 {
        return false;
    }
    match machine.fields.get(rtl.number as usize) {
        Some(field) => has_rules(field),
        None => false,
    }
}

/// Whether it names a field, in `encode`, `decode` or `insert`.
#[tactic(auto, unfolding(cg_model_faults::specs::E315::names_field))]
fn names_field(rtl: &Rtl) -> bool
    ensures { result ≡ spec.names_field (out-Rtl rtl.now).op (out-Rtl rtl.now).number }
{
    match rtl.op {
        Op::FieldRef => true,
        Op::MultiRef => true,
        _ => false,
    }
}

/// Whether it names what isn't a field of the multi field, in `extract`.
#[tactic(auto, unfolding(cg_model_faults::specs::E315::names_other))]
fn names_other(subs: &[u16], rtl: &Rtl) -> bool
    ensures { result ≡ spec.names_other subs.now (out-Rtl rtl.now).op (out-Rtl rtl.now).number }
{
    match rtl.op {
        Op::FieldRef => !names_one(subs, rtl),
        Op::MultiRef => true,
        _ => false,
    }
}

/// Whether it names the pc, a multi field or a field with a rule, in an assertion.
#[tactic(auto, unfolding(cg_model_faults::specs::E315::names_ruled))]
fn names_ruled(machine: &Machine, rtl: &Rtl) -> bool
    ensures { result ≡ spec.names_ruled machine.now (out-Rtl rtl.now).op (out-Rtl rtl.now).number }
{
    match rtl.op {
        Op::Pc => true,
        Op::MultiRef => true,
        Op::FieldRef => is_ruled(machine, rtl),
        _ => false,
    }
}

/// The rule that an expression is pure, and names what it may.
#[derive(Drop)]
pub struct Purity<'a> {
    /// The machine.
    pub machine: &'a Machine,
    /// What the expression is for.
    pub purpose: Purpose,
    /// The fields of the multi field, where it is for `extract`.
    pub subs: &'a [u16],
}

/// Whether the outermost node of an expression names what may not be named.
#[tactic(auto, unfolding(cg_model_faults::specs::E315::may_not_name))]
fn may_not_name(machine: &Machine, purpose: Purpose, subs: &[u16], rtl: &Rtl) -> bool
    ensures { result ≡ spec.may_not_name machine.now purpose subs.now (out-Rtl rtl.now).op (out-Rtl rtl.now).number }
{
    match purpose {
        Purpose::Encode => names_field(rtl),
        Purpose::Decode => names_field(rtl),
        Purpose::Insert => names_field(rtl),
        Purpose::Extract => names_other(subs, rtl),
        Purpose::Assertion => names_ruled(machine, rtl),
        _ => false,
    }
}

/// The fault of an element whose expression isn't pure.
fn fault() -> MachineFault
    ensures { result ≡ at_place 315 0 Own Nothing }
{
    MachineFault {
        number: refusals::IMPURE,
        place: 0,
        text: Said::Own,
        other: Said::Nothing,
    }
}

impl NodeRule for Purity<'_> {
    ghost faults = { λ r. spec.impure_at r.machine.now r.purpose r.subs.now };

    #[tactic(auto, unfolding(cg_model_faults::specs::E315::impure_at))]
    fn first_at(&self, rtl: &Rtl) -> Option<MachineFault> {
        if is_impure(rtl) || may_not_name(self.machine, self.purpose, self.subs, rtl) {
            return Some(fault());
        }
        None
    }
}

/// The bits of the field that an expression names.
fn bits_at_number(machine: &Machine, rtl: &Rtl) -> u128
    ensures { result ≡ spec.bits_at_number machine.now (out-Rtl rtl.now).number }
{
    if rtl.number < 0 {
        return 0;
    }
    bits_covered(machine, rtl.number as usize)
}

/// The bits of the field that an expression is, where it is one.
#[tactic(auto, unfolding(cg_model_faults::specs::E315::bits_at_op))]
fn own_bits(machine: &Machine, rtl: &Rtl) -> u128
    ensures { result ≡ spec.bits_at_op machine.now (out-Rtl rtl.now).op (out-Rtl rtl.now).number }
{
    match rtl.op {
        Op::FieldRef => bits_at_number(machine, rtl),
        _ => 0,
    }
}

/// The bits that an expression names by its fields.
#[tactic(auto, using(crate::proofs::Naming::bit_rules))]
fn bits_named(machine: &Machine, rtl: &Rtl) -> u128
    ensures { result ≡ spec.bits_named machine.now rtl.now }
{
    let mut bits = own_bits(machine, rtl);
    for item in rtl.items.as_slice() {
        bits |= bits_named(machine, item);
    }
    bits
}

/// Whether an assertion names over 8 bits.
#[tactic(auto, unfolding(cg_model_faults::specs::E315::names_many))]
pub fn names_many(machine: &Machine, purpose: Purpose, rtl: &Rtl) -> bool
    ensures { result ≡ spec.names_many machine.now purpose rtl.now }
{
    match purpose {
        Purpose::Assertion => bits_named(machine, rtl).count_ones() > 8,
        _ => false,
    }
}

/// E315: a rule or an assertion isn't pure, or names what it may not, or an assertion names over 8 bits.
/// The rule `extract` may name the fields of its multi field, which are handed in.
#[tactic(auto, using(crate::proofs::Nodes::node_rules))]
pub fn first_impure(
    machine: &Machine,
    purpose: Purpose,
    subs: &[u16],
    rtl: &Rtl,
) -> Option<MachineFault>
    ensures { result ≡ first (spec.impure machine.now purpose subs.now rtl.now) }
{
    let rule = Purity {
        machine,
        purpose,
        subs,
    };
    if let Some(fault) = first_in(&rule, rtl) {
        return Some(fault);
    }
    if names_many(machine, purpose, rtl) {
        return Some(fault());
    }
    None
}
