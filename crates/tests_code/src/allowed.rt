//! What may stand at the nodes of an expression.

ghost use Rattle.std.specs.Prelude.{◌≡◌, ◌^◌, not, nat_lt};
ghost use Rattle.std.specs.Option.{unwrap_or};
ghost use Rattle.cg_base.specs.declared.mode.Mode.TheVariants.{Void};
ghost use Rattle.cg_base.specs.Modes.{bits_of};
ghost use Rattle.cg_model.specs.Operators.{at_number, binary_ops};
ghost use Rattle.cg_model.specs.Pure.{is_pure_op, is_pure_binary};
ghost use Rattle.cg_model.specs.Sound as spec;
ghost use Rattle.cg_model.specs.Sound.{Allowed, is_allowed};
ghost use Rattle.cg_model.specs.Matching as matching;
ghost use Rattle.cg_model.specs.declared.rtl.Op.TheVariants as op;
ghost use Rattle.cg_model.specs.declared.rtl.Rtl.{out-Rtl};
ghost use Rattle.cg_model_pure.specs.Evaluable as evaluable;

use crate::ends::{end_of, last_end};
use cg_base::{BinaryOp, Mode, bits};
use cg_desc_check_format::fields_of_part;
use cg_model::{Field, Machine, Op, Part, Rtl};
use cg_modes::named::binary;

/// A rule of what may stand at a node.
pub(crate) trait Allows {
    /// What may.
    ghost allowed: { Self → Allowed };

    /// Whether the outermost node of an expression may stand there.
    fn allows(&self, rtl: &Rtl) -> bool
        ensures { result ≡ allowed self.now (out-Rtl rtl.now).op (out-Rtl rtl.now).mode (out-Rtl rtl.now).number };
}

/// Whether all nodes of an expression may stand where they do.
#[tactic(auto, using(crate::proofs::Nodes::node_rules))]
pub(crate) fn all_allowed<A: Allows>(rule: &A, rtl: &Rtl) -> bool
    ensures { result ≡ is_allowed (A.allowed rule.now) rtl.now }
{
    if !rule.allows(rtl) {
        return false;
    }
    for item in rtl.items.as_slice() {
        if !all_allowed(rule, item) {
            return false;
        }
    }
    true
}

/// Only what is pure.
#[derive(Drop)]
pub(crate) struct Pure;

/// Whether an operation on two numbers is pure: it is, where it does not divide.
fn is_pure_two(rtl: &Rtl) -> bool
    ensures { result ≡ is_pure_binary (at_number binary_ops (out-Rtl rtl.now).number) }
{
    match binary(rtl.number) {
        Some(BinaryOp::Div) => false,
        Some(BinaryOp::Udiv) => false,
        Some(BinaryOp::Mod) => false,
        Some(BinaryOp::Umod) => false,
        _ => true,
    }
}

impl Allows for Pure {
    ghost allowed = { λ s o mode n. is_pure_op o n };

    fn allows(&self, rtl: &Rtl) -> bool {
        match rtl.op {
            Op::Binary => is_pure_two(rtl),
            Op::Local => false,
            Op::OperandRef => false,
            Op::Index => false,
            Op::NewVal => false,
            Op::IndexOf => false,
            Op::Sequence => false,
            Op::Parallel => false,
            Op::Set => false,
            Op::Reg => false,
            Op::RawReg => false,
            Op::Mem => false,
            Op::Delay => false,
            Op::Error => false,
            Op::Halt => false,
            _ => true,
        }
    }
}

/// Whether a mode that was written has as many bits as another.
fn is_own(own: Mode, mode: Option<Mode>) -> bool
    ensures { result ≡ spec.is_mode own mode }
{
    match mode {
        Some(mode) => bits(mode) == bits(own),
        None => false,
    }
}

/// What may stand in rules of one value.
#[derive(Drop)]
pub(crate) struct OfValue {
    pub own: Mode,
}

impl Allows for OfValue {
    ghost allowed = { λ s. spec.of_value s.own };

    fn allows(&self, rtl: &Rtl) -> bool {
        match rtl.op {
            Op::Value => is_own(self.own, rtl.mode),
            Op::FieldRef => false,
            Op::MultiRef => false,
            _ => true,
        }
    }
}

/// Whether a number stands among some.
fn is_among(number: usize, fields: &[u16]) -> bool
    ensures { result ≡ spec.is_among number fields.now }
{
    for k in fields {
        if *k as usize == number {
            return true;
        }
    }
    false
}

/// Whether an expression names one of some fields.
fn names_among(fields: &[u16], rtl: &Rtl) -> bool
    ensures { result ≡ spec.names_among fields.now (out-Rtl rtl.now).number }
{
    if rtl.number < 0 {
        return false;
    }
    is_among(rtl.number as usize, fields)
}

/// What may stand in rules of fields.
#[derive(Drop)]
pub(crate) struct OfFields<'a> {
    pub fields: &'a [u16],
}

impl Allows for OfFields<'_> {
    ghost allowed = { λ s. spec.of_fields s.fields.now };

    fn allows(&self, rtl: &Rtl) -> bool {
        match rtl.op {
            Op::Value => false,
            Op::FieldRef => names_among(self.fields, rtl),
            Op::MultiRef => false,
            _ => true,
        }
    }
}

/// Whether a number is that of a field of a format.
#[tactic(auto, using(crate::proofs::Nodes::among_rules))]
fn is_in_format(machine: &Machine, parts: &[Part], number: usize) -> bool
    ensures { result ≡ spec.is_among number (matching.fields_of_parts machine.now parts.now) }
{
    for part in parts {
        if is_among(number, fields_of_part(machine, part)) {
            return true;
        }
    }
    false
}

/// Whether a field has no rules.
fn is_ruleless(field: &Field) -> bool
    ensures { result ≡ not (spec.has_rules field.now) }
{
    field.encode.is_none() && field.decode.is_none()
}

/// Whether the field that an expression names has its bits for a value.
fn is_plain(machine: &Machine, rtl: &Rtl) -> bool
    ensures { result ≡ spec.is_plain machine.now (out-Rtl rtl.now).number }
{
    if rtl.number < 0 {
        return false;
    }
    match machine.fields.get(rtl.number as usize) {
        Some(field) => is_ruleless(field),
        None => false,
    }
}

/// What may stand in assertions.
#[derive(Drop)]
pub(crate) struct OfFormat<'a> {
    pub machine: &'a Machine,
    pub parts: &'a [Part],
}

/// Whether an expression names a plain field of a format.
fn names_plain(machine: &Machine, parts: &[Part], rtl: &Rtl) -> bool
    ensures { result ≡ spec.of_format machine.now (matching.fields_of_parts machine.now parts.now) op.FieldRef (out-Rtl rtl.now).mode (out-Rtl rtl.now).number }
{
    if rtl.number < 0 {
        return false;
    }
    is_in_format(machine, parts, rtl.number as usize) && is_plain(machine, rtl)
}

impl Allows for OfFormat<'_> {
    ghost allowed = { λ s. spec.of_format s.machine.now (matching.fields_of_parts s.machine.now s.parts.now) };

    fn allows(&self, rtl: &Rtl) -> bool {
        match rtl.op {
            Op::Value => false,
            Op::Pc => false,
            Op::FieldRef => names_plain(self.machine, self.parts, rtl),
            Op::MultiRef => false,
            _ => true,
        }
    }
}

/// What may stand in an expression that is evaluated over bytes.
#[derive(Drop)]
pub(crate) struct Held<'a> {
    pub machine: &'a Machine,
    pub value: u64,
    pub bytes: &'a [u8],
}

/// Whether a value has no more bits than a mode.
fn fits(value: u64, mode: Option<Mode>) -> bool
    ensures { result ≡ nat_lt value (2 ^ bits_of (unwrap_or mode Void)) }
{
    match mode {
        Some(mode) => (value as u128) < 1 << bits(mode),
        None => value < 1,
    }
}

/// Whether bytes hold the word of the field that an expression names.
fn holds_field(machine: &Machine, bytes: &[u8], rtl: &Rtl) -> bool
    ensures { result ≡ evaluable.holds_field machine.now bytes.now (out-Rtl rtl.now).number }
{
    if rtl.number < 0 {
        return true;
    }
    end_of(machine, rtl.number as usize) as u128 <= 8 * bytes.len() as u128
}

/// Whether bytes hold the words of the multi field that an expression names.
fn holds_multi(machine: &Machine, bytes: &[u8], rtl: &Rtl) -> bool
    ensures { result ≡ evaluable.holds_multi machine.now bytes.now (out-Rtl rtl.now).number }
{
    if rtl.number < 0 {
        return true;
    }
    match machine.multis.get(rtl.number as usize) {
        Some(multi) => {
            last_end(machine, multi.subs.as_slice()) as u128 <= 8 * bytes.len() as u128
        }
        None => true,
    }
}

impl Allows for Held<'_> {
    ghost allowed = { λ s. evaluable.is_held s.machine.now s.value s.bytes.now };

    #[tactic(auto, unfolding(cg_model_pure::specs::Evaluable::is_held))]
    fn allows(&self, rtl: &Rtl) -> bool {
        match rtl.op {
            Op::Value => fits(self.value, rtl.mode),
            Op::FieldRef => holds_field(self.machine, self.bytes, rtl),
            Op::MultiRef => holds_multi(self.machine, self.bytes, rtl),
            _ => true,
        }
    }
}
