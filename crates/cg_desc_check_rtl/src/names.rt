ghost use Rattle.std.specs.Prelude.{◌≡◌, not};
ghost use Rattle.cg_base.specs.Refusing.{first};
ghost use Rattle.cg_model.specs.Matching.{fields_of_parts};
ghost use Rattle.cg_model.specs.Operators.{at_number};
ghost use Rattle.cg_model.specs.declared.rtl.Rtl.{out-Rtl};
ghost use Rattle.cg_model_faults.specs.declared.fault.Said.TheVariants as said;
ghost use Rattle.cg_model_faults.specs.declared.fault.Said.TheVariants.{Nothing};
ghost use Rattle.cg_model_faults.specs.E306 as spec;
ghost use Rattle.cg_model_faults.specs.E313.{part_operands, slot_operands};
ghost use Rattle.cg_model_faults.specs.Finding.{at_place, where_so, stands_in};
ghost use Rattle.cg_desc_check_rtl.specs.Named.{nameable};

use crate::walk::{NodeRule, first_in};
use cg_base::refusals;
use cg_desc_check_format::fields_of_part;
use cg_model::{Machine, Op, Part, Rtl, Source};
use cg_model_faults::{MachineFault, Said};

/// Where an expression stands that names fields and operands.
#[derive(Clone, Copy)]
pub enum Standing<'a> {
    /// In the semantics of an instruction of this format.
    Semantics(&'a [Part]),
    /// In the assertion of an instruction of this format.
    Assertion(&'a [Part]),
    /// In a get or set rule.
    Hardware,
}

/// Whether a field is one of some.
#[tactic(auto, using(crate::proofs::Nodes::node_rules))]
pub(crate) fn is_among(fields: &[u16], k: usize) -> bool
    ensures { result ≡ stands_in fields.now k }
{
    for each in fields {
        if *each as usize == k {
            return true;
        }
    }
    false
}

/// Whether a part is a field's, by a constant or by a slot.
fn is_of_field(machine: &Machine, part: Part, k: usize) -> bool
    ensures { result ≡ stands_in (spec.part_fields machine.now part) k }
{
    match part {
        Part::Constant { field, .. } => field as usize == k,
        Part::Slot { operand } => match machine.operands.get(operand as usize) {
            Some(operand) => match operand.source {
                Source::Field(field) => field as usize == k,
                _ => false,
            },
            None => false,
        },
    }
}

/// Whether a part is a multi field's.
fn is_of_multi(machine: &Machine, part: Part, k: usize) -> bool
    ensures { result ≡ stands_in (spec.part_multis machine.now part) k }
{
    match part {
        Part::Constant { .. } => false,
        Part::Slot { operand } => match machine.operands.get(operand as usize) {
            Some(operand) => match operand.source {
                Source::Multi(multi) => multi as usize == k,
                _ => false,
            },
            None => false,
        },
    }
}

/// Whether a format has a field, by a constant or by a slot.
#[tactic(auto, using(crate::proofs::Nodes::among_rules))]
fn has_field(machine: &Machine, parts: &[Part], k: usize) -> bool
    ensures { result ≡ stands_in (spec.format_fields machine.now parts.now) k }
{
    for part in parts {
        if is_of_field(machine, *part, k) {
            return true;
        }
    }
    false
}

/// Whether a format has a multi field.
#[tactic(auto, using(crate::proofs::Nodes::among_rules))]
fn has_multi(machine: &Machine, parts: &[Part], k: usize) -> bool
    ensures { result ≡ stands_in (spec.format_multis machine.now parts.now) k }
{
    for part in parts {
        if is_of_multi(machine, *part, k) {
            return true;
        }
    }
    false
}

/// Whether a format has a field, by itself or by a multi field.
#[tactic(auto, using(crate::proofs::Nodes::among_rules))]
fn covers_field(machine: &Machine, parts: &[Part], k: usize) -> bool
    ensures { result ≡ stands_in (fields_of_parts machine.now parts.now) k }
{
    for part in parts {
        if is_among(fields_of_part(machine, part), k) {
            return true;
        }
    }
    false
}

/// Whether a part is the slot of an operand.
fn is_slot(part: Part, k: usize) -> bool
    ensures { result ≡ stands_in (part_operands part) k }
{
    match part {
        Part::Constant { .. } => false,
        Part::Slot { operand } => operand as usize == k,
    }
}

/// Whether a format has a slot of an operand.
#[tactic(auto, using(crate::proofs::Nodes::among_rules))]
fn has_slot(parts: &[Part], k: usize) -> bool
    ensures { result ≡ stands_in (slot_operands parts.now) k }
{
    for part in parts {
        if is_slot(*part, k) {
            return true;
        }
    }
    false
}

/// Whether a field may be named.
fn may_name_field(machine: &Machine, standing: Standing, k: usize) -> bool
    ensures { result ≡ stands_in (nameable machine.now standing.entry).fields k }
{
    match standing {
        Standing::Semantics(parts) => has_field(machine, parts, k),
        Standing::Assertion(parts) => covers_field(machine, parts, k),
        Standing::Hardware => false,
    }
}

/// Whether a multi field may be named.
fn may_name_multi(machine: &Machine, standing: Standing, k: usize) -> bool
    ensures { result ≡ stands_in (nameable machine.now standing.entry).multis k }
{
    match standing {
        Standing::Semantics(parts) => has_multi(machine, parts, k),
        Standing::Assertion(parts) => has_multi(machine, parts, k),
        Standing::Hardware => false,
    }
}

/// Whether an operand that has a field may be named.
fn may_name_operand(machine: &Machine, standing: Standing, k: usize) -> bool
    ensures { result ≡ stands_in (nameable machine.now standing.entry).operands k }
{
    match standing {
        Standing::Semantics(parts) => has_slot(parts, k),
        Standing::Assertion(parts) => has_slot(parts, k),
        Standing::Hardware => false,
    }
}

/// The fault of what may not be named.
fn stray(may: bool, text: Said) -> Option<MachineFault>
    ensures { result ≡ first (where_so (not may) (at_place 306 0 text Nothing)) }
{
    if may {
        return None;
    }
    Some(MachineFault {
        number: refusals::UNDEFINED_NAME,
        place: 0,
        text,
        other: Said::Nothing,
    })
}

/// The fault of the name of a field.
fn stray_field(machine: &Machine, standing: Standing, rtl: &Rtl) -> Option<MachineFault>
    ensures { result ≡ first (spec.stray (nameable machine.now standing.entry).fields said.Field (out-Rtl rtl.now).number) }
{
    if rtl.number < 0 {
        return None;
    }
    let k = rtl.number as usize;
    stray(may_name_field(machine, standing, k), Said::Field(k))
}

/// The fault of the name of a multi field.
fn stray_multi(machine: &Machine, standing: Standing, rtl: &Rtl) -> Option<MachineFault>
    ensures { result ≡ first (spec.stray (nameable machine.now standing.entry).multis said.Multi (out-Rtl rtl.now).number) }
{
    if rtl.number < 0 {
        return None;
    }
    let k = rtl.number as usize;
    stray(may_name_multi(machine, standing, k), Said::Multi(k))
}

/// Whether an operand has a field or a multi field.
fn lies_in_fields(source: Source) -> bool
    ensures { result ≡ spec.has_field source }
{
    match source {
        Source::Field(_) => true,
        Source::Multi(_) => true,
        _ => false,
    }
}

/// The fault of the name of an operand, or of its index.
fn stray_operand(machine: &Machine, standing: Standing, rtl: &Rtl) -> Option<MachineFault>
    ensures { result ≡ first (spec.stray_operand machine.now (nameable machine.now standing.entry).operands (out-Rtl rtl.now).number) }
{
    if rtl.number < 0 {
        return None;
    }
    let k = rtl.number as usize;
    if !lies_in_fields(machine.operands.get(k)?.source) {
        return None;
    }
    stray(may_name_operand(machine, standing, k), Said::Operand(k))
}

/// The rule that an expression names what may be named where it stands.
#[derive(Drop)]
pub struct Names<'a> {
    /// The machine.
    pub machine: &'a Machine,
    /// Where the expression stands.
    pub standing: Standing<'a>,
}

impl NodeRule for Names<'_> {
    ghost faults = { λ r. spec.stray_at r.machine.now (nameable r.machine.now r.standing) };

    #[tactic(auto, unfolding(cg_model_faults::specs::E306::stray_at))]
    fn first_at(&self, rtl: &Rtl) -> Option<MachineFault> {
        match rtl.op {
            Op::FieldRef => stray_field(self.machine, self.standing, rtl),
            Op::MultiRef => stray_multi(self.machine, self.standing, rtl),
            Op::OperandRef => stray_operand(self.machine, self.standing, rtl),
            Op::IndexOf => stray_operand(self.machine, self.standing, rtl),
            _ => None,
        }
    }
}

/// E306: an expression names a field, a multi field, or an operand that has one of these, that can't be
/// named where it stands. A number that names nothing is not judged here.
pub fn first_stray(machine: &Machine, standing: Standing, rtl: &Rtl) -> Option<MachineFault>
    ensures { result ≡ first (spec.strays machine.now (nameable machine.now standing.entry) rtl.now) }
{
    first_in(&Names { machine, standing }, rtl)
}
