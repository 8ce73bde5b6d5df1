ghost use Rattle.std.specs.Prelude.{◌≡◌, ◌<◌, ◌^◌, Some};
ghost use Rattle.cg_model.specs.Covers.{AreInWords, IsInWord, is_near, near_cover, named_bits, own_bits};
ghost use Rattle.cg_code_mask.specs.Constants.{IsFitting, AreFitting, part_cover, part_value, parts_cover, parts_value};
ghost use Rattle.std.specs.Option.{option_copied};
ghost use Rattle.cg_model.specs.Operators.{at_number};
ghost use Rattle.cg_model.specs.declared.rtl.Rtl.{out-Rtl};

use crate::mask::{cover, put};
use cg_model::{Field, Insn, Machine, Op, Part, Rtl};

/// Constants among all bits.
#[derive(Clone, Copy)]
pub struct Constants {
    /// The bits that they cover.
    pub cover: u128,
    /// The constants in place.
    pub value: u128,
}

/// What a part of a format says of the bits.
#[tactic(auto, using(crate::proofs::Formats::of_part))]
pub fn part_constants(machine: &Machine, part: Part) -> Constants
    requires fitting { IsFitting machine.now part }
    ensures cover { result.cover ≡ part_cover machine.now part }
    ensures value { result.value ≡ part_value machine.now part }
{
    if let Part::Constant { field, value } = part {
        if let Some(field) = machine.fields.get(field as usize) {
            return Constants {
                cover: cover(machine, field),
                value: put(machine, field, value),
            };
        }
    }
    Constants { cover: 0, value: 0 }
}

/// The constants of a format.
#[tactic(auto, using(crate::proofs::Formats::of_parts))]
pub fn constants_of(machine: &Machine, insn: &Insn) -> Constants
    requires fitting { AreFitting machine.now insn.now.parts }
    ensures cover { result.cover ≡ parts_cover machine.now insn.now.parts }
    ensures value { result.value ≡ parts_value machine.now insn.now.parts }
{
    let mut all = Constants { cover: 0, value: 0 };
    for part in insn.parts.as_slice() {
        let own = part_constants(machine, *part);
        all.cover |= own.cover;
        all.value |= own.value;
    }
    all
}

/// The field that the number of an expression names. A negative one names none.
fn field_named<'a>(machine: &'a Machine, rtl: &Rtl) -> Option<&'a Field>
    ensures { option_copied result ≡ at_number machine.now.fields (out-Rtl rtl.now).number }
{
    if rtl.number < 0 {
        return None;
    }
    machine.fields.get(rtl.number as usize)
}

/// Whether a field's word lies within the 16 bytes that an instruction may have.
pub fn lies_near(field: &Field) -> bool
    ensures { result ≡ is_near field.now }
{
    field.word_offset as u32 + field.word_bits as u32 <= 128
}

/// The bits of a field that lies within 16 bytes.
#[tactic(auto, using(crate::proofs::Formats::of_part))]
fn near_bits(machine: &Machine, field: &Field) -> u128
    requires { IsInWord field.now }
    ensures { result ≡ near_cover machine.now (Some field.now) }
{
    if lies_near(field) {
        cover(machine, field)
    } else {
        0
    }
}

/// The bits of the field that an expression is, where it is one.
fn own_named(machine: &Machine, rtl: &Rtl) -> u128
    requires { AreInWords machine.now }
    ensures { result ≡ own_bits machine.now (out-Rtl rtl.now).op (out-Rtl rtl.now).number }
{
    if rtl.op == Op::FieldRef {
        return match field_named(machine, rtl) {
            Some(field) => near_bits(machine, field),
            None => 0,
        };
    }
    0
}

/// The bits that an expression names.
#[tactic(auto, using(crate::proofs::Formats::of_items))]
pub fn named(machine: &Machine, rtl: &Rtl) -> u128
    requires { AreInWords machine.now }
    ensures { result ≡ named_bits machine.now rtl.now }
{
    let mut bits = own_named(machine, rtl);
    for item in rtl.items.as_slice() {
        bits |= named(machine, item);
    }
    bits
}
