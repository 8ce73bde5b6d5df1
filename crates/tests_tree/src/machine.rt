//! Machines whose instructions have one word of 16 bits.

use cg_base::{Endian, List, Mode, NoMemory, Text};
use cg_model::{
    Alignment, Field, Hardware, HwKind, Insn, Machine, Op, Operand, Part, Piece, Rtl, Source,
};
use std::alloc::Global;

/// A constant: its field and what the field holds.
pub(crate) type Constant = (u16, u64);

/// A machine without instructions, with fields of these bits, each with the bits below it and its own.
pub(crate) fn empty(alloc: Global, bits: &[(u8, u8)]) -> Result<Machine, NoMemory> {
    let mut fields = List::new(alloc);
    for (shift, length) in bits {
        fields.push(Field {
            name: Text::new(alloc),
            word_offset: 0,
            word_bits: 16,
            shift: *shift,
            length: *length,
            mode: Mode::Usi,
            encode: None,
            decode: None,
        })?;
    }
    Ok(Machine {
        name: Text::new(alloc),
        lsb0: false,
        alignment: Alignment::Aligned,
        word_bits: 32,
        insn_endian: Endian::Big,
        data_endian: Endian::Big,
        base_bits: 16,
        bundle: None,
        width: 1,
        fields,
        multis: List::new(alloc),
        hardware: List::new(alloc),
        operands: List::new(alloc),
        insns: List::new(alloc),
        macros: List::new(alloc),
        texts: List::new(alloc),
    })
}

/// An expression without items.
fn leaf(alloc: Global, op: Op, number: i64) -> Rtl {
    Rtl {
        op,
        mode: None,
        number,
        items: List::new(alloc),
    }
}

/// An instruction that does nothing, with these constants.
pub(crate) fn insn(
    alloc: Global,
    constants: &[Constant],
    decodable: bool,
) -> Result<Insn, NoMemory> {
    let mut parts = List::new(alloc);
    for (field, value) in constants {
        parts.push(Part::Constant {
            field: *field,
            value: *value,
        })?;
    }
    Ok(Insn {
        name: Text::new(alloc),
        pieces: List::new(alloc),
        parts,
        assertion: None,
        decodable,
        cycles: 1,
        semantics: leaf(alloc, Op::Nop, 0),
    })
}

/// An operand whose value stands in a field.
pub(crate) fn add_operand(
    alloc: Global,
    machine: &mut Machine,
    field: u16,
) -> Result<(), NoMemory> {
    machine.hardware.push(Hardware {
        name: Text::new(alloc),
        kind: HwKind::Immediate,
        mode: Mode::Usi,
        count: 0,
        keyword: None,
        get: None,
        set: None,
    })?;
    machine.operands.push(Operand {
        name: Text::new(alloc),
        hardware: 0,
        source: Source::Field(field),
    })
}

/// An instruction with a constant and a slot for operand 0, which asserts what a comparison of a field
/// with 15 gives.
pub(crate) fn asserting(
    alloc: Global,
    constant: Constant,
    comparison: i64,
    field: i64,
) -> Result<Insn, NoMemory> {
    let mut made = insn(alloc, &[constant], true)?;
    made.parts.push(Part::Slot { operand: 0 })?;
    made.pieces.push(Piece::Slot(0))?;
    let mut rule = leaf(alloc, Op::Binary, comparison);
    rule.items.push(leaf(alloc, Op::FieldRef, field))?;
    rule.items.push(leaf(alloc, Op::Number, 15))?;
    made.assertion = Some(rule);
    Ok(made)
}
