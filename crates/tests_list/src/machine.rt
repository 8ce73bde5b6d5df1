//! A machine whose instructions have one word of 16 bits.

use cg_base::{Endian, List, Mode, NoMemory, Text};
use cg_model::{
    Alignment, Field, Hardware, HwKind, Insn, Machine, Op, Operand, Part, Piece, Rtl, Source,
};
use std::alloc::Global;

/// Fields by the bits below them and their own: an operation, a register, and a number.
static FIELDS: [(u8, u8); 3] = [(12, 4), (8, 4), (0, 8)];

/// Instructions by their first word, what the operation's field holds, and how many slots they have, of the
/// register and the number.
static INSNS: [(&'static [u8], u64, u8); 2] = [(b"ldi ", 2, 2), (b"halt ", 4, 1)];

/// The fields.
fn fields(alloc: Global) -> Result<List<Field>, NoMemory> {
    let mut fields = List::new(alloc);
    for (shift, length) in FIELDS {
        fields.push(Field {
            name: Text::new(alloc),
            word_offset: 0,
            word_bits: 16,
            shift,
            length,
            mode: Mode::Usi,
            encode: None,
            decode: None,
        })?;
    }
    Ok(fields)
}

/// Numbers that are part of an instruction.
fn numbers(alloc: Global) -> Hardware {
    Hardware {
        name: Text::new(alloc),
        kind: HwKind::Immediate,
        mode: Mode::Usi,
        count: 0,
        keyword: None,
        get: None,
        set: None,
    }
}

/// An operand whose value stands in a field.
fn operand(alloc: Global, field: u16) -> Operand {
    Operand {
        name: Text::new(alloc),
        hardware: 0,
        source: Source::Field(field),
    }
}

/// A word, and slots with commas between.
fn pieces(alloc: Global, word: &[u8], slots: u8) -> Result<List<Piece>, NoMemory> {
    let mut pieces = List::new(alloc);
    pieces.push(Piece::Literal(Text::of(alloc, word)?))?;
    for k in 0..slots {
        if k > 0 {
            pieces.push(Piece::Literal(Text::of(alloc, b",")?))?;
        }
        pieces.push(Piece::Slot(k))?;
    }
    Ok(pieces)
}

/// An operation, and slots.
fn parts(alloc: Global, operation: u64, slots: u8) -> Result<List<Part>, NoMemory> {
    let mut parts = List::new(alloc);
    parts.push(Part::Constant {
        field: 0,
        value: operation,
    })?;
    for k in 0..slots {
        parts.push(Part::Slot {
            operand: u16::from(k),
        })?;
    }
    Ok(parts)
}

/// An instruction that does nothing.
fn insn(alloc: Global, pieces: List<Piece>, parts: List<Part>) -> Insn {
    Insn {
        name: Text::new(alloc),
        pieces,
        parts,
        assertion: None,
        decodable: true,
        cycles: 1,
        semantics: Rtl {
            op: Op::Nop,
            mode: None,
            number: 0,
            items: List::new(alloc),
        },
    }
}

/// The first so many instructions.
fn insns(alloc: Global, count: usize) -> Result<List<Insn>, NoMemory> {
    let mut insns = List::new(alloc);
    for (word, operation, slots) in INSNS.iter().take(count) {
        let pieces = pieces(alloc, word, *slots)?;
        let parts = parts(alloc, *operation, *slots)?;
        insns.push(insn(alloc, pieces, parts))?;
    }
    Ok(insns)
}

/// The machine with the first so many instructions.
pub(crate) fn machine(alloc: Global, count: usize) -> Result<Machine, NoMemory> {
    let mut hardware = List::new(alloc);
    hardware.push(numbers(alloc))?;
    let mut operands = List::new(alloc);
    operands.push(operand(alloc, 1))?;
    operands.push(operand(alloc, 2))?;
    Ok(Machine {
        name: Text::new(alloc),
        lsb0: false,
        alignment: Alignment::Aligned,
        word_bits: 32,
        insn_endian: Endian::Big,
        data_endian: Endian::Big,
        base_bits: 16,
        bundle: None,
        width: 1,
        fields: fields(alloc)?,
        multis: List::new(alloc),
        hardware,
        operands,
        insns: insns(alloc, count)?,
        macros: List::new(alloc),
        texts: List::new(alloc),
    })
}

/// A part of a format that is always the same.
fn constant(field: u16, value: u64) -> Part {
    Part::Constant { field, value }
}

/// A machine of 1,024 instructions, each with constants of its own, ten bits of which differ.
pub(crate) fn many(alloc: Global) -> Result<Machine, NoMemory> {
    let mut made = machine(alloc, 0)?;
    for k in 0..1024u64 {
        let mut parts = List::new(alloc);
        parts.push(constant(0, k / 64))?;
        parts.push(constant(1, k / 4 % 16))?;
        parts.push(constant(2, k % 4))?;
        made.insns.push(insn(alloc, List::new(alloc), parts))?;
    }
    Ok(made)
}
