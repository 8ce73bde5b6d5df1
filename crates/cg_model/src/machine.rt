use crate::{Field, Hardware, Insn, MacroInsn, Multi, Operand};
use cg_base::{Endian, List, Text};

/// What happens where an access to memory is not at a multiple of its width.
#[derive(Clone, Copy, Debug, PartialEq, Eq)]
pub enum Alignment {
    /// It traps.
    Aligned,
    /// It is made as it is.
    Unaligned,
    /// The low bits of its address are cleared.
    Forced,
}

/// A machine: all that a description says of one of its machines, with names as numbers
/// (docs/LANGUAGE.md, "Machines").
#[derive(Drop)]
pub struct Machine {
    /// Its name.
    pub name: Text,
    /// Whether bits are numbered from the least significant.
    pub lsb0: bool,
    /// What happens to accesses that are not aligned.
    pub alignment: Alignment,
    /// The bits of the cpu's word: 8, 16, 32 or 64.
    pub word_bits: u8,
    /// The order of the bytes of an instruction's words.
    pub insn_endian: Endian,
    /// The order of the bytes of data.
    pub data_endian: Endian,
    /// The bits of the shortest instruction: a multiple of 8 from 8 to 64.
    pub base_bits: u8,
    /// The field that says whether another instruction of the bundle follows.
    pub bundle: Option<u16>,
    /// How many instructions a bundle may have, from 1 to 8.
    pub width: u8,
    /// Its fields.
    pub fields: List<Field>,
    /// Its multi fields.
    pub multis: List<Multi>,
    /// Its hardware, the built-in ones first.
    pub hardware: List<Hardware>,
    /// Its operands.
    pub operands: List<Operand>,
    /// Its instructions.
    pub insns: List<Insn>,
    /// Its macro instructions.
    pub macros: List<MacroInsn>,
    /// The texts of its `error` traps, each once.
    pub texts: List<Text>,
}
