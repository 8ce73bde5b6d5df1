use crate::Rtl;
use cg_base::{List, Mode, Text};

/// Some bits of an instruction (docs/LANGUAGE.md, "Fields").
#[derive(Drop)]
pub struct Field {
    /// Its name.
    pub name: Text,
    /// Where its word begins: a bit of the instruction, and a multiple of 8.
    pub word_offset: u16,
    /// The bits of its word: a multiple of 8 from 8 to 64.
    pub word_bits: u8,
    /// How many bits of the word lie below it.
    pub shift: u8,
    /// Its own bits, from 1 on.
    pub length: u8,
    /// The mode of its value.
    pub mode: Mode,
    /// What its bits are for a value, where that isn't the value itself.
    pub encode: Option<Rtl>,
    /// What its value is for its bits, where that isn't their number.
    pub decode: Option<Rtl>,
}

/// A value that lies in several fields.
#[derive(Drop)]
pub struct Multi {
    /// Its name.
    pub name: Text,
    /// The mode of its value.
    pub mode: Mode,
    /// The numbers of its fields.
    pub subs: List<u16>,
    /// For each of its fields the field's value, by the multi field's.
    pub insert: List<Rtl>,
    /// Its value, by those of its fields.
    pub extract: Rtl,
}
