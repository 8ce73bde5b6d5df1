//! What the words of a line say.

use cg_base::{Mode, NoMemory, Text, read_digits, read_number};
use cg_model::Op;
use std::alloc::Global;

/// The words for modes.
static MODES: [(&[u8], Mode); 10] = [
    (b"BI", Mode::Bi),
    (b"QI", Mode::Qi),
    (b"HI", Mode::Hi),
    (b"SI", Mode::Si),
    (b"DI", Mode::Di),
    (b"UQI", Mode::Uqi),
    (b"UHI", Mode::Uhi),
    (b"USI", Mode::Usi),
    (b"UDI", Mode::Udi),
    (b"VOID", Mode::Void),
];

/// The words for what expressions do.
static OPS: [(&[u8], Op); 22] = [
    (b"number", Op::Number),
    (b"value", Op::Value),
    (b"pc", Op::Pc),
    (b"field", Op::FieldRef),
    (b"multi", Op::MultiRef),
    (b"unary", Op::Unary),
    (b"binary", Op::Binary),
    (b"ternary", Op::Ternary),
    (b"andif", Op::AndIf),
    (b"orif", Op::OrIf),
    (b"ext", Op::Ext),
    (b"zext", Op::Zext),
    (b"trunc", Op::Trunc),
    (b"subword", Op::Subword),
    (b"join", Op::Join),
    (b"if", Op::If),
    (b"cond", Op::Cond),
    (b"case", Op::Case),
    (b"arm", Op::Arm),
    (b"declare", Op::Declare),
    (b"index", Op::Index),
    (b"sequence", Op::Sequence),
];

/// A word, and no bytes where there is none.
pub(crate) fn word_at(words: &[Text], i: usize) -> &[u8] {
    match words.get(i) {
        Some(word) => word.as_slice(),
        None => &[],
    }
}

/// The number that a word writes, and 0 where it writes none.
pub(crate) fn number_at(words: &[Text], i: usize) -> u64 {
    match read_number(word_at(words, i)) {
        Some(number) => number,
        None => 0,
    }
}

/// A number below 2^8.
pub(crate) fn small_at(words: &[Text], i: usize) -> u8 {
    (number_at(words, i) % 0x100) as u8
}

/// A number below 2^16.
pub(crate) fn half_at(words: &[Text], i: usize) -> u16 {
    (number_at(words, i) % 0x1_0000) as u16
}

/// The number that a word writes with or without a sign.
pub(crate) fn signed_at(words: &[Text], i: usize) -> i64 {
    let (negative, digits) = match word_at(words, i) {
        [b'-', digits @ ..] => (true, digits),
        digits => (false, digits),
    };
    let magnitude = match read_number(digits) {
        Some(number) => (number % 0x8000_0000_0000_0000) as i64,
        None => 0,
    };
    if negative { -magnitude } else { magnitude }
}

/// The mode that a word names.
pub(crate) fn mode_at(words: &[Text], i: usize) -> Option<Mode> {
    let word = word_at(words, i);
    for (name, mode) in &MODES {
        if *name == word {
            return Some(*mode);
        }
    }
    None
}

/// What a word lets an expression do.
pub(crate) fn op_at(words: &[Text], i: usize) -> Op {
    let word = word_at(words, i);
    for (name, op) in &OPS {
        if *name == word {
            return *op;
        }
    }
    Op::Nop
}

/// The bytes that a word writes by two hexadecimal digits each.
pub(crate) fn bytes_at(alloc: Global, words: &[Text], i: usize) -> Result<Text, NoMemory> {
    let word = word_at(words, i);
    let mut bytes = Text::new(alloc);
    for k in 0..word.len() / 2 {
        if let Some(byte) = read_digits(16, &word[2 * k..2 * k + 2]) {
            bytes.push((byte % 0x100) as u8)?;
        }
    }
    Ok(bytes)
}
