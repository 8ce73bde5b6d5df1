//! Machines that lines make, an element a line.

use crate::words::{half_at, mode_at, number_at, op_at, signed_at, small_at, word_at};
use cg_base::{Endian, List, Mode, NoMemory, Text};
use cg_model::{
    Alignment, Field, Hardware, HwKind, Insn, Machine, Multi, Op, Operand, Part, Rtl, Source,
};
use std::alloc::Global;
use std::mem;

/// A machine, and what the lines so far say of its next element.
#[derive(Drop)]
pub(crate) struct Building {
    pub machine: Machine,
    /// Rules that put a value into bits.
    puts: Vec<Rtl>,
    /// Rules that get a value from bits, and assertions.
    gets: Vec<Rtl>,
    parts: List<Part>,
}

impl Building {
    /// A machine without elements, by a line `machine WORD_BITS BASE_BITS ENDIAN`.
    pub(crate) fn new(alloc: Global, words: &[Text]) -> Building {
        let endian = if word_at(words, 3) == b"little".as_slice() {
            Endian::Little
        } else {
            Endian::Big
        };
        Building {
            machine: empty(alloc, small_at(words, 1), small_at(words, 2), endian),
            puts: Vec::new(alloc),
            gets: Vec::new(alloc),
            parts: List::new(alloc),
        }
    }
}

/// A machine without elements.
fn empty(alloc: Global, word_bits: u8, base_bits: u8, insn_endian: Endian) -> Machine {
    Machine {
        name: Text::new(alloc),
        lsb0: false,
        alignment: Alignment::Aligned,
        word_bits,
        insn_endian,
        data_endian: Endian::Big,
        base_bits,
        bundle: None,
        width: 1,
        fields: List::new(alloc),
        multis: List::new(alloc),
        hardware: List::new(alloc),
        operands: List::new(alloc),
        insns: List::new(alloc),
        macros: List::new(alloc),
        texts: List::new(alloc),
    }
}

/// An expression that does nothing.
fn nop(alloc: Global) -> Rtl {
    Rtl {
        op: Op::Nop,
        mode: None,
        number: 0,
        items: List::new(alloc),
    }
}

/// The last expression, and one that does nothing where there is none.
fn last(alloc: Global, rules: &mut Vec<Rtl>) -> Rtl {
    match rules.pop() {
        Some(rtl) => rtl,
        None => nop(alloc),
    }
}

/// Takes the items of a node, so many, from the end of some expressions, and puts the node there.
fn put_node(words: &[Text], done: &mut Vec<Rtl>) -> Result<(), NoMemory> {
    let count = small_at(words, 3) as usize;
    if count > done.len() {
        return Ok(());
    }
    let items = done.split_off(done.len() - count)?;
    done.push(Rtl {
        op: op_at(words, 0),
        mode: mode_at(words, 1),
        number: signed_at(words, 2),
        items: List::from_vec(items),
    })?;
    Ok(())
}

/// The expression that words from a place on write, each node by four words behind those of its items: what it
/// does, its mode, its number, and how many items it has.
pub(crate) fn expression(alloc: Global, words: &[Text], from: usize) -> Result<Rtl, NoMemory> {
    let mut done = Vec::new(alloc);
    for k in 0..words.len().saturating_sub(from) / 4 {
        put_node(&words[from + 4 * k..], &mut done)?;
    }
    Ok(last(alloc, &mut done))
}

/// A line `field OFFSET WORD_BITS SHIFT LENGTH MODE`.
fn add_field(alloc: Global, words: &[Text], to: &mut Building) -> Result<(), NoMemory> {
    let encode = to.puts.pop();
    let decode = to.gets.pop();
    to.machine.fields.push(Field {
        name: Text::new(alloc),
        word_offset: half_at(words, 1),
        word_bits: small_at(words, 2),
        shift: small_at(words, 3),
        length: small_at(words, 4),
        mode: mode_at(words, 5).unwrap_or(Mode::Void),
        encode,
        decode,
    })
}

/// A line `multi MODE FIELD..`.
fn add_multi(alloc: Global, words: &[Text], to: &mut Building) -> Result<(), NoMemory> {
    let mut subs = List::new(alloc);
    for k in 2..words.len() {
        subs.push(half_at(words, k))?;
    }
    let insert = mem::replace(&mut to.puts, Vec::new(alloc));
    let extract = last(alloc, &mut to.gets);
    to.machine.multis.push(Multi {
        name: Text::new(alloc),
        mode: mode_at(words, 1).unwrap_or(Mode::Void),
        subs,
        insert: List::from_vec(insert),
        extract,
    })
}

/// The kind of hardware that a word names.
fn kind_of(word: &[u8]) -> HwKind {
    if word == b"register".as_slice() {
        HwKind::Register
    } else if word == b"address".as_slice() {
        HwKind::Address
    } else {
        HwKind::Immediate
    }
}

/// A line `hardware KIND MODE`.
fn add_hardware(alloc: Global, words: &[Text], to: &mut Building) -> Result<(), NoMemory> {
    to.machine.hardware.push(Hardware {
        name: Text::new(alloc),
        kind: kind_of(word_at(words, 1)),
        mode: mode_at(words, 2).unwrap_or(Mode::Void),
        count: 0,
        keyword: None,
        get: None,
        set: None,
    })
}

/// The source that the third and the fourth word name.
fn source_of(words: &[Text]) -> Source {
    let word = word_at(words, 2);
    if word == b"field".as_slice() {
        Source::Field(half_at(words, 3))
    } else if word == b"multi".as_slice() {
        Source::Multi(half_at(words, 3))
    } else if word == b"fixed".as_slice() {
        Source::Fixed(number_at(words, 3))
    } else {
        Source::None
    }
}

/// A line `operand HARDWARE SOURCE NUMBER`.
fn add_operand(alloc: Global, words: &[Text], to: &mut Building) -> Result<(), NoMemory> {
    to.machine.operands.push(Operand {
        name: Text::new(alloc),
        hardware: half_at(words, 1),
        source: source_of(words),
    })
}

/// A line `insn`, or `alias` for one that nothing is decoded to, behind those of its parts and its assertion.
fn add_insn(alloc: Global, words: &[Text], to: &mut Building) -> Result<(), NoMemory> {
    let parts = mem::replace(&mut to.parts, List::new(alloc));
    let assertion = to.gets.pop();
    to.machine.insns.push(Insn {
        name: Text::new(alloc),
        pieces: List::new(alloc),
        parts,
        assertion,
        decodable: word_at(words, 0) == b"insn".as_slice(),
        cycles: 1,
        semantics: nop(alloc),
    })
}

/// Puts what a line says of expressions and parts. Answers false where it says nothing of them.
fn put_part(alloc: Global, words: &[Text], to: &mut Building) -> Result<bool, NoMemory> {
    let word = word_at(words, 0);
    if word == b"put".as_slice() {
        to.puts.push(expression(alloc, words, 1)?)?;
    } else if word == b"get".as_slice() {
        to.gets.push(expression(alloc, words, 1)?)?;
    } else if word == b"constant".as_slice() {
        to.parts.push(Part::Constant {
            field: half_at(words, 1),
            value: number_at(words, 2),
        })?;
    } else if word == b"slot".as_slice() {
        to.parts.push(Part::Slot {
            operand: half_at(words, 1),
        })?;
    } else {
        return Ok(false);
    }
    Ok(true)
}

/// Puts the element that a line makes. Answers false where it makes none.
pub(crate) fn put_element(
    alloc: Global,
    words: &[Text],
    to: &mut Building,
) -> Result<bool, NoMemory> {
    let word = word_at(words, 0);
    if word == b"field".as_slice() {
        add_field(alloc, words, to)?;
    } else if word == b"multi".as_slice() {
        add_multi(alloc, words, to)?;
    } else if word == b"hardware".as_slice() {
        add_hardware(alloc, words, to)?;
    } else if word == b"operand".as_slice() {
        add_operand(alloc, words, to)?;
    } else if word == b"insn".as_slice() || word == b"alias".as_slice() {
        add_insn(alloc, words, to)?;
    } else {
        return put_part(alloc, words, to);
    }
    Ok(true)
}
