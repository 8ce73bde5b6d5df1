ghost use Rattle.std.specs.Prelude.{◌≡◌, true};
ghost use Rattle.std.specs.List.{list_all};
ghost use Rattle.cg_desc_check_values.specs.Wholes.{is_frame, are_elements};
ghost use Rattle.cg_model.specs.Formed as spec;
ghost use Rattle.cg_base.specs.Modes.{address_mode, mode_place};
ghost use Rattle.cg_base.specs.Characters.{is_in_word};

use crate::standing::{are_expressions, is_expression, is_expression_where};
use cg_base::{Mode, address_mode, bits, is_in_word, mode_place};
use cg_model::{
    Field, Hardware, HwKind, Insn, Keyword, Machine, MacroInsn, Multi, NamedValue, Piece,
};

/// Whether bits are whole bytes, one to eight.
fn is_size(bits: u8) -> bool
    ensures { result ≡ spec.is_size bits }
{
    bits == 8 * (bits / 8) && bits >= 8 && bits <= 64
}

/// Whether values of a mode have bits.
fn has_bits(mode: Mode) -> bool
    ensures { result ≡ spec.has_bits mode }
{
    bits(mode) >= 1
}

/// Whether a field's word, mode and rules are such as may be.
fn is_field(field: &Field) -> bool
    ensures { result ≡ spec.is_field field.now }
{
    field.word_offset == 8 * (field.word_offset / 8)
        && is_size(field.word_bits)
        && has_bits(field.mode)
        && is_expression_where(&field.encode)
        && is_expression_where(&field.decode)
}

/// The same of all fields.
fn are_fields(fields: &[Field]) -> bool
    ensures { result ≡ list_all spec.is_field fields.now }
{
    for field in fields {
        if !is_field(field) {
            return false;
        }
    }
    true
}

/// Whether a multi field has a rule for each of its fields, and rules and a mode such as may be.
fn is_multi(multi: &Multi) -> bool
    ensures { result ≡ spec.is_multi multi.now }
{
    has_bits(multi.mode)
        && multi.insert.len() == multi.subs.len()
        && are_expressions(multi.insert.as_slice())
        && is_expression(&multi.extract)
}

/// The same of all multi fields.
fn are_multis(multis: &[Multi]) -> bool
    ensures { result ≡ list_all spec.is_multi multis.now }
{
    for multi in multis {
        if !is_multi(multi) {
            return false;
        }
    }
    true
}

/// Whether all of some may.
fn are_in_word(bytes: &[u8]) -> bool
    ensures { result ≡ list_all is_in_word bytes.now }
{
    for byte in bytes {
        if !is_in_word(*byte) {
            return false;
        }
    }
    true
}

/// Whether a word is one: a run of such characters, and not empty.
fn is_word(named: &NamedValue) -> bool
    ensures { result ≡ spec.is_word named.now }
{
    named.word.len() >= 1 && are_in_word(named.word.as_slice())
}

/// The same of some words.
pub fn are_all_words(words: &[NamedValue]) -> bool
    ensures { result ≡ list_all spec.is_word words.now }
{
    for named in words {
        if !is_word(named) {
            return false;
        }
    }
    true
}

/// The same of the words of hardware, where it has words.
fn are_words(keyword: &Option<Keyword>) -> bool
    ensures { result ≡ spec.are_words keyword.now }
{
    match keyword {
        Some(keyword) => are_all_words(keyword.words.as_slice()),
        None => true,
    }
}

/// Whether hardware's values are addresses.
fn is_address(kind: HwKind) -> bool
    ensures { result ≡ spec.is_address kind }
{
    matches!(kind, HwKind::Memory | HwKind::Pc | HwKind::Address)
}

/// Whether hardware's kind, mode, count, words and rules are such as may be.
fn is_hardware(machine: &Machine, hardware: &Hardware) -> bool
    ensures { result ≡ spec.is_hardware machine.now hardware.now }
{
    let address = mode_place(address_mode(machine.word_bits));
    has_bits(hardware.mode)
        && (!is_address(hardware.kind) || mode_place(hardware.mode) == address)
        && (hardware.kind == HwKind::Register || hardware.count == 0)
        && are_words(&hardware.keyword)
        && is_expression_where(&hardware.get)
        && is_expression_where(&hardware.set)
}

/// The same of all hardware.
fn are_hardware(machine: &Machine) -> bool
    ensures { result ≡ list_all (spec.is_hardware machine.now) machine.now.hardware }
{
    for hardware in machine.hardware.as_slice() {
        if !is_hardware(machine, hardware) {
            return false;
        }
    }
    true
}

/// Whether a byte may stand in a literal: in a string, and none of `$`, `;` and `"`.
fn is_literal_byte(byte: u8) -> bool
    ensures { result ≡ spec.is_literal_byte byte }
{
    matches!(byte, 9 | 10 | 13 | 32..=126) && byte != b'$' && byte != b';' && byte != b'"'
}

/// Whether all of some may.
fn are_literal_bytes(bytes: &[u8]) -> bool
    ensures { result ≡ list_all spec.is_literal_byte bytes.now }
{
    for byte in bytes {
        if !is_literal_byte(*byte) {
            return false;
        }
    }
    true
}

/// Whether bytes begin with `|`.
fn begins_with_bar(bytes: &[u8]) -> bool
    ensures { result ≡ spec.begins_with_bar bytes.now }
{
    match bytes.first() {
        Some(byte) => *byte == b'|',
        None => false,
    }
}

/// Whether `||` stands in bytes.
fn has_bars(bytes: &[u8]) -> bool
    ensures { result ≡ spec.has_bars bytes.now }
{
    for k in 0..bytes.len() {
        if bytes[k] == b'|' && begins_with_bar(&bytes[k + 1..]) {
            return true;
        }
    }
    false
}

/// Whether a piece of a syntax is such as may be.
pub fn is_piece(piece: &Piece) -> bool
    ensures { result ≡ spec.is_piece piece.now }
{
    match piece {
        Piece::Literal(text) => { are_literal_bytes(text.as_slice()) && !has_bars(text.as_slice()) }
        Piece::Slot(_) => true,
    }
}

/// The same of the pieces of a syntax.
fn are_pieces(pieces: &[Piece]) -> bool
    ensures { result ≡ list_all spec.is_piece pieces.now }
{
    for piece in pieces {
        if !is_piece(piece) {
            return false;
        }
    }
    true
}

/// Whether an instruction's syntax and expressions are such as may be.
fn is_insn(insn: &Insn) -> bool
    ensures { result ≡ spec.is_insn insn.now }
{
    are_pieces(insn.pieces.as_slice())
        && is_expression_where(&insn.assertion)
        && is_expression(&insn.semantics)
}

/// The same of all instructions.
fn are_insns(insns: &[Insn]) -> bool
    ensures { result ≡ list_all spec.is_insn insns.now }
{
    for insn in insns {
        if !is_insn(insn) {
            return false;
        }
    }
    true
}

/// The same of all macro instructions, by their syntax.
fn are_macros(macros: &[MacroInsn]) -> bool
    ensures { result ≡ list_all spec.is_macro macros.now }
{
    for insn in macros {
        if !are_pieces(insn.pieces.as_slice()) {
            return false;
        }
    }
    true
}

/// Whether a machine's word, shortest instruction and bundles are such as may be.
fn is_frame(machine: &Machine) -> bool
    ensures { result ≡ is_frame machine.now }
{
    matches!(machine.word_bits, 8 | 16 | 32 | 64)
        && is_size(machine.base_bits)
        && machine.width >= 1
        && machine.width <= 8
        && (machine.bundle.is_some() || machine.width == 1)
}

/// Whether all elements are.
fn are_elements(machine: &Machine) -> bool
    ensures { result ≡ are_elements machine.now }
{
    are_fields(machine.fields.as_slice())
        && are_multis(machine.multis.as_slice())
        && are_hardware(machine)
        && are_insns(machine.insns.as_slice())
        && are_macros(machine.macros.as_slice())
}

/// Whether all values of a machine are allowed: its bit sizes and modes, its words and literals, and how many
/// items the expressions have (docs/REFUSALS.md, "Faults of a machine"). What else is wrong with them,
/// `cg_desc_check::check` says.
#[tactic(auto, using(crate::proofs::Whole::whole_rules))]
pub fn is_formed(machine: &Machine) -> bool
    ensures formed { result ≡ true → spec.IsFormed machine.now }
    ensures exact { spec.IsFormed machine.now → result ≡ true }
{
    is_frame(machine) && are_elements(machine)
}
