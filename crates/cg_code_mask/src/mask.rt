ghost use Rattle.std.specs.Prelude.{◌≡◌, ◌*◌, ◌/◌, ◌^◌, ◌<◌, ◌≤◌};
ghost use Rattle.cg_model.specs.Covers.{IsPlaced, turned, behind, ones_from, cover_of};
ghost use Rattle.cg_code_mask.specs.View.{placed, with_field};

use cg_base::{Endian, number_at, put_number};
use cg_model::{Field, Machine};

/// The number that the bytes of a word are, read big end first.
#[tactic(auto, using(crate::proofs::Turning::turning))]
fn turned_word(word: u64, len: u8, endian: Endian) -> u64
    requires some { 1 ≤ len }
    requires few { len ≤ 8 }
    requires fits { word < 2 ^ (8 * len) }
    ensures value { result ≡ turned endian len word }
    ensures small { result < 2 ^ (8 * len) }
{
    let mut bytes = [0; 8];
    put_number(&mut bytes, 0, len, endian, word);
    number_at(&bytes, 0, len, Endian::Big)
}

/// The word of a field among all bits.
#[tactic(auto, using(crate::proofs::Turning::spreading))]
fn spread_word(endian: Endian, field: &Field, word: u64) -> u128
    requires placed { IsPlaced field.now }
    requires fits { word < 2 ^ (8 * (field.now.word_bits / 8)) }
    ensures { result ≡ turned endian (field.now.word_bits / 8) word * 2 ^ behind field.now }
{
    let len = field.word_bits / 8;
    let bits = turned_word(word, len, endian) as u128;
    bits << (8 * (16 - field.word_offset / 8 - len as u16))
}

/// A field's bits in its word.
#[tactic(auto, using(crate::proofs::Turning::ones))]
fn word_ones(field: &Field) -> u64
    requires { IsPlaced field.now }
    ensures { result ≡ ones_from field.now.shift field.now.length }
{
    (((1u128 << field.length) - 1) << field.shift) as u64
}

/// The bits that a field covers.
#[tactic(auto, using(crate::proofs::Turning::masks))]
pub fn cover(machine: &Machine, field: &Field) -> u128
    requires { IsPlaced field.now }
    ensures { result ≡ cover_of machine.now field.now }
{
    spread_word(machine.insn_endian, field, word_ones(field))
}

/// A number at a field's places.
#[tactic(auto, using(crate::proofs::Turning::masks))]
pub fn put(machine: &Machine, field: &Field, value: u64) -> u128
    requires placed { IsPlaced field.now }
    requires fits { value < 2 ^ field.now.length }
    ensures { result ≡ placed machine.now field.now value }
{
    spread_word(machine.insn_endian, field, value << field.shift)
}

/// All bits with a field set.
pub fn with_value(machine: &Machine, field: &Field, value: u64, whole: u128) -> u128
    requires placed { IsPlaced field.now }
    requires fits { value < 2 ^ field.now.length }
    ensures { result ≡ with_field machine.now field.now value whole }
{
    let bits = cover(machine, field);
    ((whole | bits) ^ bits) | put(machine, field, value)
}
