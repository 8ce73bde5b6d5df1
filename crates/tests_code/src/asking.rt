//! What is asked of a machine, and what is answered.

ghost use Rattle.std.specs.Prelude.{◌<◌, ◌≤◌};
ghost use Rattle.cg_model.specs.Sound.{IsSound};

use crate::allowed::{Held, all_allowed};
use crate::building::expression;
use crate::rules::pure_mode;
use crate::sound::is_sound;
use crate::values::are_values;
use crate::words::{bytes_at, half_at, mode_at, number_at, word_at};
use cg_ambig::first_clash;
use cg_base::{NoMemory, Text, decimal};
use cg_code::{NotInRange, Values, encode, extract, length, matches};
use cg_model::Machine;
use cg_model_pure::pure_eval;
use std::alloc::Global;

/// Puts a number behind a blank.
pub(crate) fn put_number(alloc: Global, number: u64, printed: &mut Text) -> Result<(), NoMemory> {
    let digits = decimal(alloc, i128::from(number))?;
    printed.push(b' ')?;
    printed.append(digits.as_slice())
}

/// The hexadecimal digit of a number.
fn digit(number: u8) -> u8
    requires { number < 16 }
{
    if number < 10 {
        b'0' + number
    } else {
        b'a' + (number - 10)
    }
}

/// Puts bytes behind a blank, by two hexadecimal digits each.
fn put_bytes(bytes: &[u8], printed: &mut Text) -> Result<(), NoMemory> {
    printed.push(b' ')?;
    for byte in bytes {
        printed.push(digit(*byte / 16))?;
        printed.push(digit(*byte % 16))?;
    }
    Ok(())
}

/// The values that words write from the fourth on, at most 16.
fn values_at(words: &[Text]) -> Values
    ensures { result.count ≤ 16 }
{
    let mut numbers = [0; 16];
    let count = words.len().saturating_sub(3).min(16);
    for k in 0..count {
        numbers[k] = number_at(words, k + 3);
    }
    Values {
        count: count as u8,
        numbers,
    }
}

/// Puts the values of an instruction's slots, by a line `extract NUMBER PC BYTES`.
fn put_extracted(
    alloc: Global,
    machine: &Machine,
    words: &[Text],
    printed: &mut Text,
) -> Result<(), NoMemory>
    requires sound { IsSound machine.now }
{
    let i = half_at(words, 1);
    let bytes = bytes_at(alloc, words, 3)?;
    if i as usize >= machine.insns.len() {
        return printed.append(b" none");
    }
    if !matches(machine, i, bytes.as_slice()) {
        return printed.append(b" no match");
    }
    let values = extract(machine, i, bytes.as_slice(), number_at(words, 2));
    for k in 0..(values.count as usize).min(16) {
        put_number(alloc, values.numbers[k], printed)?;
    }
    Ok(())
}

/// Puts what an encoding is: its bytes, and whether all behind them are 0; or which slot is out of range.
fn put_encoding(
    alloc: Global,
    answer: Result<u8, NotInRange>,
    out: &[u8; 16],
    printed: &mut Text,
) -> Result<(), NoMemory> {
    match answer {
        Ok(len) => put_bytes(&out[..(len as usize).min(16)], printed),
        Err(e) => {
            printed.append(b" not in range")?;
            put_number(alloc, e.operand as u64, printed)?;
            put_number(alloc, e.value, printed)
        }
    }
}

/// Puts the encoding of values, by a line `encode NUMBER PC VALUE..`.
fn put_encoded(
    alloc: Global,
    machine: &Machine,
    words: &[Text],
    printed: &mut Text,
) -> Result<(), NoMemory>
    requires sound { IsSound machine.now }
{
    let i = half_at(words, 1);
    let values = values_at(words);
    if i as usize >= machine.insns.len() {
        return printed.append(b" none");
    }
    if !are_values(machine, i, &values.numbers[..values.count as usize]) {
        return printed.append(b" no values");
    }
    let mut out = [0; 16];
    let answer = encode(machine, i, &values, number_at(words, 2), &mut out);
    put_encoding(alloc, answer, &out, printed)
}

/// Puts whether an instruction matches bytes, by a line `matches NUMBER BYTES`.
fn put_matching(
    alloc: Global,
    machine: &Machine,
    words: &[Text],
    printed: &mut Text,
) -> Result<(), NoMemory>
    requires sound { IsSound machine.now }
{
    let i = half_at(words, 1);
    let bytes = bytes_at(alloc, words, 2)?;
    if i as usize >= machine.insns.len() {
        return printed.append(b" none");
    }
    if matches(machine, i, bytes.as_slice()) {
        printed.append(b" yes")
    } else {
        printed.append(b" no")
    }
}

/// Puts how many bytes an instruction has, by a line `length NUMBER`.
fn put_length(
    alloc: Global,
    machine: &Machine,
    words: &[Text],
    printed: &mut Text,
) -> Result<(), NoMemory>
    requires sound { IsSound machine.now }
{
    let i = half_at(words, 1);
    if i as usize >= machine.insns.len() {
        return printed.append(b" none");
    }
    put_number(alloc, length(machine, i) as u64, printed)
}

/// Puts the first clash.
fn put_clash(alloc: Global, machine: &Machine, printed: &mut Text) -> Result<(), NoMemory>
    requires sound { IsSound machine.now }
{
    match first_clash(machine) {
        Some(clash) => {
            put_number(alloc, clash.first as u64, printed)?;
            put_number(alloc, clash.second as u64, printed)?;
            put_bytes(&clash.bytes[..(clash.len as usize).min(16)], printed)
        }
        None => printed.append(b" none"),
    }
}

/// Puts the value of an expression, by a line `value MODE VALUE PC BYTES EXPRESSION`.
#[tactic(auto, using(crate::proofs::RuleLaws::gives_of, crate::proofs::RuleLaws::held))]
fn put_value(
    alloc: Global,
    machine: &Machine,
    words: &[Text],
    printed: &mut Text,
) -> Result<(), NoMemory>
    requires sound { IsSound machine.now }
{
    let want = mode_at(words, 1);
    let value = number_at(words, 2);
    let pc = number_at(words, 3);
    let bytes = bytes_at(alloc, words, 4)?;
    let rtl = expression(alloc, words, 5)?;
    let held = Held {
        machine,
        value,
        bytes: bytes.as_slice(),
    };
    if (pc as u128) >= 1 << machine.word_bits || !all_allowed(&held, &rtl) {
        return printed.append(b" not held");
    }
    match pure_mode(machine, want, &rtl) {
        Some(_) => {
            let answer = pure_eval(machine, &rtl, want, value, pc, bytes.as_slice());
            put_number(alloc, answer, printed)
        }
        None => printed.append(b" not pure"),
    }
}

/// Puts what a sound machine is asked.
fn put_asked(
    alloc: Global,
    machine: &Machine,
    words: &[Text],
    printed: &mut Text,
) -> Result<(), NoMemory>
    requires sound { IsSound machine.now }
{
    let word = word_at(words, 0);
    if word == b"length".as_slice() {
        put_length(alloc, machine, words, printed)
    } else if word == b"matches".as_slice() {
        put_matching(alloc, machine, words, printed)
    } else if word == b"extract".as_slice() {
        put_extracted(alloc, machine, words, printed)
    } else if word == b"encode".as_slice() {
        put_encoded(alloc, machine, words, printed)
    } else if word == b"clash".as_slice() {
        put_clash(alloc, machine, printed)
    } else if word == b"value".as_slice() {
        put_value(alloc, machine, words, printed)
    } else {
        printed.append(b" sound")
    }
}

/// Puts what a machine is asked. Of one that isn't sound nothing else is answered.
pub(crate) fn put_answer(
    alloc: Global,
    machine: &Machine,
    words: &[Text],
    printed: &mut Text,
) -> Result<(), NoMemory> {
    if is_sound(machine) {
        put_asked(alloc, machine, words, printed)
    } else {
        printed.append(b" not sound")
    }
}
