//! What one expression is answered.

use crate::machine::scope_of;
use cg_base::{Form, Mode, NoMemory, Stop, Text, Top, decimal, mode_word};
use cg_model::Machine;
use cg_modes::{ModeFault, mode_of};
use cg_rtl_resolve::{Rule, resolve};
use std::alloc::Global;

/// The mode that is wanted.
fn wanted(word: &[u8]) -> Option<Mode> {
    if word == b"QI".as_slice() {
        Some(Mode::Qi)
    } else if word == b"SI".as_slice() {
        Some(Mode::Si)
    } else if word == b"VOID".as_slice() {
        Some(Mode::Void)
    } else {
        None
    }
}

/// Where an expression stands.
fn rule_of(alloc: Global, word: &[u8]) -> Result<Rule, NoMemory> {
    if word == b"get".as_slice() {
        return Ok(Rule::Get);
    }
    if word == b"set".as_slice() {
        return Ok(Rule::Set);
    }
    if word == b"decode".as_slice() {
        return Ok(Rule::Decode);
    }
    if word == b"insert".as_slice() {
        return Ok(Rule::Insert(Text::of(alloc, b"f-m")?));
    }
    if word == b"assertion".as_slice() {
        return Ok(Rule::Assertion);
    }
    Ok(Rule::Semantics)
}

/// Puts a blank and the word of a mode.
fn put_mode(mode: Option<Mode>, printed: &mut Text) -> Result<(), NoMemory> {
    if let Some(mode) = mode {
        printed.push(b' ')?;
        printed.append(mode_word(mode))?;
    }
    Ok(())
}

/// Puts a fault's number.
fn put_number(alloc: Global, number: u16, printed: &mut Text) -> Result<(), NoMemory> {
    let number = decimal(alloc, number as i128)?;
    printed.append(b" E")?;
    printed.append(number.as_slice())
}

/// Puts a mode or a fault of modes.
fn put_verdict(
    alloc: Global,
    verdict: Result<Mode, ModeFault>,
    printed: &mut Text,
) -> Result<(), NoMemory> {
    match verdict {
        Ok(mode) => put_mode(Some(mode), printed),
        Err(fault) => {
            put_number(alloc, fault.number, printed)?;
            put_mode(fault.first, printed)?;
            put_mode(fault.second, printed)
        }
    }
}

/// Puts what an expression is answered in a rule of this word, with a mode of this word wanted.
fn put_judged(
    alloc: Global,
    machine: &Machine,
    words: (&[u8], &[u8]),
    form: &Form,
    printed: &mut Text,
) -> Result<(), NoMemory> {
    let (rule, want) = words;
    let scope = scope_of(alloc, rule_of(alloc, rule)?, Some(Mode::Si))?;
    match resolve(alloc, form, &scope) {
        Ok(rtl) => put_verdict(alloc, mode_of(machine, &rtl, wanted(want)), printed),
        Err(Stop::Refused(refusal)) => {
            put_number(alloc, refusal.number, printed)?;
            printed.push(b' ')?;
            printed.append(refusal.text.as_slice())
        }
        Err(Stop::NoMemory) => Err(NoMemory),
    }
}

/// The text of a symbol, and no bytes where there is none.
fn word(form: &Form) -> &[u8] {
    match form.symbol() {
        Some(text) => text.as_slice(),
        None => &[],
    }
}

/// Puts what a form `(RULE MODE EXPRESSION)` is answered, behind its line.
pub(crate) fn put_answer(
    alloc: Global,
    machine: &Machine,
    top: &Top,
    printed: &mut Text,
) -> Result<(), NoMemory> {
    let line = decimal(alloc, top.line as i128)?;
    printed.append(line.as_slice())?;
    if let Some([rule, want, form]) = top.form.elements() {
        put_judged(alloc, machine, (word(rule), word(want)), form, printed)?;
    }
    printed.push(b'\n')
}
