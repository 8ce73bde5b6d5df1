//! A machine made by hand, with rules that no reader makes yet.

use cg_base::{Endian, Form, Forms, List, Mode, NoMemory, Stop, Text};
use cg_model::{Alignment, Field, Hardware, HwKind, Machine, Multi, Op, Operand, Rtl, Source};
use cg_rtl_resolve::{EnumValue, Rule, Scope, resolve};
use std::alloc::Global;

/// The names of hardware, its kinds and its modes.
static HARDWARE: [(&[u8], HwKind, Mode); 7] = [
    (b"h-memory", HwKind::Memory, Mode::Usi),
    (b"h-gr", HwKind::Register, Mode::Si),
    (b"h-q", HwKind::Register, Mode::Qi),
    (b"h-pc", HwKind::Pc, Mode::Usi),
    (b"h-uint", HwKind::Immediate, Mode::Usi),
    (b"h-zero", HwKind::Register, Mode::Si),
    (b"h-late", HwKind::Register, Mode::Si),
];

/// The names of operands, and the hardware of each.
static OPERANDS: [(&[u8], u16); 7] = [
    (b"rd", 1),
    (b"rs", 1),
    (b"q", 2),
    (b"p", 3),
    (b"imm", 4),
    (b"z", 5),
    (b"late", 6),
];

/// The names of fields, and the mode of each.
static FIELDS: [(&[u8], Mode); 2] = [(b"f-a", Mode::Usi), (b"f-h", Mode::Hi)];

/// The names of multi fields, and the mode of each.
static MULTIS: [(&[u8], Mode); 1] = [(b"f-m", Mode::Uhi)];

/// The names of some things.
fn named<T: Copy>(alloc: Global, things: &[(&[u8], T)]) -> Result<List<Text>, NoMemory> {
    let mut names = List::new(alloc);
    for (name, _) in things {
        names.push(Text::of(alloc, name)?)?;
    }
    Ok(names)
}

/// The constants.
fn constants(alloc: Global) -> Result<List<EnumValue>, NoMemory> {
    let mut enums = List::new(alloc);
    enums.push(EnumValue {
        name: Text::of(alloc, b"RED")?,
        value: 3,
    })?;
    enums.push(EnumValue {
        name: Text::of(alloc, b"BIG")?,
        value: 0x1_0000_0000,
    })?;
    Ok(enums)
}

/// The texts of traps.
fn traps(alloc: Global) -> Result<List<Text>, NoMemory> {
    let mut texts = List::new(alloc);
    texts.push(Text::of(alloc, b"bad")?)?;
    Ok(texts)
}

/// What names stand for in an expression of a rule.
pub(crate) fn scope_of(alloc: Global, rule: Rule, own: Option<Mode>) -> Result<Scope, NoMemory> {
    Ok(Scope {
        fields: named(alloc, &FIELDS)?,
        multis: named(alloc, &MULTIS)?,
        hardware: hardware_names(alloc)?,
        operands: named(alloc, &OPERANDS)?,
        enums: constants(alloc)?,
        texts: traps(alloc)?,
        word_bits: 32,
        own,
        rule,
    })
}

/// The names of hardware.
fn hardware_names(alloc: Global) -> Result<List<Text>, NoMemory> {
    let mut names = List::new(alloc);
    for (name, _, _) in &HARDWARE {
        names.push(Text::of(alloc, name)?)?;
    }
    Ok(names)
}

/// An expression that does nothing.
fn nop(alloc: Global) -> Rtl {
    Rtl {
        op: Op::Nop,
        mode: None,
        number: 0,
        items: List::new(alloc),
    }
}

/// The rule of hardware among the forms `(HARDWARE RULE EXPRESSION)`.
fn rule_for(
    alloc: Global,
    rules: &Forms,
    hardware: &[u8],
    word: &[u8],
    rule: Rule,
) -> Result<Option<Rtl>, Stop> {
    let scope = scope_of(alloc, rule, Some(Mode::Si))?;
    for top in rules.tops.as_slice() {
        if let Some(form) = expression_of(&top.form, hardware, word) {
            return Ok(Some(resolve(alloc, form, &scope)?));
        }
    }
    Ok(None)
}

/// The expression of a form `(HARDWARE RULE EXPRESSION)`.
fn expression_of<'a>(form: &'a Form, hardware: &[u8], word: &[u8]) -> Option<&'a Form> {
    match form.elements()? {
        [first, second, expression] => {
            if first.symbol()?.as_slice() == hardware && second.symbol()?.as_slice() == word {
                Some(expression)
            } else {
                None
            }
        }
        _ => None,
    }
}

/// The hardware of a machine with these rules.
fn hardware(alloc: Global, rules: &Forms) -> Result<List<Hardware>, Stop> {
    let mut list = List::new(alloc);
    for (name, kind, mode) in &HARDWARE {
        list.push(Hardware {
            name: Text::of(alloc, name)?,
            kind: *kind,
            mode: *mode,
            count: 16,
            keyword: None,
            get: rule_for(alloc, rules, name, b"get", Rule::Get)?,
            set: rule_for(alloc, rules, name, b"set", Rule::Set)?,
        })?;
    }
    Ok(list)
}

/// The operands.
fn operands(alloc: Global) -> Result<List<Operand>, NoMemory> {
    let mut list = List::new(alloc);
    for (name, hardware) in &OPERANDS {
        list.push(Operand {
            name: Text::of(alloc, name)?,
            hardware: *hardware,
            source: Source::None,
        })?;
    }
    Ok(list)
}

/// The fields.
fn fields(alloc: Global) -> Result<List<Field>, NoMemory> {
    let mut list = List::new(alloc);
    for (name, mode) in &FIELDS {
        list.push(Field {
            name: Text::of(alloc, name)?,
            word_offset: 0,
            word_bits: 16,
            shift: 0,
            length: 4,
            mode: *mode,
            encode: None,
            decode: None,
        })?;
    }
    Ok(list)
}

/// The multi fields.
fn multis(alloc: Global) -> Result<List<Multi>, NoMemory> {
    let mut list = List::new(alloc);
    for (name, mode) in &MULTIS {
        list.push(Multi {
            name: Text::of(alloc, name)?,
            mode: *mode,
            subs: List::new(alloc),
            insert: List::new(alloc),
            extract: nop(alloc),
        })?;
    }
    Ok(list)
}

/// A machine with these rules.
pub(crate) fn machine(alloc: Global, rules: &Forms) -> Result<Machine, Stop> {
    Ok(Machine {
        name: Text::of(alloc, b"hand")?,
        lsb0: false,
        alignment: Alignment::Aligned,
        word_bits: 32,
        insn_endian: Endian::Big,
        data_endian: Endian::Big,
        base_bits: 16,
        bundle: None,
        width: 1,
        fields: fields(alloc)?,
        multis: multis(alloc)?,
        hardware: hardware(alloc, rules)?,
        operands: operands(alloc)?,
        insns: List::new(alloc),
        macros: List::new(alloc),
        texts: traps(alloc)?,
    })
}
