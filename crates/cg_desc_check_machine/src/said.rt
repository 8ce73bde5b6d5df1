ghost use Rattle.std.specs.Prelude.{◌≡◌, IfOk};
ghost use Rattle.cg_model_faults.specs.Refusing as spec;
ghost use Rattle.cg_desc_check_machine.specs.Naming.{multi_name, hardware_name, operand_name};

use cg_base::{Mode, NoMemory, Refusal, Text, decimal, mode_word};
use cg_model::{Machine, Op};
use cg_model_faults::{MachineFault, Said};
use std::alloc::Global;

/// By which name a rule names its value, its index and its new value.
fn own_name(op: Op) -> &'static [u8]
    ensures { result.now ≡ spec.own_name op }
{
    match op {
        Op::Value => b"value",
        Op::Index => b"index",
        Op::NewVal => b"newval",
        _ => b"",
    }
}

/// The name of the field of a number, and no bytes where there is none.
fn field_name(machine: &Machine, k: usize) -> &[u8]
    ensures { result.now ≡ spec.field_name machine.now k }
{
    match machine.fields.get(k) {
        Some(field) => field.name.as_slice(),
        None => &[],
    }
}

/// The name of a multi field.
fn multi_name(machine: &Machine, k: usize) -> &[u8]
    ensures { result.now ≡ multi_name machine.now k }
{
    match machine.multis.get(k) {
        Some(multi) => multi.name.as_slice(),
        None => &[],
    }
}

/// The name of hardware.
fn hardware_name(machine: &Machine, k: usize) -> &[u8]
    ensures { result.now ≡ hardware_name machine.now k }
{
    match machine.hardware.get(k) {
        Some(hardware) => hardware.name.as_slice(),
        None => &[],
    }
}

/// The name of an operand.
fn operand_name(machine: &Machine, k: usize) -> &[u8]
    ensures { result.now ≡ operand_name machine.now k }
{
    match machine.operands.get(k) {
        Some(operand) => operand.name.as_slice(),
        None => &[],
    }
}

/// Two texts, a blank between.
pub fn spaced(alloc: Global, first: &[u8], second: &[u8]) -> Result<Text, NoMemory>
    ensures { IfOk result (λ text. text ≡ spec.spaced first.now second.now) }
{
    let mut text = Text::of(alloc, first)?;
    text.push(32)?;
    text.append(second)?;
    Ok(text)
}

/// What a text of a refusal says of an element of this name.
pub fn said_text(alloc: Global, machine: &Machine, own: &[u8], said: Said) -> Result<Text, NoMemory>
    ensures { IfOk result (λ text. text ≡ spec.said_text machine.now own.now said) }
{
    match said {
        Said::Nothing => Ok(Text::new(alloc)),
        Said::Own => Ok(Text::of(alloc, own)?),
        Said::Field(k) => Ok(Text::of(alloc, field_name(machine, k))?),
        Said::Fields(j, k) => { Ok(spaced(alloc, field_name(machine, j), field_name(machine, k))?) }
        Said::Multi(k) => Ok(Text::of(alloc, multi_name(machine, k))?),
        Said::Hardware(k) => Ok(Text::of(alloc, hardware_name(machine, k))?),
        Said::Operand(k) => Ok(Text::of(alloc, operand_name(machine, k))?),
        Said::Count(n) => Ok(decimal(alloc, n as i128)?),
        Said::Number(n) => Ok(decimal(alloc, n as i128)?),
        Said::Modes(k, l) => Ok(spaced(alloc, mode_word(k), mode_word(l))?),
        Said::Name(op) => Ok(Text::of(alloc, own_name(op))?),
    }
}

/// The refusal of a machine in hand for a fault of an element of this name: file and line are 0.
pub fn refusal_for(
    alloc: Global,
    machine: &Machine,
    own: &[u8],
    fault: MachineFault,
) -> Result<Refusal, NoMemory>
    ensures { IfOk result (λ refusal. refusal ≡ spec.refused_for machine.now own.now fault) }
{
    Ok(Refusal {
        number: fault.number,
        file: 0,
        line: 0,
        text: said_text(alloc, machine, own, fault.text)?,
        other: said_text(alloc, machine, own, fault.other)?,
    })
}
