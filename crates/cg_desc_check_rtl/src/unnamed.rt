ghost use Rattle.std.specs.Prelude.{◌≡◌, IfOk};
ghost use Rattle.std.specs.Option.{option_map};
ghost use Rattle.cg_base.specs.Refusing.{first};
ghost use Rattle.cg_model.specs.declared.rtl.Rtl.{out-Rtl};
ghost use Rattle.cg_model_faults.specs.E306 as spec;

use cg_base::{NoMemory, refusals};
use cg_model::{Machine, Op, Rtl};
use cg_model_faults::{MachineFault, Said};

/// How many there are of what an operation names, inside of so many locals.
#[tactic(auto, unfolding(cg_model_faults::specs::E306::count_of))]
fn count_of(machine: &Machine, locals: u64, op: Op) -> Option<u64>
    ensures { result ≡ spec.count_of machine.now locals op }
{
    match op {
        Op::Local => Some(locals),
        Op::OperandRef => Some(machine.operands.len() as u64),
        Op::IndexOf => Some(machine.operands.len() as u64),
        Op::FieldRef => Some(machine.fields.len() as u64),
        Op::MultiRef => Some(machine.multis.len() as u64),
        Op::Reg => Some(machine.hardware.len() as u64),
        Op::RawReg => Some(machine.hardware.len() as u64),
        Op::Error => Some(machine.texts.len() as u64),
        Op::Unary => Some(4),
        Op::Binary => Some(25),
        Op::Ternary => Some(6),
        _ => None,
    }
}

/// The fault of the outermost node of an expression.
fn unnamed_at(machine: &Machine, locals: u64, rtl: &Rtl) -> Option<MachineFault>
    ensures { result ≡ first (spec.unnamed_at machine.now locals (out-Rtl rtl.now).op (out-Rtl rtl.now).number) }
{
    let count = count_of(machine, locals, rtl.op)?;
    if rtl.number >= 0 && (rtl.number as u64) < count {
        return None;
    }
    Some(MachineFault {
        number: refusals::UNDEFINED_NAME,
        place: 0,
        text: Said::Number(rtl.number),
        other: Said::Nothing,
    })
}

/// How many locals an expression declares for its items.
#[tactic(auto, unfolding(cg_model_faults::specs::E306::declared_by))]
fn declared_by(rtl: &Rtl) -> u64
    ensures { result ≡ spec.declared_by (out-Rtl rtl.now).op (out-Rtl rtl.now).number }
{
    match rtl.op {
        Op::Sequence => {
            if rtl.number < 0 {
                return 0;
            }
            rtl.number as u64
        }
        _ => 0,
    }
}

/// The first fault of an expression inside of so many locals. More locals than a u64 counts are in no
/// memory.
#[tactic(auto, using(crate::proofs::Naming::unnamed_rules))]
fn unnamed_in(machine: &Machine, locals: u64, rtl: &Rtl) -> Result<Option<MachineFault>, NoMemory>
    ensures { IfOk result (λ found. found ≡ first (spec.unnamed_in machine.now rtl.now locals)) }
{
    if let Some(fault) = unnamed_at(machine, locals, rtl) {
        return Ok(Some(fault));
    }
    let Some(inside) = locals.checked_add(declared_by(rtl)) else {
        return Err(NoMemory);
    };
    for item in rtl.items.as_slice() {
        if let Some(fault) = unnamed_in(machine, inside, item)? {
            return Ok(Some(fault));
        }
    }
    Ok(None)
}

/// E306: a number of an expression names nothing. NoMemory comes only where its sequences declare more
/// locals than a u64 counts.
pub fn first_unnamed(machine: &Machine, rtl: &Rtl) -> Result<Option<MachineFault>, NoMemory>
    ensures { IfOk result (λ found. found ≡ first (spec.unnamed machine.now rtl.now)) }
{
    unnamed_in(machine, 0, rtl)
}
