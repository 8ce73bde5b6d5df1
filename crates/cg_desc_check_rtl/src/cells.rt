ghost use Rattle.std.specs.Prelude.{◌≡◌, ◌∷◌};
ghost use Rattle.cg_base.specs.Refusing.{first};
ghost use Rattle.cg_model.specs.declared.rtl.Rtl.{out-Rtl};
ghost use Rattle.cg_model_faults.specs.E304 as spec;
ghost use Rattle.cg_model_faults.specs.Finding.{at_place};
ghost use Rattle.cg_model_faults.specs.declared.fault.Said.TheVariants.{Nothing};

use crate::walk::{NodeRule, first_in};
use cg_base::refusals;
use cg_model::{Hardware, HwKind, Machine, Op, Rtl};
use cg_model_faults::{MachineFault, Said};

/// A fault of hardware that is no register.
fn fault(text: Said) -> MachineFault
    ensures { result ≡ at_place 304 0 text Nothing }
{
    MachineFault {
        number: refusals::WRONG_KIND,
        place: 0,
        text,
        other: Said::Nothing,
    }
}

/// Whether hardware has a cell or is the pc.
fn is_cell(kind: HwKind) -> bool
    ensures { result ≡ spec.is_cell kind }
{
    match kind {
        HwKind::Register => true,
        HwKind::Pc => true,
        _ => false,
    }
}

/// The fault of what names hardware by a number.
fn no_cell(machine: &Machine, rtl: &Rtl) -> Option<MachineFault>
    ensures { result ≡ first (spec.no_cell machine.now (out-Rtl rtl.now).number) }
{
    if rtl.number < 0 {
        return None;
    }
    let k = rtl.number as usize;
    if is_cell(machine.hardware.get(k)?.kind) {
        return None;
    }
    Some(fault(Said::Hardware(k)))
}

/// The rule that `reg` and `raw-reg` are of a register or of the pc.
#[derive(Drop)]
pub struct Cells<'a> {
    /// The machine.
    pub machine: &'a Machine,
}

impl NodeRule for Cells<'_> {
    ghost faults = { λ r. spec.no_cell_at r.machine.now };

    #[tactic(auto, unfolding(cg_model_faults::specs::E304::no_cell_at))]
    fn first_at(&self, rtl: &Rtl) -> Option<MachineFault> {
        match rtl.op {
            Op::Reg => no_cell(self.machine, rtl),
            Op::RawReg => no_cell(self.machine, rtl),
            _ => None,
        }
    }
}

/// E304: the hardware of a `reg` or `raw-reg` is neither a register nor the pc. A number that names no
/// hardware is not judged here.
pub fn first_no_cell(machine: &Machine, rtl: &Rtl) -> Option<MachineFault>
    ensures { result ≡ first (spec.no_cells machine.now rtl.now) }
{
    first_in(&Cells { machine }, rtl)
}

/// E304: a get or set rule on hardware that is no register.
pub fn first_no_register(hardware: &Hardware) -> Option<MachineFault>
    ensures { result ≡ first (spec.no_register hardware.now) }
{
    if hardware.kind == HwKind::Register {
        return None;
    }
    if hardware.get.is_some() || hardware.set.is_some() {
        return Some(fault(Said::Own));
    }
    None
}
