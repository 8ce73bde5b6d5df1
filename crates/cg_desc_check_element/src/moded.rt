ghost use Rattle.std.specs.Prelude.{◌≡◌, ◌++◌};
ghost use Rattle.cg_base.specs.Refusing.{first};
ghost use Rattle.cg_model_faults.specs.Elements as spec;
ghost use Rattle.cg_model_faults.specs.Judging as judging;
ghost use Rattle.cg_desc_check_element.specs.Wanting.{judged, judged_where, result_by, insert_wanted};

use cg_base::{Mode, bits, refusals};
use cg_desc_check_rtl::{first_other_mode, first_outside};
use cg_model::{Field, Hardware, Insn, Machine, ModeFault, Multi, Rtl};
use cg_model_faults::{MachineFault, Purpose, Said};
use cg_modes::mode_of;

/// What an expression is for, the mode that is wanted of it, and that of its own value.
#[derive(Clone, Copy)]
pub struct Wanted {
    /// What the expression is for.
    pub purpose: Purpose,
    /// The mode that is wanted of it.
    pub want: Option<Mode>,
    /// The mode of its own value.
    pub own: Option<Mode>,
}

/// What is said of a fault of modes.
fn modes_said(first: Option<Mode>, second: Option<Mode>) -> Said
    ensures { result ≡ judging.modes_said first second }
{
    match first {
        Some(first) => match second {
            Some(second) => Said::Modes(first, second),
            None => Said::Nothing,
        },
        None => Said::Nothing,
    }
}

/// A fault of modes as one of a machine.
fn by_modes(fault: ModeFault) -> MachineFault
    ensures { result ≡ judging.by_modes fault }
{
    MachineFault {
        number: fault.number,
        place: 0,
        text: Said::Own,
        other: modes_said(fault.first, fault.second),
    }
}

/// Whether the result of an expression may have any mode.
#[tactic(auto, unfolding(cg_model_faults::specs::Judging::is_free))]
fn is_free(purpose: Purpose) -> bool
    ensures { result ≡ judging.is_free purpose }
{
    match purpose {
        Purpose::Semantics => true,
        Purpose::Set => true,
        _ => false,
    }
}

/// The fault of a result whose mode doesn't agree with the one that is wanted.
fn disagrees(want: Option<Mode>, mode: Mode) -> Option<MachineFault>
    ensures { result ≡ first (judging.disagrees want mode) }
{
    let want = want?;
    if bits(mode) == bits(want) {
        return None;
    }
    Some(MachineFault {
        number: refusals::MODES_DIFFER,
        place: 0,
        text: Said::Own,
        other: Said::Modes(want, mode),
    })
}

/// The fault of a result.
fn result_fault(wanted: Wanted, mode: Mode) -> Option<MachineFault>
    ensures { result ≡ first (result_by wanted mode) }
{
    if is_free(wanted.purpose) {
        return None;
    }
    if bits(mode) == 0 {
        return Some(MachineFault {
            number: refusals::NO_VALUE,
            place: 0,
            text: Said::Own,
            other: Said::Nothing,
        });
    }
    disagrees(wanted.want, mode)
}

/// The first fault of one expression by its modes.
#[tactic(auto, using(crate::proofs::Firsts::first_rules))]
pub fn by_mode(machine: &Machine, wanted: Wanted, rtl: &Rtl) -> Option<MachineFault>
    ensures { result ≡ first (judging.mode_faults machine.now (judged wanted rtl.now)) }
{
    if let Some(fault) = first_other_mode(wanted.own, rtl) {
        return Some(fault);
    }
    match mode_of(machine, rtl, wanted.want) {
        Ok(mode) => result_fault(wanted, mode),
        Err(fault) => Some(by_modes(fault)),
    }
}

/// The first name outside of its rule of an expression that may be absent.
#[tactic(auto, using(crate::proofs::Firsts::first_rules))]
fn outside_where(wanted: Wanted, rtl: &Option<Rtl>) -> Option<MachineFault>
    ensures { result ≡ first (judging.all_outside (judged_where wanted rtl.now)) }
{
    match rtl {
        Some(rtl) => first_outside(wanted.purpose, rtl),
        None => None,
    }
}

/// The first fault by its modes of an expression that may be absent.
#[tactic(auto, using(crate::proofs::Firsts::first_rules))]
fn modes_where(machine: &Machine, wanted: Wanted, rtl: &Option<Rtl>) -> Option<MachineFault>
    ensures { result ≡ first (judging.all_modes machine.now (judged_where wanted rtl.now)) }
{
    match rtl {
        Some(rtl) => by_mode(machine, wanted, rtl),
        None => None,
    }
}

/// The first fault of two expressions by their modes, a name outside of its rule in front of all.
#[tactic(auto, using(crate::proofs::Judging::judged_rules))]
fn first_of_two(
    machine: &Machine,
    former: Wanted,
    former_rtl: &Option<Rtl>,
    latter: Wanted,
    latter_rtl: &Option<Rtl>,
) -> Option<MachineFault>
    ensures { result ≡ first (judging.judged_faults machine.now (judged_where former former_rtl.now ++ judged_where latter latter_rtl.now)) }
{
    if let Some(fault) = outside_where(former, former_rtl) {
        return Some(fault);
    }
    if let Some(fault) = outside_where(latter, latter_rtl) {
        return Some(fault);
    }
    if let Some(fault) = modes_where(machine, former, former_rtl) {
        return Some(fault);
    }
    modes_where(machine, latter, latter_rtl)
}

/// The first fault of a field by its modes.
pub fn first_of_field_modes(machine: &Machine, field: &Field) -> Option<MachineFault>
    ensures { result ≡ first (spec.field_modes machine.now field.now) }
{
    let encode = Wanted {
        purpose: Purpose::Encode,
        want: Some(field.mode),
        own: Some(field.mode),
    };
    let decode = Wanted {
        purpose: Purpose::Decode,
        want: Some(field.mode),
        own: Some(field.mode),
    };
    first_of_two(machine, encode, &field.encode, decode, &field.decode)
}

/// The first fault of hardware by its modes.
pub fn first_of_hardware_modes(machine: &Machine, hardware: &Hardware) -> Option<MachineFault>
    ensures { result ≡ first (spec.hardware_modes machine.now hardware.now) }
{
    let get = Wanted {
        purpose: Purpose::Get,
        want: Some(hardware.mode),
        own: None,
    };
    let set = Wanted {
        purpose: Purpose::Set,
        want: None,
        own: Some(hardware.mode),
    };
    first_of_two(machine, get, &hardware.get, set, &hardware.set)
}

/// The first fault of an instruction by its modes.
#[tactic(auto, using(crate::proofs::Judging::judged_rules))]
pub fn first_of_insn_modes(machine: &Machine, insn: &Insn) -> Option<MachineFault>
    ensures { result ≡ first (spec.insn_modes machine.now insn.now) }
{
    let assertion = Wanted {
        purpose: Purpose::Assertion,
        want: None,
        own: None,
    };
    let semantics = Wanted {
        purpose: Purpose::Semantics,
        want: None,
        own: None,
    };
    if let Some(fault) = outside_where(assertion, &insn.assertion) {
        return Some(fault);
    }
    if let Some(fault) = first_outside(Purpose::Semantics, &insn.semantics) {
        return Some(fault);
    }
    if let Some(fault) = modes_where(machine, assertion, &insn.assertion) {
        return Some(fault);
    }
    by_mode(machine, semantics, &insn.semantics)
}

/// The mode of the field of a number.
fn mode_of_field(machine: &Machine, k: u16) -> Option<Mode>
    ensures { result ≡ spec.mode_of_field machine.now k }
{
    match machine.fields.get(k as usize) {
        Some(field) => Some(field.mode),
        None => None,
    }
}

/// What is wanted of the expression of `insert` for the field of a number.
fn insert_wanted(machine: &Machine, own: Mode, k: u16) -> Wanted
    ensures { result ≡ insert_wanted machine.now own k }
{
    Wanted {
        purpose: Purpose::Insert,
        want: mode_of_field(machine, k),
        own: Some(own),
    }
}

/// The first name outside of its rule of the expressions of `insert`.
#[tactic(auto, using(crate::proofs::Judging::judged_rules))]
fn outside_inserts(
    machine: &Machine,
    own: Mode,
    subs: &[u16],
    inserts: &[Rtl],
) -> Option<MachineFault>
    ensures { result ≡ first (judging.all_outside (spec.inserts_judged machine.now own subs.now inserts.now)) }
{
    for place in 0..subs.len() {
        if place >= inserts.len() {
            return None;
        }
        let wanted = insert_wanted(machine, own, subs[place]);
        if let Some(fault) = first_outside(wanted.purpose, &inserts[place]) {
            return Some(fault);
        }
    }
    None
}

/// The first fault by its modes of the expressions of `insert`.
#[tactic(auto, using(crate::proofs::Judging::judged_rules))]
fn inserts_modes(
    machine: &Machine,
    own: Mode,
    subs: &[u16],
    inserts: &[Rtl],
) -> Option<MachineFault>
    ensures { result ≡ first (judging.all_modes machine.now (spec.inserts_judged machine.now own subs.now inserts.now)) }
{
    for place in 0..subs.len() {
        if place >= inserts.len() {
            return None;
        }
        let wanted = insert_wanted(machine, own, subs[place]);
        if let Some(fault) = by_mode(machine, wanted, &inserts[place]) {
            return Some(fault);
        }
    }
    None
}

/// The first fault of a multi field by its modes.
#[tactic(auto, using(crate::proofs::Judging::judged_rules))]
pub fn first_of_multi_modes(machine: &Machine, multi: &Multi) -> Option<MachineFault>
    ensures { result ≡ first (spec.multi_modes machine.now multi.now) }
{
    let subs = multi.subs.as_slice();
    let inserts = multi.insert.as_slice();
    let extract = Wanted {
        purpose: Purpose::Extract,
        want: Some(multi.mode),
        own: None,
    };
    if let Some(fault) = outside_inserts(machine, multi.mode, subs, inserts) {
        return Some(fault);
    }
    if let Some(fault) = first_outside(Purpose::Extract, &multi.extract) {
        return Some(fault);
    }
    if let Some(fault) = inserts_modes(machine, multi.mode, subs, inserts) {
        return Some(fault);
    }
    by_mode(machine, extract, &multi.extract)
}
