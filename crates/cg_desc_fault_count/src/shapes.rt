//! E308 of the syntaxes, formats and times of instructions, and of words and bundles.

ghost use Rattle.std.specs.Prelude.{◌≡◌, length, IfOk};
ghost use Rattle.std.specs.List.{flat_map};
ghost use Rattle.std.specs.Option.{option_copied, option_map};
ghost use Rattle.cg_base.specs.Refusing.{first};
ghost use Rattle.cg_desc_fault_count.specs.E308 as spec;
ghost use Rattle.cg_desc_fault_count.specs.Passing.{seen_passed};
ghost use Rattle.cg_desc_data.specs.Seen.{seen};
ghost use Rattle.cg_desc_scope.specs.Seen.{seen_described};
ghost use Rattle.cg_model.specs.Words.{named_values};
ghost use Rattle.cg_model_faults.specs.E308.{of_syntax};
ghost use Rattle.cg_desc_fault_report.specs.Subject.{described_in, machine_in, insns_in};
ghost use Rattle.cg_desc_machine.specs.Seen.{base};

use crate::passing::{Found, Passed, passing, too_many};
use cg_attrs::{IsaForm, ModelForm};
use cg_desc_check_format::bytes_of;
use cg_desc_choices::Written;
use cg_desc_data::{Selection, words};
use cg_desc_fault_report::Subject;
use cg_desc_insns::all_pieces;
use cg_desc_machine::{insn_by, macro_slots, pieces_of, slot_names, target_of};
use cg_desc_scope::{Described, cycles_of};
use cg_hw::HardwareForm;
use cg_insn::{InstructionForm, MacroForm};
use cg_model::Keyword;
use cg_rtl_resolve::Scope;
use std::alloc::Global;

/// How many words a keyword has that may be absent.
fn count_words(keyword: &Option<Keyword>) -> usize
    ensures { result ≡ length (named_values keyword.now) }
{
    match keyword {
        Some(keyword) => keyword.words.len(),
        None => 0,
    }
}

/// Whether the clause of this name gives the words of hardware.
fn gives_words(form: &HardwareForm, name: &[u8]) -> bool
    ensures { result ≡ spec.gives_words form.now name.now }
{
    if form.indices.is_some() {
        name == b"indices".as_slice()
    } else {
        name == b"values".as_slice()
    }
}

/// Over 1,024 words of hardware, at the clause that gives them.
pub(crate) fn first_of_words(
    alloc: Global,
    selection: &Selection,
    form: &HardwareForm,
    name: &[u8],
) -> Found
    ensures { IfOk result (λ found. option_map seen_passed found ≡ first (spec.of_words (seen selection.now) form.now name.now)) }
{
    if !gives_words(form, name) {
        return Ok(None);
    }
    let keyword = words(alloc, selection, form)?;
    Ok(too_many(1024, count_words(&keyword)))
}

/// Over 8 instructions of a bundle, where there is a bundle field.
fn first_of_bundle(form: &IsaForm, name: &[u8]) -> Option<Passed>
    ensures { option_map seen_passed result ≡ first (spec.of_bundle form.now name.now) }
{
    if form.bundle_field.is_some() && b"parallel-insns".as_slice() == name {
        let insns = form.parallel_insns.unwrap_or(1).unsigned_abs();
        passing(8, 0, insns as u128)
    } else {
        None
    }
}

/// The same, where the form of this number is that of the selected instruction set.
pub(crate) fn first_of_isa(
    selection: &Selection,
    number: usize,
    form: &IsaForm,
    name: &[u8],
) -> Option<Passed>
    ensures { option_map seen_passed result ≡ first (spec.of_isa (seen selection.now) number form.now name.now) }
{
    if selection.names.gives_isa(selection.isa, number) {
        first_of_bundle(form, name)
    } else {
        None
    }
}

/// Over 64 pieces of an instruction's syntax.
fn of_pieces(alloc: Global, described: &Described, written: &Written) -> Found
    ensures { IfOk result (λ found. option_map seen_passed found ≡ first (spec.of_pieces (seen_described described.now) written.now)) }
{
    let slots = slot_names(alloc, described, written)?;
    let pieces = pieces_of(alloc, slots.as_slice(), written.pieces.as_slice())?;
    Ok(too_many(64, pieces.len()))
}

/// The first of all of a form's instructions.
#[tactic(auto, using(cg_desc_fault_report::proofs::Firsts::first_rules))]
fn first_of_pieces(alloc: Global, of: &Subject) -> Found
    ensures { IfOk result (λ found. option_map seen_passed found ≡ first (flat_map (spec.of_pieces (described_in of.now)) (insns_in of.now))) }
{
    for written in of.insns {
        if let Some(passed) = of_pieces(alloc, of.described, written)? {
            return Ok(Some(passed));
        }
    }
    Ok(None)
}

/// Over 16 bytes of an instruction, where sizes are known.
fn of_bytes(
    alloc: Global,
    scope: &mut Scope,
    of: &Subject,
    form: &InstructionForm,
    written: &Written,
) -> Found
    ensures value { IfOk result (λ found. option_map seen_passed found ≡ first (spec.of_bytes (described_in of.now) (base scope.old) (machine_in of.now) form.now written.now)) }
    ensures kept { base scope.new ≡ base scope.old }
{
    if !of.described.framing.is_sized {
        return Ok(None);
    }
    let insn = insn_by(alloc, scope, of.described, written, form)?;
    Ok(passing(16, 0, bytes_of(of.machine, &insn) as u128))
}

/// Over 16 slots or bytes of an instruction.
#[tactic(auto, using(cg_desc_fault_report::proofs::Firsts::first_rules))]
fn of_slots(
    alloc: Global,
    scope: &mut Scope,
    of: &Subject,
    form: &InstructionForm,
    written: &Written,
) -> Found
    ensures value { IfOk result (λ found. option_map seen_passed found ≡ first (spec.of_slots (described_in of.now) (base scope.old) (machine_in of.now) form.now written.now)) }
    ensures kept { base scope.new ≡ base scope.old }
{
    let slots = slot_names(alloc, of.described, written)?;
    if let Some(passed) = too_many(16, slots.len()) {
        return Ok(Some(passed));
    }
    of_bytes(alloc, scope, of, form, written)
}

/// The first of all of a form's instructions.
#[tactic(auto, using(cg_desc_fault_report::proofs::Firsts::first_rules))]
fn first_of_slots(alloc: Global, scope: &mut Scope, of: &Subject, form: &InstructionForm) -> Found
    ensures value { IfOk result (λ found. option_map seen_passed found ≡ first (flat_map (spec.of_slots (described_in of.now) (base scope.old) (machine_in of.now) form.now) (insns_in of.now))) }
    ensures kept { base scope.new ≡ base scope.old }
{
    for written in of.insns {
        if let Some(passed) = of_slots(alloc, scope, of, form, written)? {
            return Ok(Some(passed));
        }
    }
    Ok(None)
}

/// Over 67,107,840 cycles of an instruction of this form.
fn of_cycles(alloc: Global, model: Option<&ModelForm>, form: &InstructionForm) -> Found
    ensures { IfOk result (λ found. option_map seen_passed found ≡ first (spec.of_time (option_copied model.entry) form.now)) }
{
    Ok(passing(67_107_840, 0, cycles_of(alloc, model, form)?))
}

/// The same of a form's instructions, which take equally long.
fn first_of_cycles(alloc: Global, of: &Subject, form: &InstructionForm) -> Found
    ensures { IfOk result (λ found. option_map seen_passed found ≡ first (spec.of_cycles (described_in of.now) form.now (insns_in of.now))) }
{
    match of.insns {
        [] => Ok(None),
        [_, ..] => of_cycles(alloc, of.described.model, form),
    }
}

/// What is passed in the clause of this name of an instruction.
pub(crate) fn first_of_insn(
    alloc: Global,
    scope: &mut Scope,
    of: &Subject,
    form: &InstructionForm,
    name: &[u8],
) -> Found
    ensures value { IfOk result (λ found. option_map seen_passed found ≡ first (spec.of_insn (described_in of.now) (base scope.old) (machine_in of.now) form.now (insns_in of.now) name.now)) }
    ensures kept { base scope.new ≡ base scope.old }
{
    match name {
        b"syntax" => first_of_pieces(alloc, of),
        b"format" => first_of_slots(alloc, scope, of, form),
        b"timing" => first_of_cycles(alloc, of, form),
        _ => Ok(None),
    }
}

/// Over 64 pieces or 16 slots of a syntax.
#[tactic(auto, using(cg_desc_fault_report::proofs::Firsts::first_rules))]
fn of_syntax(pieces: usize, slots: usize) -> Option<Passed>
    ensures { option_map seen_passed result ≡ first (of_syntax pieces slots) }
{
    if let Some(passed) = too_many(64, pieces) {
        return Some(passed);
    }
    too_many(16, slots)
}

/// The pieces and slots of the syntax of a macro instruction.
fn first_of_macro_syntax(alloc: Global, described: &Described, form: &MacroForm) -> Found
    ensures { IfOk result (λ found. option_map seen_passed found ≡ first (spec.of_macro_syntax (seen_described described.now) form.now)) }
{
    let slots = macro_slots(alloc, &described.operand_numbers, form)?;
    let written = all_pieces(alloc, &form.syntax)?;
    let pieces = pieces_of(alloc, slots.as_slice(), written.as_slice())?;
    Ok(of_syntax(pieces.len(), slots.len()))
}

/// The same in the clause of this name, where the instruction that it emits is there.
pub(crate) fn first_of_macro(
    alloc: Global,
    described: &Described,
    form: &MacroForm,
    name: &[u8],
) -> Found
    ensures { IfOk result (λ found. option_map seen_passed found ≡ first (spec.of_macro (seen_described described.now) form.now name.now)) }
{
    let is_there = target_of(described.written.as_slice(), form).is_some();
    if is_there && b"syntax".as_slice() == name {
        first_of_macro_syntax(alloc, described, form)
    } else {
        Ok(None)
    }
}
