ghost use Rattle.std.specs.Prelude.{◌≡◌, ◌+◌, suc, IfOk};
ghost use Rattle.cg_base.specs.Refusing.{first};
ghost use Rattle.cg_model_faults.specs.E308 as e308;
ghost use Rattle.cg_model_faults.specs.E313.{slot_operands};
ghost use Rattle.cg_model_faults.specs.E306.{in_hardware};
ghost use Rattle.cg_model_faults.specs.Elements as spec;
ghost use Rattle.cg_desc_check_element.specs.Wanting.{hardware_rest};

use crate::counting::{add, field_nodes, hardware_nodes, insn_nodes, multi_nodes};
use crate::expressions::{
    Found, cells, cells_of_all, cells_where, names, names_where, numbers_of_all, numbers_where,
    purity, purity_of_all, purity_where,
};
use crate::texts::{first_long_literal, first_long_of_all, first_long_text, first_long_word};
use cg_base::NoMemory;
use cg_desc_check_format::{
    first_bundled, first_long_insn, first_long_syntax, first_misplaced, first_no_bundle,
    first_no_bundle_bit, first_no_emitted, first_no_sub, first_of_too_many_insns, first_overlap,
    first_passing, first_shapeless, first_undelimited, first_unfit, first_ungiven, first_unmatched,
    first_unsourced, first_unused, first_written_twice,
};
use cg_desc_check_rtl::{Standing, first_circular, first_no_register, first_unnamed};
use cg_model::{Field, Hardware, Insn, Machine, MacroInsn, Multi, Operand, Part, Rtl};
use cg_model_faults::{MachineFault, Purpose};
use std::alloc::Global;

/// The first fault of the machine's own name and bundle field.
#[tactic(auto, using(crate::proofs::Firsts::first_rules))]
pub fn first_of_bundle(machine: &Machine) -> Option<MachineFault>
    ensures { result ≡ first (spec.of_bundle machine.now) }
{
    if let Some(fault) = first_no_bundle(machine) {
        return Some(fault);
    }
    if let Some(fault) = first_long_text(&machine.name) {
        return Some(fault);
    }
    first_no_bundle_bit(machine)
}

/// The counts of a field.
#[tactic(auto, using(crate::proofs::Firsts::first_rules))]
fn field_counts(before: u64, spent: u64, field: &Field) -> Found
    ensures { IfOk result (λ found. found ≡ first (e308.of_field before spent field.now)) }
{
    if let Some(fault) = first_passing(1024, before, add(before, 1)?) {
        return Ok(Some(fault));
    }
    let now = add(spent, field_nodes(field)?)?;
    if let Some(fault) = first_passing(1_000_000, spent, now) {
        return Ok(Some(fault));
    }
    Ok(first_long_text(&field.name))
}

/// The first fault of a field that so many stand before, with so many nodes of expressions.
#[tactic(auto, using(crate::proofs::Firsts::first_rules))]
pub fn first_of_field(machine: &Machine, before: u64, spent: u64, field: &Field) -> Found
    ensures { IfOk result (λ found. found ≡ first (spec.of_field machine.now before spent field.now)) }
{
    if let Some(fault) = cells_where(machine, &field.encode)? {
        return Ok(Some(fault));
    }
    if let Some(fault) = cells_where(machine, &field.decode)? {
        return Ok(Some(fault));
    }
    if let Some(fault) = numbers_where(machine, &field.encode)? {
        return Ok(Some(fault));
    }
    if let Some(fault) = numbers_where(machine, &field.decode)? {
        return Ok(Some(fault));
    }
    if let Some(fault) = field_counts(before, spent, field)? {
        return Ok(Some(fault));
    }
    if let Some(fault) = first_misplaced(field) {
        return Ok(Some(fault));
    }
    if let Some(fault) = purity_where(machine, Purpose::Encode, &field.encode)? {
        return Ok(Some(fault));
    }
    Ok(purity_where(machine, Purpose::Decode, &field.decode)?)
}

/// The counts of a multi field.
#[tactic(auto, using(crate::proofs::Firsts::first_rules))]
fn multi_counts(before: u64, spent: u64, multi: &Multi) -> Found
    ensures { IfOk result (λ found. found ≡ first (e308.of_multi before spent multi.now)) }
{
    if let Some(fault) = first_passing(1024, before, add(before, 1)?) {
        return Ok(Some(fault));
    }
    let now = add(spent, multi_nodes(multi)?)?;
    if let Some(fault) = first_passing(1_000_000, spent, now) {
        return Ok(Some(fault));
    }
    Ok(first_long_text(&multi.name))
}

/// The first fault of a multi field that so many stand before, with so many nodes of expressions.
#[tactic(auto, using(crate::proofs::Firsts::first_rules))]
pub fn first_of_multi(machine: &Machine, before: u64, spent: u64, multi: &Multi) -> Found
    ensures { IfOk result (λ found. found ≡ first (spec.of_multi machine.now before spent multi.now)) }
{
    if let Some(fault) = cells_of_all(machine, multi.insert.as_slice())? {
        return Ok(Some(fault));
    }
    if let Some(fault) = cells(machine, &multi.extract)? {
        return Ok(Some(fault));
    }
    if let Some(fault) = first_no_sub(machine, multi.subs.as_slice()) {
        return Ok(Some(fault));
    }
    if let Some(fault) = numbers_of_all(machine, multi.insert.as_slice())? {
        return Ok(Some(fault));
    }
    if let Some(fault) = first_unnamed(machine, &multi.extract)? {
        return Ok(Some(fault));
    }
    if let Some(fault) = multi_counts(before, spent, multi)? {
        return Ok(Some(fault));
    }
    if let Some(fault) = purity_of_all(machine, Purpose::Insert, multi.insert.as_slice())? {
        return Ok(Some(fault));
    }
    let subs = multi.subs.as_slice();
    Ok(purity(machine, Purpose::Extract, subs, &multi.extract)?)
}

/// How many words hardware has.
fn words_of(hardware: &Hardware) -> u64
    ensures { result ≡ e308.words_of hardware.now }
{
    match &hardware.keyword {
        Some(keyword) => keyword.words.len() as u64,
        None => 0,
    }
}

/// The counts of hardware.
#[tactic(auto, using(crate::proofs::Firsts::first_rules))]
fn hardware_counts(before: usize, cells: u64, spent: u64, hardware: &Hardware) -> Found
    ensures { IfOk result (λ found. found ≡ first (e308.of_hardware before cells spent hardware.now)) }
{
    let number = before as u64;
    if let Some(fault) = first_passing(256, number, add(number, 1)?) {
        return Ok(Some(fault));
    }
    if let Some(fault) = first_passing(65_536, cells, add(cells, hardware.count as u64)?) {
        return Ok(Some(fault));
    }
    if let Some(fault) = first_passing(1024, 0, words_of(hardware)) {
        return Ok(Some(fault));
    }
    let now = add(spent, hardware_nodes(hardware)?)?;
    if let Some(fault) = first_passing(1_000_000, spent, now) {
        return Ok(Some(fault));
    }
    if let Some(fault) = first_long_text(&hardware.name) {
        return Ok(Some(fault));
    }
    Ok(first_long_word(&hardware.keyword))
}

/// E306 of a get or set rule that may be absent.
fn rule_names(machine: &Machine, rtl: &Option<Rtl>) -> Found
    ensures { IfOk result (λ found. found ≡ first (spec.where_there (spec.names_of machine.now in_hardware) rtl.now)) }
{
    Ok(names_where(machine, Standing::Hardware, rtl)?)
}

/// The first fault of the hardware of a number behind E304.
#[tactic(auto, using(crate::proofs::Firsts::first_rules))]
fn hardware_rest(
    alloc: Global,
    machine: &Machine,
    number: usize,
    cells: u64,
    spent: u64,
    hardware: &Hardware,
) -> Found
    ensures { IfOk result (λ found. found ≡ first (hardware_rest machine.now number cells spent hardware.now)) }
{
    if let Some(fault) = rule_names(machine, &hardware.get)? {
        return Ok(Some(fault));
    }
    if let Some(fault) = rule_names(machine, &hardware.set)? {
        return Ok(Some(fault));
    }
    if let Some(fault) = hardware_counts(number, cells, spent, hardware)? {
        return Ok(Some(fault));
    }
    Ok(first_circular(alloc, machine, number)?)
}

/// The first fault of the hardware of a number, with so many cells and nodes of expressions before it.
#[tactic(auto, using(crate::proofs::Firsts::first_rules))]
pub fn first_of_hardware(
    alloc: Global,
    machine: &Machine,
    number: usize,
    cells: u64,
    spent: u64,
    hardware: &Hardware,
) -> Found
    ensures { IfOk result (λ found. found ≡ first (spec.of_hardware machine.now number cells spent hardware.now)) }
{
    if let Some(fault) = first_no_register(hardware) {
        return Ok(Some(fault));
    }
    if let Some(fault) = cells_where(machine, &hardware.get)? {
        return Ok(Some(fault));
    }
    if let Some(fault) = cells_where(machine, &hardware.set)? {
        return Ok(Some(fault));
    }
    Ok(hardware_rest(alloc, machine, number, cells, spent, hardware)?)
}

/// The first fault of an operand that so many stand before.
#[tactic(auto, using(crate::proofs::Firsts::first_rules))]
pub fn first_of_operand(machine: &Machine, before: u64, operand: &Operand) -> Found
    ensures { IfOk result (λ found. found ≡ first (spec.of_operand machine.now before operand.now)) }
{
    if let Some(fault) = first_unsourced(machine, operand) {
        return Ok(Some(fault));
    }
    if let Some(fault) = first_passing(1024, before, add(before, 1)?) {
        return Ok(Some(fault));
    }
    Ok(first_long_text(&operand.name))
}

/// The operands of a format's slots, in order.
#[tactic(auto, using(crate::proofs::Firsts::slot_rules))]
fn slots_of(alloc: Global, parts: &[Part]) -> Result<Vec<u16>, NoMemory>
    ensures { IfOk result (λ slots. slots.items ≡ slot_operands parts.now) }
{
    let mut slots = Vec::new(alloc);
    for part in parts {
        if let Part::Slot { operand } = part {
            slots.push(*operand)?;
        }
    }
    Ok(slots)
}

/// E304 of the expressions of an instruction.
#[tactic(auto, using(crate::proofs::Firsts::first_rules))]
fn insn_cells(machine: &Machine, insn: &Insn) -> Found
    ensures { IfOk result (λ found. found ≡ first (spec.insn_cells machine.now insn.now)) }
{
    if let Some(fault) = cells_where(machine, &insn.assertion)? {
        return Ok(Some(fault));
    }
    Ok(cells(machine, &insn.semantics)?)
}

/// E306 of the expressions of an instruction.
#[tactic(auto, using(crate::proofs::Firsts::first_rules))]
fn insn_names(machine: &Machine, insn: &Insn) -> Found
    ensures { IfOk result (λ found. found ≡ first (spec.insn_names machine.now insn.now)) }
{
    let parts = insn.parts.as_slice();
    if let Some(fault) = names_where(machine, Standing::Assertion(parts), &insn.assertion)? {
        return Ok(Some(fault));
    }
    Ok(names(machine, Standing::Semantics(parts), &insn.semantics)?)
}

/// The first fault of an instruction's format and syntax.
#[tactic(auto, using(crate::proofs::Firsts::first_rules))]
fn insn_format(alloc: Global, machine: &Machine, insn: &Insn) -> Found
    ensures { IfOk result (λ found. found ≡ first (spec.insn_format machine.now insn.now)) }
{
    let parts = insn.parts.as_slice();
    let pieces = insn.pieces.as_slice();
    if let Some(fault) = first_long_insn(machine, insn) {
        return Ok(Some(fault));
    }
    if let Some(fault) = first_overlap(machine, parts) {
        return Ok(Some(fault));
    }
    if let Some(fault) = first_unfit(machine, parts) {
        return Ok(Some(fault));
    }
    let slots = slots_of(alloc, parts)?;
    if let Some(fault) = first_undelimited(machine, slots.as_slice(), pieces) {
        return Ok(Some(fault));
    }
    if let Some(fault) = first_written_twice(slots.as_slice(), pieces) {
        return Ok(Some(fault));
    }
    if let Some(fault) = first_unmatched(pieces, slots.as_slice()) {
        return Ok(Some(fault));
    }
    if let Some(fault) = purity_where(machine, Purpose::Assertion, &insn.assertion)? {
        return Ok(Some(fault));
    }
    Ok(first_bundled(machine, parts))
}

/// The counts of an instruction over the machine, and its texts.
#[tactic(auto, using(crate::proofs::Firsts::first_rules))]
fn insn_counts(spent: u64, insn: &Insn) -> Found
    ensures { IfOk result (λ found. found ≡ first (e308.of_insn spent insn.now)) }
{
    let now = add(spent, insn_nodes(insn)?)?;
    if let Some(fault) = first_passing(1_000_000, spent, now) {
        return Ok(Some(fault));
    }
    if let Some(fault) = first_long_text(&insn.name) {
        return Ok(Some(fault));
    }
    Ok(first_long_literal(insn.pieces.as_slice()))
}

/// The first fault of an instruction that so many stand before, with so many nodes of expressions.
#[tactic(auto, using(crate::proofs::Firsts::first_rules))]
pub fn first_of_insn(
    alloc: Global,
    machine: &Machine,
    before: usize,
    spent: u64,
    insn: &Insn,
) -> Found
    ensures { IfOk result (λ found. found ≡ first (spec.of_insn machine.now before spent insn.now)) }
{
    let shapeless = first_shapeless(machine, insn.pieces.as_slice(), insn.parts.as_slice());
    if let Some(fault) = shapeless {
        return Ok(Some(fault));
    }
    if let Some(fault) = insn_cells(machine, insn)? {
        return Ok(Some(fault));
    }
    if let Some(fault) = insn_names(machine, insn)? {
        return Ok(Some(fault));
    }
    if let Some(fault) = insn_counts(spent, insn)? {
        return Ok(Some(fault));
    }
    if let Some(fault) = insn_format(alloc, machine, insn)? {
        return Ok(Some(fault));
    }
    Ok(first_of_too_many_insns(before))
}

/// The operands of the slots of the instruction that a macro instruction emits.
fn emitted(alloc: Global, machine: &Machine, insn: &MacroInsn) -> Result<Vec<u16>, NoMemory>
    ensures { IfOk result (λ slots. slots.items ≡ spec.emitted machine.now insn.now) }
{
    match machine.insns.get(insn.target as usize) {
        Some(target) => Ok(slots_of(alloc, target.parts.as_slice())?),
        None => Ok(Vec::new(alloc)),
    }
}

/// The first fault of a macro instruction's syntax and of what it gives.
#[tactic(auto, using(crate::proofs::Firsts::first_rules))]
fn macro_syntax(alloc: Global, machine: &Machine, insn: &MacroInsn) -> Found
    ensures { IfOk result (λ found. found ≡ first (spec.macro_syntax machine.now insn.now)) }
{
    let pieces = insn.pieces.as_slice();
    let operands = insn.operands.as_slice();
    let given = insn.given.as_slice();
    if let Some(fault) = first_long_syntax(pieces.len(), operands.len()) {
        return Ok(Some(fault));
    }
    if let Some(fault) = first_undelimited(machine, operands, pieces) {
        return Ok(Some(fault));
    }
    if let Some(fault) = first_written_twice(operands, pieces) {
        return Ok(Some(fault));
    }
    if let Some(fault) = first_unmatched(pieces, operands) {
        return Ok(Some(fault));
    }
    let slots = emitted(alloc, machine, insn)?;
    if let Some(fault) = first_ungiven(given, slots.as_slice()) {
        return Ok(Some(fault));
    }
    Ok(first_unused(given, operands))
}

/// The counts of a macro instruction over the machine, and its texts.
#[tactic(auto, using(crate::proofs::Firsts::first_rules))]
fn macro_counts(before: u64, insn: &MacroInsn) -> Found
    ensures { IfOk result (λ found. found ≡ first (e308.of_macro before insn.now)) }
{
    if let Some(fault) = first_passing(1024, before, add(before, 1)?) {
        return Ok(Some(fault));
    }
    if let Some(fault) = first_long_text(&insn.name) {
        return Ok(Some(fault));
    }
    Ok(first_long_literal(insn.pieces.as_slice()))
}

/// The first fault of a macro instruction that so many stand before.
#[tactic(auto, using(crate::proofs::Firsts::first_rules))]
pub fn first_of_macro(alloc: Global, machine: &Machine, before: u64, insn: &MacroInsn) -> Found
    ensures { IfOk result (λ found. found ≡ first (spec.of_macro machine.now before insn.now)) }
{
    if let Some(fault) = first_no_emitted(machine, insn) {
        return Ok(Some(fault));
    }
    if let Some(fault) = macro_counts(before, insn)? {
        return Ok(Some(fault));
    }
    Ok(macro_syntax(alloc, machine, insn)?)
}

/// The fault of too many error texts, or of one that is too long.
#[tactic(auto, using(crate::proofs::Firsts::first_rules))]
pub fn first_of_texts(machine: &Machine) -> Option<MachineFault>
    ensures { result ≡ first (spec.of_texts machine.now) }
{
    if let Some(fault) = first_passing(1_000_000, 0, machine.texts.len() as u64) {
        return Some(fault);
    }
    first_long_of_all(machine.texts.as_slice())
}
