//! What is counted over a whole machine.

ghost use Rattle.std.specs.Prelude.{◌≡◌, ◌++◌, IfOk, OnOk};
ghost use Rattle.cg_desc_scope.specs.Seen.{seen_described};
ghost use Rattle.cg_desc_fault_report.specs.Subject.{described_in, element_in, form_in, insns_in, all_lent};
ghost use Rattle.cg_desc_machine.specs.Seen.{base};
ghost use Rattle.cg_desc_fault_count.specs.Counts as spec;

use crate::known::{Known, none as no_texts, put_all};
use cg_base::{List, NoMemory, Text};
use cg_desc_check_element::{add, field_nodes, hardware_nodes, insn_nodes, multi_nodes};
use cg_desc_choices::Written;
use cg_desc_data::cells_of;
use cg_desc_elements::Element;
use cg_desc_fault_report::Subject;
use cg_desc_machine::{insn_of, ruled_field, ruled_hardware, ruled_multi};
use cg_desc_scope::{Described, all_bare, texts_with};
use cg_hw::HardwareForm;
use cg_ifield::{FieldForm, MultiForm, PlainForm};
use cg_insn::InsnForm;
use cg_operand::OperandForm;
use cg_rtl_resolve::Scope;
use std::alloc::Global;

/// How much forms give of what is counted over a whole machine.
#[derive(Clone, Copy)]
pub struct Counts {
    /// Fields.
    pub fields: u64,
    /// Multi fields.
    pub multis: u64,
    /// Hardware.
    pub hardware: u64,
    /// Cells of registers.
    pub cells: u64,
    /// Operands, bare fields among them.
    pub operands: u64,
    /// Macro instructions.
    pub macros: u64,
    /// Nodes of expressions.
    pub nodes: u64,
    /// Error texts, each counted once.
    pub texts: u64,
}

/// What stands before a form: counts, error texts, and the bare fields of formats.
#[derive(Drop)]
pub struct Before {
    /// The counts.
    pub counts: Counts,
    /// The error texts.
    pub(crate) texts: Known,
    /// The bare fields.
    pub(crate) bare: Known,
}

/// Nothing.
fn none() -> Counts
    ensures { result ≡ spec.none }
{
    Counts {
        fields: 0,
        multis: 0,
        hardware: 0,
        cells: 0,
        operands: 0,
        macros: 0,
        nodes: 0,
        texts: 0,
    }
}

/// What is built in: five kinds of hardware.
fn at_first() -> Counts
    ensures { result ≡ spec.at_first }
{
    let mut counts = none();
    counts.hardware = 5;
    counts
}

/// Two counts together, or want of memory where a u64 doesn't hold a sum.
fn together(one: &Counts, other: &Counts) -> Result<Counts, NoMemory>
    ensures { IfOk result (λ counts. counts ≡ spec.together one.now other.now) }
{
    Ok(Counts {
        fields: add(one.fields, other.fields)?,
        multis: add(one.multis, other.multis)?,
        hardware: add(one.hardware, other.hardware)?,
        cells: add(one.cells, other.cells)?,
        operands: add(one.operands, other.operands)?,
        macros: add(one.macros, other.macros)?,
        nodes: add(one.nodes, other.nodes)?,
        texts: add(one.texts, other.texts)?,
    })
}

/// The nodes of an instruction's expressions.
fn nodes_of(
    alloc: Global,
    scope: &mut Scope,
    described: &Described,
    written: &Written,
) -> Result<u64, NoMemory>
    ensures value { IfOk result (λ count. count ≡ spec.nodes_of (seen_described described.now) (base scope.old) written.now) }
    ensures kept { base scope.new ≡ base scope.old }
{
    match insn_of(alloc, scope, described, written)? {
        Some(insn) => insn_nodes(&insn),
        None => Ok(0),
    }
}

/// Those of several instructions.
fn all_nodes(
    alloc: Global,
    scope: &mut Scope,
    described: &Described,
    insns: &[&Written],
) -> Result<u64, NoMemory>
    ensures value { IfOk result (λ count. count ≡ spec.all_nodes (seen_described described.now) (base scope.old) (all_lent insns.now)) }
    ensures kept { base scope.new ≡ base scope.old }
{
    let mut count = 0;
    for written in insns {
        count = add(count, nodes_of(alloc, scope, described, *written)?)?;
    }
    Ok(count)
}

/// Puts texts behind others.
fn append(list: &mut List<Text>, texts: &[Text]) -> Result<(), NoMemory>
    ensures { OnOk result (list.new ≡ list.old ++ texts.now) }
{
    for text in texts {
        list.push(text.clone()?)?;
    }
    Ok(())
}

/// The bare fields of the formats of instructions, as often as they stand.
#[tactic(auto, using(crate::proofs::Sums::sum_rules))]
fn bare_of(alloc: Global, described: &Described, insns: &[&Written]) -> Result<List<Text>, NoMemory>
    ensures { IfOk result (λ list. list ≡ spec.bare_of (seen_described described.now) (all_lent insns.now)) }
{
    let mut list = List::new(alloc);
    for written in insns {
        let one = std::slice::from_ref(*written);
        let bare = all_bare(alloc, described.selection.names, one)?;
        append(&mut list, bare.as_slice())?;
    }
    Ok(list)
}

/// What a field gives.
fn of_field(
    alloc: Global,
    scope: &mut Scope,
    described: &Described,
    form: &PlainForm,
) -> Result<Counts, NoMemory>
    ensures value { IfOk result (λ counts. counts ≡ spec.of_field (seen_described described.now) (base scope.old) form.now) }
    ensures kept { base scope.new ≡ base scope.old }
{
    let field = ruled_field(alloc, scope, described, form)?;
    let mut counts = none();
    counts.fields = 1;
    counts.nodes = field_nodes(&field)?;
    Ok(counts)
}

/// What a multi field gives.
fn of_multi(
    alloc: Global,
    scope: &mut Scope,
    described: &Described,
    form: &MultiForm,
) -> Result<Counts, NoMemory>
    ensures value { IfOk result (λ counts. counts ≡ spec.of_multi (seen_described described.now) (base scope.old) form.now) }
    ensures kept { base scope.new ≡ base scope.old }
{
    let multi = ruled_multi(alloc, scope, described, form)?;
    let mut counts = none();
    counts.multis = 1;
    counts.nodes = multi_nodes(&multi)?;
    Ok(counts)
}

/// What hardware gives.
fn of_hardware(
    alloc: Global,
    scope: &mut Scope,
    described: &Described,
    form: &HardwareForm,
) -> Result<Counts, NoMemory>
    ensures value { IfOk result (λ counts. counts ≡ spec.of_hardware (seen_described described.now) (base scope.old) form.now) }
    ensures kept { base scope.new ≡ base scope.old }
{
    let hardware = ruled_hardware(alloc, scope, described, form)?;
    let mut counts = none();
    counts.hardware = 1;
    counts.cells = cells_of(form);
    counts.nodes = hardware_nodes(&hardware)?;
    Ok(counts)
}

/// What an instruction gives, so many new bare fields among it.
fn of_insn(alloc: Global, scope: &mut Scope, of: &Subject, bare: u64) -> Result<Counts, NoMemory>
    ensures value { IfOk result (λ counts. counts ≡ spec.of_insn (described_in of.now) (base scope.old) bare (insns_in of.now)) }
    ensures kept { base scope.new ≡ base scope.old }
{
    let mut counts = none();
    counts.operands = bare;
    counts.nodes = all_nodes(alloc, scope, of.described, of.insns)?;
    Ok(counts)
}

/// What an element gives, its error texts aside, so many new bare fields among it where it is an
/// instruction.
fn of_element(alloc: Global, scope: &mut Scope, of: &Subject, bare: u64) -> Result<Counts, NoMemory>
    ensures value { IfOk result (λ counts. counts ≡ spec.counts_by (described_in of.now) (base scope.old) bare (insns_in of.now) (element_in of.now)) }
    ensures kept { base scope.new ≡ base scope.old }
{
    match of.element {
        Element::Field(FieldForm::Plain(form)) => of_field(alloc, scope, of.described, form),
        Element::Field(FieldForm::Multi(form)) => of_multi(alloc, scope, of.described, form),
        Element::Hardware(form) => of_hardware(alloc, scope, of.described, form),
        Element::Operand(OperandForm::Plain(_)) => Ok(one_operand()),
        Element::Insn(InsnForm::Instruction(_)) => of_insn(alloc, scope, of, bare),
        Element::Insn(InsnForm::Macro(_)) => Ok(one_macro()),
        _ => Ok(none()),
    }
}

/// What an operand gives.
fn one_operand() -> Counts
    ensures { result ≡ spec.one_operand }
{
    let mut counts = none();
    counts.operands = 1;
    counts
}

/// What a macro instruction gives.
fn one_macro() -> Counts
    ensures { result ≡ spec.one_macro }
{
    let mut counts = none();
    counts.macros = 1;
    counts
}

/// What a form adds, so many new error texts and bare fields among it, where its element takes part.
fn counts_at(
    alloc: Global,
    scope: &mut Scope,
    of: &Subject,
    texts: u64,
    bare: u64,
) -> Result<Counts, NoMemory>
    ensures value { IfOk result (λ counts. counts ≡ spec.counts_with (described_in of.now) (base scope.old) texts bare (element_in of.now) (insns_in of.now)) }
    ensures kept { base scope.new ≡ base scope.old }
{
    if !of.described.selection.takes_part(of.element) {
        return Ok(none());
    }
    let mut counts = of_element(alloc, scope, of, bare)?;
    counts.texts = texts;
    Ok(counts)
}

/// The error texts of a form.
fn texts_of(alloc: Global, of: &Subject) -> Result<List<Text>, NoMemory>
    ensures { IfOk result (λ list. list ≡ spec.texts_of (described_in of.now) (element_in of.now) (form_in of.now) (insns_in of.now)) }
{
    let selection = &of.described.selection;
    texts_with(alloc, selection, of.element, &of.top.form, of.insns)
}

impl Before {
    /// What stands before the first form.
    pub fn first(alloc: Global) -> Before
        ensures { spec.seen_before result ≡ spec.nothing_before }
    {
        Before {
            counts: at_first(),
            texts: no_texts(alloc),
            bare: no_texts(alloc),
        }
    }

    /// What a form adds to the counts of those before it. Its error texts and bare fields stand before the
    /// next form from then on; its counts do once they are added.
    pub fn count(
        &mut self,
        alloc: Global,
        scope: &mut Scope,
        of: &Subject,
    ) -> Result<Counts, NoMemory>
        ensures value { IfOk result (λ counts. counts ≡ spec.counts_at (described_in of.now) (base scope.old) (spec.seen_before self.old) of.now.number (element_in of.now) (form_in of.now) (insns_in of.now)) }
        ensures now { OnOk result (spec.seen_before self.new ≡ spec.with_names (described_in of.now) (spec.seen_before self.old) of.now.number (element_in of.now) (form_in of.now) (insns_in of.now)) }
        ensures kept { base scope.new ≡ base scope.old }
    {
        let texts = texts_of(alloc, of)?;
        let bare = bare_of(alloc, of.described, of.insns)?;
        let new_texts = put_all(&mut self.texts, texts.as_slice())?;
        let new_bare = put_all(&mut self.bare, bare.as_slice())?;
        counts_at(alloc, scope, of, new_texts, new_bare)
    }

    /// Adds what a form adds. A sum that a u64 doesn't hold is answered as want of memory; behind forms that
    /// pass no count there is none.
    pub fn add(&mut self, own: &Counts) -> Result<(), NoMemory>
        ensures { OnOk result (spec.seen_before self.new ≡ spec.with_counts (spec.seen_before self.old) own.now) }
    {
        self.counts = together(&self.counts, own)?;
        Ok(())
    }
}
