//! The expressions in a clause.

ghost use Rattle.std.specs.Prelude.{◌≡◌, ◌++◌, IfOk, OnOk};
ghost use Rattle.std.specs.Option.{option_copied};
ghost use Rattle.cg_attrs.specs.Clauses.{seen_clause};
ghost use Rattle.cg_desc_fault_report.specs.Subject.{described_in, machine_in, element_in, insns_in};
ghost use Rattle.cg_desc_machine.specs.Seen.{base, seen_sets};
ghost use Rattle.cg_desc_fault_rtl.specs.Expressions as spec;

use crate::asking::{Asking, Expression, Naming, expression_of, plain_asking};
use crate::instructions::put_of_instruction;
use cg_attrs::Clause;
use cg_base::{Form, List, NoMemory, Text, only};
use cg_desc_data::{extent_of, hardware_of, multi_of};
use cg_desc_elements::Element;
use cg_desc_fault_report::{Subject, put_copies};
use cg_desc_machine::{set_rule, sets_among};
use cg_hw::{HardwareForm, expression};
use cg_ifield::{FieldForm, MultiForm, PlainForm, sets_behind};
use cg_insn::InsnForm;
use cg_model::{Machine, Multi};
use cg_operand::OperandForm;
use cg_rtl_resolve::{Rule, Scope};
use std::alloc::Global;

/// Puts an expression of an element of this name at the end that stands alone in its clause, where it is
/// there.
fn put_plain(
    alloc: Global,
    list: &mut List<Expression>,
    machine: &Machine,
    own: &Text,
    scope: &Scope,
    naming: Naming,
    form: Option<&Form>,
) -> Result<(), NoMemory>
    ensures { OnOk result (list.new ≡ list.old ++ spec.plain_where machine.now own.now scope.now naming (option_copied form.entry)) }
{
    match form {
        Some(form) => {
            let asking = plain_asking(alloc, own, naming)?;
            list.push(expression_of(alloc, machine, scope, form, asking)?)
        }
        None => Ok(()),
    }
}

/// The expression of `encode` or `decode`.
#[tactic(auto, unfolding(crate::specs::Expressions::coding_in))]
fn coding_in<'a>(clause: Clause<'a>) -> Option<&'a Form>
    ensures { option_copied result ≡ spec.coding_in (seen_clause clause.entry) }
{
    match only(clause.content) {
        Some(form) => match form.elements() {
            Some(elements) => expression(elements),
            None => None,
        },
        None => None,
    }
}

/// Puts the expression of `encode` or `decode` of a field at the end.
fn put_of_field(
    alloc: Global,
    list: &mut List<Expression>,
    scope: &mut Scope,
    of: &Subject,
    form: &PlainForm,
    clause: Clause<'_>,
) -> Result<(), NoMemory>
    ensures value { OnOk result (list.new ≡ list.old ++ spec.in_field (described_in of.now) (base scope.old) (machine_in of.now) form.now (seen_clause clause.entry)) }
    ensures kept { base scope.new ≡ base scope.old }
{
    let own = Some(extent_of(&of.described.framing, form).mode);
    let name = &form.name;
    match clause.name {
        b"encode" => {
            set_rule(scope, Rule::Encode, own);
            put_plain(
                alloc,
                list,
                of.machine,
                name,
                scope,
                Naming::Unasked,
                coding_in(clause),
            )
        }
        b"decode" => {
            set_rule(scope, Rule::Decode, own);
            put_plain(
                alloc,
                list,
                of.machine,
                name,
                scope,
                Naming::Unasked,
                coding_in(clause),
            )
        }
        _ => Ok(()),
    }
}

/// What is asked of the expression of a multi field that stands at this place among others.
fn set_asking(alloc: Global, own: &Text, subs: &[u16], place: usize) -> Result<Asking, NoMemory>
    ensures { IfOk result (λ new. new ≡ spec.set_asking own.now subs.now place) }
{
    let mut asking = plain_asking(alloc, own, Naming::Unasked)?;
    asking.at.push(place)?;
    put_copies(&mut asking.subs, subs)?;
    Ok(asking)
}

/// Puts the expressions of the fields that are set at the end.
fn put_sets(
    alloc: Global,
    list: &mut List<Expression>,
    machine: &Machine,
    own: &Text,
    scope: &Scope,
    subs: &[u16],
    sets: &[(&Text, &Form)],
) -> Result<(), NoMemory>
    ensures { OnOk result (list.new ≡ list.old ++ spec.sets_from machine.now own.now scope.now subs.now 0 (seen_sets sets.now)) }
{
    for (place, set) in sets.iter().enumerate() {
        let asking = set_asking(alloc, own, subs, place)?;
        list.push(expression_of(alloc, machine, scope, set.1, asking)?)?;
    }
    Ok(())
}

/// The fields that a clause sets, `insert` or `extract`, each with its expression, in the order in which they
/// are written (docs/LANGUAGE.md, "Fields").
pub fn sets_in<'a>(alloc: Global, clause: Clause<'a>) -> Result<Vec<(&'a Text, &'a Form)>, NoMemory>
    ensures { IfOk result (λ list. seen_sets list.items ≡ spec.sets_in (seen_clause clause.entry)) }
{
    match sets_behind(clause.content) {
        Some(forms) => sets_among(alloc, forms),
        None => Ok(Vec::new(alloc)),
    }
}

/// Puts the expressions of `insert` or `extract` of a multi field at the end.
fn put_of_multi(
    alloc: Global,
    list: &mut List<Expression>,
    scope: &mut Scope,
    machine: &Machine,
    multi: &Multi,
    clause: Clause<'_>,
) -> Result<(), NoMemory>
    ensures value { OnOk result (list.new ≡ list.old ++ spec.in_multi (base scope.old) machine.now multi.now (seen_clause clause.entry)) }
    ensures kept { base scope.new ≡ base scope.old }
{
    match clause.name {
        b"insert" => {
            let sets = sets_in(alloc, clause)?;
            set_rule(scope, Rule::Insert(multi.name.clone()?), Some(multi.mode));
            put_sets(alloc, list, machine, &multi.name, scope, &[], &sets)
        }
        b"extract" => {
            let sets = sets_in(alloc, clause)?;
            set_rule(scope, Rule::Extract, None);
            put_sets(
                alloc,
                list,
                machine,
                &multi.name,
                scope,
                multi.subs.as_slice(),
                &sets,
            )
        }
        _ => Ok(()),
    }
}

/// The same of the multi field of a form.
fn put_of_multi_form(
    alloc: Global,
    list: &mut List<Expression>,
    scope: &mut Scope,
    of: &Subject,
    form: &MultiForm,
    clause: Clause<'_>,
) -> Result<(), NoMemory>
    ensures value { OnOk result (list.new ≡ list.old ++ spec.multi_form (described_in of.now) (base scope.old) (machine_in of.now) form.now (seen_clause clause.entry)) }
    ensures kept { base scope.new ≡ base scope.old }
{
    let multi = multi_of(alloc, &of.described.framing, &of.described.numbers, form)?;
    put_of_multi(alloc, list, scope, of.machine, &multi, clause)
}

/// Puts the expression of `get` or `set` of hardware at the end.
fn put_of_hardware(
    alloc: Global,
    list: &mut List<Expression>,
    scope: &mut Scope,
    of: &Subject,
    form: &HardwareForm,
    clause: Clause<'_>,
) -> Result<(), NoMemory>
    ensures value { OnOk result (list.new ≡ list.old ++ spec.in_hardware (described_in of.now) (base scope.old) (machine_in of.now) form.now (seen_clause clause.entry)) }
    ensures kept { base scope.new ≡ base scope.old }
{
    let name = &form.name;
    let rule = expression(clause.content);
    match clause.name {
        b"get" => {
            set_rule(scope, Rule::Get, None);
            put_plain(alloc, list, of.machine, name, scope, Naming::Hardware, rule)
        }
        b"set" => {
            let described = of.described;
            let plain = hardware_of(alloc, &described.selection, &described.framing, form)?;
            set_rule(scope, Rule::Set, Some(plain.mode));
            put_plain(alloc, list, of.machine, name, scope, Naming::Hardware, rule)
        }
        _ => Ok(()),
    }
}

/// Puts the getter, the setter or the assertion of a derived operand of this name at the end.
fn put_of_derived(
    alloc: Global,
    list: &mut List<Expression>,
    scope: &mut Scope,
    machine: &Machine,
    own: &Text,
    clause: Clause<'_>,
) -> Result<(), NoMemory>
    ensures value { OnOk result (list.new ≡ list.old ++ spec.in_derived (base scope.old) machine.now own.now (seen_clause clause.entry)) }
    ensures kept { base scope.new ≡ base scope.old }
{
    let form = only(clause.content);
    match clause.name {
        b"getter" => {
            set_rule(scope, Rule::Semantics, None);
            put_plain(alloc, list, machine, own, scope, Naming::Unasked, form)
        }
        b"setter" => {
            set_rule(scope, Rule::Semantics, None);
            put_plain(alloc, list, machine, own, scope, Naming::Unasked, form)
        }
        b"ifield-assertion" => {
            set_rule(scope, Rule::Assertion, None);
            put_plain(alloc, list, machine, own, scope, Naming::Unasked, form)
        }
        _ => Ok(()),
    }
}

/// Puts the expressions in a clause of a form at the end.
fn put_all(
    alloc: Global,
    list: &mut List<Expression>,
    scope: &mut Scope,
    of: &Subject,
    clause: Clause<'_>,
) -> Result<(), NoMemory>
    ensures value { OnOk result (list.new ≡ list.old ++ spec.expressions (described_in of.now) (base scope.old) (machine_in of.now) (insns_in of.now) (element_in of.now) (seen_clause clause.entry)) }
    ensures kept { base scope.new ≡ base scope.old }
{
    match of.element {
        Element::Field(FieldForm::Plain(form)) => {
            put_of_field(alloc, list, scope, of, form, clause)
        }
        Element::Field(FieldForm::Multi(form)) => {
            put_of_multi_form(alloc, list, scope, of, form, clause)
        }
        Element::Hardware(form) => put_of_hardware(alloc, list, scope, of, form, clause),
        Element::Operand(OperandForm::Derived(form)) => {
            put_of_derived(alloc, list, scope, of.machine, &form.name, clause)
        }
        Element::Insn(InsnForm::Instruction(form)) => {
            put_of_instruction(alloc, list, scope, of, form, clause)
        }
        _ => Ok(()),
    }
}

/// The expressions in a clause of a form, each as it is judged. Of an instruction whose format has anyof
/// operands they are the expression as it is written, and then as it is with each way to choose; what a
/// choice asserts stands in `format`, where its operand does (docs/REFUSALS.md).
pub fn expressions(
    alloc: Global,
    scope: &mut Scope,
    of: &Subject,
    clause: Clause<'_>,
) -> Result<List<Expression>, NoMemory>
    ensures value { IfOk result (λ list. list ≡ spec.expressions (described_in of.now) (base scope.old) (machine_in of.now) (insns_in of.now) (element_in of.now) (seen_clause clause.entry)) }
    ensures kept { base scope.new ≡ base scope.old }
{
    let mut list = List::new(alloc);
    put_all(alloc, &mut list, scope, of, clause)?;
    Ok(list)
}
