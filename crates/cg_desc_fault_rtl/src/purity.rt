//! E315.

ghost use Rattle.std.specs.Prelude.{◌≡◌, ◌++◌, map, IfOk, OnOk};
ghost use Rattle.std.specs.List.{flat_map};
ghost use Rattle.std.specs.Option.{option_copied, option_map};
ghost use Rattle.cg_base.specs.Refusing.{first};
ghost use Rattle.cg_attrs.specs.Clauses.{seen_clause};
ghost use Rattle.cg_desc_names.specs.Table.{known};
ghost use Rattle.cg_model_faults.specs.E315.{impure_at};
ghost use Rattle.cg_desc_fault_report.specs.Saying.{fault_said};
ghost use Rattle.cg_desc_fault_report.specs.Subject.{described_in, machine_in, element_in, form_in, insns_in};
ghost use Rattle.cg_desc_machine.specs.Seen.{base};
ghost use Rattle.cg_desc_fault_rtl.specs.E315 as spec;

use crate::asking::{Expression, asks_meaning, is_coding};
use crate::clauses::expressions;
use crate::judging::{UseRule, no_operand, put_of_expression};
use crate::symbols::is_anyof;
use cg_attrs::Clause;
use cg_base::{List, Mode, NoMemory, Text};
use cg_desc_check_rtl::{NodeRule, Purity, names_many};
use cg_desc_choices::Written;
use cg_desc_elements::Element;
use cg_desc_fault_report::{
    Placed, Saying, Subject, earliest_said, fault_said, only_text, put_at, put_copies,
};
use cg_desc_machine::assertion_of;
use cg_desc_names::Names;
use cg_desc_references::clauses_of;
use cg_insn::{InsnForm, InstructionForm};
use cg_model::{Machine, Op};
use cg_model_faults::Purpose;
use cg_rtl_resolve::{Scope, leaf};
use cg_rtl_uses::Use;
use std::alloc::Global;

/// Whether an expression has to be pure.
fn has_to_be_pure(purpose: Purpose) -> bool
    ensures { result ≡ spec.has_to_be_pure purpose }
{
    match purpose {
        Purpose::Assertion => true,
        other => is_coding(other),
    }
}

/// The rule that an expression is pure where it has to be, and names what it may.
#[derive(Drop)]
struct Impurity<'a> {
    names: &'a Names,
    machine: &'a Machine,
}

/// What is said of an operation.
fn node_said(
    alloc: Global,
    machine: &Machine,
    expression: &Expression,
    op: Op,
    mode: Option<Mode>,
    number: i64,
) -> Result<Option<Saying>, NoMemory>
    ensures { IfOk result (λ said. said ≡ option_map (fault_said machine.now expression.now.asking.own) (first (impure_at machine.now expression.now.purpose expression.now.asking.subs op mode number))) }
{
    let rule = Purity {
        machine,
        purpose: expression.purpose,
        subs: expression.asking.subs.as_slice(),
    };
    match rule.first_at(&leaf(alloc, op, mode, number)) {
        Some(fault) => {
            let own = expression.asking.own.as_slice();
            Ok(Some(fault_said(alloc, machine, own, fault)?))
        }
        None => Ok(None),
    }
}

/// What is said of a symbol that is no operand of the machine's own.
fn symbol_said(
    alloc: Global,
    names: &Names,
    expression: &Expression,
    name: Option<&Text>,
) -> Result<Option<Saying>, NoMemory>
    ensures { IfOk result (λ said. said ≡ spec.of_symbol (known names.now) expression.now (option_copied name.entry)) }
{
    match name {
        Some(name) => {
            if is_coding(expression.purpose) && is_anyof(names, name) {
                Ok(Some(only_text(alloc, expression.asking.own.as_slice())?))
            } else {
                Ok(None)
            }
        }
        None => Ok(None),
    }
}

/// What is said of what stands in an expression that has to be pure.
fn what_said(
    alloc: Global,
    rule: &Impurity,
    expression: &Expression,
    what: &Use,
) -> Result<Option<Saying>, NoMemory>
    ensures { IfOk result (λ said. said ≡ spec.of_what (known rule.now.names.now) rule.now.machine.now expression.now what.now) }
{
    match what {
        Use::Node(op, mode, number) => {
            node_said(alloc, rule.machine, expression, *op, *mode, *number)
        }
        other => symbol_said(alloc, rule.names, expression, no_operand(other)),
    }
}

/// Whether an expression has to be pure, and is judged as it is with choices put in.
fn is_asked(expression: &Expression) -> bool
    ensures { result ≡ spec.is_asked expression.now }
{
    has_to_be_pure(expression.purpose) && asks_meaning(expression.asking.asked)
}

impl UseRule for Impurity<'_> {
    ghost says = { λ r. spec.impurity (known r.names.now) r.machine.now };

    #[tactic(auto, unfolding(crate::specs::E315::impurity))]
    fn said_of(
        &self,
        alloc: Global,
        expression: &Expression,
        what: &Use,
    ) -> Result<Option<Saying>, NoMemory> {
        if is_asked(expression) {
            what_said(alloc, self, expression, what)
        } else {
            Ok(None)
        }
    }
}

/// Puts what is said of an assertion that names too many bits at the end.
fn put_bits(alloc: Global, list: &mut List<Placed>, expression: &Expression) -> Result<(), NoMemory>
    ensures { OnOk result (list.new ≡ list.old ++ spec.of_bits expression.now) }
{
    if !expression.is_wide {
        return Ok(());
    }
    let mut place = List::new(alloc);
    put_copies(&mut place, expression.asking.at.as_slice())?;
    put_at(
        list,
        place,
        only_text(alloc, expression.asking.own.as_slice())?,
    )
}

/// Puts what is said of expressions at the end.
fn put_of_all(
    alloc: Global,
    list: &mut List<Placed>,
    rule: &Impurity,
    expressions: &[Expression],
) -> Result<(), NoMemory>
    ensures { OnOk result (list.new ≡ list.old ++ flat_map (spec.of_one (known rule.now.names.now) rule.now.machine.now) expressions.now) }
{
    for expression in expressions {
        put_bits(alloc, list, expression)?;
        put_of_expression(alloc, rule, list, expression)?;
    }
    Ok(())
}

/// Whether the assertions of an instruction together name too many bits.
fn together_too_many(
    alloc: Global,
    scope: &mut Scope,
    machine: &Machine,
    written: &Written,
) -> Result<bool, NoMemory>
    ensures value { IfOk result (λ many. many ≡ spec.together_too_many (base scope.old) machine.now written.now) }
    ensures kept { base scope.new ≡ base scope.old }
{
    match assertion_of(alloc, scope, written)? {
        Some(rtl) => Ok(names_many(machine, Purpose::Assertion, &rtl)),
        None => Ok(false),
    }
}

/// Puts what is said of the assertions of an instruction together at the end.
fn put_assertions(
    alloc: Global,
    list: &mut List<Placed>,
    scope: &mut Scope,
    machine: &Machine,
    written: &Written,
) -> Result<(), NoMemory>
    ensures value { OnOk result (list.new ≡ list.old ++ spec.of_assertions (base scope.old) machine.now written.now) }
    ensures kept { base scope.new ≡ base scope.old }
{
    if together_too_many(alloc, scope, machine, written)? {
        put_at(
            list,
            List::new(alloc),
            only_text(alloc, written.name.as_slice())?,
        )
    } else {
        Ok(())
    }
}

/// The same of the instructions of a form.
fn put_all_assertions(
    alloc: Global,
    list: &mut List<Placed>,
    scope: &mut Scope,
    of: &Subject,
) -> Result<(), NoMemory>
    ensures value { OnOk result (list.new ≡ list.old ++ flat_map (spec.of_assertions (base scope.old) (machine_in of.now)) (insns_in of.now)) }
    ensures kept { base scope.new ≡ base scope.old }
{
    for written in of.insns {
        put_assertions(alloc, list, scope, of.machine, written)?;
    }
    Ok(())
}

/// Whether the clause of this name gives the first of the assertions of an instruction.
fn gives_first(form: &InstructionForm, name: &[u8]) -> bool
    ensures { result ≡ spec.gives_first form.now name.now }
{
    if form.ifield_assertion.is_some() {
        b"ifield-assertion".as_slice() == name
    } else {
        b"format".as_slice() == name
    }
}

/// Puts what is said of assertions together at the end, in the clause that gives the first of them.
fn put_together(
    alloc: Global,
    list: &mut List<Placed>,
    scope: &mut Scope,
    of: &Subject,
    clause: Clause<'_>,
) -> Result<(), NoMemory>
    ensures value { OnOk result (list.new ≡ list.old ++ spec.all_together (base scope.old) (machine_in of.now) (insns_in of.now) (element_in of.now) (seen_clause clause.entry)) }
    ensures kept { base scope.new ≡ base scope.old }
{
    match of.element {
        Element::Insn(InsnForm::Instruction(form)) => {
            if gives_first(form, clause.name) {
                put_all_assertions(alloc, list, scope, of)
            } else {
                Ok(())
            }
        }
        _ => Ok(()),
    }
}

/// What is said of a clause.
fn first_in_clause(
    alloc: Global,
    scope: &mut Scope,
    of: &Subject,
    clause: Clause<'_>,
) -> Result<Option<Saying>, NoMemory>
    ensures value { IfOk result (λ said. said ≡ first (spec.in_clause (described_in of.now) (base scope.old) (machine_in of.now) (insns_in of.now) (element_in of.now) (seen_clause clause.entry))) }
    ensures kept { base scope.new ≡ base scope.old }
{
    let described = of.described;
    let rule = Impurity {
        names: described.selection.names,
        machine: of.machine,
    };
    let expressions = expressions(alloc, scope, of, clause)?;
    let mut list = List::new(alloc);
    put_of_all(alloc, &mut list, &rule, expressions.as_slice())?;
    put_together(alloc, &mut list, scope, of, clause)?;
    earliest_said(&list)
}

/// What is said of the first of some clauses of which anything is said.
#[tactic(auto, using(cg_desc_fault_report::proofs::Firsts::first_rules))]
fn first_in_clauses(
    alloc: Global,
    scope: &mut Scope,
    of: &Subject,
    clauses: &[Clause<'_>],
) -> Result<Option<Saying>, NoMemory>
    ensures value { IfOk result (λ said. said ≡ first (flat_map (spec.in_clause (described_in of.now) (base scope.old) (machine_in of.now) (insns_in of.now) (element_in of.now)) (map seen_clause clauses.now))) }
    ensures kept { base scope.new ≡ base scope.old }
{
    for clause in clauses {
        if let Some(said) = first_in_clause(alloc, scope, of, *clause)? {
            return Ok(Some(said));
        }
    }
    Ok(None)
}

/// What is said of the first E315 of a form: an expression that has to be pure isn't, or names what it may
/// not. Of a clause it is the earliest; a derived operand is judged where it is put in. None exactly where
/// there is none (docs/REFUSALS.md).
pub fn first_impure(
    alloc: Global,
    scope: &mut Scope,
    of: &Subject,
) -> Result<Option<Saying>, NoMemory>
    ensures value { IfOk result (λ said. said ≡ first (spec.e315 (described_in of.now) (base scope.old) (machine_in of.now) (element_in of.now) (form_in of.now) (insns_in of.now))) }
    ensures kept { base scope.new ≡ base scope.old }
{
    match of.element {
        Element::Operand(_) => Ok(None),
        element => {
            let clauses = clauses_of(alloc, element.kind(), &of.top.form)?;
            first_in_clauses(alloc, scope, of, &clauses)
        }
    }
}
