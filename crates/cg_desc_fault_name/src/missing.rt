//! E306.

ghost use Rattle.std.specs.Prelude.{◌≡◌, [], map, IfOk};
ghost use Rattle.std.specs.List.{flat_map};
ghost use Rattle.std.specs.Option.{option_copied, option_map};
ghost use Rattle.cg_base.specs.Refusing.{first};
ghost use Rattle.cg_attrs.specs.Clauses.{seen_clause};
ghost use Rattle.cg_desc_fault_rtl.specs.Asking.{nameable};
ghost use Rattle.cg_desc_names.specs.Table.{known};
ghost use Rattle.cg_model_faults.specs.E306.{stray_at};
ghost use Rattle.cg_desc_fault_name.specs.E306 as spec;
ghost use Rattle.cg_desc_check_rtl.specs.Named as named;
ghost use Rattle.cg_desc_references.specs.E306.{is_nothing, is_undefined};
ghost use Rattle.cg_desc_fault_report.specs.Saying.{fault_said};
ghost use Rattle.cg_desc_fault_report.specs.Subject.{described_in, machine_in, element_in, form_in, insns_in};
ghost use Rattle.cg_desc_machine.specs.Seen.{base};

use crate::kinds::is_selected;
use crate::macros::put_of_macro;
use crate::names::{NameRule, put_of_names};
use cg_attrs::Clause;
use cg_base::{List, Mode, NoMemory, Text};
use cg_desc_check_rtl::{Names, NodeRule, Standing};
use cg_desc_elements::Element;
use cg_desc_fault_report::{Saying, Subject, earliest_said, fault_said, only_text};
use cg_desc_fault_rtl::{
    Expression, Naming, UseRule, asks_meaning, asks_operands, expressions, is_anyof, is_coding,
    no_operand, put_of_expressions,
};
use cg_desc_machine::is_among;
use cg_desc_names::Names as Known;
use cg_desc_references::{Finding, Reference, clauses_of, is_undefined};
use cg_model::{Machine, Op};
use cg_rtl_resolve::{Scope, leaf};
use cg_rtl_uses::Use;
use std::alloc::Global;

/// The rule that names stand for something that the machine has.
#[derive(Drop)]
struct Missing<'a> {
    names: &'a Known,
    elements: &'a [Element],
    machine: &'a Machine,
}

/// Whether the name is that of an anyof operand that isn't in the format.
fn is_stray_anyof(names: &Known, expression: &Expression, name: &Text) -> bool
    ensures { result ≡ spec.is_stray_anyof (known names.now) expression.now name.now }
{
    asks_operands(expression.asking.asked)
        && is_anyof(names, name)
        && !is_among(expression.asking.anyofs.as_slice(), name)
        && !is_coding(expression.purpose)
}

/// What is said of a symbol that is no operand of the machine's own.
fn symbol_said(
    alloc: Global,
    names: &Known,
    expression: &Expression,
    name: Option<&Text>,
) -> Result<Option<Saying>, NoMemory>
    ensures { IfOk result (λ said. said ≡ spec.of_symbol (known names.now) expression.now (option_copied name.entry)) }
{
    match name {
        Some(name) => {
            if is_stray_anyof(names, expression, name) {
                Ok(Some(only_text(alloc, name.as_slice())?))
            } else {
                Ok(None)
            }
        }
        None => Ok(None),
    }
}

/// What is said of an operation that stands there.
fn stray_said(
    alloc: Global,
    machine: &Machine,
    standing: Standing,
    op: Op,
    mode: Option<Mode>,
    number: i64,
) -> Result<Option<Saying>, NoMemory>
    ensures { IfOk result (λ said. said ≡ option_map (fault_said machine.now []) (first (stray_at machine.now (named.nameable machine.now standing.entry) op mode number))) }
{
    let rule = Names { machine, standing };
    match rule.first_at(&leaf(alloc, op, mode, number)) {
        Some(fault) => Ok(Some(fault_said(alloc, machine, &[], fault)?)),
        None => Ok(None),
    }
}

/// What is said of an operation, by what may be named.
fn node_said(
    alloc: Global,
    machine: &Machine,
    naming: &Naming,
    op: Op,
    mode: Option<Mode>,
    number: i64,
) -> Result<Option<Saying>, NoMemory>
    ensures { IfOk result (λ said. said ≡ spec.of_named machine.now (nameable machine.now naming.now) op mode number) }
{
    match naming {
        Naming::Unasked => Ok(None),
        Naming::Semantics(parts) => {
            let standing = Standing::Semantics(parts.as_slice());
            stray_said(alloc, machine, standing, op, mode, number)
        }
        Naming::Assertion(parts) => {
            let standing = Standing::Assertion(parts.as_slice());
            stray_said(alloc, machine, standing, op, mode, number)
        }
        Naming::Hardware => stray_said(alloc, machine, Standing::Hardware, op, mode, number),
    }
}

impl UseRule for Missing<'_> {
    ghost says = { λ r. spec.missing (known r.names.now) r.machine.now };

    #[tactic(auto, unfolding(crate::specs::E306::missing))]
    fn said_of(
        &self,
        alloc: Global,
        expression: &Expression,
        what: &Use,
    ) -> Result<Option<Saying>, NoMemory> {
        match what {
            Use::Node(op, mode, number) => {
                if asks_meaning(expression.asking.asked) {
                    let naming = &expression.asking.naming;
                    node_said(alloc, self.machine, naming, *op, *mode, *number)
                } else {
                    Ok(None)
                }
            }
            Use::Undefined(name) => {
                if asks_meaning(expression.asking.asked) {
                    Ok(Some(only_text(alloc, name.as_slice())?))
                } else {
                    Ok(None)
                }
            }
            other => symbol_said(alloc, self.names, expression, no_operand(other)),
        }
    }
}

impl NameRule for Missing<'_> {
    ghost wrong = { λ r. is_undefined (known r.names.now) r.elements.now };

    ghost fault = { λ _. is_nothing };

    fn is_wrong(&self, reference: &Reference) -> bool {
        is_undefined(self.names, self.elements, reference)
    }

    fn is_fault(&self, finding: Finding) -> bool {
        matches!(finding, Finding::Undefined)
    }
}

/// What is said of a clause.
fn first_in_clause(
    alloc: Global,
    scope: &mut Scope,
    of: &Subject,
    clause: Clause<'_>,
) -> Result<Option<Saying>, NoMemory>
    ensures value { IfOk result (λ said. said ≡ first (spec.in_clause (described_in of.now) (base scope.old) (machine_in of.now) of.now.number (insns_in of.now) (element_in of.now) (seen_clause clause.entry))) }
    ensures kept { base scope.new ≡ base scope.old }
{
    let described = of.described;
    let rule = Missing {
        names: described.selection.names,
        elements: described.selection.elements,
        machine: of.machine,
    };
    let selected = is_selected(described, of.number);
    let expressions = expressions(alloc, scope, of, clause)?;
    let mut list = List::new(alloc);
    put_of_expressions(alloc, &rule, &mut list, expressions.as_slice())?;
    put_of_names(alloc, &rule, &mut list, selected, of.element.kind(), clause)?;
    put_of_macro(alloc, &rule, &mut list, described, of.element, clause.name)?;
    earliest_said(&list)
}

/// What is said of the first of some clauses of which anything is said.
#[tactic(auto, using(cg_desc_fault_report::proofs::Firsts::first_rules))]
fn first_in_clauses(
    alloc: Global,
    scope: &mut Scope,
    of: &Subject,
    clauses: &[Clause<'_>],
) -> Result<Option<Saying>, NoMemory>
    ensures value { IfOk result (λ said. said ≡ first (flat_map (spec.in_clause (described_in of.now) (base scope.old) (machine_in of.now) of.now.number (insns_in of.now) (element_in of.now)) (map seen_clause clauses.now))) }
    ensures kept { base scope.new ≡ base scope.old }
{
    for clause in clauses {
        if let Some(said) = first_in_clause(alloc, scope, of, *clause)? {
            return Ok(Some(said));
        }
    }
    Ok(None)
}

/// What is said of the first E306 of a form: a name stands for nothing that the machine has, or isn't in the
/// format where it has to be there. Of a clause it is the earliest. None exactly where there is none
/// (docs/REFUSALS.md).
pub fn first_missing(
    alloc: Global,
    scope: &mut Scope,
    of: &Subject,
) -> Result<Option<Saying>, NoMemory>
    ensures value { IfOk result (λ said. said ≡ first (spec.e306 (described_in of.now) (base scope.old) (machine_in of.now) of.now.number (element_in of.now) (form_in of.now) (insns_in of.now))) }
    ensures kept { base scope.new ≡ base scope.old }
{
    let clauses = clauses_of(alloc, of.element.kind(), &of.top.form)?;
    first_in_clauses(alloc, scope, of, &clauses)
}
