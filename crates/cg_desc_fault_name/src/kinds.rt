//! E304.

ghost use Rattle.std.specs.Prelude.{◌≡◌, [], map, IfOk};
ghost use Rattle.std.specs.List.{flat_map};
ghost use Rattle.std.specs.Option.{option_copied, option_map};
ghost use Rattle.cg_base.specs.Refusing.{first};
ghost use Rattle.cg_attrs.specs.Clauses.{seen_clause};
ghost use Rattle.cg_desc_scope.specs.Seen.{seen_described};
ghost use Rattle.cg_desc_names.specs.Table.{known};
ghost use Rattle.cg_model_faults.specs.E304.{no_cell_at};
ghost use Rattle.cg_desc_fault_name.specs.E304 as spec;
ghost use Rattle.cg_desc_references.specs.E304.{is_other, is_of_another_kind};
ghost use Rattle.cg_desc_fault_report.specs.Saying.{fault_said};
ghost use Rattle.cg_desc_fault_report.specs.Subject.{described_in, machine_in, element_in, form_in, insns_in};
ghost use Rattle.cg_desc_machine.specs.Seen.{base};

use crate::macros::put_of_macro;
use crate::names::{NameRule, put_of_names};
use crate::shapes::put_of_choices;
use crate::words::put_of_words;
use cg_attrs::Clause;
use cg_base::{List, Mode, NoMemory, Text};
use cg_desc_check_rtl::{Cells, NodeRule};
use cg_desc_elements::{Kind, Namespace};
use cg_desc_fault_report::{Saying, Subject, earliest_said, fault_said, only_text};
use cg_desc_fault_rtl::{
    Asked, Expression, UseRule, asks_meaning, asks_operands, expressions, no_operand,
    put_of_expressions,
};
use cg_desc_names::Names;
use cg_desc_references::{Finding, Reference, clauses_of, is_of_another_kind};
use cg_desc_scope::Described;
use cg_model::{Machine, Op};
use cg_rtl_resolve::{Scope, leaf};
use cg_rtl_uses::Use;
use std::alloc::Global;

/// The rule that names stand for what their places take.
#[derive(Drop)]
pub(crate) struct Kinds<'a> {
    pub(crate) names: &'a Names,
    pub(crate) machine: &'a Machine,
}

/// Whether the name is that of a derived operand.
fn is_derived(names: &Names, name: &Text) -> bool
    ensures { result ≡ spec.is_derived (known names.now) name.now }
{
    match names.first(Namespace::Operands, name) {
        Some(standing) => matches!(standing.kind, Kind::Derived),
        None => false,
    }
}

/// What is said of a symbol that is no operand of the machine's own.
fn symbol_said(
    alloc: Global,
    names: &Names,
    asked: Asked,
    name: Option<&Text>,
) -> Result<Option<Saying>, NoMemory>
    ensures { IfOk result (λ said. said ≡ spec.of_symbol (known names.now) asked (option_copied name.entry)) }
{
    match name {
        Some(name) => {
            if asks_operands(asked) && is_derived(names, name) {
                Ok(Some(only_text(alloc, name.as_slice())?))
            } else {
                Ok(None)
            }
        }
        None => Ok(None),
    }
}

/// What is said of an operation.
fn node_said(
    alloc: Global,
    machine: &Machine,
    op: Op,
    mode: Option<Mode>,
    number: i64,
) -> Result<Option<Saying>, NoMemory>
    ensures { IfOk result (λ said. said ≡ option_map (fault_said machine.now []) (first (no_cell_at machine.now op mode number))) }
{
    let rule = Cells { machine };
    match rule.first_at(&leaf(alloc, op, mode, number)) {
        Some(fault) => Ok(Some(fault_said(alloc, machine, &[], fault)?)),
        None => Ok(None),
    }
}

impl UseRule for Kinds<'_> {
    ghost says = { λ r. spec.of_another_kind (known r.names.now) r.machine.now };

    #[tactic(auto, unfolding(crate::specs::E304::of_another_kind))]
    fn said_of(
        &self,
        alloc: Global,
        expression: &Expression,
        what: &Use,
    ) -> Result<Option<Saying>, NoMemory> {
        let asked = expression.asking.asked;
        match what {
            Use::Node(op, mode, number) => {
                if asks_meaning(asked) {
                    node_said(alloc, self.machine, *op, *mode, *number)
                } else {
                    Ok(None)
                }
            }
            other => symbol_said(alloc, self.names, asked, no_operand(other)),
        }
    }
}

impl NameRule for Kinds<'_> {
    ghost wrong = { λ r. is_of_another_kind (known r.names.now) };

    ghost fault = { λ _. is_other };

    fn is_wrong(&self, reference: &Reference) -> bool {
        is_of_another_kind(self.names, reference)
    }

    fn is_fault(&self, finding: Finding) -> bool {
        matches!(finding, Finding::OfAnotherKind)
    }
}

/// Whether the form of this number is that of the selected instruction set.
pub(crate) fn is_selected(described: &Described, number: usize) -> bool
    ensures { result ≡ spec.is_selected (seen_described described.now) number }
{
    described
        .selection
        .names
        .gives_isa(described.selection.isa, number)
}

/// What is said of a clause.
fn first_in_clause(
    alloc: Global,
    scope: &mut Scope,
    of: &Subject,
    clause: Clause<'_>,
) -> Result<Option<Saying>, NoMemory>
    ensures value { IfOk result (λ said. said ≡ first (spec.in_clause (described_in of.now) (base scope.old) (machine_in of.now) of.now.number (insns_in of.now) (element_in of.now) (seen_clause clause.entry))) }
    ensures kept { base scope.new ≡ base scope.old }
{
    let described = of.described;
    let rule = Kinds {
        names: described.selection.names,
        machine: of.machine,
    };
    let selected = is_selected(described, of.number);
    let expressions = expressions(alloc, scope, of, clause)?;
    let mut list = List::new(alloc);
    put_of_expressions(alloc, &rule, &mut list, expressions.as_slice())?;
    put_of_names(alloc, &rule, &mut list, selected, of.element.kind(), clause)?;
    put_of_words(alloc, &mut list, &described.selection, of.element, clause)?;
    put_of_macro(alloc, &rule, &mut list, described, of.element, clause.name)?;
    put_of_choices(alloc, &mut list, of.insns, clause.name)?;
    earliest_said(&list)
}

/// What is said of the first of some clauses of which anything is said.
#[tactic(auto, using(cg_desc_fault_report::proofs::Firsts::first_rules))]
fn first_in_clauses(
    alloc: Global,
    scope: &mut Scope,
    of: &Subject,
    clauses: &[Clause<'_>],
) -> Result<Option<Saying>, NoMemory>
    ensures value { IfOk result (λ said. said ≡ first (flat_map (spec.in_clause (described_in of.now) (base scope.old) (machine_in of.now) of.now.number (insns_in of.now) (element_in of.now)) (map seen_clause clauses.now))) }
    ensures kept { base scope.new ≡ base scope.old }
{
    for clause in clauses {
        if let Some(said) = first_in_clause(alloc, scope, of, *clause)? {
            return Ok(Some(said));
        }
    }
    Ok(None)
}

/// What is said of the first E304 of a form: a name stands for something of another kind than its place
/// takes, a word of a keyword is none of hardware's, or, with choices put in, literals that meet are no
/// literal or an expression has a wrong shape. Of a clause it is the earliest. None exactly where there is
/// none (docs/REFUSALS.md).
pub fn first_of_another_kind(
    alloc: Global,
    scope: &mut Scope,
    of: &Subject,
) -> Result<Option<Saying>, NoMemory>
    ensures value { IfOk result (λ said. said ≡ first (spec.e304 (described_in of.now) (base scope.old) (machine_in of.now) of.now.number (element_in of.now) (form_in of.now) (insns_in of.now))) }
    ensures kept { base scope.new ≡ base scope.old }
{
    let clauses = clauses_of(alloc, of.element.kind(), &of.top.form)?;
    first_in_clauses(alloc, scope, of, &clauses)
}
