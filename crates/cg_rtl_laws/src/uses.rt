ghost use Rattle.cg_rtl_laws.specs.Covered.{AreCovered};
ghost use Rattle.cg_rtl_laws.specs.Numbered.{AreNumbered};
ghost use Rattle.cg_rtl_laws.specs.Outside.{AreInside};

use cg_model::Machine;
use cg_rtl_resolve::Scope;

/// A law of the definitions: what is said of no node that stands in an expression is said of no node of
/// what the expression stands for (docs/LANGUAGE.md, "Names in expressions").
#[tactic(auto, using(crate::proofs::Covered::covered))]
pub fn nodes_are_covered(scope: &Scope)
    ensures { AreCovered scope.now }
{}

/// A law of the definitions: no expression names a value, an index or a new value that its rule doesn't have.
#[tactic(auto, using(crate::proofs::Outside::inside))]
pub fn values_stand_inside(scope: &Scope)
    ensures { AreInside scope.now }
{}

/// A law of the definitions: the numbers in what an expression stands for name something, where the machine
/// has an element for each name, and a text where there is an error.
#[tactic(auto, using(crate::proofs::Numbered::numbers))]
pub fn numbers_name_something(scope: &Scope, machine: &Machine)
    ensures { AreNumbered scope.now machine.now }
{}
