ghost use Rattle.std.specs.Prelude.{◌≡◌, true};
ghost use Rattle.cg_rtl_laws.specs.Depth.{AreShallow};
ghost use Rattle.cg_rtl_laws.specs.Named.{AreNamed};
ghost use Rattle.cg_rtl_laws.specs.Shaped.{AreFormed, gives_value};

use cg_model::Machine;
use cg_rtl_resolve::Scope;

/// A law of the definitions: an expression in which nothing is wrong and nothing left out, and whose names
/// of kinds are defined, stands for one that is formed, but for its depth (docs/LANGUAGE.md, "RTL" and
/// "Allowed values"). In a rule that has a value, the value must have a mode.
#[tactic(auto, using(crate::proofs::Shaped::shaped))]
pub fn shaped_is_formed(scope: &Scope)
    requires { gives_value scope.now ≡ true }
    ensures { AreFormed scope.now }
{}

/// The same of an expression by what stands in it: no name that is lacking by its kind.
#[tactic(auto, using(crate::proofs::Named::named))]
pub fn named_is_formed(scope: &Scope)
    requires { gives_value scope.now ≡ true }
    ensures { AreNamed scope.now }
{}

/// A law of the definitions: an expression that has a mode is at most 64 deep.
#[tactic(auto, using(crate::proofs::Depth::shallow))]
pub fn moded_is_shallow(machine: &Machine)
    ensures { AreShallow machine.now }
{}
