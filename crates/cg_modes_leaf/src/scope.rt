ghost use Rattle.std.specs.Prelude.{◌≡◌};
ghost use Rattle.cg_modes_leaf.specs.Scope.{locals_of, found_in, beside, IsPast};

use cg_base::Mode;
use cg_model::{Local, Rtl};

/// The locals around an expression.
#[derive(Clone, Copy)]
pub enum Scope<'a> {
    /// There are none.
    Outside,
    /// Those around a `sequence`, and then its own.
    Sequence(&'a Scope<'a>, &'a [Rtl]),
    /// Those around a `parallel`.
    Parallel(&'a Scope<'a>),
}

/// The local of this number, or how many there are.
#[tactic(auto, using(crate::proofs::Scopes::scope_rules))]
pub fn find(scope: &Scope, number: u64) -> Result<Local, u64>
    ensures { result ≡ found_in (locals_of scope.now) number }
{
    match scope {
        Scope::Outside => Err(0),
        Scope::Sequence(outer, declares) => beside(find(outer, number), declares, number),
        Scope::Parallel(outer) => match find(outer, number) {
            Ok(local) => Ok(Local {
                mode: local.mode,
                outside: true,
            }),
            Err(count) => Err(count),
        },
    }
}

/// The local of this number among those of a `sequence`, where it isn't found around it.
fn beside(around: Result<Local, u64>, declares: &[Rtl], number: u64) -> Result<Local, u64>
    requires { IsPast around number }
    ensures { result ≡ beside around declares.now number }
{
    match around {
        Ok(local) => Ok(local),
        Err(count) => match declares.get((number - count) as usize) {
            Some(declare) => Ok(Local {
                mode: declare.mode.unwrap_or(Mode::Void),
                outside: false,
            }),
            None => Err(count + declares.len() as u64),
        },
    }
}
