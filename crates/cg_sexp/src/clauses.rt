ghost use Rattle.std.specs.Prelude.{◌≡◌};
ghost use Rattle.std.specs.Option.{option_copied};
ghost use Rattle.cg_base.specs.Parts.{clause_of};

use cg_base::Form;

/// The first element behind the head that is a list headed by the symbol `name`. None exactly
/// where there is none, as where the form is no list.
pub fn clause<'a>(form: &'a Form, name: &[u8]) -> Option<&'a Form>
    ensures { option_copied result ≡ clause_of name.now form.now }
{
    form.clause(name)
}
