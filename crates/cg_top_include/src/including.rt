ghost use Rattle.std.specs.Prelude.{◌≡◌, ◌++◌, ◌&&◌, false, IfOk, IfSome};
ghost use Rattle.std.specs.Option.{option_copied};
ghost use Rattle.cg_top_include.specs.Including.{included, is_short, parted};

use crate::pending::Pending;
use crate::shape::one_behind;
use cg_base::{Form, List, NoMemory, Text, Top};

/// An include among the forms of a description (docs/LANGUAGE.md, "Includes").
#[derive(Debug, Drop)]
pub struct Include {
    /// The name of its file.
    pub name: Text,
    /// The number of the file that it stands in.
    pub file: u16,
    /// The line that it stands on.
    pub line: u32,
}

/// The file that `(include "NAME")` asks for.
#[tactic(auto, unfolding(crate::specs::Including::included))]
fn included(form: &Form) -> Option<&Text>
    ensures { option_copied result ≡ included form.now }
{
    one_behind(form, b"include")?.string()
}

/// Whether the name asks for the short forms, and for no file.
pub fn is_short(name: &Text) -> bool
    ensures { result ≡ is_short name.now }
{
    name.as_slice() == b"simplify.inc".as_slice()
}

/// Passes the forms up to their first include, and takes it. Where the short forms stand already,
/// further includes of them are dropped.
pub fn pass(
    short: bool,
    pending: &mut Pending,
    passed: &mut List<Top>,
) -> Result<Option<Include>, NoMemory>
    ensures include { IfOk result (λ include. include ≡ (parted short pending.old).include) }
    ensures passed { IfOk result (λ include. passed.new ≡ passed.old ++ (parted short pending.old).before) }
    ensures left { IfOk result (λ include. pending.new ≡ (parted short pending.old).behind) }
    ensures once { IfOk result (λ include. IfSome include (λ x. (short && is_short x.name) ≡ false)) }
{
    while let Some(top) = pending.next() {
        match included(&top.form) {
            Some(name) => {
                if !short || !is_short(name) {
                    return Ok(Some(Include {
                        name: name.clone()?,
                        file: top.file,
                        line: top.line,
                    }));
                }
            }
            None => passed.push(top)?,
        }
    }
    Ok(None)
}
