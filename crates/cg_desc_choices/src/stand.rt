//! What stands for operands.

ghost use Rattle.std.specs.Prelude.{◌≡◌, map, IfOk};
ghost use Rattle.std.specs.Option.{option_copied};
ghost use Rattle.cg_rtl_resolve.specs.Names.{local_name};
ghost use Rattle.cg_desc_choices.specs.Putting.{stand_for, setter_first, is_unhidden, unhidden, new_value};

use cg_base::{Form, List, NoMemory, Text};
use cg_rtl::first_symbol;
use cg_rtl_resolve::local_name;
use std::alloc::Global;

/// What stands for an operand: a choice of an anyof operand.
#[derive(Drop)]
pub struct Stand {
    /// The operand's name.
    pub name: Text,
    /// What is read where it stands.
    pub getter: Form,
    /// What is done where it is set, in which `newval` is the value. None where it is set as what is read.
    pub setter: Option<Form>,
}

/// The first of these that stands for a name.
pub(crate) fn stand_for<'a>(name: &[u8], stands: &'a [Stand]) -> Option<&'a Stand>
    ensures { option_copied result ≡ stand_for name.now stands.now }
{
    for stand in stands {
        if stand.name.as_slice() == name {
            return Some(stand);
        }
    }
    None
}

/// The setter of the operand that stands first.
pub(crate) fn setter_first<'a>(stands: &'a [Stand], forms: &[Form]) -> Option<&'a Form>
    ensures { option_copied result ≡ setter_first stands.now forms.now }
{
    match first_symbol(forms) {
        Some(name) => match stand_for(name.as_slice(), stands) {
            Some(stand) => stand.setter.as_ref(),
            None => None,
        },
        None => None,
    }
}

/// A form in memory of its own, if there is one.
pub(crate) fn owned(form: Option<&Form>) -> Result<Option<Form>, NoMemory>
    ensures { IfOk result (λ copy. copy ≡ option_copied form.entry) }
{
    match form {
        Some(form) => Ok(Some(form.clone()?)),
        None => Ok(None),
    }
}

/// The same in memory of its own.
fn copy(stand: &Stand) -> Result<Stand, NoMemory>
    ensures { IfOk result (λ copy. copy ≡ stand.now) }
{
    Ok(Stand {
        name: stand.name.clone()?,
        getter: stand.getter.clone()?,
        setter: owned(stand.setter.as_ref())?,
    })
}

/// Whether no local has the name.
fn is_unhidden(locals: &[Form], stand: &Stand) -> bool
    ensures { result ≡ is_unhidden (map local_name locals.now) stand.now }
{
    for local in locals {
        if local_name(local) == stand.name.as_slice() {
            return false;
        }
    }
    true
}

/// What no local hides.
pub(crate) fn unhidden(
    alloc: Global,
    locals: &[Form],
    stands: &[Stand],
) -> Result<List<Stand>, NoMemory>
    ensures { IfOk result (λ list. list ≡ unhidden (map local_name locals.now) stands.now) }
{
    let mut list = List::new(alloc);
    for stand in stands {
        if is_unhidden(locals, stand) {
            list.push(copy(stand)?)?;
        }
    }
    Ok(list)
}

/// What stands for `newval` in a setter.
pub(crate) fn new_value(alloc: Global, value: Form) -> Result<List<Stand>, NoMemory>
    ensures { IfOk result (λ list. list ≡ new_value value) }
{
    let mut list = List::new(alloc);
    list.push(Stand {
        name: Text::of(alloc, b"newval")?,
        getter: value,
        setter: None,
    })?;
    Ok(list)
}
