//! What a machine is selected from.

ghost use Rattle.std.specs.Prelude.{◌≡◌};
ghost use Rattle.std.specs.Option.{option_copied};
ghost use Rattle.cg_desc_data.specs.Seen.{seen};
ghost use Rattle.cg_desc_data.specs.Selecting.{takes_part_in, element_at, named};

use cg_attrs::MachForm;
use cg_base::Text;
use cg_desc_elements::{Element, Namespace};
use cg_desc_names::Names;

/// What a machine is selected from (docs/LANGUAGE.md, "Selection").
#[derive(Clone, Copy)]
pub struct Selection<'a> {
    /// The machine's name.
    pub machine: &'a Text,
    /// The number of the form of its `define-mach`, counted from 1.
    pub form: usize,
    /// Its `define-mach`.
    pub mach: &'a MachForm,
    /// Its instruction set, where it has one.
    pub isa: Option<&'a Text>,
    /// The elements of the description, in its order.
    pub elements: &'a [Element],
    /// Where names stand.
    pub names: &'a Names,
}

/// The element of a form.
fn element_at(elements: &[Element], form: usize) -> Option<&Element>
    ensures { option_copied result ≡ element_at elements.now form }
{
    match form.checked_sub(1) {
        Some(place) => elements.get(place),
        None => None,
    }
}

impl<'a> Selection<'a> {
    /// The element of a form, counted from 1. None where there is none.
    pub fn element_at(&self, form: usize) -> Option<&'a Element>
        ensures { option_copied result ≡ element_at self.now.elements.now form }
    {
        element_at(self.elements, form)
    }

    /// Whether an element takes part.
    pub fn takes_part(&self, element: &Element) -> bool
        ensures { result ≡ takes_part_in (seen self.now) element.now }
    {
        element.takes_part(self.machine, self.isa)
    }

    /// The first element with this name among those that share their names and take part. None where
    /// there is none, and for what is built in.
    #[tactic(auto, unfolding(crate::specs::Selecting::named))]
    pub fn named(&self, among: Namespace, name: &Text) -> Option<&'a Element>
        ensures { option_copied result ≡ named (seen self.now) among name.now }
    {
        match self.names.first(among, name) {
            Some(standing) => element_at(self.elements, standing.form),
            None => None,
        }
    }
}
