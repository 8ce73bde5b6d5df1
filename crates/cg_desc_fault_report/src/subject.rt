use cg_base::Top;
use cg_desc_choices::Written;
use cg_desc_elements::Element;
use cg_desc_scope::Described;
use cg_model::Machine;

/// A form of a description that is judged, with what it gives (docs/REFUSALS.md).
#[derive(Clone, Copy)]
pub struct Subject<'a> {
    /// What the description says.
    pub described: &'a Described<'a>,
    /// The machine of the description.
    pub machine: &'a Machine,
    /// The number of the form, counted from 1.
    pub number: usize,
    /// Its element.
    pub element: &'a Element,
    /// The form, with its file and line.
    pub top: &'a Top,
    /// The instructions that it becomes.
    pub insns: &'a [&'a Written],
}
