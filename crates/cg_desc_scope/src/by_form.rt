//! Instructions by the forms that they are written in.

ghost use Rattle.std.specs.Prelude.{◌≡◌, IfOk, OnOk};
ghost use Rattle.std.specs.Option.{unwrap_or};
ghost use Rattle.cg_desc_scope.specs.ByForm as spec;
ghost use Rattle.cg_desc_scope.specs.Seen.{all_lent};
ghost use Rattle.cg_desc_scope.specs.Texts.{by_form};

use cg_base::NoMemory;
use cg_desc_choices::Written;
use indexmap::IndexMap;
use std::alloc::Global;

/// Instructions as they are written, by the numbers of their forms.
#[derive(Drop)]
pub struct ByForm<'a> {
    pub(crate) lists: IndexMap<usize, Vec<&'a Written>>,
}

/// No instructions, told form by form.
#[tactic(auto, unfolding(crate::specs::ByForm::IsNone))]
fn told_empty<'a>(alloc: Global) -> ByForm<'a>
    ensures { spec.IsNone (spec.seen_by_form result) }
{
    ByForm {
        lists: IndexMap::new(alloc),
    }
}

/// No instructions.
#[tactic(auto, using(crate::proofs::ByForms::no_insns_is))]
fn no_insns<'a>(alloc: Global) -> ByForm<'a>
    ensures { spec.seen_by_form result ≡ spec.no_insns }
{
    told_empty(alloc)
}

/// Puts an instruction behind those of its form, told form by form.
#[tactic(auto, unfolding(crate::specs::ByForm::IsWithOne))]
fn insert<'a>(alloc: Global, by_form: &mut ByForm<'a>, written: &'a Written) -> Result<(), NoMemory>
    ensures { OnOk result (spec.IsWithOne (spec.seen_by_form by_form.old) written.now (spec.seen_by_form by_form.new)) }
{
    if let Some(list) = by_form.lists.get_mut(&written.form) {
        list.push(written)?;
        return Ok(());
    }
    let mut list = Vec::new(alloc);
    list.push(written)?;
    by_form.lists.insert(written.form, list)?;
    Ok(())
}

/// Puts an instruction behind those of its form.
#[tactic(auto, using(crate::proofs::ByForms::with_one_is))]
fn put<'a>(alloc: Global, by_form: &mut ByForm<'a>, written: &'a Written) -> Result<(), NoMemory>
    ensures { OnOk result (spec.seen_by_form by_form.new ≡ spec.with_one (spec.seen_by_form by_form.old) written.now) }
{
    insert(alloc, by_form, written)
}

impl<'a> ByForm<'a> {
    /// These instructions, by the numbers of their forms. Those of one form keep their order.
    #[tactic(auto, using(crate::proofs::ByForms::by_form_rules))]
    pub fn of(alloc: Global, written: &'a [Written]) -> Result<ByForm<'a>, NoMemory>
        ensures { IfOk result (λ insns. spec.seen_by_form insns ≡ by_form written.now) }
    {
        let mut by_form = no_insns(alloc);
        for each in written {
            put(alloc, &mut by_form, each)?;
        }
        Ok(by_form)
    }

    /// The instructions of the form of this number, in their order, or else these where it becomes none.
    pub fn get_or<'b>(&'b self, number: usize, others: &'b [&'a Written]) -> &'b [&'a Written]
        ensures { all_lent result.now ≡ unwrap_or (spec.kept self.now number) (all_lent others.now) }
    {
        match self.lists.get(&number) {
            Some(list) => list.as_slice(),
            None => others,
        }
    }
}
