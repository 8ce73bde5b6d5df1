//! The rules of fields, multi fields and hardware.

ghost use Rattle.std.specs.Prelude.{◌≡◌, ◌++◌, map, Some, None, IfOk, OnOk};
ghost use Rattle.std.specs.Option.{option_copied, option_map};
ghost use Rattle.std.specs.List.{filter_map};
ghost use Rattle.cg_desc_data.specs.Seen.{seen_numbering};
ghost use Rattle.cg_desc_scope.specs.Seen.{seen_described};
ghost use Rattle.cg_desc_scope.specs.Described.{scope_in};
ghost use Rattle.cg_rtl_resolve.specs.declared.scope.Rule.TheVariants as rule;
ghost use Rattle.cg_rtl_resolve.specs.Names.{found_under, rtl_of};
ghost use Rattle.cg_ifield.specs.Sets.{set_of};
ghost use Rattle.cg_desc_machine.specs.Rules as spec;
ghost use Rattle.cg_desc_machine.specs.Seen.{base, seen_sets};

use cg_base::{Form, List, Mode, NoMemory, Text, only};
use cg_desc_data::{Numbering, field_of, hardware_of, multi_of};
use cg_desc_elements::Element;
use cg_desc_insns::only_in;
use cg_desc_scope::Described;
use cg_hw::{HardwareForm, expression};
use cg_ifield::{MultiForm, PlainForm, field_set, sets_behind};
use cg_model::{Field, Hardware, Multi, Rtl};
use cg_rtl_resolve::{Rule, Scope, built, nothing};
use std::alloc::Global;

/// The expression of `encode` or `decode`.
#[tactic(auto, unfolding(crate::specs::Rules::coding))]
fn coding(clause: &Form) -> Option<&Form>
    ensures { option_copied result ≡ spec.coding clause.now }
{
    match only_in(clause) {
        Some(form) => match form.elements() {
            Some(elements) => expression(elements),
            None => None,
        },
        None => None,
    }
}

/// The same of a clause that may be absent.
fn coding_in(clause: Option<&Form>) -> Option<&Form>
    ensures { option_copied result ≡ spec.coding_in (option_copied clause.entry) }
{
    match clause {
        Some(clause) => coding(clause),
        None => None,
    }
}

/// The expression of `get` or `set`.
#[tactic(auto, unfolding(crate::specs::Rules::hardware_rule))]
fn hardware_rule(clause: &Form) -> Option<&Form>
    ensures { option_copied result ≡ spec.hardware_rule clause.now }
{
    match clause.elements() {
        Some(elements) => expression(elements),
        None => None,
    }
}

/// The same of a clause that may be absent.
fn hardware_rule_in(clause: Option<&Form>) -> Option<&Form>
    ensures { option_copied result ≡ spec.hardware_rule_in (option_copied clause.entry) }
{
    match clause {
        Some(clause) => hardware_rule(clause),
        None => None,
    }
}

/// Puts another rule, and the mode of its own value, into a scope (docs/LANGUAGE.md, "Names in expressions").
pub fn set_rule(scope: &mut Scope, new_rule: Rule, own: Option<Mode>)
    ensures { scope.new ≡ scope_in scope.old new_rule own }
{
    scope.rule = new_rule;
    scope.own = own;
}

/// What an expression stands for in a rule (docs/LANGUAGE.md, "Names in expressions"). Of the scope
/// only the rule changes, and its own mode.
pub fn read(
    alloc: Global,
    scope: &mut Scope,
    new_rule: Rule,
    own: Option<Mode>,
    form: &Form,
) -> Result<Rtl, NoMemory>
    ensures value { IfOk result (λ rtl. rtl ≡ rtl_of (scope_in scope.old new_rule own) form.now) }
    ensures kept { base scope.new ≡ base scope.old }
{
    set_rule(scope, new_rule, own);
    built(alloc, form, scope)
}

/// What the expression of a rule stands for, where there is one.
fn read_in(
    alloc: Global,
    scope: &mut Scope,
    new_rule: Rule,
    own: Option<Mode>,
    form: Option<&Form>,
) -> Result<Option<Rtl>, NoMemory>
    ensures value { IfOk result (λ rtl. rtl ≡ spec.read_in (base scope.old) new_rule own (option_copied form.entry)) }
    ensures kept { base scope.new ≡ base scope.old }
{
    match form {
        Some(form) => Ok(Some(read(alloc, scope, new_rule, own, form)?)),
        None => Ok(None),
    }
}

/// A field with its rules.
pub(crate) fn field_ruled(
    alloc: Global,
    scope: &mut Scope,
    form: &PlainForm,
    plain: Field,
) -> Result<Field, NoMemory>
    ensures value { IfOk result (λ field. field ≡ spec.field_ruled (base scope.old) form.now plain) }
    ensures kept { base scope.new ≡ base scope.old }
{
    let mut field = plain;
    let own = Some(field.mode);
    let encode = coding_in(form.encode.as_ref());
    field.encode = read_in(alloc, scope, Rule::Encode, own, encode)?;
    let decode = coding_in(form.decode.as_ref());
    field.decode = read_in(alloc, scope, Rule::Decode, own, decode)?;
    Ok(field)
}

/// The fields that a clause sets, each with its expression.
fn sets_in(alloc: Global, clause: &Form) -> Result<Vec<(&Text, &Form)>, NoMemory>
    ensures { IfOk result (λ list. seen_sets list.items ≡ spec.sets_in clause.now) }
{
    match clause.elements() {
        Some(elements) => match sets_behind(elements) {
            Some(forms) => sets_among(alloc, forms),
            None => Ok(Vec::new(alloc)),
        },
        None => Ok(Vec::new(alloc)),
    }
}

/// The fields that forms set, each with its expression; forms that set none are left out
/// (docs/LANGUAGE.md, "Fields").
pub fn sets_among(alloc: Global, forms: &[Form]) -> Result<Vec<(&Text, &Form)>, NoMemory>
    ensures { IfOk result (λ list. seen_sets list.items ≡ filter_map set_of forms.now) }
{
    let mut list = Vec::new(alloc);
    for form in forms {
        if let Some(set) = field_set(form) {
            list.push(set)?;
        }
    }
    Ok(list)
}

/// The expression of a field among sets.
fn set_under<'a>(sets: &[(&'a Text, &'a Form)], name: &Text) -> Option<&'a Form>
    ensures { option_copied result ≡ found_under name.now (seen_sets sets.now) }
{
    for set in sets {
        if set.0 == name {
            return Some(set.1);
        }
    }
    None
}

/// What the expression of a subfield stands for, where that is a field of the machine.
fn inserted(
    alloc: Global,
    scope: &Scope,
    fields: &Numbering,
    sets: &[(&Text, &Form)],
    name: &Text,
) -> Result<Option<Rtl>, NoMemory>
    ensures { IfOk result (λ rtl. rtl ≡ spec.inserted (seen_numbering fields.now) scope.now (seen_sets sets.now) name.now) }
{
    if fields.get(name).is_none() {
        return Ok(None);
    }
    match set_under(sets, name) {
        Some(form) => Ok(Some(built(alloc, form, scope)?)),
        None => Ok(None),
    }
}

/// What the expressions of subfields stand for.
fn all_inserted(
    alloc: Global,
    scope: &Scope,
    fields: &Numbering,
    sets: &[(&Text, &Form)],
    names: &[Text],
) -> Result<List<Rtl>, NoMemory>
    ensures { IfOk result (λ list. list ≡ filter_map (spec.inserted (seen_numbering fields.now) scope.now (seen_sets sets.now)) names.now) }
{
    let mut list = List::new(alloc);
    for name in names {
        if let Some(rtl) = inserted(alloc, scope, fields, sets, name)? {
            list.push(rtl)?;
        }
    }
    Ok(list)
}

/// What the expressions of `insert` stand for.
fn insert_of(
    alloc: Global,
    scope: &mut Scope,
    fields: &Numbering,
    form: &MultiForm,
    multi: &Multi,
) -> Result<List<Rtl>, NoMemory>
    ensures value { IfOk result (λ list. list ≡ spec.insert_of (seen_numbering fields.now) (base scope.old) form.now multi.now) }
    ensures kept { base scope.new ≡ base scope.old }
{
    let name = multi.name.clone()?;
    set_rule(scope, Rule::Insert(name), Some(multi.mode));
    let sets = sets_in(alloc, &form.insert)?;
    all_inserted(alloc, scope, fields, &sets, form.subfields.as_slice())
}

/// What the expression of `extract` stands for.
fn extract_of(alloc: Global, scope: &mut Scope, clause: &Form) -> Result<Rtl, NoMemory>
    ensures value { IfOk result (λ rtl. rtl ≡ spec.extracted (base scope.old) clause.now) }
    ensures kept { base scope.new ≡ base scope.old }
{
    let sets = sets_in(alloc, clause)?;
    match sets.first() {
        Some((_, form)) => read(alloc, scope, Rule::Extract, None, form),
        None => Ok(nothing(alloc)),
    }
}

/// A multi field with its rules.
pub(crate) fn multi_ruled(
    alloc: Global,
    scope: &mut Scope,
    fields: &Numbering,
    form: &MultiForm,
    plain: Multi,
) -> Result<Multi, NoMemory>
    ensures value { IfOk result (λ multi. multi ≡ spec.multi_ruled (seen_numbering fields.now) (base scope.old) form.now plain) }
    ensures kept { base scope.new ≡ base scope.old }
{
    let mut multi = plain;
    multi.insert = insert_of(alloc, scope, fields, form, &multi)?;
    multi.extract = extract_of(alloc, scope, &form.extract)?;
    Ok(multi)
}

/// Hardware with its rules.
pub(crate) fn hardware_ruled(
    alloc: Global,
    scope: &mut Scope,
    form: &HardwareForm,
    plain: Hardware,
) -> Result<Hardware, NoMemory>
    ensures value { IfOk result (λ hardware. hardware ≡ spec.hardware_ruled (base scope.old) form.now plain) }
    ensures kept { base scope.new ≡ base scope.old }
{
    let mut hardware = plain;
    let get = hardware_rule_in(form.get.as_ref());
    hardware.get = read_in(alloc, scope, Rule::Get, None, get)?;
    let own = Some(hardware.mode);
    let set = hardware_rule_in(form.set.as_ref());
    hardware.set = read_in(alloc, scope, Rule::Set, own, set)?;
    Ok(hardware)
}
