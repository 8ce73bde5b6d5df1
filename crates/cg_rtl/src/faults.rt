//! The first fault of one kind in an expression.

ghost use Rattle.std.specs.Prelude.{◌≡◌, ◌<◌, ◌∷◌, ◌++◌, [], drop, length, true, false};
ghost use Rattle.std.specs.List.{list_all, flat_map};
ghost use Rattle.std.specs.Option.{option_copied, option_map};
ghost use Rattle.cg_base.specs.Refusing.{first};
ghost use Rattle.cg_base.specs.Parts.{headed};
ghost use Rattle.cg_rtl.specs.Functions.{seen_shape, shape_of};
ghost use Rattle.cg_rtl.specs.Shapes.{texts, wants, first_symbol, is_local_in, is_local, is_value, are_values, has_values, is_else, headed_faults, gives_mode_word, is_plain, arm_faults, item_faults, items_faults, behind_mode, has_mode, shaped_faults, calls_another, known_faults, call_faults, faults_to, listed};

use crate::functions::{Item, Shape, shape_of};
use cg_base::{Form, Text, gives_mode, is_mode};

/// A kind of fault.
#[derive(Clone, Copy, Debug, PartialEq, Eq)]
pub enum Flaw {
    /// A shape is wrong: E304.
    Wrong,
    /// Something is left out of the language: E307.
    LeftOut,
}

/// The text of a fault, where it is of the wanted kind.
fn when(wanted: Flaw, flaw: Flaw, text: &[u8]) -> Option<&[u8]>
    ensures { option_copied result ≡ first (texts wanted ((flaw, text.now) ∷ [])) }
{
    match (wanted, flaw) {
        (Flaw::Wrong, Flaw::Wrong) | (Flaw::LeftOut, Flaw::LeftOut) => Some(text),
        _ => None,
    }
}

/// The text of a wrong shape, where something doesn't hold and such a fault is wanted.
fn unless(wanted: Flaw, holds: bool, name: &[u8]) -> Option<&[u8]>
    ensures { option_copied result ≡ first (texts wanted (wants holds name.now)) }
{
    if holds {
        None
    } else {
        when(wanted, Flaw::Wrong, name)
    }
}

/// The symbol that stands first.
pub fn first_symbol(forms: &[Form]) -> Option<&Text>
    ensures { option_copied result ≡ first_symbol forms.now }
{
    match forms.first() {
        Some(form) => form.symbol(),
        None => None,
    }
}

/// Whether the elements of a list are a local.
fn is_local_in(elements: &[Form]) -> bool
    ensures { result ≡ is_local_in elements.now }
{
    match elements {
        [mode, name] => gives_mode_word(mode) && name.is_symbol(),
        _ => false,
    }
}

/// Whether a form is a local, `(MODE NAME)`.
fn is_local(form: &Form) -> bool
    ensures { result ≡ is_local form.now }
{
    match form.elements() {
        Some(elements) => is_local_in(elements),
        None => false,
    }
}

/// Whether each of the forms is a local.
fn are_locals(forms: &[Form]) -> bool
    ensures { result ≡ list_all is_local forms.now }
{
    forms.iter().all(is_local)
}

/// Whether a form is a value that a `case` names.
fn is_value(form: &Form) -> bool
    ensures { result ≡ is_value form.now }
{
    form.number().is_some() || form.is_symbol()
}

/// Whether each of the forms is such a value.
fn each_is_value(forms: &[Form]) -> bool
    ensures { result ≡ list_all is_value forms.now }
{
    forms.iter().all(is_value)
}

/// Whether the first element of an arm is a list of one or more such values.
fn has_values(arm: &[Form]) -> bool
    ensures { result ≡ has_values arm.now }
{
    match arm.first() {
        Some(head) => match head.elements() {
            Some(values) => !values.is_empty() && each_is_value(values),
            None => false,
        },
        None => false,
    }
}

/// Whether an arm is headed by `else`.
pub fn is_else(arm: &[Form]) -> bool
    ensures { result ≡ is_else arm.now }
{
    match first_symbol(arm) {
        Some(word) => word.as_slice() == b"else".as_slice(),
        None => false,
    }
}

/// Whether the items behind the name and mode of a `c-call` begin with another text than
/// `cgen_halt`.
fn calls_another(name: &[u8], operands: &[Form]) -> bool
    ensures { result ≡ calls_another name.now operands.now }
{
    if name != b"c-call".as_slice() {
        return false;
    }
    match operands.first() {
        Some(form) => match form.string() {
            Some(text) => text.as_slice() != b"cgen_halt".as_slice(),
            None => false,
        },
        None => false,
    }
}

/// What stands behind a mode, if there is one.
pub fn behind_mode(forms: &[Form]) -> &[Form]
    ensures { result.now ≡ behind_mode forms.now }
{
    match first_symbol(forms) {
        Some(word) => {
            if is_mode(word.as_slice()) {
                &forms[1..]
            } else {
                forms
            }
        }
        None => forms,
    }
}

/// Whether a mode other than `DFLT` stands first.
fn has_mode(forms: &[Form]) -> bool
    ensures { result ≡ has_mode forms.now }
{
    match first_symbol(forms) {
        Some(word) => gives_mode(word.as_slice()),
        None => false,
    }
}

/// Whether a form is a mode other than `DFLT`.
fn gives_mode_word(form: &Form) -> bool
    ensures { result ≡ gives_mode_word form.now }
{
    match form.symbol() {
        Some(word) => gives_mode(word.as_slice()),
        None => false,
    }
}

/// Whether a form is what an item is that isn't judged further.
fn is_plain(item: Item, form: &Form) -> bool
    ensures { result ≡ is_plain item form.now }
{
    match item {
        Item::Number => form.number().is_some(),
        Item::Name => form.is_symbol(),
        Item::Str => form.string().is_some(),
        Item::Mode => gives_mode_word(form),
        Item::Locals => match form.elements() {
            Some(locals) => are_locals(locals),
            None => false,
        },
        Item::NoLocals => match form.elements() {
            Some(locals) => locals.is_empty(),
            None => false,
        },
        _ => true,
    }
}

/// Where an expression is judged: which kind of fault is wanted, and how many lists inwards.
#[derive(Clone, Copy)]
pub(crate) struct Walk {
    pub wanted: Flaw,
    pub depth: u64,
}

/// The first fault of an expression that a function of this name holds.
#[cycle(judging)]
#[tactic(auto, using(crate::proofs::Steps::list_within))]
pub(crate) fn expression<'a>(walk: Walk, holder: &'a [u8], form: &'a Form) -> Option<&'a [u8]>
    ensures { option_copied result ≡ first (texts walk.wanted (faults_to walk.depth holder.now form.now)) }
{
    if walk.depth == 0 {
        return None;
    }
    let within = Walk {
        wanted: walk.wanted,
        depth: walk.depth - 1,
    };
    match form {
        Form::Number(_) | Form::Symbol(_) => None,
        Form::Str(_) | Form::Flag(_) => when(walk.wanted, Flaw::Wrong, holder),
        Form::Items(_) => list(within, holder, form),
    }
}

/// The first fault of a list.
#[cycle(judging)]
#[tactic(auto, using(crate::proofs::Firsts::first_append))]
fn list<'a>(walk: Walk, holder: &'a [u8], form: &'a Form) -> Option<&'a [u8]>
    ensures { option_copied result ≡ first (texts walk.wanted (call_faults (faults_to walk.depth) holder.now (headed form.now))) }
{
    match form.headed() {
        Some((name, behind)) => call(walk, name.as_slice(), behind),
        None => when(walk.wanted, Flaw::Wrong, holder),
    }
}

/// The first fault of a list that is headed by this symbol.
#[cycle(judging)]
#[tactic(auto, using(crate::proofs::Firsts::first_append))]
fn call<'a>(walk: Walk, name: &'a [u8], behind: &'a [Form]) -> Option<&'a [u8]>
    ensures { option_copied result ≡ first (texts walk.wanted (known_faults (faults_to walk.depth) name.now behind.now (shape_of name.now))) }
{
    let Some(shape) = shape_of(name) else {
        return when(walk.wanted, Flaw::LeftOut, name);
    };
    let operands = behind_mode(behind);
    if calls_another(name, operands) {
        return when(walk.wanted, Flaw::LeftOut, name);
    }
    shaped(walk, name, &shape, has_mode(behind), operands)
}

/// The first fault of a function's items.
#[cycle(judging)]
#[tactic(auto, using(crate::proofs::Firsts::first_append))]
fn shaped<'a>(
    walk: Walk,
    name: &'a [u8],
    shape: &Shape,
    has_mode: bool,
    operands: &'a [Form],
) -> Option<&'a [u8]>
    ensures { option_copied result ≡ first (texts walk.wanted (shaped_faults (faults_to walk.depth) name.now (seen_shape shape.now) has_mode operands.now)) }
{
    if let Some(text) = unless(walk.wanted, shape.allows(has_mode, operands.len()), name) {
        return Some(text);
    }
    items(walk, name, shape, operands)
}

/// The first fault within a function's items.
#[cycle(judging)]
#[tactic(auto, using(crate::proofs::Firsts::first_append))]
fn items<'a>(walk: Walk, name: &'a [u8], shape: &Shape, operands: &'a [Form]) -> Option<&'a [u8]>
    ensures { option_copied result ≡ first (texts walk.wanted (items_faults (faults_to walk.depth) name.now (seen_shape shape.now) (length operands.now) 0 operands.now)) }
{
    let mut k = 0;
    for operand in operands {
        let item = shape.item_at(operands.len(), k);
        if let Some(text) = item_fault(walk, name, item, operand) {
            return Some(text);
        }
        k += 1;
    }
    None
}

/// The first fault of an item.
#[cycle(judging)]
#[tactic(auto, using(crate::proofs::Firsts::first_append))]
fn item_fault<'a>(walk: Walk, name: &'a [u8], item: Item, form: &'a Form) -> Option<&'a [u8]>
    ensures { option_copied result ≡ first (texts walk.wanted (item_faults (faults_to walk.depth) name.now item form.now)) }
{
    match item {
        Item::Expression => expression(walk, name, form),
        Item::Arm | Item::LastArm | Item::Choice | Item::LastChoice => match form.elements() {
            Some(elements) => arm(walk, name, item, elements),
            None => when(walk.wanted, Flaw::Wrong, name),
        },
        _ => unless(walk.wanted, is_plain(item, form), name),
    }
}

/// The first fault of what has to be an arm.
#[cycle(judging)]
#[tactic(auto, using(crate::proofs::Firsts::first_append))]
fn arm<'a>(walk: Walk, name: &'a [u8], item: Item, arm: &'a [Form]) -> Option<&'a [u8]>
    ensures { option_copied result ≡ first (texts walk.wanted (arm_faults (faults_to walk.depth) name.now item arm.now)) }
{
    if arm.len() < 2 {
        return when(walk.wanted, Flaw::Wrong, name);
    }
    if is_else(arm) {
        return behind_head(walk, name, item.may_be_else(), arm);
    }
    if item.is_choice() {
        return behind_head(walk, name, has_values(arm), arm);
    }
    each(walk, name, arm)
}

/// The first fault of an arm whose head has to be such, and of the expressions behind it.
#[cycle(judging)]
#[tactic(auto, using(crate::proofs::Firsts::first_append))]
fn behind_head<'a>(walk: Walk, name: &'a [u8], holds: bool, arm: &'a [Form]) -> Option<&'a [u8]>
    ensures { option_copied result ≡ first (texts walk.wanted (headed_faults (faults_to walk.depth) name.now holds arm.now)) }
{
    if let Some(text) = unless(walk.wanted, holds, name) {
        return Some(text);
    }
    match arm.split_first() {
        Some((_, expressions)) => each(walk, name, expressions),
        None => None,
    }
}

/// The first fault of several expressions.
#[cycle(judging)]
#[tactic(auto, using(crate::proofs::Firsts::first_append))]
fn each<'a>(walk: Walk, name: &'a [u8], forms: &'a [Form]) -> Option<&'a [u8]>
    ensures { option_copied result ≡ first (texts walk.wanted (flat_map (faults_to walk.depth name.now) forms.now)) }
{
    for form in forms {
        if let Some(text) = expression(walk, name, form) {
            return Some(text);
        }
    }
    None
}
