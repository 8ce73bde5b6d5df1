//! What an expression stands for, with its names as numbers.

ghost use Rattle.std.specs.Prelude.{◌≡◌, ◌∷◌, ◌++◌, [], map, drop, take, length, pos, Some, IfOk};
ghost use Rattle.std.specs.Option.{unwrap_or};
ghost use Rattle.cg_base.specs.Parts.{headed};
ghost use Rattle.cg_rtl_resolve.specs.Names as spec;
ghost use Rattle.cg_rtl_resolve.specs.Read.{names_of, within, names_in};

use crate::around::{Around, behind_first, elements_or_none, local_name, name_first, number_of};
use crate::function::{Function, function_of};
use crate::names::{
    constant_named, field_named, leaf, named_beyond, nothing, number_named, operand_index,
};
use crate::scope::Scope;
use crate::words::mode_first;
use cg_base::{Form, List, Mode, NoMemory};
use cg_model::{Op, Rtl};
use cg_rtl::{behind_mode, is_else};
use std::alloc::Global;

/// Where an expression stands: what its names stand for, the locals around it, and how many lists
/// inwards it is followed.
#[derive(Clone, Copy)]
pub(crate) struct Walk<'a> {
    pub alloc: Global,
    pub scope: &'a Scope,
    pub around: &'a Around<'a>,
    pub depth: u64,
}

/// An expression with its items.
fn node(op: Op, mode: Option<Mode>, number: i64, items: List<Rtl>) -> Rtl
    ensures { result ≡ spec.node op mode number items }
{
    Rtl {
        op,
        mode,
        number,
        items,
    }
}

/// What a name stands for, or what stands where it has no meaning.
fn or_nothing(alloc: Global, found: Option<Rtl>) -> Rtl
    ensures { result ≡ unwrap_or found spec.nothing }
{
    match found {
        Some(rtl) => rtl,
        None => nothing(alloc),
    }
}

/// The number that stands first.
pub fn number_first(forms: &[Form]) -> i64
    ensures { result ≡ spec.number_first forms.now }
{
    match forms.first() {
        Some(form) => form.number().unwrap_or(0),
        None => 0,
    }
}

/// The text that stands first.
fn text_first(forms: &[Form]) -> &[u8]
    ensures { result.now ≡ spec.text_first forms.now }
{
    match forms.first() {
        Some(form) => match form.string() {
            Some(text) => text.as_slice(),
            None => &[],
        },
        None => &[],
    }
}

/// The elements of the list that stands first.
pub fn elements_first(forms: &[Form]) -> &[Form]
    ensures { result.now ≡ spec.elements_first forms.now }
{
    match forms.first() {
        Some(form) => elements_or_none(form),
        None => &[],
    }
}

/// The first form alone.
pub fn first_alone(forms: &[Form]) -> &[Form]
    ensures { result.now ≡ take 1 forms.now }
{
    &forms[..forms.len().min(1)]
}

/// What a bare symbol stands for.
#[tactic(auto, unfolding(crate::specs::Names::symbol_rtl))]
fn symbol(walk: &Walk, name: &[u8]) -> Result<Rtl, NoMemory>
    ensures { IfOk result (λ rtl. rtl ≡ spec.symbol_rtl walk.now.scope.now (names_in walk.now) name.now) }
{
    match number_of(walk.around, name)? {
        Some(number) => match i64::try_from(number) {
            Ok(number) => Ok(leaf(walk.alloc, Op::Local, None, number)),
            Err(_) => Err(NoMemory),
        },
        None => Ok(or_nothing(walk.alloc, named_beyond(walk.alloc, walk.scope, name))),
    }
}

/// What a value of a `case` stands for.
fn value(walk: &Walk, form: &Form) -> Rtl
    ensures { result ≡ spec.value_of walk.now.scope.now form.now }
{
    match form {
        Form::Number(number) => leaf(walk.alloc, Op::Number, None, *number),
        Form::Symbol(name) => or_nothing(
            walk.alloc,
            constant_named(walk.alloc, walk.scope, name.as_slice()),
        ),
        _ => nothing(walk.alloc),
    }
}

/// The values of an arm of a `case`.
#[tactic(auto, using(crate::proofs::Building::list_rules))]
fn values(walk: &Walk, forms: &[Form]) -> Result<List<Rtl>, NoMemory>
    ensures { IfOk result (λ list. list ≡ map (spec.value_of walk.now.scope.now) forms.now) }
{
    let mut list = List::new(walk.alloc);
    for form in forms {
        list.push(value(walk, form))?;
    }
    Ok(list)
}

/// What a local stands for.
fn declare(walk: &Walk, local: &Form) -> Rtl
    ensures { result ≡ spec.declare_of walk.now.scope.now.word_bits local.now }
{
    let mode = mode_first(walk.scope.word_bits, elements_or_none(local));
    leaf(walk.alloc, Op::Declare, mode, 0)
}

/// What the locals of a `sequence` stand for.
#[tactic(auto, using(crate::proofs::Building::list_rules))]
fn declares(walk: &Walk, locals: &[Form]) -> Result<List<Rtl>, NoMemory>
    ensures { IfOk result (λ list. list ≡ map (spec.declare_of walk.now.scope.now.word_bits) locals.now) }
{
    let mut list = List::new(walk.alloc);
    for local in locals {
        list.push(declare(walk, local))?;
    }
    Ok(list)
}

/// What an expression stands for.
#[cycle(building)]
#[tactic(auto, using(crate::proofs::Building::build_rules))]
pub(crate) fn expression(walk: &Walk, form: &Form) -> Result<Rtl, NoMemory>
    ensures { IfOk result (λ rtl. rtl ≡ within walk.now (names_in walk.now) form.now) }
{
    if walk.depth == 0 {
        return Ok(nothing(walk.alloc));
    }
    let inwards = Walk {
        alloc: walk.alloc,
        scope: walk.scope,
        around: walk.around,
        depth: walk.depth - 1,
    };
    match form {
        Form::Number(number) => Ok(leaf(walk.alloc, Op::Number, None, *number)),
        Form::Symbol(name) => Ok(symbol(walk, name.as_slice())?),
        Form::Str(_) | Form::Flag(_) => Ok(nothing(walk.alloc)),
        Form::Items(_) => list(&inwards, form),
    }
}

/// What a list stands for.
#[cycle(building)]
#[tactic(auto, using(crate::proofs::Building::build_rules))]
fn list(walk: &Walk, form: &Form) -> Result<Rtl, NoMemory>
    ensures { IfOk result (λ rtl. rtl ≡ spec.call_rtl walk.now.scope.now (within walk.now) (names_in walk.now) (headed form.now)) }
{
    match form.headed() {
        Some((name, behind)) => call(walk, name.as_slice(), behind),
        None => Ok(nothing(walk.alloc)),
    }
}

/// What a list headed by this symbol stands for.
#[cycle(building)]
#[tactic(auto, using(crate::proofs::Building::build_rules))]
fn call(walk: &Walk, name: &[u8], behind: &[Form]) -> Result<Rtl, NoMemory>
    ensures { IfOk result (λ rtl. rtl ≡ spec.known_rtl walk.now.scope.now (within walk.now) (names_in walk.now) behind.now (spec.function_of name.now)) }
{
    match function_of(name) {
        Some(function) => {
            let mode = mode_first(walk.scope.word_bits, behind);
            called(walk, mode, behind_mode(behind), function)
        }
        None => Ok(nothing(walk.alloc)),
    }
}

/// What a function stands for.
#[cycle(building)]
#[tactic(auto, using(crate::proofs::Building::build_rules))]
fn called(
    walk: &Walk,
    mode: Option<Mode>,
    forms: &[Form],
    function: Function,
) -> Result<Rtl, NoMemory>
    ensures { IfOk result (λ rtl. rtl ≡ spec.function_rtl walk.now.scope.now (within walk.now) (names_in walk.now) mode forms.now function) }
{
    let alloc = walk.alloc;
    let behind = behind_first(forms);
    match function {
        Function::Operation(op, number) => plain(walk, op, mode, number as i64, forms),
        Function::Behind(op) => plain(walk, op, mode, 0, behind),
        Function::Constant => Ok(leaf(alloc, Op::Number, mode, number_first(forms))),
        Function::Subword => {
            let number = number_first(behind);
            plain(walk, Op::Subword, mode, number, first_alone(forms))
        }
        Function::Join => join(walk, mode, forms),
        Function::Cond => cond(walk, mode, forms),
        Function::Case => case(walk, mode, forms),
        Function::Sequence => sequence(walk, mode, elements_first(forms), behind),
        Function::Delay => plain(walk, Op::Delay, mode, number_first(forms), behind),
        Function::Error => Ok(error(walk, mode, text_first(forms))),
        Function::FieldNamed => {
            let name = name_first(forms);
            Ok(or_nothing(alloc, field_named(alloc, walk.scope, mode, name)))
        }
        Function::Register(op) => register(walk, op, mode, forms),
        Function::IndexOf => {
            let name = name_first(forms);
            Ok(or_nothing(alloc, operand_index(alloc, walk.scope, mode, name)))
        }
    }
}

/// What an `error` stands for.
fn error(walk: &Walk, mode: Option<Mode>, text: &[u8]) -> Rtl
    ensures { result ≡ spec.leaf Op.Error mode (unwrap_or (spec.number_named text.now walk.now.scope.now.texts) (pos 0)) }
{
    let number = number_named(text, &walk.scope.texts).unwrap_or(0);
    leaf(walk.alloc, Op::Error, mode, number)
}

/// Expressions behind others that stand already.
#[cycle(building)]
#[tactic(auto, using(crate::proofs::Building::build_rules))]
fn each(walk: &Walk, front: List<Rtl>, forms: &[Form]) -> Result<List<Rtl>, NoMemory>
    ensures { IfOk result (λ list. list ≡ front ++ map (within walk.now (names_in walk.now)) forms.now) }
{
    let mut list = front;
    for form in forms {
        list.push(expression(walk, form)?)?;
    }
    Ok(list)
}

/// An operation whose items are expressions.
#[cycle(building)]
#[tactic(auto, using(crate::proofs::Building::build_rules))]
fn plain(
    walk: &Walk,
    op: Op,
    mode: Option<Mode>,
    number: i64,
    forms: &[Form],
) -> Result<Rtl, NoMemory>
    ensures { IfOk result (λ rtl. rtl ≡ spec.node op mode number (map (within walk.now (names_in walk.now)) forms.now)) }
{
    let items = each(walk, List::new(walk.alloc), forms)?;
    Ok(node(op, mode, number, items))
}

/// Parts that are joined, behind the mode of each.
#[cycle(building)]
#[tactic(auto, using(crate::proofs::Building::build_rules))]
fn join(walk: &Walk, mode: Option<Mode>, forms: &[Form]) -> Result<Rtl, NoMemory>
    ensures { IfOk result (λ rtl. rtl ≡ spec.function_rtl walk.now.scope.now (within walk.now) (names_in walk.now) mode forms.now Function.Join) }
{
    let part = mode_first(walk.scope.word_bits, forms);
    let mut front = List::new(walk.alloc);
    front.push(leaf(walk.alloc, Op::Declare, part, 0))?;
    let items = each(walk, front, behind_first(forms))?;
    Ok(node(Op::Join, mode, 0, items))
}

/// An arm of a `cond`.
#[cycle(building)]
#[tactic(auto, using(crate::proofs::Building::build_rules))]
fn arm(walk: &Walk, forms: &[Form]) -> Result<Rtl, NoMemory>
    ensures { IfOk result (λ rtl. rtl ≡ spec.arm_of (within walk.now) (names_in walk.now) forms.now) }
{
    if is_else(forms) {
        plain(walk, Op::Arm, None, 0, behind_first(forms))
    } else {
        plain(walk, Op::Arm, None, 1, forms)
    }
}

/// Arms of a `cond`.
#[cycle(building)]
#[tactic(auto, using(crate::proofs::Building::build_rules))]
fn arms(walk: &Walk, forms: &[Form]) -> Result<List<Rtl>, NoMemory>
    ensures { IfOk result (λ list. list ≡ map (spec.arm_at (within walk.now) (names_in walk.now)) forms.now) }
{
    let mut list = List::new(walk.alloc);
    for form in forms {
        list.push(arm(walk, elements_or_none(form))?)?;
    }
    Ok(list)
}

#[cycle(building)]
#[tactic(auto, using(crate::proofs::Building::build_rules))]
fn cond(walk: &Walk, mode: Option<Mode>, forms: &[Form]) -> Result<Rtl, NoMemory>
    ensures { IfOk result (λ rtl. rtl ≡ spec.function_rtl walk.now.scope.now (within walk.now) (names_in walk.now) mode forms.now Function.Cond) }
{
    let items = arms(walk, forms)?;
    Ok(node(Op::Cond, mode, 0, items))
}

/// An arm of a `case`.
#[cycle(building)]
#[tactic(auto, using(crate::proofs::Building::build_rules))]
fn choice(walk: &Walk, forms: &[Form]) -> Result<Rtl, NoMemory>
    ensures { IfOk result (λ rtl. rtl ≡ spec.choice_of walk.now.scope.now (within walk.now) (names_in walk.now) forms.now) }
{
    if is_else(forms) {
        return plain(walk, Op::Arm, None, 0, behind_first(forms));
    }
    let front = values(walk, elements_first(forms))?;
    let count = front.len() as i64;
    let items = each(walk, front, behind_first(forms))?;
    Ok(node(Op::Arm, None, count, items))
}

/// Arms of a `case` behind what stands already.
#[cycle(building)]
#[tactic(auto, using(crate::proofs::Building::build_rules))]
fn choices(walk: &Walk, front: List<Rtl>, forms: &[Form]) -> Result<List<Rtl>, NoMemory>
    ensures { IfOk result (λ list. list ≡ front ++ map (spec.choice_at walk.now.scope.now (within walk.now) (names_in walk.now)) forms.now) }
{
    let mut list = front;
    for form in forms {
        list.push(choice(walk, elements_or_none(form))?)?;
    }
    Ok(list)
}

#[cycle(building)]
#[tactic(auto, using(crate::proofs::Building::build_rules))]
fn case(walk: &Walk, mode: Option<Mode>, forms: &[Form]) -> Result<Rtl, NoMemory>
    ensures { IfOk result (λ rtl. rtl ≡ spec.function_rtl walk.now.scope.now (within walk.now) (names_in walk.now) mode forms.now Function.Case) }
{
    let front = each(walk, List::new(walk.alloc), first_alone(forms))?;
    let items = choices(walk, front, behind_first(forms))?;
    Ok(node(Op::Case, mode, 0, items))
}

/// Expressions in order, with locals of their own.
#[cycle(building)]
#[tactic(auto, using(crate::proofs::Building::build_rules))]
fn sequence(
    walk: &Walk,
    mode: Option<Mode>,
    locals: &[Form],
    forms: &[Form],
) -> Result<Rtl, NoMemory>
    ensures { IfOk result (λ rtl. rtl ≡ spec.sequence_of walk.now.scope.now (within walk.now) (names_in walk.now) mode locals.now forms.now) }
{
    let front = declares(walk, locals)?;
    let count = front.len() as i64;
    let inner = Around::Sequence(walk.around, locals);
    let inside = Walk {
        alloc: walk.alloc,
        scope: walk.scope,
        around: &inner,
        depth: walk.depth,
    };
    let items = each(&inside, front, forms)?;
    Ok(node(Op::Sequence, mode, count, items))
}

/// A register, with an index or none.
#[cycle(building)]
#[tactic(auto, using(crate::proofs::Building::build_rules))]
fn register(walk: &Walk, op: Op, mode: Option<Mode>, forms: &[Form]) -> Result<Rtl, NoMemory>
    ensures { IfOk result (λ rtl. rtl ≡ unwrap_or (spec.register_named walk.now.scope.now op mode (spec.name_first forms.now) (map (within walk.now (names_in walk.now)) (drop 1 forms.now))) spec.nothing) }
{
    match number_named(name_first(forms), &walk.scope.hardware) {
        Some(number) => plain(walk, op, mode, number, behind_first(forms)),
        None => Ok(nothing(walk.alloc)),
    }
}
