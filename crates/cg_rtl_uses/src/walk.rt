//! What stands in an expression, from left to right.

ghost use Rattle.std.specs.Prelude.{◌≡◌, ◌∷◌, ◌++◌, ◌+◌, [], length, drop, pos, IfOk, OnOk};
ghost use Rattle.cg_base.specs.Parts.{headed};
ghost use Rattle.cg_rtl_resolve.specs.Names as names;
ghost use Rattle.cg_rtl_uses.specs.Uses as spec;
ghost use Rattle.cg_rtl_uses.specs.declared.uses.Use.TheVariants as stands;
ghost use Rattle.cg_rtl_uses.specs.Seen.{names_in, places_in, within, under};

use crate::names::{named_use, symbol_use, use_of, value_use};
use crate::place::{Path, put, put_inside};
use crate::uses::{PlacedUse, Use};
use cg_base::{Form, List, Mode, NoMemory, Text};
use cg_model::Op;
use cg_rtl::{behind_mode, is_else};
use cg_rtl_resolve::{
    Around, Function, Scope, behind_first, elements_first, elements_or_none, field_named,
    first_alone, function_of, mode_first, name_first, number_first, number_named, operand_index,
};
use std::alloc::Global;

/// Where an expression stands: what its names stand for, the locals around it, its place, and how many
/// lists inwards it is followed.
#[derive(Clone, Copy)]
pub(crate) struct Walk<'a> {
    pub alloc: Global,
    pub scope: &'a Scope,
    pub around: &'a Around<'a>,
    pub path: &'a Path<'a>,
    pub depth: u64,
}

/// The next place. More than a usize counts are in no list.
fn next(place: usize) -> Result<usize, NoMemory>
    ensures { IfOk result (λ new. new ≡ place + 1) }
{
    match place.checked_add(1) {
        Some(new) => Ok(new),
        None => Err(NoMemory),
    }
}

/// How many there are. More than an i64 counts are in no list.
fn count(forms: &[Form]) -> Result<i64, NoMemory>
    ensures { IfOk result (λ n. n ≡ pos (length forms.now)) }
{
    match i64::try_from(forms.len()) {
        Ok(count) => Ok(count),
        Err(_) => Err(NoMemory),
    }
}

/// The place of the first item behind a function's name and mode.
fn first_item(behind: &[Form]) -> usize
    ensures { result ≡ spec.first_item behind.now }
{
    1 + (behind.len() - behind_mode(behind).len())
}

/// Puts an operation at the end.
#[tactic(auto, using(crate::proofs::Paths::path_rules))]
fn put_node(
    walk: &Walk,
    list: &mut List<PlacedUse>,
    op: Op,
    mode: Option<Mode>,
    number: i64,
) -> Result<(), NoMemory>
    ensures { OnOk result (list.new ≡ list.old ++ under (places_in walk.now) (spec.here (stands.Node op mode number) ∷ [])) }
{
    put(walk.alloc, list, walk.path, Use::Node(op, mode, number))?;
    Ok(())
}

/// Puts values of a `case` at the end.
#[tactic(auto, using(crate::proofs::Paths::path_rules))]
fn put_values(walk: &Walk, list: &mut List<PlacedUse>, values: &[Form]) -> Result<(), NoMemory>
    ensures { OnOk result (list.new ≡ list.old ++ under (places_in walk.now) (spec.at 0 (spec.each_at (spec.value_use walk.now.scope.now) 0 values.now))) }
{
    let path = Path::Inside(walk.path, 0);
    let mut place = 0;
    for value in values {
        let what = value_use(walk.alloc, walk.scope, value)?;
        put_inside(walk.alloc, list, &path, place, what)?;
        place = next(place)?;
    }
    Ok(())
}

/// Puts locals at the end, which stand in the list at this place.
#[tactic(auto, using(crate::proofs::Paths::path_rules))]
fn put_locals(
    walk: &Walk,
    list: &mut List<PlacedUse>,
    first: usize,
    locals: &[Form],
) -> Result<(), NoMemory>
    ensures { OnOk result (list.new ≡ list.old ++ under (places_in walk.now) (spec.at first (spec.each_at (spec.local_use walk.now.scope.now.word_bits) 0 locals.now))) }
{
    let path = Path::Inside(walk.path, first);
    let mut place = 0;
    for local in locals {
        let mode = mode_first(walk.scope.word_bits, elements_or_none(local));
        put_inside(
            walk.alloc,
            list,
            &path,
            place,
            Use::Node(Op::Declare, mode, 0),
        )?;
        place = next(place)?;
    }
    Ok(())
}

/// Puts what stands in an expression at the end.
#[cycle(walking)]
#[tactic(auto, using(crate::proofs::Walks::walk_rules))]
pub(crate) fn expression(
    walk: &Walk,
    list: &mut List<PlacedUse>,
    form: &Form,
) -> Result<(), NoMemory>
    ensures { OnOk result (list.new ≡ list.old ++ under (places_in walk.now) (within walk.now (names_in walk.now) form.now)) }
{
    if walk.depth == 0 {
        return Ok(());
    }
    let inwards = Walk {
        alloc: walk.alloc,
        scope: walk.scope,
        around: walk.around,
        path: walk.path,
        depth: walk.depth - 1,
    };
    match form {
        Form::Number(number) => Ok(put_node(walk, list, Op::Number, None, *number)?),
        Form::Symbol(name) => {
            let what = symbol_use(walk, name.as_slice())?;
            Ok(put(walk.alloc, list, walk.path, what)?)
        }
        Form::Str(_) | Form::Flag(_) => Ok(()),
        Form::Items(_) => Ok(call(&inwards, list, form)?),
    }
}

/// Puts what stands in a list at the end.
#[cycle(walking)]
#[tactic(auto, using(crate::proofs::Walks::walk_rules))]
fn call(walk: &Walk, list: &mut List<PlacedUse>, form: &Form) -> Result<(), NoMemory>
    ensures { OnOk result (list.new ≡ list.old ++ under (places_in walk.now) (spec.call_uses walk.now.scope.now (within walk.now) (names_in walk.now) (headed form.now))) }
{
    match form.headed() {
        Some((name, behind)) => match function_of(name.as_slice()) {
            Some(function) => {
                let mode = mode_first(walk.scope.word_bits, behind);
                let first = first_item(behind);
                Ok(called(walk, list, first, mode, behind_mode(behind), function)?)
            }
            None => Ok(()),
        },
        None => Ok(()),
    }
}

/// Puts what stands in the call of a function at the end.
#[cycle(walking)]
#[tactic(auto, using(crate::proofs::Walks::walk_rules))]
fn called(
    walk: &Walk,
    list: &mut List<PlacedUse>,
    first: usize,
    mode: Option<Mode>,
    forms: &[Form],
    function: Function,
) -> Result<(), NoMemory>
    ensures { OnOk result (list.new ≡ list.old ++ under (places_in walk.now) (spec.function_uses walk.now.scope.now (within walk.now) (names_in walk.now) first mode forms.now function)) }
{
    let behind = behind_first(forms);
    match function {
        Function::Operation(op, number) => {
            Ok(plain(walk, list, op, mode, number as i64, first, forms)?)
        }
        Function::Behind(op) => Ok(plain(walk, list, op, mode, 0, next(first)?, behind)?),
        Function::Constant => Ok(put_node(walk, list, Op::Number, mode, number_first(forms))?),
        Function::Subword => {
            let number = number_first(behind);
            Ok(plain(
                walk,
                list,
                Op::Subword,
                mode,
                number,
                first,
                first_alone(forms),
            )?)
        }
        Function::Join => Ok(join(walk, list, first, mode, forms)?),
        Function::Cond => {
            put_node(walk, list, Op::Cond, mode, 0)?;
            Ok(arms(walk, list, first, forms)?)
        }
        Function::Case => Ok(case(walk, list, first, mode, forms)?),
        Function::Sequence => Ok(sequence(walk, list, first, mode, elements_first(forms), behind)?),
        Function::Delay => {
            let number = number_first(forms);
            Ok(plain(walk, list, Op::Delay, mode, number, next(first)?, behind)?)
        }
        Function::Error => Ok(put_node(walk, list, Op::Error, mode, 0)?),
        Function::FieldNamed => Ok(put_field(walk, list, mode, name_first(forms))?),
        Function::Register(op) => Ok(register(walk, list, first, op, mode, forms)?),
        Function::IndexOf => Ok(put_index(walk, list, first, mode, name_first(forms))?),
    }
}

/// Puts a field or a multi field of this name at the end.
#[tactic(auto, using(crate::proofs::Paths::path_rules))]
fn put_field(
    walk: &Walk,
    list: &mut List<PlacedUse>,
    mode: Option<Mode>,
    name: &[u8],
) -> Result<(), NoMemory>
    ensures { OnOk result (list.new ≡ list.old ++ under (places_in walk.now) (spec.here (spec.named_use name.now (names.field_named walk.now.scope.now mode name.now)) ∷ [])) }
{
    let found = field_named(walk.alloc, walk.scope, mode, name);
    let what = named_use(walk.alloc, name, found)?;
    put(walk.alloc, list, walk.path, what)?;
    Ok(())
}

/// Puts the index of an operand of this name at the end; a name that isn't defined stands at its own place.
#[tactic(auto, using(crate::proofs::Paths::path_rules))]
fn put_index(
    walk: &Walk,
    list: &mut List<PlacedUse>,
    first: usize,
    mode: Option<Mode>,
    name: &[u8],
) -> Result<(), NoMemory>
    ensures { OnOk result (list.new ≡ list.old ++ under (places_in walk.now) (spec.operand_use first name.now (names.operand_index walk.now.scope.now mode name.now) ∷ [])) }
{
    match operand_index(walk.alloc, walk.scope, mode, name) {
        Some(rtl) => Ok(put(walk.alloc, list, walk.path, use_of(rtl))?),
        None => {
            let what = Use::Undefined(Text::of(walk.alloc, name)?);
            Ok(put_inside(walk.alloc, list, walk.path, first, what)?)
        }
    }
}

/// Puts a register of this name at the end; a name that isn't defined stands at its own place.
#[tactic(auto, using(crate::proofs::Paths::path_rules))]
fn put_register(
    walk: &Walk,
    list: &mut List<PlacedUse>,
    first: usize,
    op: Op,
    mode: Option<Mode>,
    name: &[u8],
) -> Result<(), NoMemory>
    ensures { OnOk result (list.new ≡ list.old ++ under (places_in walk.now) (spec.register_use first op mode name.now (names.number_named name.now walk.now.scope.now.hardware) ∷ [])) }
{
    match number_named(name, &walk.scope.hardware) {
        Some(number) => Ok(put_node(walk, list, op, mode, number)?),
        None => {
            let what = Use::Undefined(Text::of(walk.alloc, name)?);
            Ok(put_inside(walk.alloc, list, walk.path, first, what)?)
        }
    }
}

/// Puts what stands in the form at a place at the end.
#[cycle(walking)]
#[tactic(auto, using(crate::proofs::Walks::walk_rules))]
fn at(walk: &Walk, list: &mut List<PlacedUse>, place: usize, form: &Form) -> Result<(), NoMemory>
    ensures { OnOk result (list.new ≡ list.old ++ under (places_in walk.now) (spec.at place (within walk.now (names_in walk.now) form.now))) }
{
    let path = Path::Inside(walk.path, place);
    let inside = Walk {
        alloc: walk.alloc,
        scope: walk.scope,
        around: walk.around,
        path: &path,
        depth: walk.depth,
    };
    Ok(expression(&inside, list, form)?)
}

/// Puts what stands in forms at the end, which stand from a place on.
#[cycle(walking)]
#[tactic(auto, using(crate::proofs::Walks::walk_rules))]
fn each(
    walk: &Walk,
    list: &mut List<PlacedUse>,
    first: usize,
    forms: &[Form],
) -> Result<(), NoMemory>
    ensures { OnOk result (list.new ≡ list.old ++ under (places_in walk.now) (spec.each_at (within walk.now (names_in walk.now)) first forms.now)) }
{
    let mut place = first;
    for form in forms {
        at(walk, list, place, form)?;
        place = next(place)?;
    }
    Ok(())
}

/// Puts an operation and its items at the end.
#[cycle(walking)]
#[tactic(auto, using(crate::proofs::Walks::walk_rules))]
fn plain(
    walk: &Walk,
    list: &mut List<PlacedUse>,
    op: Op,
    mode: Option<Mode>,
    number: i64,
    first: usize,
    forms: &[Form],
) -> Result<(), NoMemory>
    ensures { OnOk result (list.new ≡ list.old ++ under (places_in walk.now) (spec.here (stands.Node op mode number) ∷ spec.each_at (within walk.now (names_in walk.now)) first forms.now)) }
{
    put_node(walk, list, op, mode, number)?;
    Ok(each(walk, list, first, forms)?)
}

/// Puts parts that are joined at the end, behind the mode of each.
#[cycle(walking)]
#[tactic(auto, using(crate::proofs::Walks::walk_rules))]
fn join(
    walk: &Walk,
    list: &mut List<PlacedUse>,
    first: usize,
    mode: Option<Mode>,
    forms: &[Form],
) -> Result<(), NoMemory>
    ensures { OnOk result (list.new ≡ list.old ++ under (places_in walk.now) (spec.function_uses walk.now.scope.now (within walk.now) (names_in walk.now) first mode forms.now Function.Join)) }
{
    put_node(walk, list, Op::Join, mode, 0)?;
    let part = mode_first(walk.scope.word_bits, forms);
    put_inside(
        walk.alloc,
        list,
        walk.path,
        first,
        Use::Node(Op::Declare, part, 0),
    )?;
    Ok(each(walk, list, next(first)?, behind_first(forms))?)
}

/// Puts what stands in a `case` at the end.
#[cycle(walking)]
#[tactic(auto, using(crate::proofs::Walks::walk_rules))]
fn case(
    walk: &Walk,
    list: &mut List<PlacedUse>,
    first: usize,
    mode: Option<Mode>,
    forms: &[Form],
) -> Result<(), NoMemory>
    ensures { OnOk result (list.new ≡ list.old ++ under (places_in walk.now) (spec.function_uses walk.now.scope.now (within walk.now) (names_in walk.now) first mode forms.now Function.Case)) }
{
    put_node(walk, list, Op::Case, mode, 0)?;
    each(walk, list, first, first_alone(forms))?;
    Ok(choices(walk, list, next(first)?, behind_first(forms))?)
}

/// Puts locals and expressions in order at the end.
#[cycle(walking)]
#[tactic(auto, using(crate::proofs::Walks::walk_rules))]
fn sequence(
    walk: &Walk,
    list: &mut List<PlacedUse>,
    first: usize,
    mode: Option<Mode>,
    locals: &[Form],
    forms: &[Form],
) -> Result<(), NoMemory>
    ensures { OnOk result (list.new ≡ list.old ++ under (places_in walk.now) (spec.sequence_uses walk.now.scope.now (within walk.now) (names_in walk.now) first mode locals.now forms.now)) }
{
    put_node(walk, list, Op::Sequence, mode, count(locals)?)?;
    put_locals(walk, list, first, locals)?;
    let inner = Around::Sequence(walk.around, locals);
    let inside = Walk {
        alloc: walk.alloc,
        scope: walk.scope,
        around: &inner,
        path: walk.path,
        depth: walk.depth,
    };
    Ok(each(&inside, list, next(first)?, forms)?)
}

/// Puts a register with its index at the end.
#[cycle(walking)]
#[tactic(auto, using(crate::proofs::Walks::walk_rules))]
fn register(
    walk: &Walk,
    list: &mut List<PlacedUse>,
    first: usize,
    op: Op,
    mode: Option<Mode>,
    forms: &[Form],
) -> Result<(), NoMemory>
    ensures { OnOk result (list.new ≡ list.old ++ under (places_in walk.now) (spec.register_use first op mode (names.name_first forms.now) (names.number_named (names.name_first forms.now) walk.now.scope.now.hardware) ∷ spec.each_at (within walk.now (names_in walk.now)) (first + 1) (drop 1 forms.now))) }
{
    put_register(walk, list, first, op, mode, name_first(forms))?;
    Ok(each(walk, list, next(first)?, behind_first(forms))?)
}

/// Puts what stands in an arm of a `cond` at a place at the end.
#[cycle(walking)]
#[tactic(auto, using(crate::proofs::Walks::walk_rules))]
fn arm(walk: &Walk, list: &mut List<PlacedUse>, place: usize, form: &Form) -> Result<(), NoMemory>
    ensures { OnOk result (list.new ≡ list.old ++ under (places_in walk.now) (spec.at place (spec.arm_uses_of (within walk.now) (names_in walk.now) form.now))) }
{
    let path = Path::Inside(walk.path, place);
    let inside = Walk {
        alloc: walk.alloc,
        scope: walk.scope,
        around: walk.around,
        path: &path,
        depth: walk.depth,
    };
    let forms = elements_or_none(form);
    if is_else(forms) {
        Ok(plain(&inside, list, Op::Arm, None, 0, 1, behind_first(forms))?)
    } else {
        Ok(plain(&inside, list, Op::Arm, None, 1, 0, forms)?)
    }
}

/// Puts what stands in arms of a `cond` at the end, which stand from a place on.
#[cycle(walking)]
#[tactic(auto, using(crate::proofs::Walks::walk_rules))]
fn arms(
    walk: &Walk,
    list: &mut List<PlacedUse>,
    first: usize,
    forms: &[Form],
) -> Result<(), NoMemory>
    ensures { OnOk result (list.new ≡ list.old ++ under (places_in walk.now) (spec.each_at (spec.arm_uses_of (within walk.now) (names_in walk.now)) first forms.now)) }
{
    let mut place = first;
    for form in forms {
        arm(walk, list, place, form)?;
        place = next(place)?;
    }
    Ok(())
}

/// Puts what stands in an arm of a `case` that isn't `else` at the end.
#[cycle(walking)]
#[tactic(auto, using(crate::proofs::Walks::walk_rules))]
fn chosen(walk: &Walk, list: &mut List<PlacedUse>, forms: &[Form]) -> Result<(), NoMemory>
    ensures { OnOk result (list.new ≡ list.old ++ under (places_in walk.now) (spec.choice_by walk.now.scope.now (within walk.now) (names_in walk.now) (names.elements_first forms.now) (drop 1 forms.now))) }
{
    let values = elements_first(forms);
    put_node(walk, list, Op::Arm, None, count(values)?)?;
    put_values(walk, list, values)?;
    Ok(each(walk, list, 1, behind_first(forms))?)
}

/// Puts what stands in an arm of a `case` at a place at the end.
#[cycle(walking)]
#[tactic(auto, using(crate::proofs::Walks::walk_rules))]
fn choice(
    walk: &Walk,
    list: &mut List<PlacedUse>,
    place: usize,
    form: &Form,
) -> Result<(), NoMemory>
    ensures { OnOk result (list.new ≡ list.old ++ under (places_in walk.now) (spec.at place (spec.choice_uses_of walk.now.scope.now (within walk.now) (names_in walk.now) form.now))) }
{
    let path = Path::Inside(walk.path, place);
    let inside = Walk {
        alloc: walk.alloc,
        scope: walk.scope,
        around: walk.around,
        path: &path,
        depth: walk.depth,
    };
    let forms = elements_or_none(form);
    if is_else(forms) {
        Ok(plain(&inside, list, Op::Arm, None, 0, 1, behind_first(forms))?)
    } else {
        Ok(chosen(&inside, list, forms)?)
    }
}

/// Puts what stands in arms of a `case` at the end, which stand from a place on.
#[cycle(walking)]
#[tactic(auto, using(crate::proofs::Walks::walk_rules))]
fn choices(
    walk: &Walk,
    list: &mut List<PlacedUse>,
    first: usize,
    forms: &[Form],
) -> Result<(), NoMemory>
    ensures { OnOk result (list.new ≡ list.old ++ under (places_in walk.now) (spec.each_at (spec.choice_uses_of walk.now.scope.now (within walk.now) (names_in walk.now)) first forms.now)) }
{
    let mut place = first;
    for form in forms {
        choice(walk, list, place, form)?;
        place = next(place)?;
    }
    Ok(())
}

/// What stands in an expression, so many lists inwards.
#[tactic(auto, using(crate::proofs::Roots::root_rules))]
fn uses_to(
    alloc: Global,
    scope: &Scope,
    form: &Form,
    depth: u64,
) -> Result<List<PlacedUse>, NoMemory>
    ensures { IfOk result (λ list. list ≡ spec.uses_to depth scope.now [] form.now) }
{
    let around = Around::Outside;
    let path = Path::Root;
    let walk = Walk {
        alloc,
        scope,
        around: &around,
        path: &path,
        depth,
    };
    let mut list = List::new(alloc);
    expression(&walk, &mut list, form)?;
    Ok(list)
}

/// What stands in an expression, from left to right, each with its place in it: operations, names that
/// stand for constants, and names that stand for nothing (docs/LANGUAGE.md, "Names in expressions"). An
/// error is want of memory.
#[tactic(auto, unfolding(crate::specs::Uses::uses_of))]
pub fn uses_of(alloc: Global, scope: &Scope, form: &Form) -> Result<List<PlacedUse>, NoMemory>
    ensures { IfOk result (λ list. list ≡ spec.uses_of scope.now form.now) }
{
    uses_to(alloc, scope, form, u64::MAX)
}
