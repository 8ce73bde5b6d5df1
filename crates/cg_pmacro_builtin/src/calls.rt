ghost use Rattle.std.specs.Prelude.{◌≡◌, ◌<◌, ◌^◌, ◌+ℤ◌, true, false, IfOk};
ghost use Rattle.std.specs.Char.{to_ascii_uppercase, to_ascii_lowercase};
ghost use Rattle.cg_pmacro_builtin.specs.Reports.{Comes};
ghost use Rattle.cg_pmacro_builtin.specs.Manners.{affordable};
ghost use Rattle.cg_pmacro_builtin.specs.BuiltIns as meant;
ghost use Rattle.cg_pmacro_builtin.specs.declared.built_in.BuiltIn.TheVariants as own;

use crate::arguments::{
    form_elements, is_false, joined, miscounted, misfit, natural, number, text, with_text,
};
use crate::built_in::BuiltIn;
use crate::fault::{Halt, faulty};
use crate::shapes::same_form;
use crate::texts::{hex_digits, last_digits};
use crate::value::{Node, Value};
use cg_base::{List, NoMemory, Text, refusals};
use std::alloc::Global;

/// What a built-in gives whose arguments are all expanded before.
pub fn ordinary(alloc: Global, of: BuiltIn, spliced: bool, args: List<Value>) -> Result<Value, Halt>
    ensures { Comes (meant.ordinary of spliced args) result }
{
    match of {
        BuiltIn::Sym => Ok(Value::symbol(alloc, joined(alloc, of, args.as_slice())?)?),
        BuiltIn::Str => Ok(Value::string(alloc, joined(alloc, of, args.as_slice())?)?),
        BuiltIn::Error => error(alloc, args.as_slice()),
        BuiltIn::Hex => hex(alloc, args.as_slice()),
        BuiltIn::Upcase => upcase(alloc, args.as_slice()),
        BuiltIn::Downcase => downcase(alloc, args.as_slice()),
        BuiltIn::Substring => substring(alloc, args.as_slice()),
        BuiltIn::Unsplice => unsplice(alloc, spliced, args.as_slice()),
        BuiltIn::Ref => element(alloc, args.as_slice()),
        BuiltIn::Length => length(alloc, args.as_slice()),
        BuiltIn::Add => add(alloc, args.as_slice()),
        BuiltIn::Sub => sub(alloc, args.as_slice()),
        BuiltIn::Mul => mul(alloc, args.as_slice()),
        BuiltIn::Eq => equal(alloc, args.as_slice()),
        BuiltIn::Ne => different(alloc, args.as_slice()),
        BuiltIn::Lt => less(alloc, args.as_slice()),
        BuiltIn::Gt => greater(alloc, args.as_slice()),
        BuiltIn::Le => at_most(alloc, args.as_slice()),
        BuiltIn::Ge => at_least(alloc, args.as_slice()),
        BuiltIn::Not => not(alloc, args.as_slice()),
        _ => Ok(Value::list(alloc, args)?),
    }
}

fn error(alloc: Global, args: &[Value]) -> Result<Value, Halt>
    ensures { Comes (meant.error_of args.now) result }
{
    let text = joined(alloc, BuiltIn::Error, args)?;
    Err(Halt::Faulty {
        number: refusals::ERROR_REACHED,
        text,
    })
}

fn hex(alloc: Global, args: &[Value]) -> Result<Value, Halt>
    ensures { Comes (meant.hex_of args.now) result }
{
    match args {
        [x] => {
            let n = natural(alloc, BuiltIn::Hex, x)?;
            Ok(Value::string(alloc, hex_digits(alloc, n)?)?)
        }
        [x, w] => {
            let n = natural(alloc, BuiltIn::Hex, x)?;
            let count = natural(alloc, BuiltIn::Hex, w)?;
            if 1 <= count && count <= 16 {
                Ok(Value::string(alloc, last_digits(alloc, count as u8, n)?)?)
            } else {
                Err(misfit(alloc, BuiltIn::Hex))
            }
        }
        _ => Err(miscounted(alloc, BuiltIn::Hex)),
    }
}

fn upcase(alloc: Global, args: &[Value]) -> Result<Value, Halt>
    ensures { Comes (meant.letters_of own.Upcase to_ascii_uppercase args.now) result }
{
    match args {
        [form] => {
            let Some(old) = text(form) else {
                return Err(misfit(alloc, BuiltIn::Upcase));
            };
            let new = old.as_slice().to_ascii_uppercase(alloc)?;
            Ok(with_text(alloc, form, Text::of(alloc, new.as_slice())?)?)
        }
        _ => Err(miscounted(alloc, BuiltIn::Upcase)),
    }
}

fn downcase(alloc: Global, args: &[Value]) -> Result<Value, Halt>
    ensures { Comes (meant.letters_of own.Downcase to_ascii_lowercase args.now) result }
{
    match args {
        [form] => {
            let Some(old) = text(form) else {
                return Err(misfit(alloc, BuiltIn::Downcase));
            };
            let new = old.as_slice().to_ascii_lowercase(alloc)?;
            Ok(with_text(alloc, form, Text::of(alloc, new.as_slice())?)?)
        }
        _ => Err(miscounted(alloc, BuiltIn::Downcase)),
    }
}

fn substring(alloc: Global, args: &[Value]) -> Result<Value, Halt>
    ensures { Comes (meant.substring_of args.now) result }
{
    match args {
        [form, i, j] => {
            let Some(whole) = text(form) else {
                return Err(misfit(alloc, BuiltIn::Substring));
            };
            let from = natural(alloc, BuiltIn::Substring, i)?;
            let to = natural(alloc, BuiltIn::Substring, j)?;
            if from <= to && to <= whole.len() as u64 {
                let part = Text::of(alloc, &whole.as_slice()[from as usize..to as usize])?;
                Ok(with_text(alloc, form, part)?)
            } else {
                Err(misfit(alloc, BuiltIn::Substring))
            }
        }
        _ => Err(miscounted(alloc, BuiltIn::Substring)),
    }
}

fn unsplice(alloc: Global, spliced: bool, args: &[Value]) -> Result<Value, Halt>
    ensures { Comes (meant.unsplice_of spliced args.now) result }
{
    match args {
        [list] => {
            if spliced && form_elements(list).is_some() {
                Ok(list.clone()?)
            } else {
                Err(misfit(alloc, BuiltIn::Unsplice))
            }
        }
        _ => Err(miscounted(alloc, BuiltIn::Unsplice)),
    }
}

/// `.iota`. Its cost is known before its list is made, and where that is more than what is left,
/// the list isn't made.
pub fn iota(alloc: Global, args: &[Value], left: u64) -> Result<Value, Halt>
    ensures { Comes (affordable left (meant.iota_of args.now)) result }
{
    match args {
        [n] => {
            let count = natural(alloc, BuiltIn::Iota, n)?;
            numbers(alloc, count, 0, 1, left)
        }
        [n, start] => {
            let count = natural(alloc, BuiltIn::Iota, n)?;
            let start = number(alloc, BuiltIn::Iota, start)?;
            numbers(alloc, count, start, 1, left)
        }
        [n, start, step] => {
            let count = natural(alloc, BuiltIn::Iota, n)?;
            let start = number(alloc, BuiltIn::Iota, start)?;
            let step = number(alloc, BuiltIn::Iota, step)?;
            numbers(alloc, count, start, step, left)
        }
        _ => Err(miscounted(alloc, BuiltIn::Iota)),
    }
}

/// So many numbers from `start` by `step`, where their list doesn't cost more than what is left.
#[tactic(auto, using(crate::proofs::Numbers::number_rules))]
fn numbers(alloc: Global, count: u64, start: i64, step: i64, left: u64) -> Result<Value, Halt>
    requires { count < 2 ^ 63 }
    ensures { Comes (affordable left (meant.iota_from count start step)) result }
{
    if !ends_within(count, start, step) {
        return Err(misfit(alloc, BuiltIn::Iota));
    }
    if left < 2 {
        return Err(faulty(alloc, refusals::BUDGET_PASSED, b"4000000"));
    }
    if left - 2 < count {
        return Err(faulty(alloc, refusals::BUDGET_PASSED, b"4000000"));
    }
    Ok(Value::list(alloc, listed(alloc, count, start, step)?)?)
}

/// So many numbers from `start` by `step`.
#[tactic(auto, using(crate::proofs::Numbers::number_rules))]
fn listed(alloc: Global, count: u64, start: i64, step: i64) -> Result<List<Value>, NoMemory>
    requires { meant.iota_fits count start step ≡ true }
    ensures { IfOk result (λ forms. forms ≡ meant.numbers count start step) }
{
    let mut forms = List::new(alloc);
    let mut value = start;
    for _k in 0..count {
        forms.push(Value::number(value))?;
        value = next_number(value, step);
    }
    Ok(forms)
}

/// The number that comes next, where it has 64 bits.
fn next_number(value: i64, step: i64) -> i64
    ensures { meant.fits_64 (value +ℤ step) ≡ true → result ≡ value +ℤ step }
{
    match value.checked_add(step) {
        Some(next) => next,
        None => value,
    }
}

/// Whether the last of so many numbers from `start` by `step` has 64 bits, where there is one.
fn ends_within(count: u64, start: i64, step: i64) -> bool
    requires { count < 2 ^ 63 }
    ensures { result ≡ meant.iota_fits count start step }
{
    if count == 0 {
        return true;
    }
    match i128::from(count - 1).checked_mul(i128::from(step)) {
        Some(way) => match i128::from(start).checked_add(way) {
            Some(last) => is_short(last),
            None => false,
        },
        None => false,
    }
}

/// Whether the number has 64 bits.
fn is_short(number: i128) -> bool
    ensures { result ≡ meant.fits_64 number }
{
    match i64::try_from(number) {
        Ok(_) => true,
        Err(_) => false,
    }
}

fn element(alloc: Global, args: &[Value]) -> Result<Value, Halt>
    ensures { Comes (meant.ref_of args.now) result }
{
    match args {
        [list, i] => {
            let Some(items) = form_elements(list) else {
                return Err(misfit(alloc, BuiltIn::Ref));
            };
            let place = natural(alloc, BuiltIn::Ref, i)?;
            match items.get(place as usize) {
                Some(item) => Ok(item.clone()?),
                None => Err(misfit(alloc, BuiltIn::Ref)),
            }
        }
        _ => Err(miscounted(alloc, BuiltIn::Ref)),
    }
}

#[tactic(auto, using(crate::proofs::Values::value_rules))]
fn length(alloc: Global, args: &[Value]) -> Result<Value, Halt>
    ensures { Comes (meant.length_of args.now) result }
{
    match args {
        [form] => {
            let count = match &form.node {
                Node::Symbol(text) => text.as_ref().len(),
                Node::Str(text) => text.as_ref().len(),
                Node::Items(_, items) => items.as_ref().len(),
                _ => return Err(misfit(alloc, BuiltIn::Length)),
            };
            match i64::try_from(count) {
                Ok(count) => Ok(Value::number(count)),
                Err(_) => Err(Halt::NoMemory),
            }
        }
        _ => Err(miscounted(alloc, BuiltIn::Length)),
    }
}

/// The two numbers that the arguments are.
fn two_numbers(alloc: Global, of: BuiltIn, args: &[Value]) -> Result<(i64, i64), Halt>
    ensures { Comes (meant.two_numbers of args.now) result }
{
    match args {
        [x, y] => {
            let m = number(alloc, of, x)?;
            let n = number(alloc, of, y)?;
            Ok((m, n))
        }
        _ => Err(miscounted(alloc, of)),
    }
}

fn add(alloc: Global, args: &[Value]) -> Result<Value, Halt>
    ensures { Comes (meant.ordinary own.Add false args.now) result }
{
    let (m, n) = two_numbers(alloc, BuiltIn::Add, args)?;
    match m.checked_add(n) {
        Some(sum) => Ok(Value::number(sum)),
        None => Err(misfit(alloc, BuiltIn::Add)),
    }
}

fn sub(alloc: Global, args: &[Value]) -> Result<Value, Halt>
    ensures { Comes (meant.ordinary own.Sub false args.now) result }
{
    let (m, n) = two_numbers(alloc, BuiltIn::Sub, args)?;
    match m.checked_sub(n) {
        Some(difference) => Ok(Value::number(difference)),
        None => Err(misfit(alloc, BuiltIn::Sub)),
    }
}

fn mul(alloc: Global, args: &[Value]) -> Result<Value, Halt>
    ensures { Comes (meant.ordinary own.Mul false args.now) result }
{
    let (m, n) = two_numbers(alloc, BuiltIn::Mul, args)?;
    match m.checked_mul(n) {
        Some(product) => Ok(Value::number(product)),
        None => Err(misfit(alloc, BuiltIn::Mul)),
    }
}

fn less(alloc: Global, args: &[Value]) -> Result<Value, Halt>
    ensures { Comes (meant.ordinary own.Lt false args.now) result }
{
    let (m, n) = two_numbers(alloc, BuiltIn::Lt, args)?;
    Ok(Value::flag(m < n))
}

fn greater(alloc: Global, args: &[Value]) -> Result<Value, Halt>
    ensures { Comes (meant.ordinary own.Gt false args.now) result }
{
    let (m, n) = two_numbers(alloc, BuiltIn::Gt, args)?;
    Ok(Value::flag(n < m))
}

fn at_most(alloc: Global, args: &[Value]) -> Result<Value, Halt>
    ensures { Comes (meant.ordinary own.Le false args.now) result }
{
    let (m, n) = two_numbers(alloc, BuiltIn::Le, args)?;
    Ok(Value::flag(m <= n))
}

fn at_least(alloc: Global, args: &[Value]) -> Result<Value, Halt>
    ensures { Comes (meant.ordinary own.Ge false args.now) result }
{
    let (m, n) = two_numbers(alloc, BuiltIn::Ge, args)?;
    Ok(Value::flag(m >= n))
}

fn equal(alloc: Global, args: &[Value]) -> Result<Value, Halt>
    ensures { Comes (meant.eq_of args.now) result }
{
    match args {
        [x, y] => Ok(Value::flag(same_form(x, y))),
        _ => Err(miscounted(alloc, BuiltIn::Eq)),
    }
}

fn different(alloc: Global, args: &[Value]) -> Result<Value, Halt>
    ensures { Comes (meant.ne_of args.now) result }
{
    match args {
        [x, y] => Ok(Value::flag(!same_form(x, y))),
        _ => Err(miscounted(alloc, BuiltIn::Ne)),
    }
}

fn not(alloc: Global, args: &[Value]) -> Result<Value, Halt>
    ensures { Comes (meant.not_of args.now) result }
{
    match args {
        [form] => Ok(Value::flag(is_false(form))),
        _ => Err(miscounted(alloc, BuiltIn::Not)),
    }
}
