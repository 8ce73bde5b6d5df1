//! The constants of enums.

ghost use Rattle.std.specs.Prelude.{◌≡◌, pos, [], Some, ◌++◌, IfOk, OnOk};
ghost use Rattle.std.specs.Option.{option_copied, unwrap_or};
ghost use Rattle.cg_base.specs.Parts.{elements_of};
ghost use Rattle.cg_desc_names.specs.Items.{written, first_written, item_name, item_before, items_of, constants_in};

use cg_attrs::{Frame, item_value, next_value};
use cg_base::{Form, List, NoMemory, Text, decimal};
use cg_desc_elements::Element;
use std::alloc::Global;

/// An item of an enum or a keyword.
#[derive(Drop)]
pub struct Item {
    /// Its name, behind the prefix.
    pub name: Text,
    /// Its value.
    pub value: i64,
}

/// The text of a symbol or a string, or a number in decimal.
fn written(alloc: Global, form: &Form) -> Result<Text, NoMemory>
    ensures { IfOk result (λ text. text ≡ written form.now) }
{
    match form {
        Form::Symbol(text) | Form::Str(text) => Ok(text.clone()?),
        Form::Number(number) => decimal(alloc, *number as i128),
        _ => Ok(Text::new(alloc)),
    }
}

/// The same of the first form.
fn first_written(alloc: Global, forms: &[Form]) -> Result<Text, NoMemory>
    ensures { IfOk result (λ text. text ≡ first_written forms.now) }
{
    match forms {
        [first, ..] => written(alloc, first),
        _ => Ok(Text::new(alloc)),
    }
}

/// The name of an item.
fn item_name(alloc: Global, form: &Form) -> Result<Text, NoMemory>
    ensures { IfOk result (λ text. text ≡ item_name form.now) }
{
    match form.elements() {
        Some(forms) => first_written(alloc, forms),
        None => written(alloc, form),
    }
}

/// A name behind a prefix.
fn prefixed(alloc: Global, prefix: &[u8], name: &[u8]) -> Result<Text, NoMemory>
    ensures { IfOk result (λ text. text ≡ prefix.now ++ name.now) }
{
    let mut text = Text::of(alloc, prefix)?;
    text.append(name)?;
    Ok(text)
}

/// Puts an item at the end, unless its name is `-`.
fn put(
    alloc: Global,
    items: &mut List<Item>,
    prefix: &[u8],
    name: &[u8],
    value: i64,
) -> Result<(), NoMemory>
    ensures { OnOk result (items.new ≡ items.old ++ item_before prefix.now name.now (Some value) []) }
{
    if name == b"-".as_slice() {
        return Ok(());
    }
    let name = prefixed(alloc, prefix, name)?;
    items.push(Item { name, value })
}

/// The items that forms are, in order, each with the prefix before its name. The name `-` makes
/// none, and counts (docs/LANGUAGE.md, "Forms and clauses").
pub fn items_of(alloc: Global, prefix: &[u8], forms: &[Form]) -> Result<List<Item>, NoMemory>
    ensures { IfOk result (λ items. items ≡ items_of prefix.now forms.now) }
{
    let mut items = List::new(alloc);
    let mut plain = Some(0);
    for form in forms {
        plain = match item_value(plain, form) {
            Some(value) => {
                let name = item_name(alloc, form)?;
                put(alloc, &mut items, prefix, name.as_slice(), value)?;
                next_value(value)
            }
            None => None,
        };
    }
    Ok(items)
}

/// The elements of a list.
fn elements_or_none(form: &Form) -> &[Form]
    ensures { result.now ≡ unwrap_or (elements_of form.now) [] }
{
    match form.elements() {
        Some(elements) => elements,
        None => &[],
    }
}

/// The bytes of a prefix, none where it is absent.
fn prefix_or_none(prefix: Option<&Text>) -> &[u8]
    ensures { result.now ≡ unwrap_or (option_copied prefix.entry) [] }
{
    match prefix {
        Some(prefix) => prefix.as_slice(),
        None => &[],
    }
}

/// The constants that an element defines, in order: those of an enum, and none of all else
/// (docs/LANGUAGE.md, "Names").
pub fn constants_in(alloc: Global, element: &Element) -> Result<List<Item>, NoMemory>
    ensures { IfOk result (λ items. items ≡ constants_in element.now) }
{
    match element {
        Element::Frame(Frame::Enum(form)) => items_of(
            alloc,
            prefix_or_none(form.prefix.as_ref()),
            elements_or_none(&form.values),
        ),
        Element::Frame(Frame::InsnEnum(form)) => {
            items_of(
                alloc,
                form.prefix.as_slice(),
                elements_or_none(&form.values),
            )
        }
        _ => Ok(List::new(alloc)),
    }
}
