//! What a name stands for where it stands.

ghost use Rattle.std.specs.Prelude.{◌≡◌, ◌||◌, is_some};
ghost use Rattle.cg_desc_elements.specs.declared.kind.Namespace.TheVariants.{Fields, Operands, Constants};
ghost use Rattle.cg_desc_names.specs.Table.{known};
ghost use Rattle.cg_desc_references.specs.Finding.{stands_as, is_plain_field, is_plain_operand, is_choice, is_slot, is_field_constant, is_known_attribute, is_part, fits, may_be_operand, is_hidden, is_named_kind, is_defined, is_attribute, found};

use crate::reference::Place;
use cg_attrs::{is_bitset, is_known_flag};
use cg_base::Text;
use cg_desc_elements::{Kind, Namespace};
use cg_desc_names::{Names, Standing};

/// What a name stands for where it stands.
#[derive(Clone, Copy, PartialEq, Eq)]
pub enum Finding {
    /// Something that its place takes.
    Fitting,
    /// Something else: E304.
    OfAnotherKind,
    /// Nothing: E306.
    Undefined,
}

/// Whether the name is that of a plain field.
fn is_plain_field(at: Option<Standing>) -> bool
    ensures { result ≡ stands_as is_plain_field at }
{
    match at {
        Some(at) => at.kind == Kind::Field,
        None => false,
    }
}

/// Whether the name is that of a plain operand.
fn is_plain_operand(at: Option<Standing>) -> bool
    ensures { result ≡ stands_as is_plain_operand at }
{
    match at {
        Some(at) => at.kind == Kind::Operand,
        None => false,
    }
}

/// Whether the name is that of an operand that an anyof operand may be.
fn is_choice(at: Option<Standing>) -> bool
    ensures { result ≡ stands_as is_choice at }
{
    match at {
        Some(at) => matches!(at.kind, Kind::Operand | Kind::Derived),
        None => false,
    }
}

/// Whether the name is that of an operand that an instruction may have.
fn is_slot(at: Option<Standing>) -> bool
    ensures { result ≡ stands_as is_slot at }
{
    match at {
        Some(at) => matches!(at.kind, Kind::Operand | Kind::Anyof),
        None => false,
    }
}

/// Whether the name is that of a constant of a field.
fn is_field_constant(at: Option<Standing>) -> bool
    ensures { result ≡ stands_as is_field_constant at }
{
    match at {
        Some(at) => at.kind == Kind::FieldConstant,
        None => false,
    }
}

/// Whether something has the name that isn't the built-in operand `pc`.
fn is_named(at: Option<Standing>) -> bool
    ensures { result ≡ stands_as is_named_kind at }
{
    match at {
        Some(at) => at.kind != Kind::Pc,
        None => false,
    }
}

/// Whether the attribute is known.
fn is_known_attribute(name: &[u8], at: Option<Standing>) -> bool
    ensures { result ≡ is_known_attribute name.now at }
{
    is_bitset(name) || is_known_flag(name) || at.is_some()
}

/// Whether the name is that of a field, plain or multi.
fn is_field(names: &Names, name: &Text) -> bool
    ensures { result ≡ is_some (known names.now Fields name.now) }
{
    names.first(Namespace::Fields, name).is_some()
}

/// Whether a constant of a field or a field has the name.
fn is_constant_or_field(names: &Names, name: &Text) -> bool
    ensures { result ≡ (stands_as is_field_constant (known names.now Constants name.now) || is_some (known names.now Fields name.now)) }
{
    is_field_constant(names.first(Namespace::Constants, name)) || is_field(names, name)
}

/// Whether the name may stand as a part of a format.
fn is_part(names: &Names, name: &Text) -> bool
    ensures { result ≡ is_part is_slot (known names.now Operands name.now) (known names.now Constants name.now) (known names.now Fields name.now) }
{
    match names.first(Namespace::Operands, name) {
        Some(operand) => matches!(operand.kind, Kind::Operand | Kind::Anyof),
        None => is_constant_or_field(names, name),
    }
}

/// Whether the name may stand as a part of an encoding.
fn is_encoding_part(names: &Names, name: &Text) -> bool
    ensures { result ≡ is_part is_plain_operand (known names.now Operands name.now) (known names.now Constants name.now) (known names.now Fields name.now) }
{
    match names.first(Namespace::Operands, name) {
        Some(operand) => operand.kind == Kind::Operand,
        None => is_constant_or_field(names, name),
    }
}

/// Whether the place takes what has this name.
fn fits(names: &Names, place: Place, name: &Text) -> bool
    ensures { result ≡ fits (known names.now) place name.now }
{
    match place {
        Place::Mach => names.first(Namespace::Machs, name).is_some(),
        Place::Isa => names.first(Namespace::Isas, name).is_some(),
        Place::Cpu => names.first(Namespace::Cpus, name).is_some(),
        Place::Model => names.first(Namespace::Models, name).is_some(),
        Place::Unit => true,
        Place::Attribute => is_known_attribute(
            name.as_slice(),
            names.first(Namespace::Attrs, name),
        ),
        Place::Keyword => names.first(Namespace::Keywords, name).is_some(),
        Place::Hardware => names.first(Namespace::Hardwares, name).is_some(),
        Place::Field => is_plain_field(names.first(Namespace::Fields, name)),
        Place::AnyField => is_field(names, name),
        Place::Argument => is_plain_operand(names.first(Namespace::Operands, name)),
        Place::Choice => is_choice(names.first(Namespace::Operands, name)),
        Place::Slot => is_slot(names.first(Namespace::Operands, name)) || is_field(names, name),
        Place::DerivedSlot => {
            is_plain_operand(names.first(Namespace::Operands, name)) || is_field(names, name)
        }
        Place::Part => is_part(names, name),
        Place::EncodingPart => is_encoding_part(names, name),
    }
}

/// Whether an operand may stand in the place.
fn may_be_operand(place: Place) -> bool
    ensures { result ≡ may_be_operand place }
{
    matches!(
        place,
        Place::Argument
            | Place::Choice
            | Place::Slot
            | Place::DerivedSlot
            | Place::Part
            | Place::EncodingPart
    )
}

/// Whether the name is `pc` in a place where that counts as not defined.
fn is_hidden(place: Place, name: &[u8]) -> bool
    ensures { result ≡ is_hidden place name.now }
{
    may_be_operand(place) && name == b"pc".as_slice()
}

/// Whether something has this name.
pub fn is_defined(names: &Names, name: &Text) -> bool
    ensures { result ≡ is_defined (known names.now) name.now }
{
    is_named(names.first(Namespace::Operands, name))
        || names.first(Namespace::Fields, name).is_some()
        || names.first(Namespace::Hardwares, name).is_some()
        || names.first(Namespace::Insns, name).is_some()
        || names.first(Namespace::Macros, name).is_some()
        || names.first(Namespace::Constants, name).is_some()
        || names.first(Namespace::Isas, name).is_some()
        || names.first(Namespace::Cpus, name).is_some()
        || names.first(Namespace::Machs, name).is_some()
        || names.first(Namespace::Models, name).is_some()
        || names.first(Namespace::Attrs, name).is_some()
        || names.first(Namespace::Enums, name).is_some()
        || names.first(Namespace::Keywords, name).is_some()
}

/// What a name stands for where it stands (docs/LANGUAGE.md, "Names").
pub fn found(names: &Names, place: Place, name: &Text) -> Finding
    ensures { result ≡ found (known names.now) place name.now }
{
    if is_hidden(place, name.as_slice()) {
        return Finding::Undefined;
    }
    if fits(names, place, name) {
        return Finding::Fitting;
    }
    if place == Place::Attribute {
        return Finding::Undefined;
    }
    if is_defined(names, name) {
        Finding::OfAnotherKind
    } else {
        Finding::Undefined
    }
}
