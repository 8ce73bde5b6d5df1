//! Which elements a machine has.

ghost use Rattle.std.specs.Prelude.{◌≡◌};
ghost use Rattle.std.specs.Option.{option_copied};
ghost use Rattle.std.specs.List.{list_any};
ghost use Rattle.cg_base.specs.Texts.{is_among};
ghost use Rattle.cg_desc_elements.specs.Belonging.{is_attr_named, has_word, is_attr_with, has_attr, has_attr_with, belongs_to_machine, belongs_to_isa, is_above_isas, takes_part};

use crate::element::Element;
use crate::kind::Kind;
use cg_attrs::{Attr, AttrValue};
use cg_base::Text;

/// Whether the attribute has this name.
fn is_attr_named(attr: &Attr, name: &[u8]) -> bool
    ensures { result ≡ is_attr_named name.now attr.now }
{
    attr.name.as_slice() == name
}

/// Whether the text is one of these.
fn is_among(texts: &[Text], text: &[u8]) -> bool
    ensures { result ≡ is_among texts.now text.now }
{
    texts.iter().any(|each| each.as_slice() == text)
}

/// Whether an attribute says this word among others.
fn has_word(value: &AttrValue, word: &[u8]) -> bool
    ensures { result ≡ has_word word.now value.now }
{
    match value {
        AttrValue::Names(words) => is_among(words.as_slice(), word),
        _ => false,
    }
}

/// Whether there is an attribute of this name.
fn has_attr(attrs: &[Attr], name: &[u8]) -> bool
    ensures { result ≡ has_attr name.now attrs.now }
{
    attrs.iter().any(|attr| is_attr_named(attr, name))
}

/// Whether there is an attribute of this name that says this word.
fn has_attr_with(attrs: &[Attr], name: &[u8], word: &[u8]) -> bool
    ensures { result ≡ has_attr_with name.now word.now attrs.now }
{
    for attr in attrs {
        if is_attr_named(attr, name) && has_word(&attr.value, word) {
            return true;
        }
    }
    false
}

/// Whether what has these attributes belongs to the machine: `MACH` is absent, or names `base` or
/// the machine (docs/LANGUAGE.md, "Selection").
pub fn belongs_to_machine(machine: &Text, attrs: &[Attr]) -> bool
    ensures { result ≡ belongs_to_machine machine.now attrs.now }
{
    !has_attr(attrs, b"MACH")
        || has_attr_with(attrs, b"MACH", b"base")
        || has_attr_with(attrs, b"MACH", machine.as_slice())
}

/// Whether what has these attributes belongs to the instruction set: `ISA` is absent or names it
/// (docs/LANGUAGE.md, "Selection"). None stands for a machine without instruction sets.
pub fn belongs_to_isa(isa: Option<&Text>, attrs: &[Attr]) -> bool
    ensures { result ≡ belongs_to_isa (option_copied isa.entry) attrs.now }
{
    if !has_attr(attrs, b"ISA") {
        return true;
    }
    match isa {
        Some(name) => has_attr_with(attrs, b"ISA", name.as_slice()),
        None => false,
    }
}

/// Whether elements of this kind stand above instruction sets.
fn is_above_isas(kind: Kind) -> bool
    ensures { result ≡ is_above_isas kind }
{
    matches!(kind, Kind::Arch | Kind::Mach)
}

impl Element {
    /// Whether the element takes part in the selection of this machine with this instruction set
    /// (docs/LANGUAGE.md, "Selection"). None stands for a machine without instruction sets.
    #[tactic(auto, unfolding(crate::specs::Belonging::takes_part))]
    pub fn takes_part(&self, machine: &Text, isa: Option<&Text>) -> bool
        ensures { result ≡ takes_part machine.now (option_copied isa.entry) self.now }
    {
        belongs_to_machine(machine, self.attrs())
            && (is_above_isas(self.kind()) || belongs_to_isa(isa, self.attrs()))
    }
}
