use cg_base::Text;

/// Where a name stands, which says what it may stand for (docs/LANGUAGE.md, "Names").
#[derive(Clone, Copy, PartialEq, Eq)]
pub enum Place {
    /// A machine, of an arch or a model.
    Mach,
    /// An instruction set, of an arch or a machine.
    Isa,
    /// The cpu of a machine.
    Cpu,
    /// A model of `timing`.
    Model,
    /// A unit of `timing`, of the model that stands with it.
    Unit,
    /// An attribute.
    Attribute,
    /// The keyword of `extern-keyword`.
    Keyword,
    /// The hardware of an operand.
    Hardware,
    /// A plain field: of a constant of a format or an encoding, of an enum, or a subfield.
    Field,
    /// A field, plain or multi: an operand's `index`, or `base-ifield`.
    AnyField,
    /// One of `args`.
    Argument,
    /// One of `choices`.
    Choice,
    /// A slot of an instruction's syntax.
    Slot,
    /// A slot of a derived operand's syntax.
    DerivedSlot,
    /// A part of a format, alone.
    Part,
    /// A part of an encoding, alone.
    EncodingPart,
}

/// A name that stands for another element.
#[derive(Drop)]
pub struct Reference {
    /// Where it stands.
    pub place: Place,
    /// The name.
    pub name: Text,
    /// The model of a unit; empty at all other places.
    pub model: Text,
}
