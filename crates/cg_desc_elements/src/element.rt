ghost use Rattle.std.specs.Prelude.{◌≡◌};
ghost use Rattle.cg_desc_elements.specs.Elements.{frame_kind, frame_name, frame_attrs, kind_of, name_of, attrs_of};

use crate::kind::Kind;
use cg_attrs::{Attr, Frame};
use cg_base::Text;
use cg_hw::HardwareForm;
use cg_ifield::FieldForm;
use cg_insn::InsnForm;
use cg_operand::OperandForm;

/// What a form of a description says (docs/LANGUAGE.md, "Forms and clauses" to "Instructions").
#[derive(Drop)]
pub enum Element {
    /// A form that frames a machine.
    Frame(Frame),
    /// A field.
    Field(FieldForm),
    /// Hardware.
    Hardware(HardwareForm),
    /// An operand.
    Operand(OperandForm),
    /// An instruction.
    Insn(InsnForm),
}

/// What a frame defines.
fn frame_kind(frame: &Frame) -> Kind
    ensures { result ≡ frame_kind frame.now }
{
    match frame {
        Frame::Arch(_) => Kind::Arch,
        Frame::Isa(_) => Kind::Isa,
        Frame::Cpu(_) => Kind::Cpu,
        Frame::Mach(_) => Kind::Mach,
        Frame::Model(_) => Kind::Model,
        Frame::AttrDef(_) => Kind::Attr,
        Frame::Enum(_) => Kind::Enum,
        Frame::InsnEnum(_) => Kind::InsnEnum,
        Frame::Keyword(_) => Kind::Keyword,
    }
}

/// The name of what a frame defines.
fn frame_name(frame: &Frame) -> &Text
    ensures { result.now ≡ frame_name frame.now }
{
    match frame {
        Frame::Arch(form) => &form.name,
        Frame::Isa(form) => &form.name,
        Frame::Cpu(form) => &form.name,
        Frame::Mach(form) => &form.name,
        Frame::Model(form) => &form.name,
        Frame::AttrDef(form) => &form.name,
        Frame::Enum(form) => &form.name,
        Frame::InsnEnum(form) => &form.name,
        Frame::Keyword(form) => &form.name,
    }
}

/// The attributes of a frame.
fn frame_attrs(frame: &Frame) -> &[Attr]
    ensures { result.now ≡ frame_attrs frame.now }
{
    match frame {
        Frame::Arch(form) => form.attrs.as_slice(),
        Frame::Isa(form) => form.attrs.as_slice(),
        Frame::Cpu(form) => form.attrs.as_slice(),
        Frame::Mach(form) => form.attrs.as_slice(),
        Frame::Model(form) => form.attrs.as_slice(),
        Frame::AttrDef(form) => form.attrs.as_slice(),
        Frame::Enum(form) => form.attrs.as_slice(),
        Frame::InsnEnum(form) => form.attrs.as_slice(),
        Frame::Keyword(form) => form.attrs.as_slice(),
    }
}

impl Element {
    /// What the form defines.
    pub fn kind(&self) -> Kind
        ensures { result ≡ kind_of self.now }
    {
        match self {
            Element::Frame(frame) => frame_kind(frame),
            Element::Field(FieldForm::Plain(_)) => Kind::Field,
            Element::Field(FieldForm::Multi(_)) => Kind::Multi,
            Element::Hardware(_) => Kind::Hardware,
            Element::Operand(OperandForm::Plain(_)) => Kind::Operand,
            Element::Operand(OperandForm::Derived(_)) => Kind::Derived,
            Element::Operand(OperandForm::Anyof(_)) => Kind::Anyof,
            Element::Insn(InsnForm::Instruction(_)) => Kind::Insn,
            Element::Insn(InsnForm::Macro(_)) => Kind::Macro,
        }
    }

    /// The name of what the form defines.
    pub fn name(&self) -> &Text
        ensures { result.now ≡ name_of self.now }
    {
        match self {
            Element::Frame(frame) => frame_name(frame),
            Element::Field(FieldForm::Plain(form)) => &form.name,
            Element::Field(FieldForm::Multi(form)) => &form.name,
            Element::Hardware(form) => &form.name,
            Element::Operand(OperandForm::Plain(form)) => &form.name,
            Element::Operand(OperandForm::Derived(form)) => &form.name,
            Element::Operand(OperandForm::Anyof(form)) => &form.name,
            Element::Insn(InsnForm::Instruction(form)) => &form.name,
            Element::Insn(InsnForm::Macro(form)) => &form.name,
        }
    }

    /// The form's attributes.
    pub fn attrs(&self) -> &[Attr]
        ensures { result.now ≡ attrs_of self.now }
    {
        match self {
            Element::Frame(frame) => frame_attrs(frame),
            Element::Field(FieldForm::Plain(form)) => form.attrs.as_slice(),
            Element::Field(FieldForm::Multi(form)) => form.attrs.as_slice(),
            Element::Hardware(form) => form.attrs.as_slice(),
            Element::Operand(OperandForm::Plain(form)) => form.attrs.as_slice(),
            Element::Operand(OperandForm::Derived(form)) => form.attrs.as_slice(),
            Element::Operand(OperandForm::Anyof(form)) => form.attrs.as_slice(),
            Element::Insn(InsnForm::Instruction(form)) => form.attrs.as_slice(),
            Element::Insn(InsnForm::Macro(form)) => form.attrs.as_slice(),
        }
    }
}
