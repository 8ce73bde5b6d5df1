ghost use Rattle.std.specs.Prelude.{◌≡◌};
ghost use Rattle.cg_desc_elements.specs.Kinds.{namespace_of};

/// What a name may stand for.
#[derive(Clone, Copy, PartialEq, Eq)]
pub enum Kind {
    /// `define-arch`.
    Arch,
    /// `define-isa`.
    Isa,
    /// `define-cpu`.
    Cpu,
    /// `define-mach`.
    Mach,
    /// `define-model`.
    Model,
    /// `define-attr`.
    Attr,
    /// `define-enum`.
    Enum,
    /// `define-normal-insn-enum`.
    InsnEnum,
    /// `define-keyword`.
    Keyword,
    /// `define-ifield`.
    Field,
    /// `define-multi-ifield`.
    Multi,
    /// `define-hardware`.
    Hardware,
    /// `define-operand`.
    Operand,
    /// `define-derived-operand`.
    Derived,
    /// `define-anyof-operand`.
    Anyof,
    /// `define-insn`.
    Insn,
    /// `define-macro-insn`.
    Macro,
    /// The built-in operand `pc`.
    Pc,
    /// A constant of a `define-enum`.
    Constant,
    /// A constant of a `define-normal-insn-enum`, which is one of a field.
    FieldConstant,
}

/// The kinds that share their names: within each a name stands once (docs/LANGUAGE.md, "Names").
#[derive(Clone, Copy, PartialEq, Eq)]
pub enum Namespace {
    /// The arch.
    Archs,
    /// Instruction sets.
    Isas,
    /// Cpus.
    Cpus,
    /// Machines.
    Machs,
    /// Models.
    Models,
    /// Attributes.
    Attrs,
    /// Enums of both forms.
    Enums,
    /// Keywords.
    Keywords,
    /// Fields, plain and multi.
    Fields,
    /// Hardware.
    Hardwares,
    /// Operands, plain, derived and anyof.
    Operands,
    /// Instructions.
    Insns,
    /// Macro instructions.
    Macros,
    /// The constants of all enums.
    Constants,
}

impl Kind {
    /// The kinds that share their names with this one.
    pub fn namespace(self) -> Namespace
        ensures { result ≡ namespace_of self }
    {
        match self {
            Kind::Arch => Namespace::Archs,
            Kind::Isa => Namespace::Isas,
            Kind::Cpu => Namespace::Cpus,
            Kind::Mach => Namespace::Machs,
            Kind::Model => Namespace::Models,
            Kind::Attr => Namespace::Attrs,
            Kind::Enum | Kind::InsnEnum => Namespace::Enums,
            Kind::Keyword => Namespace::Keywords,
            Kind::Field | Kind::Multi => Namespace::Fields,
            Kind::Hardware => Namespace::Hardwares,
            Kind::Operand | Kind::Derived | Kind::Anyof | Kind::Pc => Namespace::Operands,
            Kind::Insn => Namespace::Insns,
            Kind::Macro => Namespace::Macros,
            Kind::Constant | Kind::FieldConstant => Namespace::Constants,
        }
    }
}
