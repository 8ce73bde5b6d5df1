use cg_base::Mode;

/// Why an expression has no mode (docs/LANGUAGE.md, "Modes").
#[derive(Clone, Copy, Debug, PartialEq, Eq)]
pub struct ModeFault {
    /// The fault's number: 401 to 404 or 406, and 304 for what is no expression of the language.
    pub number: u16,
    /// For 401 the mode that was to be agreed with.
    pub first: Option<Mode>,
    /// For 401 the mode that doesn't agree with it.
    pub second: Option<Mode>,
}

/// A local of a `sequence` around an expression.
#[derive(Clone, Copy)]
pub struct Local {
    /// Its mode.
    pub mode: Mode,
    /// Whether a `parallel` stands between.
    pub outside: bool,
}

/// How the operands of an operation on two numbers agree.
#[derive(Clone, Copy)]
pub enum Kind {
    /// Both in the mode of the result.
    Arithmetic,
    /// The first in the mode of the result, the second in any.
    Shift,
    /// Both in one mode, and the result is one bit.
    Comparison,
}
