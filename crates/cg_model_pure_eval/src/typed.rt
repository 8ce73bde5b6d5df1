use cg_base::Mode;
use cg_model::ModeFault;

/// A value below 2^bits of its mode, and the mode.
#[derive(Clone, Copy)]
pub struct Typed {
    pub mode: Mode,
    pub value: u64,
}

/// A value with its mode, or why the expression has none.
pub type Answer = Result<Typed, ModeFault>;
