/// Why an instruction could not be carried out (docs/RUNNING.md, "Traps").
#[derive(Clone, Copy, Debug, PartialEq, Eq)]
pub struct Trap {
    /// Which trap it is, from 1 to 9.
    pub number: u8,
    /// The number of the machine's error text for trap 7, and else 0.
    pub text: u32,
}

/// How a step or a run ended.
#[derive(Clone, Copy, Debug, PartialEq, Eq)]
pub enum Outcome {
    /// It may go on.
    Ran,
    /// The machine halted with this code.
    Halted(u64),
    /// The machine trapped.
    Trapped(Trap),
}

/// What is written.
#[derive(Clone, Copy, Debug, PartialEq, Eq)]
pub enum Place {
    /// The pc.
    Pc,
    /// A cell of a register.
    Cell {
        /// The register's number among the hardware.
        hardware: u16,
        /// The cell, from 0.
        index: u32,
    },
    /// Memory.
    Memory {
        /// The first address.
        address: u64,
        /// How many bytes, from 1 to 8.
        width: u8,
    },
}

/// A value on its way to a place.
#[derive(Clone, Copy, Debug, PartialEq, Eq)]
pub struct Write {
    /// Where it goes.
    pub place: Place,
    /// The value, below 2^bits of the place.
    pub value: u64,
}

/// A write that comes later.
#[derive(Clone, Copy, Debug, PartialEq, Eq)]
pub struct Due {
    /// After how many bundles it comes.
    pub left: u8,
    /// The write.
    pub write: Write,
}

/// What one instruction does to the state.
#[derive(Clone, Copy, Debug, PartialEq, Eq)]
pub enum Change {
    /// A write that comes with this step.
    Now(Write),
    /// A write that comes later.
    Later(Due),
    /// The end of the run, with its code.
    Halt(u64),
}
