/// Where the cells of a hardware stand among the cells of all registers (docs/RUNNING.md, "States").
#[derive(Clone, Copy, Debug, PartialEq, Eq)]
pub struct Register {
    /// How many cells stand in front of them.
    pub first: u32,
    /// How many they are, and 0 where the hardware is no register.
    pub count: u32,
}
