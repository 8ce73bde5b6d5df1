/// The addresses of a slot.
#[derive(Clone, Copy)]
pub struct Range {
    /// How far the first address is below the top, which is 2 to the power of the bits of a word.
    pub below_top: u64,
    /// How many addresses there are.
    pub len: u64,
}
