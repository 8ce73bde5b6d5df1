ghost use Rattle.std.specs.Prelude.{◌≡◌, ◌%◌, ◌<◌, ◌≤◌, ◌^◌};

/// The number that the lowest `width` bytes of a number are.
pub(crate) fn lowest(value: u64, width: u8) -> u64
    requires from { 1 ≤ width }
    requires to { width ≤ 8 }
    ensures same { result ≡ value % 256 ^ width }
    ensures fits { result < 256 ^ width }
{
    match width {
        1 => value % 0x100,
        2 => value % 0x1_0000,
        3 => value % 0x100_0000,
        4 => value % 0x1_0000_0000,
        5 => value % 0x100_0000_0000,
        6 => value % 0x1_0000_0000_0000,
        7 => value % 0x100_0000_0000_0000,
        _ => value,
    }
}
