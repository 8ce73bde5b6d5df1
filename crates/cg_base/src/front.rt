ghost use Rattle.std.specs.Prelude.{◌≡◌, option_map};
ghost use Rattle.std.specs.Int.{w8, w16, w32, w64, w128};
ghost use Rattle.cg_base.specs.Fronts.{front};

/// The number of one byte in front of bytes, and what stands behind it. None exactly where there is no byte.
pub fn front_u8(bytes: &[u8]) -> Option<(u8, &[u8])>
    ensures { option_map (λ x. (x.0, x.1.now)) result ≡ front w8 bytes.now }
{
    if bytes.is_empty() {
        return None;
    }
    let (first, rest) = bytes.split_at(1);
    Some((u8::from_le_bytes([first[0]]), rest))
}

/// The same of two bytes, the least significant first.
pub fn front_u16(bytes: &[u8]) -> Option<(u16, &[u8])>
    ensures { option_map (λ x. (x.0, x.1.now)) result ≡ front w16 bytes.now }
{
    if bytes.len() < 2 {
        return None;
    }
    let (first, rest) = bytes.split_at(2);
    Some((u16::from_le_bytes([first[0], first[1]]), rest))
}

/// The same of four bytes.
pub fn front_u32(bytes: &[u8]) -> Option<(u32, &[u8])>
    ensures { option_map (λ x. (x.0, x.1.now)) result ≡ front w32 bytes.now }
{
    if bytes.len() < 4 {
        return None;
    }
    let (first, rest) = bytes.split_at(4);
    let number = u32::from_le_bytes([first[0], first[1], first[2], first[3]]);
    Some((number, rest))
}

/// The same of eight bytes.
pub fn front_u64(bytes: &[u8]) -> Option<(u64, &[u8])>
    ensures { option_map (λ x. (x.0, x.1.now)) result ≡ front w64 bytes.now }
{
    if bytes.len() < 8 {
        return None;
    }
    let (first, rest) = bytes.split_at(8);
    let number = u64::from_le_bytes([
        first[0], first[1], first[2], first[3], first[4], first[5], first[6], first[7],
    ]);
    Some((number, rest))
}

/// The same of sixteen bytes.
pub fn front_u128(bytes: &[u8]) -> Option<(u128, &[u8])>
    ensures { option_map (λ x. (x.0, x.1.now)) result ≡ front w128 bytes.now }
{
    if bytes.len() < 16 {
        return None;
    }
    let (first, rest) = bytes.split_at(16);
    let number = u128::from_le_bytes([
        first[0], first[1], first[2], first[3], first[4], first[5], first[6], first[7], first[8],
        first[9], first[10], first[11], first[12], first[13], first[14], first[15],
    ]);
    Some((number, rest))
}
