ghost use Rattle.std.specs.Prelude.{◌≡◌, ◌≤◌, length};
ghost use Rattle.cg_code_mask.specs.View.{whole};

use byteorder::{BigEndian, ByteOrder};

/// Bytes as one number of 128 bits, the first byte the highest.
pub fn whole_of(bytes: &[u8]) -> u128
    requires { length bytes.now ≤ 16 }
    ensures { result ≡ whole bytes.now }
{
    let len = bytes.len();
    if len == 0 {
        return 0;
    }
    BigEndian::read_uint128(bytes, len) << (8 * (16 - len))
}
