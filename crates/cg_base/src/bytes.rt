ghost use Rattle.std.specs.Prelude.{◌≡◌, ◌+◌, ◌≤◌, ◌<◌, ◌^◌, ◌++◌, length, take, drop};
ghost use Rattle.cg_base.specs.Bytes.{number_of, bytes_of};

use crate::Endian;
use byteorder::{BigEndian, ByteOrder, LittleEndian};

/// The number in `len` bytes, from the place `offset` on.
pub fn number_at(bytes: &[u8], offset: usize, len: u8, endian: Endian) -> u64
    requires some { 1 ≤ len }
    requires few { len ≤ 8 }
    requires inside { offset + len ≤ length bytes.now }
    ensures value { result ≡ number_of endian len (drop offset bytes.now) }
    ensures fits { result < 256 ^ len }
{
    match endian {
        Endian::Big => BigEndian::read_uint(&bytes[offset..], len as usize),
        Endian::Little => LittleEndian::read_uint(&bytes[offset..], len as usize),
    }
}

/// Puts a number into `len` bytes, from the place `offset` on. Every other byte stays.
pub fn put_number(bytes: &mut [u8], offset: usize, len: u8, endian: Endian, value: u64)
    requires some { 1 ≤ len }
    requires few { len ≤ 8 }
    requires inside { offset + len ≤ length bytes.old }
    requires fits { value < 256 ^ len }
    ensures written { bytes.new
        ≡ (take offset bytes.old ++ bytes_of endian len value) ++ drop (offset + len) bytes.old }
    ensures reads_back { number_of endian len (drop offset bytes.new) ≡ value }
{
    match endian {
        Endian::Big => BigEndian::write_uint(&mut bytes[offset..], value, len as usize),
        Endian::Little => LittleEndian::write_uint(&mut bytes[offset..], value, len as usize),
    }
}
