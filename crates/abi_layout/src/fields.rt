//! Numbers of one to eight bytes in a structure's bytes.
ghost use Rattle.std.specs.Prelude.{◌≡◌, ◌+◌, ◌^◌, ◌<◌, ◌≤◌, length};
ghost use Rattle.abi_layout.specs.Layout.{number_from, with_number};

use byteorder::{ByteOrder, LittleEndian};

/// The number in the byte at an offset.
#[tactic(auto, using(crate::proofs::Numbers::number_of_byte))]
pub(crate) fn u8_at(bytes: &[u8], offset: usize) -> u8
    requires { offset < length bytes.now }
    ensures { result ≡ number_from offset 1 bytes.now }
{
    bytes[offset]
}

/// The number in the two bytes at an offset.
pub(crate) fn u16_at(bytes: &[u8], offset: usize) -> u16
    requires { offset + 2 ≤ length bytes.now }
    ensures { result ≡ number_from offset 2 bytes.now }
{
    LittleEndian::read_u16(&bytes[offset..])
}

/// The number in the four bytes at an offset.
pub(crate) fn u32_at(bytes: &[u8], offset: usize) -> u32
    requires { offset + 4 ≤ length bytes.now }
    ensures { result ≡ number_from offset 4 bytes.now }
{
    LittleEndian::read_u32(&bytes[offset..])
}

/// The number in the eight bytes at an offset.
pub(crate) fn u64_at(bytes: &[u8], offset: usize) -> u64
    requires { offset + 8 ≤ length bytes.now }
    ensures { result ≡ number_from offset 8 bytes.now }
{
    LittleEndian::read_u64(&bytes[offset..])
}

/// Writes a number into the byte at an offset.
#[tactic(auto, using(crate::proofs::Written::byte_written))]
pub(crate) fn put_u8(bytes: &mut [u8], offset: usize, value: u8)
    requires { offset < length bytes.old }
    ensures written { bytes.new ≡ with_number bytes.old offset 1 value }
    ensures fits { value < 256 ^ 1 }
{
    bytes[offset] = value;
}

/// Writes a number into the two bytes at an offset.
#[tactic(auto, using(crate::proofs::Written::part_written))]
pub(crate) fn put_u16(bytes: &mut [u8], offset: usize, value: u16)
    requires { offset + 2 ≤ length bytes.old }
    ensures written { bytes.new ≡ with_number bytes.old offset 2 value }
    ensures fits { value < 256 ^ 2 }
{
    LittleEndian::write_u16(&mut bytes[offset..], value);
}

/// Writes a number into the four bytes at an offset.
#[tactic(auto, using(crate::proofs::Written::part_written))]
pub(crate) fn put_u32(bytes: &mut [u8], offset: usize, value: u32)
    requires { offset + 4 ≤ length bytes.old }
    ensures written { bytes.new ≡ with_number bytes.old offset 4 value }
    ensures fits { value < 256 ^ 4 }
{
    LittleEndian::write_u32(&mut bytes[offset..], value);
}

/// Writes a number into the eight bytes at an offset.
#[tactic(auto, using(crate::proofs::Written::part_written))]
pub(crate) fn put_u64(bytes: &mut [u8], offset: usize, value: u64)
    requires { offset + 8 ≤ length bytes.old }
    ensures written { bytes.new ≡ with_number bytes.old offset 8 value }
    ensures fits { value < 256 ^ 8 }
{
    LittleEndian::write_u64(&mut bytes[offset..], value);
}
