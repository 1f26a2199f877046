//! Numbers at offsets of a file, the lowest byte first.
ghost use Rattle.std.specs.Prelude.{◌≡◌, ◌+◌, ◌≤◌, length};
ghost use Rattle.elf_image.specs.Fields.{number_at};

use byteorder::{ByteOrder, LittleEndian};

/// The number of two bytes.
pub(crate) fn half_at(bytes: &[u8], offset: usize) -> u16
    requires { offset + 2 ≤ length bytes.now }
    ensures { result ≡ number_at 2 offset bytes.now }
{
    LittleEndian::read_u16(&bytes[offset..])
}

/// The number of four bytes.
pub(crate) fn word_at(bytes: &[u8], offset: usize) -> u32
    requires { offset + 4 ≤ length bytes.now }
    ensures { result ≡ number_at 4 offset bytes.now }
{
    LittleEndian::read_u32(&bytes[offset..])
}

/// The number of eight bytes.
pub(crate) fn xword_at(bytes: &[u8], offset: usize) -> u64
    requires { offset + 8 ≤ length bytes.now }
    ensures { result ≡ number_at 8 offset bytes.now }
{
    LittleEndian::read_u64(&bytes[offset..])
}
