//! The ELF header.
ghost use Rattle.std.specs.Prelude.{◌≡◌, ◌≤◌, IfOk, OnOk, length};
ghost use Rattle.elf_image.specs.Checks.{IsTable, Passes, Reports, file_header, is_class, is_magic, is_table, field_fault, header_fault};

use crate::fault::ElfFault;
use crate::fields::{half_at, word_at, xword_at};
use crate::program_header::{HEADER_LIMIT, HEADER_SIZE};

// The size of an ELF header.
const FILE_HEADER_SIZE: usize = 64;

// The first four bytes of every ELF file.
const MAGIC: [u8; 4] = [0x7f, b'E', b'L', b'F'];

// EI_CLASS: 64 bits.
const CLASS_64: u8 = 2;

// EI_DATA: the lowest byte first.
const LITTLE_ENDIAN: u8 = 1;

// EI_VERSION.
const CURRENT_VERSION: u8 = 1;

// EI_OSABI: no particular system.
const SYSTEM_V: u8 = 0;

// EI_OSABI: CloudABI.
const CLOUDABI: u8 = 17;

// e_machine: RISC-V.
const RISCV: u16 = 243;

// e_type: a file that is placed at its own addresses.
const EXECUTABLE: u16 = 2;

/// e_type: a file that may be placed anywhere.
pub(crate) const SHARED_OBJECT: u16 = 3;

/// The fields of an ELF header that are looked at: e_type, e_machine, e_entry, e_phoff, e_flags, e_phentsize, e_phnum.
#[derive(Clone, Copy)]
pub(crate) struct FileHeader {
    pub(crate) kind: u16,
    pub(crate) machine: u16,
    pub(crate) entry: u64,
    pub(crate) headers_at: u64,
    pub(crate) flags: u32,
    pub(crate) header_size: u16,
    pub(crate) header_count: u16,
}

// The fields of a file's header.
fn file_header(bytes: &[u8]) -> FileHeader
    requires { 64 ≤ length bytes.now }
    ensures { result ≡ file_header bytes.now }
{
    FileHeader {
        kind: half_at(bytes, 16),
        machine: half_at(bytes, 18),
        entry: xword_at(bytes, 24),
        headers_at: xword_at(bytes, 32),
        flags: word_at(bytes, 48),
        header_size: half_at(bytes, 54),
        header_count: half_at(bytes, 56),
    }
}

// Whether a file begins with the magic number.
fn is_magic(bytes: &[u8]) -> bool
    requires { 64 ≤ length bytes.now }
    ensures { result ≡ is_magic bytes.now }
{
    bytes[..4] == MAGIC[..]
}

// Whether a file is of the class, byte order, version and systems that are accepted.
fn is_class(bytes: &[u8]) -> bool
    requires { 64 ≤ length bytes.now }
    ensures { result ≡ is_class bytes.now }
{
    bytes[4] == CLASS_64
        && bytes[5] == LITTLE_ENDIAN
        && bytes[6] == CURRENT_VERSION
        && (bytes[7] == SYSTEM_V || bytes[7] == CLOUDABI)
}

// Whether the program headers have the right size and number, and lie within the file.
fn is_table(size: usize, header: FileHeader) -> bool
    ensures { result ≡ is_table size header }
{
    let count = header.header_count as usize;
    header.header_size as usize == HEADER_SIZE
        && count != 0
        && count <= HEADER_LIMIT
        && header.headers_at as u128 + (HEADER_SIZE * count) as u128 <= size as u128
}

// Checks the machine, the type and the program headers' place.
fn check_fields(size: usize, header: FileHeader) -> Result<(), ElfFault>
    ensures fault { Passes result (field_fault size header) }
    ensures table { OnOk result (IsTable size header) }
{
    if header.machine != RISCV {
        return Err(ElfFault::Machine);
    }
    if header.kind != EXECUTABLE && header.kind != SHARED_OBJECT {
        return Err(ElfFault::Kind);
    }
    if !is_table(size, header) {
        return Err(ElfFault::Header);
    }
    Ok(())
}

/// The header of a file, if the first 64 bytes are right and the program headers lie within the file.
pub(crate) fn read_file_header(bytes: &[u8]) -> Result<FileHeader, ElfFault>
    ensures header { Reports result (header_fault bytes.now) (file_header bytes.now) }
    ensures table { IfOk result (λ header. IsTable (length bytes.now) header) }
{
    if bytes.len() < FILE_HEADER_SIZE {
        return Err(ElfFault::TooShort);
    }
    if !is_magic(bytes) {
        return Err(ElfFault::Magic);
    }
    if !is_class(bytes) {
        return Err(ElfFault::Class);
    }
    let header = file_header(bytes);
    check_fields(bytes.len(), header)?;
    Ok(header)
}
