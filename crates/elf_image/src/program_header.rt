//! Program headers.
ghost use Rattle.std.specs.Prelude.{◌≡◌, ◌+◌, ◌*◌, ◌≤◌, length};
ghost use Rattle.elf_image.specs.Fields.{program_header_at, program_headers_from};

use crate::fields::{word_at, xword_at};
use arrayvec::ArrayVec;

/// The size of a program header.
pub(crate) const HEADER_SIZE: usize = 56;

/// How many program headers a file may have.
pub(crate) const HEADER_LIMIT: usize = 64;

/// The fields of a program header that are looked at: p_type, p_flags, p_offset, p_vaddr, p_filesz and p_memsz.
#[derive(Clone, Copy, Default)]
pub(crate) struct ProgramHeader {
    pub(crate) kind: u32,
    pub(crate) flags: u32,
    pub(crate) offset: u64,
    pub(crate) address: u64,
    pub(crate) file_size: u64,
    pub(crate) memory_size: u64,
}

/// The program headers of a file.
pub(crate) type ProgramHeaders = ArrayVec<ProgramHeader, HEADER_LIMIT>;

// The program header at an offset.
fn program_header_at(bytes: &[u8], offset: usize) -> ProgramHeader
    requires { offset + 56 ≤ length bytes.now }
    ensures { result ≡ program_header_at bytes.now offset }
{
    ProgramHeader {
        kind: word_at(bytes, offset),
        flags: word_at(bytes, offset + 4),
        offset: xword_at(bytes, offset + 8),
        address: xword_at(bytes, offset + 16),
        file_size: xword_at(bytes, offset + 32),
        memory_size: xword_at(bytes, offset + 40),
    }
}

/// So many program headers from an offset on.
pub(crate) fn program_headers_from(bytes: &[u8], offset: usize, count: usize) -> ProgramHeaders
    requires few { count ≤ 64 }
    requires within { offset + 56 * count ≤ length bytes.now }
    ensures { result.items ≡ program_headers_from bytes.now offset count }
{
    let mut headers = ProgramHeaders::new();
    for i in 0..count {
        headers.push(program_header_at(bytes, offset + HEADER_SIZE * i));
    }
    headers
}
