//! Reading of ELF files.
ghost use Rattle.std.specs.Prelude.{◌≡◌, Err, IfOk, IfErr};
ghost use Rattle.elf_image.specs.Checks.{Reads, fault_of};
ghost use Rattle.elf_image.specs.Faults.{HasNoFault, IsFirstFault, IsRefusal, base_for};
ghost use Rattle.elf_image.specs.Image.{image};
ghost use Rattle.elf_image.specs.Sound.{IsSound};

use crate::elf::Elf;
use crate::fault::ElfFault;
use crate::file_header::{FileHeader, SHARED_OBJECT, read_file_header};
use crate::placing::{headers_address, segments};
use crate::program_header::{HEADER_SIZE, program_headers_from};
use crate::segments::check_program;
use lists::Stop;
use std::alloc::Global;

// Where a file is placed that may be placed anywhere.
const SHARED_BASE: u64 = 0x1000_0000;

// What is added to each address of a file.
fn base_of(header: &FileHeader) -> u64
    ensures { result ≡ base_for header.now.kind }
{
    if header.kind == SHARED_OBJECT {
        SHARED_BASE
    } else {
        0
    }
}

// The image of a file, or its first fault.
fn read(alloc: Global, bytes: &[u8]) -> Result<Elf, Stop<ElfFault>>
    ensures { Reads result (fault_of bytes.now) (image bytes.now) }
{
    let header = read_file_header(bytes)?;
    let base = base_of(&header);
    let entry = base as u128 + header.entry as u128;
    let count = header.header_count as usize;
    let headers_end = header.headers_at as u128 + (HEADER_SIZE * count) as u128;
    let headers = program_headers_from(bytes, header.headers_at as usize, count);
    let headers = headers.as_slice();
    check_program(base, bytes.len(), header.flags, entry, headers)?;
    Ok(Elf {
        base,
        entry: entry as u64,
        phdr: headers_address(base, bytes.len(), header.headers_at, headers_end, headers),
        phnum: header.header_count as u64,
        segments: segments(alloc, bytes, base, headers)?,
    })
}

/// The image of an ELF file that has no fault, with its segments placed. Else its first fault, in the order of
/// `ElfFault`. Memory runs out only for a file that has no fault.
pub fn read_elf(alloc: Global, bytes: &[u8]) -> Result<Elf, Stop<ElfFault>>
    ensures ok { IfOk result (λ elf. HasNoFault bytes.now × (elf ≡ image bytes.now)) }
    ensures sound { IfOk result (λ elf. IsSound elf) }
    ensures fault { IfErr result (λ stop. IsRefusal bytes.now stop) }
    ensures complete { (fault : ElfFault) → IsFirstFault bytes.now fault → result ≡ Err (Stop.At fault) }
    ensures decided { Reads result (fault_of bytes.now) (image bytes.now) }
{
    read(alloc, bytes)
}
