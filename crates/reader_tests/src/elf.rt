//! Images of files, and the text of a fault.
use abi_base::Prot;
use elf_image::{Elf, ElfFault, Segment, read_elf};
use files::{HELLO, LINKED, shared_object};
use lists::TryClone;
use std::alloc::Global;
use std::test::Fail;

mod files;

const READ_EXEC: Prot = Prot {
    read: true,
    write: false,
    exec: true,
};

const READ_WRITE: Prot = Prot {
    read: true,
    write: true,
    exec: false,
};

// A segment's place, where its bytes begin and end in the file, its length and its protection.
type Piece = (u64, usize, usize, u64, Prot);

// What an image is.
struct Image {
    base: u64,
    entry: u64,
    phdr: u64,
    phnum: u64,
    pieces: &'static [Piece],
}

const HELLO_IMAGE: Image = Image {
    base: 0,
    entry: 0x10078,
    phdr: 0x10040,
    phnum: 1,
    pieces: &[(0x10000, 0, 182, 182, READ_EXEC)],
};

const LINKED_IMAGE: Image = Image {
    base: 0,
    entry: 0x10120,
    phdr: 0x10040,
    phnum: 4,
    pieces: &[
        (0x10000, 0, 329, 329, READ_EXEC),
        (0x11150, 336, 352, 16, READ_WRITE),
    ],
};

// A shared object with one segment, at address 0.
const SHARED_IMAGE: Image = Image {
    base: 0x1000_0000,
    entry: 0x1000_0048,
    phdr: 0x1000_0040,
    phnum: 1,
    pieces: &[(0x1000_0000, 0, 4096, 4096, READ_EXEC)],
};

fn is_piece(segment: &Segment, file: &[u8], piece: &Piece) -> bool {
    let (at, from, to, length, prot) = *piece;
    (segment.at, segment.length, segment.prot) == (at, length, prot)
        && file.get(from..to) == Some(segment.bytes.as_slice())
}

fn are_pieces(segments: &[Segment], file: &[u8], pieces: &[Piece]) -> bool {
    for (segment, piece) in segments.iter().zip(pieces) {
        if !is_piece(segment, file, piece) {
            return false;
        }
    }
    segments.len() == pieces.len()
}

fn is_image(elf: &Elf, file: &[u8], image: &Image) -> bool {
    (elf.base, elf.entry, elf.phdr, elf.phnum) == (image.base, image.entry, image.phdr, image.phnum)
        && are_pieces(elf.segments.as_slice(), file, image.pieces)
}

// A copy of the image is the same.
fn is_copied(elf: &Elf, file: &[u8], image: &Image) -> bool {
    match elf.copy() {
        Ok(copied) => is_image(&copied, file, image),
        Err(_) => false,
    }
}

fn has_image(alloc: Global, file: &[u8], image: &Image) -> bool {
    match read_elf(alloc, file) {
        Ok(elf) => is_image(&elf, file, image) && is_copied(&elf, file, image),
        Err(_) => false,
    }
}

#[test]
fn images(rt: HostRuntime) -> Result<(), Fail> {
    let shared = shared_object(rt.alloc())?;
    for (file, image) in [
        (HELLO, &HELLO_IMAGE),
        (LINKED, &LINKED_IMAGE),
        (&shared, &SHARED_IMAGE),
    ] {
        assert!(rt; has_image(rt.alloc(), file, image), "{}", image.entry);
    }
    Ok(())
}

#[test]
fn texts(rt: HostRuntime) -> Result<(), Fail> {
    let text = format!(in rt.alloc(); "{}", ElfFault::Segment(3))?;
    assert_eq!(rt;
        text.as_str(),
        "program header 3 has a segment that can not be loaded"
    );
    Ok(())
}
