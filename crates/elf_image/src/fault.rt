//! Why a file is refused.
use lists::Stop;
use thiserror::Error;

/// Why a file gave no image. A program header is named by its number, from 0 on.
#[derive(Clone, Copy, Debug, PartialEq, Eq, Error)]
pub enum ElfFault {
    /// The file is shorter than an ELF header.
    #[error("the file has fewer than 64 bytes")]
    TooShort,
    /// The file doesn't begin with the magic number.
    #[error("the file does not begin with the magic number of ELF")]
    Magic,
    /// The file's class, byte order, version or system is another.
    #[error("the file is not of 64 bits, little-endian, of version 1 and for System V or CloudABI")]
    Class,
    /// The machine is not RISC-V.
    #[error("the file is not for RISC-V")]
    Machine,
    /// The file is neither ET_EXEC nor ET_DYN.
    #[error("the file is neither executable nor a shared object")]
    Kind,
    /// The program headers have another size, are none or over 64, or pass the file's end.
    #[error("the program headers are not 1 to 64 headers of 56 bytes within the file")]
    Header,
    /// The program asks for an interpreter.
    #[error("the program asks for an interpreter")]
    Interp,
    /// The program may have compressed instructions.
    #[error("the program may have compressed instructions")]
    Compressed,
    /// The program passes arguments in floating-point registers.
    #[error("the program is not for the soft-float calling convention")]
    FloatAbi,
    /// This header is the first whose segment can't be loaded.
    #[error("program header {0} has a segment that can not be loaded")]
    Segment(usize),
    /// This header is the first whose segment has a page in common with an earlier one.
    #[error("program header {0} has a segment that shares a page with an earlier one")]
    Overlap(usize),
    /// The program would begin at no instruction of an executable segment.
    #[error("the entry is no multiple of 4 in an executable segment")]
    Entry,
}

impl From<ElfFault> for Stop<ElfFault> {
    ghost use Rattle.std.specs.Prelude.{◌≡◌};
    ghost use Rattle.lists.specs.declared.stop.Stop.TheVariants.{At};

    ghost from_gives = { λ fault stop. stop ≡ At fault };

    fn from(fault: ElfFault) -> Stop<ElfFault> {
        Stop::At(fault)
    }
}
