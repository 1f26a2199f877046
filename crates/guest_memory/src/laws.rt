//! Laws of the definitions. The functions do nothing.
ghost use Rattle.guest_memory.specs.Bytes.{BytesAreEach};
ghost use Rattle.guest_memory.specs.Written.{WrittenAreEach};
ghost use Rattle.guest_memory.specs.Changes.{UnmappedIsFunction, MappedIsFunction, ProtectedIsFunction, ThereIsTested, LowestGapIsFound, NoGapIsFound};

/// What `bytes_from` says, byte by byte.
pub fn bytes_are_each()
    ensures { BytesAreEach }
{}

/// What `write_of` says, byte by byte.
pub fn bytes_are_written()
    ensures { WrittenAreEach }
{}

/// What the functions of changes and their tests have to do with the relations that the calls of a memory ensure.
pub fn changes_are_functions()
    ensures unmapped { UnmappedIsFunction }
    ensures mapped { MappedIsFunction }
    ensures protected { ProtectedIsFunction }
    ensures there { ThereIsTested }
    ensures gap { LowestGapIsFound }
    ensures no_gap { NoGapIsFound }
{}
