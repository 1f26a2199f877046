//! Laws of what single calls do. The functions do nothing.
ghost use Rattle.call_laws.specs.ArgumentLaws.{AllAreInOrder};
ghost use Rattle.call_laws.specs.DescriptorLaws.{ObjectsAreTold, StatTells};
ghost use Rattle.call_laws.specs.FileLaws.{FilesAreTold, FlagsAreSet};
ghost use Rattle.call_laws.specs.NameLaws.{NamesChange};
ghost use Rattle.call_laws.specs.NumberLaws.{GivesLowest, LowestIsLowest, WakesGiveLowest};
ghost use Rattle.call_laws.specs.PairLaws.{PairsAreJoined, PipesAreJoined};
ghost use Rattle.call_laws.specs.ProcessLaws.{ExitEnds, RaiseEnds};
ghost use Rattle.call_laws.specs.SizeLaws.{SizesAndTimesAreSet};

/// The descriptors that a call names, and those of which it needs rights, are those of its arguments, in their order. What it needs
/// of one stands in one row, so that a refusal is of the first argument that lacks a right, and names all that it lacks.
pub fn arguments_are_in_order()
    ensures { AllAreInOrder }
{}

/// A new descriptor gets the lowest number that none has, and two or more get the lowest ones in their order, be they made, opened,
/// duplicated or received, at once or by a wake.
pub fn numbers_are_lowest()
    ensures lowest { LowestIsLowest }
    ensures given { GivesLowest }
    ensures woken { WakesGiveLowest }
{}

/// `fd_stat_get` tells an open's type and flags, and the descriptor's own rights. `file_stat_fget` tells the type and the number
/// of what the open is of: of what is no node one name, the size 0 and the times 0, and of a node what that has.
pub fn descriptors_are_told()
    ensures stat { StatTells }
    ensures objects { ObjectsAreTold }
{}

/// `fd_create2` makes a pipe, of which its first result reads and its second one writes, or a pair of streams, of which each reads
/// what the other writes. Their channels are new and have nothing in them, and their descriptors have all rights of their types.
pub fn pairs_are_made()
    ensures pipe { PipesAreJoined }
    ensures pair { PairsAreJoined }
{}

/// `proc_exit` ends its process with its code. `proc_raise` ends it by the signal, but three signals do nothing, and four and what
/// is no signal's number are refused. Of what has ended so nothing is left but its status.
pub fn processes_end_as_told()
    ensures exit { ExitEnds }
    ensures raise { RaiseEnds }
{}

/// `file_create` and `file_symlink` make a new node with the name at the path's end, `file_link` makes that one more name of a node,
/// `file_unlink` takes it away, and `file_rename` moves it. Each other name stays. Of two names of one node neither is moved. A
/// directory in which a name is made or taken away has the time of the call, and so has a node that has one name more or less.
pub fn names_change_as_asked()
    ensures { NamesChange }
{}

/// `file_stat_get` tells what the node has to which its path leads, `file_readlink` the text of a symlink, and `file_readdir` the
/// names in a directory from a place on, in the order of their bytes, each with the place of the next one.
pub fn files_are_told()
    ensures { FilesAreTold }
{}

/// `fd_stat_put` with FLAGS sets the flags of the open, and leaves the rest of it; without FLAGS it leaves every open.
pub fn flags_are_set()
    ensures { FlagsAreSet }
{}

/// `file_allocate` lets a file grow to a size, with zeros behind its bytes, and cuts none. `file_stat_fput` with SIZE sets a file's
/// size, and without it the node's times by its flags, as `file_stat_put` does. Nothing else changes.
pub fn sizes_and_times_are_set()
    ensures { SizesAndTimesAreSet }
{}
