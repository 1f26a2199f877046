//! Laws of whole runs. The statements are in `specs/`, and each holds of every launch and history.
ghost use Rattle.confinement_laws.specs.Alike.{LaunchesRunAlike};
ghost use Rattle.confinement_laws.specs.Laws.{LegalIsConfinedHistory, MissingIsExact, SightIsDecided};
ghost use Rattle.confinement_laws.specs.Making.{TracesBeginSo};
ghost use Rattle.confinement_laws.specs.Needs.{AllNeedsAreListed};
ghost use Rattle.confinement_laws.specs.ReachLaws.{NothingElseIsInReach};
ghost use Rattle.confinement_laws.specs.Untouched.{LegalLeavesUnwritten, NamesAreTouched, TreeIsWrittenByRight};

/// What a call sees is decided by what it sees: where each name that it sees is of a node that is there, as in every valid state, it
/// sees the same parts in each state that has the same of all of them.
pub fn sight_is_decided()
    ensures { SightIsDecided }
{}

/// What is missing of a descriptor, whose rights are words of 64 bits, are exactly the rights that are needed and that it lacks, unless it has
/// others that stand for them.
pub fn missing_is_exact()
    ensures { MissingIsExact }
{}

/// Which right is needed by which call, of which descriptor, is listed by the rights: a call needs it where it is listed so, and only there.
pub fn needs_are_listed()
    ensures { AllNeedsAreListed }
{}

/// Each legal history of a launch with proper grants is confined: no entry reads or changes anything but the clock, its process's own
/// state, and what that process's descriptors reach with the rights needed; of memories and registers it reads and changes its process's
/// alone; those descriptors are traced through recorded grants, along which rights never grow; and every refusal for missing rights names
/// exactly those missing.
pub fn legal_is_confined_history()
    ensures { LegalIsConfinedHistory }
{}

/// What is in reach of a call, by the kinds of parts: the clock, what is its process's own, and its status; and beside these what a descriptor
/// leads to that its process holds by the recorded grants, and that the call may use: with all the rights that the call needs of it, or by name
/// alone where it needs none. Such a descriptor leads to its open; to the file, or to what names lead to from the directory; to the channels
/// of an end; to the standard stream; or to the status of the process. Nothing else is in reach.
pub fn nothing_else_is_in_reach()
    ensures { NothingElseIsInReach }
{}

/// A trace that begins with no grant begins with an `fd_create2` or a `proc_fork` of the history, which has made an end of channels or a
/// process: no other call makes an open that is of nothing in the launch.
pub fn traces_begin_with_makers()
    ensures { TracesBeginSo }
{}

/// What a call touches of the file tree it makes, or it is behind a descriptor of which the call needs a right by which trees are changed,
/// or the call leaves the tree as it is.
/// A name that is there after a call and wasn't before it is of a node that the call touches, or whose name it moves.
pub fn tree_is_written_by_right()
    ensures touched { TreeIsWrittenByRight }
    ensures names { NamesAreTouched }
{}

/// A file or directory to which no grant leads that has a right by which trees are changed, or passes one on, is after each legal history as
/// the launch had it: its bytes, its names, its times, its paths, and its records in the report's document of the file tree.
pub fn legal_leaves_unwritten()
    ensures { LegalLeavesUnwritten }
{}

/// Two launches that differ in nothing to which a grant leads, and whose file trees have as many nodes, have the same histories, with the
/// same processes, outputs and ends; only of what no grant leads to their file trees differ.
pub fn launches_run_alike()
    ensures { LaunchesRunAlike }
{}
