//! Laws of legal histories. The statements are in `specs/Laws.antt`, and each holds of every launch and history.
ghost use Rattle.run_model.specs.Laws.{LegalBegins, LegalGoesOn, EachEntryFits, EntryIsOne, LegalIsConfined, WorldIsValid, WorldHasDeadlines, WaitsAreEncoded, WaitsWereCalled, EntryTakesTime, ClockCounts, ClockIsExact, TurnsAreBounded, EntryTakes, EncodedIsPlain, EncodedIsNotBadf};
ghost use Rattle.run_model.specs.Laws.{HistoryIsShort, EndedIsFinal, StalledIsFinal, EndedOrStalled, EndsOrGoesOn, RunsToItsEnd};
ghost use Rattle.run_model.specs.OwnLaws.{EntryLeavesOthers, BornHasParents, BornIsNew, ChildDidNothing, ChildHasThread, OthersStay, MadeLater, UnmadeDoesNothing, LeftAlone, AsksStay, LegalHasRegisters, MomentIsEarly, LengthIsBounded};

/// The empty history is legal, an entry that fits the world of a legal history may follow it, and no other history is
/// legal: what stands before each entry of a legal history is legal, and the entry fits its world.
pub fn legal_goes_on()
    ensures begins { LegalBegins }
    ensures more { LegalGoesOn }
    ensures each { EachEntryFits }
{}

/// Of two entries that may follow, of the same thread after the same turns, neither answered for lack of memory, both are
/// the same: the same moment, and the same call with the same answer, the same trap, or the end of the turns.
pub fn entry_is_one()
    ensures { EntryIsOne }
{}

/// No call that memory and registers encode answers `Errno::Nomem` or `Errno::Notcapable` of its own, and none has `Errno::Badf`
/// before the kernel looks at it.
pub fn encoded_calls_are_plain()
    ensures plain { EncodedIsPlain }
    ensures badf { EncodedIsNotBadf }
{}

/// A legal history of a launch with proper grants is confined (`specs/Confined.antt`).
pub fn legal_is_confined()
    ensures { LegalIsConfined }
{}

/// The kernel's state of each legal history is valid, if the launch's grants are proper. In it each thread that waits does until
/// its call's deadline.
pub fn world_is_valid()
    ensures valid { WorldIsValid }
    ensures deadlines { WorldHasDeadlines }
{}

/// Each call that a thread waits in, in the world of a legal history, was made by an entry of it, at the moment since which the
/// thread waits, and was the one that memory and registers encoded. The thread has these registers still. The word of the call's lock
/// may be another one: that which it had as the thread left its condition variable.
pub fn waits_were_called()
    ensures called { WaitsWereCalled }
    ensures encoded { WaitsAreEncoded }
{}

/// An entry takes 1000 nanoseconds, and an idle jump at least as long; one that takes longer leads to a moment of at most 2^62.
/// So the clock of a legal history is at 1000 nanoseconds for each entry at least, and at no more than that and 2^62, and at
/// exactly that where no entry is an idle jump.
pub fn clock_counts()
    ensures each { EntryTakesTime }
    ensures bounds { ClockCounts }
    ensures exact { ClockIsExact }
{}

/// An entry makes a process that did not do it, or ends it, or leaves it as it was. A process that it makes was not made before, and has the
/// memory of the one that did the entry, the registers of the thread that forked, and a sixteenth of the turns. It is live, and
/// has one thread, which runs.
pub fn entry_leaves_others()
    ensures left { EntryLeavesOthers }
    ensures born { BornIsNew }
    ensures parents { BornHasParents }
    ensures thread { ChildHasThread }
{}

/// An entry leaves a process that did not do it, that was made before it and that is live after it as it was: its memory,
/// registers and turns, its descriptors, its threads and what else is its own, and its status.
pub fn others_stay()
    ensures { OthersStay }
{}

/// A process that was made, whether it lives or has ended, stays so as a legal history goes on.
pub fn made_later()
    ensures { MadeLater }
{}

/// A process that was not made in a legal history did none of its entries, nor did one that the last entry makes.
pub fn made_before()
    ensures none { UnmadeDoesNothing }
    ensures child { ChildDidNothing }
{}

/// What a process has after the beginning of a legal history it has at its end, if it did no entry in between and is live
/// at the end.
pub fn left_alone()
    ensures { LeftAlone }
{}

/// What a process asks for by an act it asks for in each world in which it has the same memory, registers, turns and threads.
pub fn asks_stay()
    ensures { AsksStay }
{}

/// In the world of each legal history each thread of a live process has registers.
pub fn legal_has_registers()
    ensures { LegalHasRegisters }
{}

/// A legal history of a launch that can be started has fewer than 2^63 entries, and its clock is below 2^63.
pub fn moment_is_early()
    ensures early { MomentIsEarly }
    ensures short { LengthIsBounded }
{}

/// The entries of a legal history took no more turns than the launch has.
/// Each entry takes from what is left to do, which is counted in entries: for the turns that processes have left, for those
/// that live and for the threads that wait. The entries of a legal history and what is left after them are together at most six
/// times the launch's turns and two more.
pub fn history_is_short()
    ensures turns { TurnsAreBounded }
    ensures takes { EntryTakes }
    ensures short { HistoryIsShort }
{}

/// No entry may follow where the run is ended or stalled, and it isn't both.
pub fn ended_is_final()
    ensures ended { EndedIsFinal }
    ensures stalled { StalledIsFinal }
    ensures apart { EndedOrStalled }
{}

/// A run that is neither ended nor stalled may go on, and each launch has a run that ends or stalls.
pub fn runs_to_its_end()
    ensures goes_on { EndsOrGoesOn }
    ensures ends { RunsToItsEnd }
{}
