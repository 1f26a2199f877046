//! Laws of which threads are ready. The statements are in `specs/SpotLaws.antt`, `specs/LocalityLaws.antt`, `specs/ChangeLaws.antt`,
//! `specs/MarkLaws.antt`, `specs/OtherLaws.antt`, `specs/PlaceLaws.antt`, `specs/CountLaws.antt` and `specs/WatchLaws.antt`.
ghost use Rattle.readiness_laws.specs.ChangeLaws.{ChangesFollow, EndsAreLocal, JumpsAreLocal, ReleaseIsLocal, StepsAreLocal, ThreadsAreLocal, ThreadsAreTold, TimeIsLocal, UpdatesAreLocal, WakesAreLocal};
ghost use Rattle.readiness_laws.specs.CountLaws.{RunnersAreCounted};
ghost use Rattle.readiness_laws.specs.LocalityLaws.{PlacesStay, ReadinessIsLocal};
ghost use Rattle.readiness_laws.specs.MarkLaws.{DueStaysReady, EntriesGoOver, MarksGoOn, MarksTell, OthersAreAsReady, QueuesCover};
ghost use Rattle.readiness_laws.specs.OtherLaws.{OthersLookElsewhere};
ghost use Rattle.readiness_laws.specs.PlaceLaws.{BeginsUnready, PlacesAreKept, ToldAreReady};
ghost use Rattle.readiness_laws.specs.SpotLaws.{SpotsAreFew};
ghost use Rattle.readiness_laws.specs.WatchLaws.{EntriesTell, RunnersAreTold};

/// A thread that waits for bytes stands at the one channel that they come by, one that waits for room at the one that it sends by, and one that waits for
/// the end of a process at that; each at its process's descriptors and at the open, and unless it polls at the open's flags. One that waits for
/// a lock or at a condition variable stands at none of these. Each stands at itself and at the moment until which it waits.
pub fn spots_are_few()
    ensures { SpotsAreFew }
{}

/// Whether a thread is ready hangs on its spots alone: where these are the same in two states it is as ready in one as in the other. And where
/// a change leaves the places it stands at the same spots: nothing moves it but what it does itself, its process's descriptors, and what the
/// opens are of.
pub fn readiness_is_local()
    ensures ready { ReadinessIsLocal }
    ensures places { PlacesStay }
{}

/// Each change has spots, and leaves all others as they are: a table, an open, a channel or a status that is set is one spot, and what a process
/// has of its own its threads; the release changes the opens that end, the channels that lose a side or are over, and the processes that are
/// killed; time that goes on changes the moments that come. Changes one after another change the spots of both, and what they make of
/// threads may be told one by one.
pub fn changes_are_local()
    ensures follow { ChangesFollow }
    ensures told { ThreadsAreTold }
    ensures time { TimeIsLocal }
    ensures threads { ThreadsAreLocal }
    ensures updates { UpdatesAreLocal }
    ensures release { ReleaseIsLocal }
{}

/// So each entry of a history has: a step, a wake, the end of a process from outside, and an idle jump.
pub fn entries_are_local()
    ensures steps { StepsAreLocal }
    ensures wakes { WakesAreLocal }
    ensures ends { EndsAreLocal }
    ensures jumps { JumpsAreLocal }
{}

/// A thread that stands at none of the spots which a change of a valid state has is as ready after it as before, and stands where it stood. What opens
/// are of doesn't count, since none changes that its process names. So marks of who is ready stay exact but for those threads that stand at a
/// changed spot in the state before, or in queues that cover these; and where all who wait have an exact mark nobody is ready without. One
/// whose moment has come is ready, and stays so however time goes on.
pub fn others_stay_ready()
    ensures entries { EntriesGoOver }
    ensures others { OthersAreAsReady }
    ensures marks { MarksGoOn }
    ensures queues { QueuesCover }
    ensures tell { MarksTell }
    ensures due { DueStaysReady }
{}

/// Of what a process has of its own a step, a wake and the end of another process from outside leave each other thread what it is, unless locks are
/// given, threads signalled or ended. So a thread whose process lives on, and that waits for nothing which the entry sets, ends or brings
/// about by its time, is as ready after it as before, be it of the caller's process or of another.
pub fn others_look_elsewhere()
    ensures { OthersLookElsewhere }
{}

/// A step, a wake and the end of a process from outside leave each thread where it stood that does what it did, where the numbers on which it waits
/// name what they named. One that begins to wait does so until its call's deadline, and isn't ready then, unless it waits for a lock or at
/// a condition variable. One that is given its lock or signalled is ready, and stands where it stood.
pub fn places_are_kept()
    ensures kept { PlacesAreKept }
    ensures begins { BeginsUnready }
    ensures told { ToldAreReady }
{}

/// Each thread waits exactly where the count of those that run is 0. It goes with each thread that begins to run or to wait, and with what a process
/// has of its own.
pub fn runners_are_counted()
    ensures { RunnersAreCounted }
{}

/// The entries of threads, each with the spots at which its thread stands and a mark, go with a state where each thread has one, stands where its
/// call looks, and is marked by whether it is ready, unless it is left to be tested. They go with the next state after each change that leaves to be
/// tested whomever it concerns, after something has ended, and as some of those that are left are tested. The next entry of one that waits and is ready
/// is that of the next ready thread; and where none stands everywhere the first moment at which somebody stands is the least deadline.
pub fn entries_tell_who_is_ready()
    ensures { EntriesTell }
{}

/// Each thread's entry tells whether it runs, and there is an entry exactly where there is a thread. So each thread waits exactly where no entry is of one
/// that runs; and with no ready thread, and the least deadline, that tells where time may jump, and where nothing happens any more.
pub fn entries_tell_who_runs()
    ensures { RunnersAreTold }
{}
