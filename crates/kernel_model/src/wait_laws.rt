//! Laws of threads that wait, of their wakes and of idle jumps. The statements are in `specs/WaitLaws.antt`, and each holds of
//! every state, process and call.
ghost use Rattle.kernel_model.specs.WaitLaws.{ParkingIsAllowed, ParkingKeeps, ReadyStays, DueIsReady, ReadyDecided, ReadyHasWake, WakeEndsWait, LockWakeHasMemory};
ghost use Rattle.kernel_model.specs.WaitLaws.{ResumedRuns, ResumedSeesSame, WakeKeepsThreads, WakeMovesNone, WakeMovesOnly, WakeErrorKeeps, WakeOthersStay, WakeKeepsValid, IdleKeepsValid, DeadlinesAreKept};
ghost use Rattle.kernel_model.specs.WaitLaws.{LeastIsLeast, LeastIsSoon, IdleJumps, JumpReadies};

/// A thread waits only in a call in which it may, that is not refused and of which no path leads outside. A call in which its
/// thread waits changes only the clock of a valid state, and that the thread waits in it; and where that waits at a condition variable, how
/// others wait for the lock.
pub fn parking_changes_thread()
    ensures allowed { ParkingIsAllowed }
    ensures keeps { ParkingKeeps }
{}

/// A thread that waits is ready where its call would be done now, or it was given its lock or was signalled. It is ready at each later moment
/// too, and once its deadline has come. Whether it is hangs on what its call sees alone.
pub fn ready_stays_ready()
    ensures stays { ReadyStays }
    ensures due { DueIsReady }
    ensures decided { ReadyDecided }
{}

/// A thread that is ready has a wake, and a wake ends its wait: the call has a reply, done in the state in which the thread runs. Or the thread
/// has left its condition variable, and waits for the lock. A thread that waited for a lock or at a condition variable is never told that
/// memory ran out.
pub fn wakes_end_waits()
    ensures there { ReadyHasWake }
    ensures ends { WakeEndsWait }
    ensures memory { LockWakeHasMemory }
{}

/// A wake is a step of the call from the state in which its thread runs, which differs from the state before in nothing else. It
/// takes 1000 nanoseconds and changes nothing of other processes, unless the release after it kills them. Its thread runs, or it has left its
/// condition variable and waits for the lock, and each other thread of a process that lives on is what it was: no wake of a valid state makes
/// or ends a thread, or gives it a lock or signals it. One that answers an error changes only the clock, and that the thread runs. Each part
/// that the call does not touch and that the release does not end stays.
pub fn wakes_move_only()
    ensures resumed { ResumedRuns }
    ensures sees { ResumedSeesSame }
    ensures moves { WakeMovesOnly }
    ensures keeps { WakeKeepsThreads }
    ensures none { WakeMovesNone }
    ensures error { WakeErrorKeeps }
    ensures others { WakeOthersStay }
{}

/// An idle jump never goes back, and no further than to the least deadline of all threads where that is later than what each entry
/// takes; no deadline that counts is later than 2^62. After it some thread is ready.
pub fn jumps_reach_deadlines()
    ensures least { LeastIsLeast }
    ensures soon { LeastIsSoon }
    ensures jumps { IdleJumps }
    ensures readies { JumpReadies }
{}

/// A wake and an idle jump leave a valid state valid, and each entry leaves each thread that waits its call's deadline.
pub fn waits_stay_valid()
    ensures wake { WakeKeepsValid }
    ensures idle { IdleKeepsValid }
    ensures deadlines { DeadlinesAreKept }
{}
