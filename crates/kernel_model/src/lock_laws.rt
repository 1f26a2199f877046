//! What locks and condition variables do. The statements are in `specs/LockLaws.antt` and `specs/LockCallLaws.antt`.
ghost use Rattle.kernel_model.specs.LockCallLaws.{ConditionIsAsked, ConditionIsSignalled, ConditionWaitEnds, LockComesBack, LockIsAsked, LockIsLetGo, LockWaitEnds};
ghost use Rattle.kernel_model.specs.LockLaws.{InTurn, SignalsInTurn, WordTellsOwner};

/// A lock is handed to the thread that has waited longest: to write alone, or to read with all that wait to read and stand before any
/// that waits to write. Its word says who has it then, and whether others wait.
pub fn locks_are_handed_on()
    ensures turn { InTurn }
    ensures word { WordTellsOwner }
{}

/// Of the threads that wait at a condition variable those are signalled that have waited longest, as many as are to be, or all. That is what
/// `condvar_signal` does.
pub fn signals_come_in_turn()
    ensures turn { SignalsInTurn }
    ensures does { ConditionIsSignalled }
{}

/// A thread that asks for a lock gets it, or waits for it: behind those that wait already, whatever they wait for it to do. One that has
/// it to write is refused. One that waits has the lock once it was given it, and else is told that its time has come.
pub fn locks_are_asked()
    ensures asks { LockIsAsked }
    ensures ends { LockWaitEnds }
{}

/// A lock is let go by a thread that has it, and nobody else: to one reader less, or it is handed on. Where none waits its word is then 0.
pub fn locks_are_let_go()
    ensures goes { LockIsLetGo }
    ensures back { LockComesBack }
{}

/// A thread that has a lock to write hands it on as it begins to wait at a condition variable. Once it was signalled, or its time has come,
/// it takes the lock again or waits for it, and is told which of both came first.
pub fn conditions_are_awaited()
    ensures asks { ConditionIsAsked }
    ensures ends { ConditionWaitEnds }
{}
