//! What guests begin with, and when acts are due. The statements are in `specs/GuestLaws.antt`.
ghost use Rattle.guest_laws.specs.GuestLaws.{ActsAreDue, ChildIsCopied, ForksSplit, ProgramIsFresh, ProgramsStartFresh};

/// A child has its parent's memory, the thread that forked alone, and a sixteenth of the turns; the parent keeps its memory and the other
/// turns. A program that begins has the memory of a start with its own image, its argument data and its canary, and one thread, at its
/// entry; nothing of the program before it is left but the turns. So it is at each entry that makes a process, or by which a program begins.
pub fn guests_begin()
    ensures child { ChildIsCopied }
    ensures program { ProgramIsFresh }
    ensures forks { ForksSplit }
    ensures programs { ProgramsStartFresh }
{}

/// Turns are of threads that run, and there are no more of them than the process has. None asks for anything but the last one of a call or a
/// trap, which is of the entry's thread and ends so. A process expires where a thread of it runs and no turn is left. A thread wakes where it
/// is ready. An idle jump is of no process, takes no turns, and comes only where each thread waits and none is ready.
pub fn acts_are_due()
    ensures { ActsAreDue }
{}
