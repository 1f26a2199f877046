//! What calls on threads, on clocks and for random bytes do. The statements are in `specs/ThreadLaws.antt`, and each holds of every state
//! and process.
ghost use Rattle.kernel_model.specs.ThreadLaws.{ClocksShow, ExitEndsOne, ExitLetsGo, LocksAreLetGo, RandomHangsOnPlace, RandomIsDrawn, RandomIsGiven, ThreadIsMade, ThreadsAreFew};

/// A process with fewer than 64 live threads may make one more. That runs, and its number comes after all that the process has numbered;
/// nothing else is changed.
pub fn threads_are_numbered()
    ensures few { ThreadsAreFew }
    ensures made { ThreadIsMade }
{}

/// A thread that ends lets go of a lock first: of none that nobody has or another thread has to write. One that may not goes on. Else it
/// ends alone, and with the last thread its process does, as by a `proc_exit` of 0.
pub fn threads_end_alone()
    ensures words { LocksAreLetGo }
    ensures lock { ExitLetsGo }
    ensures one { ExitEndsOne }
{}

/// `thread_yield` changes nothing. Each clock has a resolution of 1000 nanoseconds and shows the time at the call's moment.
pub fn clocks_show_time()
    ensures { ClocksShow }
{}

/// Random bytes are those of a process's stream from the place on that it has come to, which they move on by as many words as they have.
/// They hang on the run's key, the process and the place alone.
pub fn random_bytes_are_drawn()
    ensures drawn { RandomIsDrawn }
    ensures given { RandomIsGiven }
    ensures same { RandomHangsOnPlace }
{}
