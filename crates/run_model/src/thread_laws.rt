//! Laws of threads, random bytes and clocks in legal histories. The statements are in `specs/ThreadLaws.antt`.
ghost use Rattle.run_model.specs.ThreadLaws.{CanaryIsApart, ClocksGoOn, DrawIsOwn, DrawsAreApart, EndedThreadIsGone, GoneStaysGone, NewThreadBegins, NumbersSuffice, OthersKeepThreads, ProgramBegins, ThreadNumbersGoUp};

/// A thread that is made was not there before, and begins with the registers that its maker asked for. One that has ended is there no
/// more. Numbers of threads are never used again. An entry of another process makes and ends no thread of a process, unless it kills it.
pub fn threads_come_and_go()
    ensures begins { NewThreadBegins }
    ensures ends { EndedThreadIsGone }
    ensures up { ThreadNumbersGoUp }
    ensures gone { GoneStaysGone }
    ensures others { OthersKeepThreads }
{}

/// A process in which another program begins has the one thread that asked for it, if it lives on, and the program's memory and registers.
pub fn programs_begin()
    ensures { ProgramBegins }
{}

/// Random bytes are those of the process's own stream, by the key of the run. Two draws of a process have no word in common, nor has a
/// draw one with the canary.
pub fn draws_are_apart()
    ensures own { DrawIsOwn }
    ensures apart { DrawsAreApart }
    ensures canary { CanaryIsApart }
{}

/// No process of a launch that can be started runs out of numbers for its threads, or of random words.
pub fn numbers_suffice()
    ensures { NumbersSuffice }
{}

/// The time of a clock that `clock_time_get` answers is later than that of each such call before it.
pub fn clocks_go_on()
    ensures { ClocksGoOn }
{}
